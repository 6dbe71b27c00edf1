//! What a thread judges records with, by terms that it is lent.
ghost use Rattle.std.specs.Prelude.{◌≡◌, ◌≤◌, ◌^◌, length, IfOk};
ghost use Rattle.std.specs.Arc.{arc_value};
ghost use Rattle.mediator_shares.specs.Judgements.{IsJudgementOf};

use crate::in_force::InForce;
use crate::judgement::Judgement;
use crate::shares::Shares;
use crate::terms::Terms;
use ipfix_records::Records;
use std::alloc::{AllocError, Global};
use std::sync::Arc;

/// What one thread works out while it judges messages, and keeps for those to come. Each thread has its own.
#[derive(Drop)]
pub struct Workspace {
    in_force: Option<InForce>,
}

impl Workspace {
    /// A workspace with nothing worked out yet. It takes no memory.
    pub const fn new() -> Workspace {
        Workspace { in_force: None }
    }

    /// Judges `records`, which are those of one message of the Observation Domain `domain`, at most 2^32, by `terms`.
    /// What is disclosed of the records is in memory from `alloc`.
    ///
    /// # Errors
    /// Want of memory.
    pub fn judge(
        &mut self,
        alloc: Global,
        terms: &Arc<Terms>,
        domain: u32,
        records: &Records,
    ) -> Result<Judgement, AllocError>
        requires few { length records.now ≤ 2 ^ 32 }
        ensures judgement { IfOk result (IsJudgementOf domain records.now) }
        ensures terms { IfOk result (λ j. arc_value j.terms ≡ arc_value terms.now) }
    {
        let mut in_force = self.take_for(alloc, terms)?;
        let served = terms.served(alloc)?;
        let most = terms.most();
        let shares = Shares::of_records(alloc, &mut in_force, domain, records, &served, most)?;
        self.in_force = Some(in_force);
        Ok(Judgement {
            terms: terms.clone()?,
            shares,
        })
    }

    /// What is in force by `terms`, with what was worked out before where the policy is still the same; else anew, in
    /// memory from `alloc`.
    ///
    /// # Errors
    /// Want of memory.
    fn take_for(&mut self, alloc: Global, terms: &Terms) -> Result<InForce, AllocError>
        ensures { IfOk result (λ f. f ≡ terms.now.in_force) }
    {
        match self.in_force.take() {
            Some(mut own) if own.has_policy_of(&terms.in_force) => {
                own.advance(terms.in_force.clock());
                Ok(own)
            }
            _ => terms.in_force.share(alloc),
        }
    }
}
