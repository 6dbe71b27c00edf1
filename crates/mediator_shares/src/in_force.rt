//! What decides over the records of a message: the policy in force and the clock.
ghost use Rattle.std.specs.Prelude.{◌≡◌, ◌↔◌, ◌++◌, ◌∷◌, IsTrue, None, map, IfOk, IfSome};
ghost use Rattle.std.specs.Prelude.{List};
ghost use Rattle.std.specs.List.{All};
ghost use Rattle.policy_text.specs.declared.rule.Rule.{Rule};
ghost use Rattle.mediator_shares.specs.Judges.{AreJudgesReady};
ghost use Rattle.policy_text.specs.Policies.{nothing};

use crate::judges::{Judges, place_for};
use crate::revision::Revision;
use flow_aggregate::{Count, Timing, judge_time};
use ipfix_records::Run;
use ipfix_template::Record;
use mediator_tables::Served;
use policy_text::Policy;
use std::alloc::{AllocError, Global};
use std::marker::Model;
use std::sync::Arc;

/// The policy in force, and the time to which the clock was advanced; with what was worked out for the last messages,
/// which serves later ones and shows in no answer. Contracts see the policy and the time.
pub struct InForce {
    revision: Arc<Revision>,
    clock: u64,
    /// What judged the last messages, for those to come.
    judges: Vec<Judges>,
}

impl Drop for InForce {
    // Written out: a derived one is proved anew in each crate that drops such a value.
    fn drop(self) {
        let InForce {
            revision: _,
            clock: _,
            judges: _,
        } = self;
    }
}

/// The most observation domains and templates for which it is kept what judged their last messages.
const MOST_KEPT: usize = 64;

/// The most subscriptions, over all of these together, since each has plans of its own. For one domain it is kept in
/// any case.
const MOST_PLANS: usize = 8192;

impl Model for InForce {
    ghost use Rattle.std.specs.List.{All};
    ghost use Rattle.std.specs.Arc.{arc_value};
    ghost use Rattle.mediator_shares.specs.InForce.{InForce, in_force_with};
    ghost use Rattle.mediator_shares.specs.Judges.{AreJudgesReady};

    ghost Value = { InForce };

    ghost view = { λ f. in_force_with (arc_value f.revision) f.clock };

    ghost invariant = { λ f. All (AreJudgesReady (arc_value f.revision).rules) f.judges.items };
}

impl InForce {
    ghost use Rattle.mediator_shares.specs.InForce.{in_force_with, timing_by, count_by, as_list};
    ghost use Rattle.mediator_shares.specs.Alike.{is_told_apart};
    ghost use Rattle.mediator_shares.specs.Judges.{JudgeFor, JudgesAny};
    ghost use Rattle.mediator_shares.specs.Sharing.{blank};

    /// What is in force before the first edit and the first advance of the clock: a policy without rules, and the time
    /// 0. It is in memory from `alloc`.
    ///
    /// # Errors
    /// Want of memory.
    pub fn nothing(alloc: Global) -> Result<InForce, AllocError>
        ensures { IfOk result (λ f. f ≡ in_force_with nothing 0) }
    {
        match Policy::parse(alloc, "policy 1") {
            Ok(policy) => InForce::since(alloc, policy, 0),
            Err(_) => Err(AllocError),
        }
    }

    /// The policy `policy` in force, with the clock at the time `clock`, in milliseconds since 1970. What is worked out
    /// of the policy is in memory from `alloc`.
    ///
    /// # Errors
    /// Want of memory.
    pub fn since(alloc: Global, policy: Policy, clock: u64) -> Result<InForce, AllocError>
        ensures { IfOk result (λ f. f ≡ in_force_with policy clock) }
    {
        let revision = Revision::of(alloc, policy)?;
        Ok(InForce {
            revision: Arc::new(alloc, revision)?,
            clock,
            judges: Vec::new(alloc),
        })
    }

    /// The policy and the time for another thread, with nothing worked out yet. The policy is shared, and not copied;
    /// what comes to be worked out is in memory from `alloc`.
    ///
    /// # Errors
    /// Want of memory.
    pub(crate) fn share(&self, alloc: Global) -> Result<InForce, AllocError>
        ensures { IfOk result (λ f. f ≡ self.now) }
    {
        Ok(InForce {
            revision: self.revision.clone()?,
            clock: self.clock,
            judges: Vec::new(alloc),
        })
    }

    /// Whether the policy is that of `other`, whatever the times.
    pub(crate) fn has_policy_of(&self, other: &InForce) -> bool
        ensures { IsTrue result ↔ self.now.policy ≡ other.now.policy }
    {
        self.revision.is_same(&other.revision)
    }

    /// Whether a rule of the policy names the subscriber `name`.
    pub(crate) fn names(&self, name: &str) -> bool
        ensures { result ≡ is_told_apart name.now self.now.policy.rules }
    {
        self.revision.names(name)
    }

    /// What decides over the records of a message of the Observation Domain `domain` for each of the subscriptions
    /// `served`, which were given nothing yet. Where some are kept that decided for this domain and these
    /// subscriptions, and whose last records had the template with which `runs`, the records of the message, begin, it
    /// is these; else new ones, in memory from `alloc`.
    ///
    /// # Errors
    /// Want of memory.
    pub(crate) fn judges(
        &mut self,
        alloc: Global,
        domain: u32,
        runs: &[Run],
        served: &[Served<'_>],
    ) -> Result<Judges, AllocError>
        ensures judges { IfOk result (λ judges. JudgesAny judges self.old domain served.now) }
        ensures shares { IfOk result (λ judges. judges.shares ≡ map blank served.now) }
        ensures unchanged { self.new ≡ self.old }
    {
        match self.judges_again(domain, runs, served) {
            Some(judges) => Ok(judges),
            None => self.judges_anew(alloc, domain, served),
        }
    }

    /// Takes out what is kept and decided for the domain `domain` and the subscriptions `served`, last over records of
    /// the template with which `runs` begin; or answers `None`.
    fn judges_again(&mut self, domain: u32, runs: &[Run], served: &[Served<'_>]) -> Option<Judges>
        ensures judges { IfSome result (λ judges. JudgesAny judges self.old domain served.now) }
        ensures shares { IfSome result (λ judges. judges.shares ≡ map blank served.now) }
        ensures unchanged { self.new ≡ self.old }
    {
        let place = place_for(&self.judges, domain, runs, served)?;
        Some(self.judges.remove(place))
    }

    /// Keeps `judges`, which decided over a message, for those to come, where there is memory for them.
    pub(crate) fn keep(&mut self, judges: Judges)
        requires { AreJudgesReady self.old.policy.rules judges }
        ensures { self.new ≡ self.old }
    {
        make_room(&mut self.judges, judges.len());
        if self.judges.reserve(1).is_ok() {
            self.judges.push_reserved(judges);
        }
    }

    /// What decides over records of the domain `domain` for the subscriptions `served`, made anew in memory from
    /// `alloc`.
    ///
    /// # Errors
    /// Want of memory.
    fn judges_anew(
        &self,
        alloc: Global,
        domain: u32,
        served: &[Served<'_>],
    ) -> Result<Judges, AllocError>
        ensures judges { IfOk result (λ judges. JudgeFor judges self.now domain None served.now) }
        ensures shares { IfOk result (λ judges. judges.shares ≡ map blank served.now) }
    {
        let (table, classes) = self.revision.table()?;
        let mut judges = Judges::new(alloc, table, classes, domain);
        'served: for who in served {
            judges.add(alloc, who.sub, who.name)?;
        }
        Ok(judges)
    }

    /// The time to which the clock was advanced, in milliseconds since 1970; 0 before the first advance.
    pub fn clock(&self) -> u64
        ensures { result ≡ self.now.clock }
    {
        self.clock
    }

    /// Moves the clock to the time `t`, in milliseconds since 1970. The policy stays.
    pub fn advance(&mut self, t: u64)
        ensures { self.new ≡ in_force_with self.old.policy t }
    {
        self.clock = t;
    }

    /// Where `flow_record` counts in the aggregate at `place` of the policy's list, counted from 0; or why it doesn't.
    /// Where there is no such aggregate, it has no time.
    pub(crate) fn timing(&self, place: usize, flow_record: &Record) -> Timing
        ensures { result ≡ timing_by self.now place flow_record.now }
    {
        match self.revision.aggregate(place) {
            Some(definition) => judge_time(definition, flow_record, self.clock),
            None => Timing::NoTime,
        }
    }

    /// What `flow_record` adds to the aggregate at `place` of the policy's list, in memory from `alloc`; or `None`
    /// where it doesn't count there.
    ///
    /// # Errors
    /// Want of memory.
    pub(crate) fn count(
        &self,
        alloc: Global,
        place: usize,
        flow_record: &Record,
    ) -> Result<Option<Count>, AllocError>
        ensures { IfOk result (λ count. as_list count ≡ count_by self.now place flow_record.now) }
    {
        let Timing::Placed { .. } = self.timing(place, flow_record) else {
            return Ok(None);
        };
        match self.revision.definition(place) {
            Some(definition) => Ok(Some(Count::of(alloc, definition, flow_record)?)),
            None => Ok(None),
        }
    }
}

/// Drops all of `kept` where it is as much as may be kept, if each of them judges for as many as `subscriptions`.
fn make_room(kept: &mut Vec<Judges>, subscriptions: usize)
    ensures { (rules : List Rule) → All (AreJudgesReady rules) kept.old.items
        → All (AreJudgesReady rules) kept.new.items }
{
    if kept.len() >= MOST_KEPT || kept.len().saturating_mul(subscriptions) >= MOST_PLANS {
        kept.clear();
    }
}
