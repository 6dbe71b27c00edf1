//! What was judged of a message's records elsewhere, with the terms by which it was.
ghost use Rattle.std.specs.Prelude.{◌≡◌, ◌↔◌, ℕ, List, IsSome, IfSome};
ghost use Rattle.std.specs.Arc.{arc_value};
ghost use Rattle.ipfix_template.specs.DataRecord.{DataRecord};
ghost use Rattle.mediator_shares.specs.Terms.{terms_of};
ghost use Rattle.mediator_shares.specs.Judgements.{AreSharesOf, IsJudgementOf};

use crate::in_force::InForce;
use crate::shares::Shares;
use crate::terms::Terms;
use mediator_tables::{Served, Share};
use std::sync::Arc;

/// The shares of a message's records, with the terms by which they were judged. Contracts say by `IsJudgementOf` of
/// which records they are.
#[derive(Drop)]
pub struct Judgement {
    pub(crate) terms: Arc<Terms>,
    pub(crate) shares: Shares,
}

impl Judgement {
    /// What the records give to each subscription that was served by the terms, in their order.
    pub fn shares(&self) -> &[Share]
        ensures { result.now ≡ self.now.shares.shares.items }
    {
        self.shares.shares.as_slice()
    }

    /// The shares, exactly where they were judged by what `in_force` says, for the subscriptions `served`, and with at
    /// most `most` notes kept; else `None`. Nothing is judged here.
    pub fn shares_by(self, in_force: &InForce, served: &[Served<'_>], most: u64) -> Option<Shares>
        ensures due { IsSome result ↔ arc_value self.terms ≡ terms_of in_force.now served.now most }
        ensures shares { (domain : ℕ) (records : List DataRecord)
            → IsJudgementOf domain records self
            → IfSome result (AreSharesOf domain records in_force.now served.now most) }
    {
        let Judgement { terms, shares } = self;
        if terms.are(in_force, served, most) {
            Some(shares)
        } else {
            None
        }
    }
}
