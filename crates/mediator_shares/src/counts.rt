//! How many of the records that were judged count in aggregates.
ghost use Rattle.std.specs.Prelude.{◌≡◌, ◌↔◌, ◌<◌, ℕ, List, map, IsTrue};
ghost use Rattle.std.specs.Arc.{arc_value};
ghost use Rattle.ipfix_template.specs.DataRecord.{DataRecord};
ghost use Rattle.mediator_tables.specs.declared.served.Served.{Served};
ghost use Rattle.mediator_tables.specs.Adding.{tallied};
ghost use Rattle.mediator_shares.specs.InForce.{InForce};
ghost use Rattle.mediator_shares.specs.Judgements.{IsJudgementOf};
ghost use Rattle.mediator_shares.specs.Terms.{terms_of};
ghost use Rattle.mediator_shares.specs.Totals.{total_of, counts_in_all, MayCountMoreThan};

use crate::judgement::Judgement;
use mediator_tables::Tally;

impl Judgement {
    /// Whether more than `most` records count in aggregates, by the terms of the judgement, where a record counts once
    /// for each subscription in one of whose aggregates it is placed. It looks at one number for each subscription.
    pub fn counts_more_than(&self, most: u64) -> bool
        ensures exact { (domain : ℕ) (f : InForce) (records : List DataRecord)
            (served : List Served) (notes : ℕ) → IsJudgementOf domain records self.now
            → arc_value self.now.terms ≡ terms_of f served notes
            → IsTrue result ↔ (most < counts_in_all domain f records served) }
        ensures some { (domain : ℕ) (records : List DataRecord)
            → IsJudgementOf domain records self.now → IsTrue result
            → MayCountMoreThan most domain records }
    {
        add_more_than(&self.shares.tallies, most)
    }
}

/// Whether `tallies` have more than `most` records together.
fn add_more_than(tallies: &[Tally], most: u64) -> bool
    ensures { IsTrue result ↔ (most < total_of (map tallied tallies.now)) }
{
    let mut left = most;
    'tallies: for tally in tallies {
        let count = tally.counts.len() as u64;
        if count > left {
            return true;
        }
        left -= count;
    }
    false
}
