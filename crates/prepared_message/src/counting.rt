//! Whether more than `MOST_COUNTS` records of a message count in aggregates, so that it is refused.
ghost use Rattle.std.specs.Prelude.{ℕ, List, IsTrue};
ghost use Rattle.ipfix_session.specs.Meaning.{domain_of};
ghost use Rattle.mediator_shares.specs.Totals.{MayCountMoreThan};
ghost use Rattle.prepared_message.specs.Holding.{CountsTooMany, IsAheadOf};
ghost use Rattle.prepared_message.specs.declared.counting.TheConstants.{MOST_COUNTS};

use crate::ahead::JudgedAhead;
use crate::prepared::Prepared;

/// The most records of a message from a stranger that may count in aggregates: 131,072. A record that counts for
/// several subscriptions counts once for each of them, since each has groups of its own, which are made while the
/// mediator does nothing else.
pub const MOST_COUNTS: u64 = 131_072;

impl Prepared {
    /// Whether more than [`MOST_COUNTS`] records count in aggregates, by what was judged on the snapshot's terms. It is
    /// false where nothing was judged, and after [`take_judgement`](Prepared::take_judgement). It looks at one number
    /// for each subscription.
    pub fn counts_too_many(&self) -> bool
        ensures { IsTrue result
            → MayCountMoreThan MOST_COUNTS (domain_of self.now.message) self.now.contents.records }
    {
        match &self.judgement {
            Some(judgement) => judgement.counts_more_than(MOST_COUNTS),
            None => false,
        }
    }
}

impl JudgedAhead {
    /// Whether more than [`MOST_COUNTS`] records count in aggregates, by the snapshot's terms. It looks at one number
    /// for each subscription.
    pub fn counts_too_many(&self) -> bool
        ensures { (message : List ℕ) → IsAheadOf message self.now → IsTrue result
            → CountsTooMany message }
    {
        self.judgement.counts_more_than(MOST_COUNTS)
    }
}
