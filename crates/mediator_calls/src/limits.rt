//! How much a mediator may hold, with the range of each limit.
ghost use Rattle.std.specs.Prelude.{◌↔◌, IsTrue};
ghost use Rattle.mediator_calls.specs.Limited.{AreAllowed};

use event_journal::{MOST_ENTRIES, MOST_OCTETS};
use subscriber_stream::{MOST_QUEUE, MOST_SHAPES};

/// How much a mediator may hold. Each limit is at least 1.
#[derive(Clone, Copy, Debug, PartialEq, Eq)]
pub struct Limits {
    /// The records that may wait for a subscription, at most 1,000,000.
    pub queue: u32,
    /// The distinct templates of a subscription's records, at most 65,280.
    pub shapes: u32,
    /// The audit entries that may wait, at most 10,000,000.
    pub audit: u32,
    /// The entries of the journal, at most 100,000,000.
    pub entries: u64,
    /// The octets that these entries take in a journal's file, at most 2^40.
    pub octets: u64,
}

impl Limits {
    /// Whether each limit is in its range.
    pub fn are_allowed(&self) -> bool
        ensures { IsTrue result ↔ AreAllowed self.now }
    {
        1 <= self.queue
            && self.queue <= MOST_QUEUE
            && 1 <= self.shapes
            && self.shapes <= MOST_SHAPES
            && 1 <= self.audit
            && self.audit <= disclosure_audit::MOST_ENTRIES
            && 1 <= self.entries
            && self.entries <= MOST_ENTRIES
            && 1 <= self.octets
            && self.octets <= MOST_OCTETS
    }
}
