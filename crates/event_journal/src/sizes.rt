//! The sizes of a journal alone, for a run that is not to grow with what it accepts.
ghost use Rattle.std.specs.Prelude.{◌≡◌, ◌≤◌, ◌<◌, ◌+◌, ◌-◌, ◌↔◌, [], ◌∷◌, IsTrue, max};
ghost use Rattle.event_journal.specs.declared.limits.TheConstants.{MOST_ENTRIES, MOST_OCTETS};

use crate::entry::Entry;
use crate::room::{are_spelled, octets_fit};
use std::marker::Model;

/// How many entries a journal would hold, and how many octets they would take in its file. Its limits and sizes are
/// those of a [`Journal`](crate::Journal) that was given the same entries, and it keeps none of them. It takes no
/// memory.
#[derive(Debug, Drop)]
pub struct JournalSizes {
    entries: u64,
    octets: u64,
    most_entries: u64,
    most_octets: u64,
    spare: u64,
}

impl Model for JournalSizes {
    ghost use Rattle.event_journal.specs.Counted.{CountedEntries, IsWithin};

    ghost Value = { CountedEntries };

    ghost view = { λ t. record { count = t.entries; octets = t.octets; limits = record { entries = t.most_entries; octets = t.most_octets }; spare = t.spare } };

    ghost invariant = { λ t. IsWithin (record {
      count = t.entries;
      octets = t.octets;
      limits = record { entries = t.most_entries; octets = t.most_octets };
      spare = t.spare;
    }) };
}

impl JournalSizes {
    ghost use Rattle.event_journal.specs.Room.{HasRoom};
    ghost use Rattle.event_journal.specs.Counted.{AreLimits, with_one};

    /// The sizes of no entry, which may come to count `entries` entries, 1 to [`MOST_ENTRIES`](crate::MOST_ENTRIES), that
    /// take `octets` octets in a journal's file, 1 to [`MOST_OCTETS`](crate::MOST_OCTETS).
    pub fn new(entries: u64, octets: u64) -> JournalSizes
        requires some_entries { 1 ≤ entries }
        requires most_entries { entries ≤ MOST_ENTRIES }
        requires some_octets { 1 ≤ octets }
        requires most_octets { octets ≤ MOST_OCTETS }
        // It has counted no entry, and no room is reserved.
        ensures { result ≡ record {
          count = 0;
          octets = 0;
          limits = record { entries = entries; octets = octets };
          spare = 0;
        } }
    {
        JournalSizes {
            entries: 0,
            octets: 0,
            most_entries: entries,
            most_octets: octets,
            spare: 0,
        }
    }

    /// Whether the entries `more` have room behind those that were counted: both limits allow them, and a journal file
    /// can spell each of them, which it can unless it is a message of 2^32 octets or more.
    pub fn room(&self, more: &[Entry]) -> bool
        ensures { IsTrue result ↔ HasRoom self.now.limits self.now.count self.now.octets more.now }
    {
        more.len() as u64 <= self.most_entries - self.entries
            && octets_fit(more, self.most_octets - self.octets)
            && are_spelled(more)
    }

    /// Reserves room for `more` further entries, whatever the limits. That is a number alone, as a
    /// [`Journal`](crate::Journal) has it, so it can't fail.
    pub fn reserve(&mut self, more: u64)
        ensures { self.new ≡ record self.old { spare = max self.old.spare more } }
    {
        self.spare = self.spare.max(more);
    }

    /// Counts `entry` in the reserved room, of which there is then less by one, and drops it. The caller has seen to it
    /// that the limits allow the entry ([`room`](JournalSizes::room)) and that room is reserved ([`reserve`](JournalSizes::reserve)).
    pub fn push_reserved(&mut self, entry: Entry)
        requires room { HasRoom self.old.limits self.old.count self.old.octets (entry ∷ []) }
        requires reserved { 0 < self.old.spare }
        ensures { self.new ≡ with_one self.old entry }
    {
        self.count_reserved(&entry);
    }

    /// Counts `entry` in the reserved room, of which there is then less by one, for a journal that keeps the entry
    /// itself.
    pub(crate) fn count_reserved(&mut self, entry: &Entry)
        requires room { HasRoom self.old.limits self.old.count self.old.octets (entry.now ∷ []) }
        requires reserved { 0 < self.old.spare }
        ensures { self.new ≡ with_one self.old entry.now }
    {
        self.octets += entry.octets();
        self.entries += 1;
        self.spare -= 1;
    }

    /// The number of the entries that were counted, at most the limit.
    pub fn len(&self) -> u64
        ensures value { result ≡ self.now.count }
        ensures within { result ≤ self.now.limits.entries }
        ensures limits { AreLimits self.now.limits }
    {
        self.entries
    }

    /// Whether no entry was counted.
    pub fn is_empty(&self) -> bool
        ensures { IsTrue result ↔ (self.now.count ≡ 0) }
    {
        self.entries == 0
    }

    /// The octets that the counted entries take in a journal's file, added up: at most the limit.
    pub fn octets(&self) -> u64
        ensures value { result ≡ self.now.octets }
        ensures within { result ≤ self.now.limits.octets }
        ensures limits { AreLimits self.now.limits }
    {
        self.octets
    }
}
