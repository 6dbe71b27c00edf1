//! A journal: it keeps the entries themselves, within limits.
ghost use Rattle.std.specs.Prelude.{◌≡◌, ◌≤◌, ◌<◌, ◌+◌, ◌-◌, ◌↔◌, [], ◌∷◌, ◌++◌, length, All, IsTrue, IsOk, OnOk, OnErr, slice_get, vec_capacity};
ghost use Rattle.std.specs.Option.{option_copied};
ghost use Rattle.event_journal.specs.declared.limits.TheConstants.{MOST_ENTRIES, MOST_OCTETS};

use crate::edits::text_of_last;
use crate::entry::Entry;
use crate::sizes::JournalSizes;
use std::alloc::{AllocError, Global};
use std::marker::Model;

/// What a mediator accepted, oldest first. An entry's position is how many entries stand before it.
#[derive(Debug)]
pub struct Journal {
    entries: Vec<Entry>,
    /// The number of the entries, their octets, the limits and the reserved room.
    sizes: JournalSizes,
}

impl Drop for Journal {
    // Written out: a derived one is proved anew in each crate that drops such a value.
    fn drop(self) {
        let Journal {
            entries: _,
            sizes: _,
        } = self;
    }
}

impl Model for Journal {
    ghost use Rattle.std.specs.Prelude.{vec_capacity};
    ghost use Rattle.event_journal.specs.Kept.{KeptJournal};
    ghost use Rattle.event_journal.specs.Counted.{IsTallyOf};

    ghost Value = { KeptJournal };

    ghost view = { λ j. record { entries = j.entries.items; limits = j.sizes.limits; spare = j.sizes.spare } };

    ghost invariant = { λ j. IsTallyOf j.entries.items (vec_capacity j.entries) j.sizes };
}

impl Journal {
    ghost use Rattle.event_journal.specs.Sizes.{history_octets};
    ghost use Rattle.event_journal.specs.Room.{HasRoomAfter};
    ghost use Rattle.event_journal.specs.Counted.{AreLimits};
    ghost use Rattle.event_journal.specs.Kept.{with_entry};
    ghost use Rattle.event_journal.specs.Spelled.{IsSpelled};
    ghost use Rattle.event_journal.specs.LastEdit.{last_edit};

    /// A journal of no entry, which may come to hold `entries` entries, 1 to [`MOST_ENTRIES`](crate::MOST_ENTRIES),
    /// that take `octets` octets in a journal's file, 1 to [`MOST_OCTETS`](crate::MOST_OCTETS). It takes the memory for
    /// them from `alloc` later, in [`reserve`](Journal::reserve), and none now.
    pub fn new(alloc: Global, entries: u64, octets: u64) -> Journal
        requires some_entries { 1 ≤ entries }
        requires most_entries { entries ≤ MOST_ENTRIES }
        requires some_octets { 1 ≤ octets }
        requires most_octets { octets ≤ MOST_OCTETS }
        // It has no entry, and no room is reserved.
        ensures { result ≡ record {
          entries = [];
          limits = record { entries = entries; octets = octets };
          spare = 0;
        } }
    {
        Journal {
            entries: Vec::new(alloc),
            sizes: JournalSizes::new(entries, octets),
        }
    }

    /// Whether the entries `more` have room behind those that are there: both limits allow them, and a journal file can
    /// spell each of them, which it can unless it is a message of 2^32 octets or more. It takes no memory.
    pub fn room(&self, more: &[Entry]) -> bool
        ensures { IsTrue result ↔ HasRoomAfter self.now.limits self.now.entries more.now }
    {
        self.sizes.room(more)
    }

    /// Reserves memory for `more` further entries, whatever the limits. Room that is reserved already counts as part of
    /// these.
    ///
    /// # Errors
    /// Want of memory, and then nothing has changed. Where room for `more` entries is reserved already, there is no
    /// error.
    pub fn reserve(&mut self, more: u64) -> Result<(), AllocError>
        // Only the reserved room changes, and none of it is given back.
        ensures entries { self.new.entries ≡ self.old.entries }
        ensures limits { self.new.limits ≡ self.old.limits }
        ensures kept { self.old.spare ≤ self.new.spare }
        // Answered Ok, there is room for all of `more`; where memory is short, all is as it was.
        ensures ok { OnOk result (more ≤ self.new.spare) }
        ensures err { OnErr result (self.new ≡ self.old) }
        // Room that is reserved already takes no memory.
        ensures no_memory { more ≤ self.old.spare → IsOk result }
    {
        self.entries.reserve(more as usize)?;
        self.sizes.reserve(more);
        Ok(())
    }

    /// Puts `entry` behind the others, into the reserved room. The caller has seen to it that the limits allow the
    /// entry ([`room`](Journal::room)) and that room is reserved ([`reserve`](Journal::reserve)). It takes no memory
    /// and can't fail.
    pub fn push_reserved(&mut self, entry: Entry)
        requires room { HasRoomAfter self.old.limits self.old.entries (entry ∷ []) }
        requires reserved { 0 < self.old.spare }
        ensures { self.new ≡ with_entry self.old entry }
    {
        self.sizes.count_reserved(&entry);
        self.entries.push_reserved(entry);
    }

    /// The number of the entries, at most the limit.
    pub fn len(&self) -> u64
        ensures value { result ≡ length self.now.entries }
        ensures within { result ≤ self.now.limits.entries }
        ensures limits { AreLimits self.now.limits }
        // What is kept of every journal: callers learn it here.
        ensures spelled { All IsSpelled self.now.entries }
    {
        self.sizes.len()
    }

    /// Whether the journal has no entry.
    pub fn is_empty(&self) -> bool
        ensures { IsTrue result ↔ (self.now.entries ≡ []) }
    {
        self.entries.is_empty()
    }

    /// The entry at `position`, counted from 0, or `None` past the last one.
    pub fn get(&self, position: u64) -> Option<&Entry>
        ensures { option_copied result ≡ slice_get self.now.entries position }
    {
        self.entries.get(position as usize)
    }

    /// The text of the last edit, or `None` where the journal has none. It takes no memory, and time in proportion to
    /// the entries behind that edit.
    pub fn last_edit(&self) -> Option<&str>
        ensures { option_copied result ≡ last_edit self.now.entries }
    {
        text_of_last(self.entries.as_slice())
    }

    /// The octets that the entries take in a journal's file, added up: at most the limit.
    pub fn octets(&self) -> u64
        ensures value { result ≡ history_octets self.now.entries }
        ensures within { result ≤ self.now.limits.octets }
        ensures limits { AreLimits self.now.limits }
    {
        self.sizes.octets()
    }
}
