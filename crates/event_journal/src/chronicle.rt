//! What keeps a history, or its sizes alone: the trait of a [`Journal`](crate::Journal), and [`JournalSizes`](crate::JournalSizes).
ghost use Rattle.std.specs.Prelude.{◌≡◌, ◌≤◌, ◌<◌, ◌+◌, ◌-◌, ◌↔◌, ℕ, List, [], ◌∷◌, ◌++◌, length, IsTrue, IsOk, OnOk, OnErr};
ghost use Rattle.std.proofs.Common.{ap};
ghost use Rattle.event_journal.specs.declared.entry.Entry.{Entry};
ghost use Rattle.event_journal.specs.Sizes.{entry_octets, history_octets, IsCountOf};
ghost use Rattle.event_journal.specs.Room.{JournalLimits, HasRoom};
ghost use Rattle.event_journal.specs.Counted.{AreLimits};

use crate::entry::Entry;
use crate::journal::Journal;
use crate::sizes::JournalSizes;
use std::alloc::AllocError;

/// What keeps a history, or its sizes alone. What holds one is generic over it, and its contract speaks of each history
/// that the chronicle tells.
pub trait Chronicle {
    // The histories that it may stand for: a journal's is its entries, and sizes tell each one that has them.
    ghost tells: { Self → List Entry → Type 0 };

    // The number of the entries, and the octets that they count for.
    ghost count: { Self → ℕ };

    ghost octets: { Self → ℕ };

    // How many entries and octets it may hold.
    ghost limits: { Self → JournalLimits };

    // For how many more entries room is reserved.
    ghost spare: { Self → ℕ };

    /// Whether the entries `more` have room behind those that are there: both limits allow them, and a journal file can
    /// spell each of them, which it can unless it is a message of 2^32 octets or more. It takes no memory.
    fn room(&self, more: &[Entry]) -> bool
        ensures { IsTrue result
            ↔ HasRoom (limits self.now) (count self.now) (octets self.now) more.now };

    /// Reserves memory for `more` further entries, whatever the limits. Room that is reserved already counts as part of
    /// these, and none of it is given back.
    ///
    /// # Errors
    /// Want of memory, and then nothing has changed. Where room for `more` entries is reserved already, there is no
    /// error.
    fn reserve(&mut self, more: u64) -> Result<(), AllocError>
        // Only the reserved room changes, and none of it is given back.
        ensures tells { (h : List Entry) → tells self.old h → tells self.new h }
        ensures count { count self.new ≡ count self.old }
        ensures octets { octets self.new ≡ octets self.old }
        ensures limits { limits self.new ≡ limits self.old }
        ensures kept { spare self.old ≤ spare self.new }
        // Answered Ok, there is room for all of `more`; where memory is short, there is no more than before.
        ensures ok { OnOk result (more ≤ spare self.new) }
        ensures err { OnErr result (spare self.new ≡ spare self.old) }
        // Room that is reserved already takes no memory.
        ensures no_memory { more ≤ spare self.old → IsOk result };

    /// Puts `entry` behind the others, into the reserved room, of which there is then less by one. The caller has seen
    /// to it that the limits allow the entry (`room`) and that there is reserved room (`reserve`). It takes no memory
    /// and can't fail.
    fn push_reserved(&mut self, entry: Entry)
        requires room { HasRoom (limits self.old) (count self.old) (octets self.old) (entry ∷ []) }
        requires reserved { 0 < spare self.old }
        // The history goes on with the entry, and its sizes with what that takes.
        ensures tells { (h : List Entry) → tells self.old h → tells self.new (h ++ entry ∷ []) }
        ensures count { count self.new ≡ count self.old + 1 }
        ensures octets { octets self.new ≡ octets self.old + entry_octets entry }
        ensures limits { limits self.new ≡ limits self.old }
        ensures spare { spare self.new + 1 ≡ spare self.old };

    /// The number of the entries, at most the limit.
    fn len(&self) -> u64
        ensures value { result ≡ count self.now }
        ensures within { result ≤ (limits self.now).entries }
        ensures limits { AreLimits (limits self.now) };

    /// The octets that the entries take in a journal's file, added up: at most the limit.
    fn octets(&self) -> u64
        ensures value { result ≡ octets self.now }
        ensures within { result ≤ (limits self.now).octets }
        ensures limits { AreLimits (limits self.now) };

    // The sizes are those of each history that it tells.
    ghost counted: { (c : Self) (h : List Entry) → tells c h → IsCountOf h (count c) (octets c) };
}

impl Chronicle for Journal {
    ghost tells = { λ j h. j.entries ≡ h };

    ghost count = { λ j. length j.entries };

    ghost octets = { λ j. history_octets j.entries };

    ghost limits = { λ j. j.limits };

    ghost spare = { λ j. j.spare };

    ghost counted = { λ j h told. record { entries = ap (λ (e : List Entry). length e) told; sizes = ap history_octets told } };

    fn room(&self, more: &[Entry]) -> bool {
        Journal::room(self, more)
    }

    fn reserve(&mut self, more: u64) -> Result<(), AllocError> {
        Journal::reserve(self, more)
    }

    fn push_reserved(&mut self, entry: Entry) {
        Journal::push_reserved(self, entry);
    }

    fn len(&self) -> u64 {
        Journal::len(self)
    }

    fn octets(&self) -> u64 {
        Journal::octets(self)
    }
}

impl Chronicle for JournalSizes {
    ghost tells = { λ t h. IsCountOf h t.count t.octets };

    ghost count = { λ t. t.count };

    ghost octets = { λ t. t.octets };

    ghost limits = { λ t. t.limits };

    ghost spare = { λ t. t.spare };

    ghost counted = { λ t h told. told };

    fn room(&self, more: &[Entry]) -> bool {
        JournalSizes::room(self, more)
    }

    fn reserve(&mut self, more: u64) -> Result<(), AllocError> {
        JournalSizes::reserve(self, more);
        Ok(())
    }

    fn push_reserved(&mut self, entry: Entry) {
        JournalSizes::push_reserved(self, entry);
    }

    fn len(&self) -> u64 {
        JournalSizes::len(self)
    }

    fn octets(&self) -> u64 {
        JournalSizes::octets(self)
    }
}
