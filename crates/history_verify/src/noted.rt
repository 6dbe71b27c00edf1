//! What the audit names of a history, where that is wanted.
ghost use Rattle.std.specs.Prelude.{◌≡◌, ◌++◌, ◌∷◌, ◌≤◌, ◌+◌, ◌-◌, ◌^◌, [], true, length, List, OnOk, OnErr, if◌then◌else◌};
ghost use Rattle.std.specs.Vec.{vec_capacity};
ghost use Rattle.disclosure_audit.specs.declared.entry.AuditEntry.{AuditEntry as OneEntry};

use disclosure_audit::AuditEntry;
use std::alloc::{AllocError, Global};

/// The audit's entries of a history, where they are wanted. Else none is kept, so that memory doesn't grow with them.
/// Contracts say by `AreNoted` of which list.
#[derive(Drop)]
pub(crate) struct Noted {
    wanted: bool,
    entries: Vec<AuditEntry>,
}

impl Noted {
    ghost use Rattle.history_verify.specs.Parts.{AreNoted, HasRoomToNote};

    /// No entry. Those to come are kept where they are `wanted`, in memory from `alloc`.
    pub(crate) fn new(alloc: Global, wanted: bool) -> Noted
        ensures none { AreNoted result [] }
        ensures wanted { result.wanted ≡ wanted }
    {
        Noted {
            wanted,
            entries: Vec::new(alloc),
        }
    }

    /// How many notes of a message are to be kept: all of them, or none.
    pub(crate) fn most(&self) -> u64
        ensures { result ≡ (if self.now.wanted then 2 ^ 64 - 1 else 0) }
    {
        if self.wanted { u64::MAX } else { 0 }
    }

    /// Makes room for `more` further entries, where they are wanted.
    ///
    /// # Errors
    /// Want of memory. Whatever the answer, only reserved room has changed.
    pub(crate) fn reserve(&mut self, more: usize) -> Result<(), AllocError>
        ensures unchanged { (list : List OneEntry) → AreNoted self.old list
            → AreNoted self.new list }
        ensures room { OnOk result (HasRoomToNote self.new more) }
        ensures wanted { self.new.wanted ≡ self.old.wanted }
    {
        if self.wanted {
            self.entries.reserve(more)?;
        }
        Ok(())
    }

    /// Puts `entries` behind the others, in room that was made. They are none where none is wanted. It takes no memory.
    pub(crate) fn append(&mut self, entries: Vec<AuditEntry>)
        requires room { HasRoomToNote self.old (length entries.items) }
        ensures more { (list more : List OneEntry) → AreNoted self.old list
            → entries.items ≡ (if self.old.wanted then more else [])
            → AreNoted self.new (list ++ more) }
        ensures wanted { self.new.wanted ≡ self.old.wanted }
    {
        if self.wanted {
            append(&mut self.entries, entries);
        }
    }

    /// Puts `entry` behind the others where it is wanted, in room that was made. It takes no memory.
    pub(crate) fn push(&mut self, entry: AuditEntry)
        requires room { HasRoomToNote self.old 1 }
        ensures more { (list : List OneEntry) → AreNoted self.old list
            → AreNoted self.new (list ++ entry ∷ []) }
        ensures wanted { self.new.wanted ≡ self.old.wanted }
    {
        if self.wanted {
            self.entries.push_reserved(entry);
        }
    }

    /// The entries, in their order; none where they weren't wanted.
    pub(crate) fn into_entries(self) -> Vec<AuditEntry>
        ensures { (list : List OneEntry) → AreNoted self list
            → result.items ≡ (if self.wanted then list else []) }
    {
        let Noted { wanted: _, entries } = self;
        entries
    }
}

/// Puts `entries` behind those in `audit`, in room that was reserved. It takes no memory.
fn append(audit: &mut Vec<AuditEntry>, entries: Vec<AuditEntry>)
    requires room { length audit.old.items + length entries.items ≤ vec_capacity audit.old }
    ensures { audit.new.items ≡ audit.old.items ++ entries.items }
{
    for entry in entries {
        audit.push_reserved(entry);
    }
}
