//! What an audit is to note of a message: as much of it as is to be kept, and the number of all.
ghost use Rattle.std.specs.Prelude.{◌≡◌, ◌≤◌, ◌<◌, ◌+◌, ◌^◌, ◌∷◌, [], length, map, nat_lt, IfOk, OnOk};
ghost use Rattle.disclosure_audit.specs.Noting.{kept_notes, and_more, notes_of_stretch, unstamped};

use crate::entry::{AuditEntry, KeptBack, Note};
use crate::stretches::Stretches;
use std::alloc::{AllocError, Global};
use std::marker::Model;

/// How many notes can be counted. No memory holds as many.
const MOST_COUNTED: u64 = 1 << 62;

/// The notes of a message, in their order. At most as many are kept as are wanted, the first ones, and all are counted.
/// So a message of which the audit has more to note than it has room for takes no more memory than that, and one of
/// which none is wanted takes none. Of records side by side that lose the same it is kept once.
#[derive(Drop)]
pub struct Notes {
    kept: Stretches,
    count: u64,
    most: u64,
}

impl Model for Notes {
    ghost use Rattle.std.specs.Prelude.{◌<◌, ◌^◌};
    ghost use Rattle.disclosure_audit.specs.Noting.{KeptNotes};

    ghost Value = { KeptNotes };

    ghost view = { λ n. record { notes = n.kept; count = n.count; most = n.most } };

    ghost invariant = { λ n. n.count < 2 ^ 63 };
}

impl Notes {
    /// No note; of those to come at most `most` are kept, in memory from `alloc`.
    pub fn new(alloc: Global, most: u64) -> Notes
        ensures { result ≡ kept_notes most [] }
    {
        Notes {
            kept: Stretches::new(alloc),
            count: 0,
            most,
        }
    }

    /// How many notes there are, with those that weren't kept.
    pub fn count(&self) -> u64
        ensures value { result ≡ self.now.count }
        ensures few { result < 2 ^ 63 }
    {
        self.count
    }

    /// The list of the notes that were kept, in their order, in memory from `alloc`.
    ///
    /// # Errors
    /// Want of memory.
    pub fn into_kept(self, alloc: Global) -> Result<Vec<Note>, AllocError>
        ensures kept { IfOk result (λ notes. notes.items ≡ self.notes) }
        ensures few { self.count < 2 ^ 63 }
    {
        let stretches = self.into_stretches();
        let mut entries = Vec::with_capacity(alloc, stretches.len())?;
        stretches.copy_part(0, 0, stretches.len(), &mut entries)?;
        noted(alloc, entries)
    }

    /// The notes that were kept, in their order, as they are kept.
    pub(crate) fn into_stretches(self) -> Stretches
        ensures kept { result ≡ self.notes }
        ensures few { self.count < 2 ^ 63 }
    {
        let Notes {
            kept,
            count: _,
            most: _,
        } = self;
        kept
    }

    /// Makes room in memory for `more` further notes, as far as they may be kept.
    ///
    /// # Errors
    /// Want of memory.
    pub fn reserve(&mut self, more: usize) -> Result<(), AllocError>
        ensures { OnOk result (self.new ≡ self.old) }
    {
        let room = self.most.saturating_sub(self.kept.len() as u64);
        self.kept.reserve((more as u64).min(room) as usize)
    }

    /// Whether the next note is kept. Where it isn't, nobody needs to make it ([`count_one`](Notes::count_one)).
    pub fn keeps_next(&self) -> bool
        ensures { result ≡ nat_lt (length self.now.notes) self.now.most }
    {
        (self.kept.len() as u64) < self.most
    }

    /// Counts one note behind the others, where no more are kept. It takes no memory.
    ///
    /// # Errors
    /// There are 2^62 notes, which no memory holds.
    pub fn count_one(&mut self) -> Result<(), AllocError>
        requires { self.old.most ≤ length self.old.notes }
        ensures { OnOk result (self.new ≡ record self.old { count = self.old.count + 1 }) }
    {
        if self.count >= MOST_COUNTED {
            return Err(AllocError);
        }
        self.count += 1;
        Ok(())
    }

    /// Adds `note` behind the others. It is kept where it may be, and counted in any case.
    ///
    /// # Errors
    /// Want of memory; or there are 2^62 notes, which no memory holds.
    pub fn push(&mut self, note: Note) -> Result<(), AllocError>
        ensures { OnOk result (self.new ≡ and_more self.old (note ∷ [])) }
    {
        let Note { index, sub, what } = note;
        self.push_stretch(index, 1, &[KeptBack { sub, what }])
    }

    /// Adds the notes of `count` records side by side, from the one at `first` on, behind the others: `each` is what is
    /// kept back of each of these. They are kept as far as they may be, and counted in any case. Where none is kept that
    /// takes no memory, and else no more for many records than for one.
    ///
    /// # Errors
    /// Want of memory; or there are 2^62 notes, which no memory holds.
    pub fn push_stretch(
        &mut self,
        first: u32,
        count: u32,
        each: &[KeptBack],
    ) -> Result<(), AllocError>
        requires within { first + count ≤ 2 ^ 32 }
        ensures { OnOk result
            (self.new ≡ and_more self.old (notes_of_stretch first count each.now)) }
    {
        let size = (count as usize).saturating_mul(each.len()) as u64;
        if size > MOST_COUNTED || self.count + size > MOST_COUNTED {
            return Err(AllocError);
        }
        let room = self.most.saturating_sub(self.kept.len() as u64);
        let kept = size.min(room);
        if kept > 0 {
            self.kept.add(first, count, each, kept as usize)?;
        }
        self.count += size;
        Ok(())
    }
}

/// The notes of which these entries were made.
fn noted(alloc: Global, entries: Vec<AuditEntry>) -> Result<Vec<Note>, AllocError>
    ensures { IfOk result (λ notes. notes.items ≡ map unstamped entries.items) }
{
    let mut notes = Vec::with_capacity(alloc, entries.len())?;
    'entries: for AuditEntry {
        position: _,
        index,
        sub,
        what,
    } in entries {
        notes.push_reserved(Note { index, sub, what });
    }
    Ok(notes)
}
