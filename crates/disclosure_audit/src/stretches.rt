//! The notes of a message by stretches, so that they take memory once for records that lose the same.
ghost use Rattle.std.specs.Prelude.{◌≡◌, ◌≤◌, ◌<◌, ◌+◌, ◌*◌, ◌++◌, ◌^◌, [], length, map, take, drop, vec_capacity, OnOk};
ghost use Rattle.disclosure_audit.specs.Noting.{notes_of_stretch};
ghost use Rattle.disclosure_audit.specs.Queue.{stamp};

use crate::entry::{AuditEntry, KeptBack};
use crate::stretch::Stretch;
use std::alloc::{AllocError, Global};
use std::marker::Model;

/// For how many stretches of a message there is room at first.
const FIRST_STRETCHES: usize = 8;

/// Notes in their order. Contracts see their list.
#[derive(Drop)]
pub(crate) struct Stretches {
    stretches: Vec<Stretch>,
    /// What is kept back, of which each stretch has a part.
    each: Vec<KeptBack>,
    /// How many notes there are.
    notes: usize,
}

impl Model for Stretches {
    ghost use Rattle.std.specs.Prelude.{List};
    ghost use Rattle.disclosure_audit.specs.declared.entry.Note.{Note};
    ghost use Rattle.disclosure_audit.specs.Stretching.{stretched_notes, AreStretched};

    ghost Value = { List Note };

    ghost view = { λ s. stretched_notes s.each.items s.stretches.items };

    ghost invariant = { λ s. AreStretched s.each.items s.stretches.items s.notes };
}

impl Stretches {
    /// No note. What comes is in memory from `alloc`.
    pub(crate) fn new(alloc: Global) -> Stretches
        ensures { result ≡ [] }
    {
        Stretches {
            stretches: Vec::new(alloc),
            each: Vec::new(alloc),
            notes: 0,
        }
    }

    /// How many notes there are.
    pub(crate) fn len(&self) -> usize
        ensures { result ≡ length self.now }
    {
        self.notes
    }

    /// Makes room in memory for `more` further notes, of whatever records.
    ///
    /// # Errors
    /// Want of memory.
    pub(crate) fn reserve(&mut self, more: usize) -> Result<(), AllocError>
        ensures { self.new ≡ self.old }
    {
        self.stretches.reserve(more)?;
        self.each.reserve(more)
    }

    /// Adds the first `most` notes of a stretch, one at least, behind the others.
    ///
    /// # Errors
    /// Want of memory, or more is kept back than can be numbered.
    pub(crate) fn add(
        &mut self,
        first: u32,
        count: u32,
        each: &[KeptBack],
        most: usize,
    ) -> Result<(), AllocError>
        requires places { first + count ≤ 2 ^ 32 }
        requires some { 1 ≤ most }
        requires there { most ≤ count * length each.now }
        requires room { length self.old + most < 2 ^ 64 }
        ensures { OnOk result
            (self.new ≡ self.old ++ take most (notes_of_stretch first count each.now)) }
    {
        // No more of each record is needed for `most` notes.
        let each = &each[..each.len().min(most)];
        let from = self.each.len();
        if from.saturating_add(each.len()) > u32::MAX as usize {
            return Err(AllocError);
        }
        make_room(&mut self.stretches, &mut self.each, each.len())?;
        self.each.extend_from_slice(each)?;
        let (from, len) = (from as u32, each.len() as u32);
        let whole = (most / each.len()) as u32;
        let part = (most % each.len()) as u32;
        self.stretches.push_reserved(Stretch {
            first,
            count: whole,
            from,
            len,
        });
        // Of the record behind them a part is kept.
        if part > 0 {
            self.stretches.push_reserved(Stretch {
                first: first + whole,
                count: 1,
                from,
                len: part,
            });
        }
        self.notes += most;
        Ok(())
    }

    /// Adds `most` notes, those behind the first `skip`, to a list that has room for them, as entries of the message at
    /// `position`.
    ///
    /// # Errors
    /// Want of memory.
    pub(crate) fn copy_part(
        &self,
        position: u64,
        skip: usize,
        most: usize,
        out: &mut Vec<AuditEntry>,
    ) -> Result<(), AllocError>
        requires room { length out.old.items + most ≤ vec_capacity out.old }
        ensures copied { OnOk result (out.new.items
            ≡ out.old.items ++ map (stamp position) (take most (drop skip self.now))) }
        ensures capacity { vec_capacity out.new ≡ vec_capacity out.old }
    {
        let mut skip = skip;
        let mut left = most;
        for stretch in self.stretches.as_slice() {
            if left == 0 {
                break;
            }
            let size = stretch.size(self.each.as_slice());
            let passed = skip.min(size);
            let taken = left.min(size - passed);
            stretch.copy_part(self.each.as_slice(), position, passed, taken, out)?;
            skip -= passed;
            left -= taken;
        }
        Ok(())
    }
}

/// Makes room in memory for a stretch behind `stretches`, or two, of which `more` things that are kept back stand behind `each`;
/// and where it is the first, for some more like it, so that the lists of most messages are made once.
///
/// # Errors
/// Want of memory.
fn make_room(
    stretches: &mut Vec<Stretch>,
    each: &mut Vec<KeptBack>,
    more: usize,
) -> Result<(), AllocError>
    ensures stretches { stretches.new.items ≡ stretches.old.items }
    ensures each { each.new.items ≡ each.old.items }
    ensures room { OnOk result (length stretches.new.items + 2 ≤ vec_capacity stretches.new) }
{
    if !stretches.is_empty() {
        return stretches.reserve(2);
    }
    stretches.reserve(FIRST_STRETCHES)?;
    each.reserve(more.saturating_mul(FIRST_STRETCHES))
}
