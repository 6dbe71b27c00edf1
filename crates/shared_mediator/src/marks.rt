//! Marks on the entries of a journal that have their receipt.
ghost use Rattle.std.specs.Prelude.{◌≡◌, ◌↔◌, ◌++◌, ◌∷◌, [], ◌-◌, ◌<◌, ◌≤◌, true, false, List, length, slice_get, slice_set, Some, IfOk, IfErr, OnOk, IsTrue};
ghost use Rattle.event_journal.specs.declared.entry.Entry.{Entry};
ghost use Rattle.event_journal.specs.declared.limits.TheConstants.{MOST_ENTRIES};
ghost use Rattle.mediator_history.specs.Numbers.{is_in};
ghost use Rattle.shared_mediator.specs.declared.kept.KeptEntry.{KeptEntry};
ghost use Rattle.shared_mediator.specs.Receipts.{positions, all_kept, AreReceipts, IsFirstRefused};
ghost use Rattle.shared_mediator.specs.Marking.{AreMarked, marked_count};

use crate::kept::KeptEntry;
use event_journal::Journal;
use std::alloc::{AllocError, Global};
use std::marker::Model;

/// A mark for each entry of a journal from a position on, set where a receipt of that entry was shown. Contracts see
/// the position and the marks.
#[derive(Drop)]
pub struct Marks {
    from: u64,
    marks: Vec<bool>,
}

impl Model for Marks {
    ghost use Rattle.shared_mediator.specs.Marking.{Marked, marked_as};

    ghost Value = { Marked };

    ghost view = { λ m. marked_as m.from m.marks.items };
}

impl Marks {
    /// Marks for the entries of `journal` from the position `from` on, none of them set. `from` is at most the number
    /// of the entries. The marks are in memory from `alloc`, an octet for each entry.
    ///
    /// # Errors
    /// Want of memory for the marks.
    pub fn new(alloc: Global, journal: &Journal, from: u64) -> Result<Marks, AllocError>
        requires within { from ≤ length journal.now.entries }
        ensures from { IfOk result (λ marks. marks.from ≡ from) }
        ensures none { IfOk result (λ marks. AreMarked marks journal.now.entries []) }
    {
        let places = (journal.len() - from) as usize;
        let marks = Vec::from_elem(alloc, false, places)?;
        Ok(Marks { from, marks })
    }

    /// Sets the marks of the receipts in `kept`, which are those of one handle, in the order of its calls. `journal` is
    /// the one that the marks were made for.
    ///
    /// # Errors
    /// The position of the first of these receipts that is none: its entry doesn't stand at its position, or that is
    /// before `from`, or not behind the receipt before it in `kept`, or it was marked before. The marks of receipts
    /// before it may be set then.
    pub fn mark(&mut self, journal: &Journal, kept: &[KeptEntry]) -> Result<(), u64>
        ensures from { self.new.from ≡ self.old.from }
        ensures ok { OnOk result ((handles : List (List KeptEntry))
            → AreMarked self.old journal.now.entries handles
            → AreMarked self.new journal.now.entries (handles ++ kept.now ∷ [])) }
        ensures err { IfErr result (λ position. (is_in position (positions kept.now) ≡ true)
            × ((handles : List (List KeptEntry)) → AreMarked self.old journal.now.entries handles
            → AreReceipts self.old.from journal.now.entries (handles ++ kept.now ∷ []) → ⊥)) }
        ensures first { IfErr result (λ position.
            (handles : List (List KeptEntry)) → AreMarked self.old journal.now.entries handles
            → IsFirstRefused self.old.from journal.now.entries handles kept.now position) }
    {
        let mut floor = self.from;
        for receipt in kept {
            let position = receipt.position;
            if position < floor || !stands(journal, receipt) || !self.set(position) {
                return Err(position);
            }
            floor = position + 1;
        }
        Ok(())
    }

    /// Sets the mark at `position`, which is not before `from`, and answers whether there is a mark there and it was
    /// not set before.
    fn set(&mut self, position: u64) -> bool
        requires behind { self.old.from ≤ position }
        ensures from { self.new.from ≡ self.old.from }
        ensures free { IsTrue result
            ↔ (slice_get self.old.marks (position - self.old.from) ≡ Some false) }
        ensures set { IsTrue result
            → self.new.marks ≡ slice_set self.old.marks (position - self.old.from) true }
    {
        let place = (position - self.from) as usize;
        let free = place < self.marks.len() && !self.marks[place];
        if free {
            self.marks[place] = true;
        }
        free
    }

    /// How many marks are set: as many as receipts were shown, where all of them were accepted.
    pub fn count(&self) -> u64
        ensures value { result ≡ marked_count self.now }
        ensures receipts { (h : List Entry) (handles : List (List KeptEntry))
            → AreMarked self.now h handles → result ≡ length (all_kept handles) }
    {
        self.marks.iter().filter(|mark| **mark).count() as u64
    }
}

/// Whether the entry of `receipt` stands in `journal` at the position of `receipt`.
fn stands(journal: &Journal, receipt: &KeptEntry) -> bool
    ensures there { IsTrue result
        ↔ (slice_get journal.now.entries receipt.now.position ≡ Some receipt.now.entry) }
    ensures below { IsTrue result → receipt.now.position < MOST_ENTRIES }
{
    if receipt.position >= journal.len() {
        return false;
    }
    match journal.get(receipt.position) {
        Some(entry) => *entry == receipt.entry,
        None => false,
    }
}
