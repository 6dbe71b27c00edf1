//! The number of the entries of an audit that wait, without the entries.
ghost use Rattle.std.specs.Prelude.{◌≡◌, ◌-◌, min, max, false, None, refl};

use crate::entry::AuditEntry;
use crate::notes::Notes;
use crate::queue::AuditQueue;
use std::alloc::{AllocError, Global};

/// How many entries wait. It keeps none of them, so nothing is handed out of it, and it takes no memory.
#[derive(Debug, Drop)]
pub struct CountedQueue {
    alloc: Global,
    waiting: u32,
    /// For how many more pieces room would be reserved.
    spare: u32,
}

impl CountedQueue {
    /// The number of no entry. The lists that are handed out, which have none, are of `alloc`, of which no memory is
    /// taken.
    pub fn new(alloc: Global) -> CountedQueue
        ensures waiting { result.waiting ≡ 0 }
        ensures spare { result.spare ≡ 0 }
    {
        CountedQueue {
            alloc,
            waiting: 0,
            spare: 0,
        }
    }
}

impl AuditQueue for CountedQueue {
    const KEEPS: bool = false;

    ghost KEEPS = { false };

    ghost seen = { λ q. record { entries = None; count = q.waiting; spare = q.spare } };

    ghost counted = { λ q. record { kept = refl; counted = tt } };

    fn len(&self) -> u32 {
        self.waiting
    }

    fn reserve(&mut self, more: u32) -> Result<(), AllocError> {
        self.spare = self.spare.max(more);
        Ok(())
    }

    fn push_reserved(&mut self, _entry: AuditEntry) {
        self.waiting += 1;
        self.spare -= 1;
    }

    fn push_notes(&mut self, _position: u64, notes: Notes) {
        self.waiting += notes.count() as u32;
        self.spare -= 1;
    }

    fn drain(&mut self, most: u32) -> Result<Vec<AuditEntry>, AllocError> {
        self.waiting = self.waiting.saturating_sub(most);
        Ok(Vec::new(self.alloc))
    }
}
