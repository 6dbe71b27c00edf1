//! The entries of an audit that wait, kept until they are drained.
ghost use Rattle.std.specs.Prelude.{◌≡◌, ◌≤◌, ◌+◌, ◌++◌, length, take, drop, vec_capacity, true, Some, refl, IsOk, OnOk};
ghost use Rattle.std.specs.VecDeque.{deque_capacity};
ghost use Rattle.disclosure_audit.specs.Chunks.{entries_of};

use crate::chunk::Chunk;
use crate::entry::AuditEntry;
use crate::notes::Notes;
use crate::queue::AuditQueue;
use std::alloc::{AllocError, Global};
use std::collections::VecDeque;
use std::marker::Model;

/// The entries that wait, oldest first.
pub struct KeptQueue {
    alloc: Global,
    chunks: VecDeque<Chunk>,
    /// How many entries there are in the chunks.
    waiting: u32,
    /// For how many more chunks room is reserved.
    spare: u32,
}

impl Drop for KeptQueue {
    // Written out: a derived one is proved anew in each crate that drops such a value.
    fn drop(self) {
        let KeptQueue {
            alloc: _,
            chunks: _,
            waiting: _,
            spare: _,
        } = self;
    }
}

impl Model for KeptQueue {
    ghost use Rattle.std.specs.VecDeque.{deque_capacity};
    ghost use Rattle.disclosure_audit.specs.Chunks.{entries_of};
    ghost use Rattle.disclosure_audit.specs.Kept.{KeptEntries, AreEntriesKept};

    ghost Value = { KeptEntries };

    ghost view = { λ q. record { entries = entries_of q.chunks.items; spare = q.spare } };

    ghost invariant = { λ q. AreEntriesKept q.chunks.items
        (deque_capacity q.chunks) q.waiting q.spare };
}

impl KeptQueue {
    ghost use Rattle.std.specs.Prelude.{[]};

    /// No entry. What comes to be kept is in memory from `alloc`; none is taken now.
    pub fn new(alloc: Global) -> KeptQueue
        ensures { result ≡ record { entries = []; spare = 0 } }
    {
        KeptQueue {
            alloc,
            chunks: VecDeque::new(alloc),
            waiting: 0,
            spare: 0,
        }
    }
}

impl AuditQueue for KeptQueue {
    const KEEPS: bool = true;

    ghost KEEPS = { true };

    ghost seen = { λ q. record {
      entries = Some q.entries;
      count = length q.entries;
      spare = q.spare;
    } };

    ghost counted = { λ q. record { kept = refl; counted = refl } };

    fn len(&self) -> u32 {
        self.waiting
    }

    fn reserve(&mut self, more: u32) -> Result<(), AllocError> {
        if more <= self.spare {
            return Ok(());
        }
        self.chunks.reserve(more as usize)?;
        self.spare = more;
        Ok(())
    }

    fn push_reserved(&mut self, entry: AuditEntry) {
        self.chunks.push_back_reserved(Chunk::One(entry));
        self.waiting += 1;
        self.spare -= 1;
    }

    fn push_notes(&mut self, position: u64, notes: Notes) {
        self.spare -= 1;
        self.waiting += notes.count() as u32;
        if let Some(chunk) = Chunk::of_notes(position, notes.into_stretches()) {
            self.chunks.push_back_reserved(chunk);
        }
    }

    fn drain(&mut self, most: u32) -> Result<Vec<AuditEntry>, AllocError> {
        let count = self.waiting.min(most);
        let mut out = Vec::with_capacity(self.alloc, count as usize)?;
        // Copied first, since that may fail.
        copy_oldest(&self.chunks, count as usize, &mut out)?;
        drop_oldest(&mut self.chunks, count as usize);
        self.waiting -= count;
        Ok(out)
    }
}

/// Copies `count` entries from the front of the queue into the list, which has room for them.
fn copy_oldest(
    queue: &VecDeque<Chunk>,
    count: usize,
    out: &mut Vec<AuditEntry>,
) -> Result<(), AllocError>
    requires { length out.old.items + count ≤ vec_capacity out.old }
    ensures copied { OnOk result
        (out.new.items ≡ out.old.items ++ take count (entries_of queue.now.items)) }
    // To copy nothing takes no memory.
    ensures none { count ≡ 0 → IsOk result }
{
    let mut left = count;
    let mut at = 0;
    'chunks: while left > 0 && at < queue.len() {
        let chunk = &queue[at];
        let taken = chunk.len().min(left);
        chunk.copy_oldest(left, out)?;
        left -= taken;
        at += 1;
    }
    Ok(())
}

/// Drops `count` entries from the front of the queue.
fn drop_oldest(queue: &mut VecDeque<Chunk>, count: usize)
    ensures left { entries_of queue.new.items ≡ drop count (entries_of queue.old.items) }
    // The queue has no more pieces than before, and keeps its room.
    ensures fewer { length queue.new.items ≤ length queue.old.items }
    ensures capacity { deque_capacity queue.new ≡ deque_capacity queue.old }
{
    let mut left = count;
    'chunks: while left > 0 {
        let Some(chunk) = queue.pop_front() else {
            break;
        };
        let dropped = chunk.len().min(left);
        if let Some(rest) = chunk.without_oldest(left) {
            queue.push_front_reserved(rest);
        }
        left -= dropped;
    }
}
