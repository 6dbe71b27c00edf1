//! Entries that wait in an audit, as they came: one, or all of a message.
ghost use Rattle.std.specs.Prelude.{◌≡◌, ◌≤◌, ◌<◌, ◌+◌, ◌++◌, length, map, take, drop, vec_capacity, IsSome, OnOk};
ghost use Rattle.std.specs.Option.{option_to_list};
ghost use Rattle.disclosure_audit.specs.Queue.{stamp};
ghost use Rattle.disclosure_audit.specs.Chunks.{entries_in, entries_of};

use crate::entry::AuditEntry;
use crate::stretches::Stretches;
use std::alloc::AllocError;

/// Entries in a row.
#[derive(Drop)]
pub(crate) enum Chunk {
    /// One entry.
    One(AuditEntry),
    /// The notes of the message at a position, each of which is an entry, and how many of them were drained.
    Message {
        position: u64,
        notes: Stretches,
        drained: usize,
    },
}

impl Chunk {
    /// The notes of the message at a position, if there are any. It takes no memory.
    pub(crate) fn of_notes(position: u64, notes: Stretches) -> Option<Chunk>
        ensures { entries_of (option_to_list result) ≡ map (stamp position) notes }
    {
        if notes.len() == 0 {
            return None;
        }
        Some(Chunk::Message {
            position,
            notes,
            drained: 0,
        })
    }

    /// How many entries it has.
    pub(crate) fn len(&self) -> usize
        ensures { result ≡ length (entries_in self.now) }
    {
        match self {
            Chunk::One(_) => 1,
            Chunk::Message {
                position: _,
                notes,
                drained,
            } => notes.len().saturating_sub(*drained),
        }
    }

    /// Copies its oldest `most` entries, or all, behind those of a list that has room for them.
    ///
    /// # Errors
    /// Want of memory.
    pub(crate) fn copy_oldest(
        &self,
        most: usize,
        out: &mut Vec<AuditEntry>,
    ) -> Result<(), AllocError>
        requires some { 1 ≤ most }
        requires room { length out.old.items + most ≤ vec_capacity out.old }
        ensures copied { OnOk result
            (out.new.items ≡ out.old.items ++ take most (entries_in self.now)) }
        // The list takes no memory.
        ensures capacity { vec_capacity out.new ≡ vec_capacity out.old }
    {
        match self {
            Chunk::One(entry) => {
                let what = entry.what.clone()?;
                out.push_reserved(AuditEntry {
                    position: entry.position,
                    index: entry.index,
                    sub: entry.sub,
                    what,
                });
                Ok(())
            }
            Chunk::Message {
                position,
                notes,
                drained,
            } => notes.copy_part(*position, *drained, most, out),
        }
    }

    /// What is left of it without its oldest `most` entries.
    pub(crate) fn without_oldest(self, most: usize) -> Option<Chunk>
        requires some { 1 ≤ most }
        ensures left { entries_of (option_to_list result) ≡ drop most (entries_in self) }
        // Something is left only where it has more.
        ensures more { IsSome result → most < length (entries_in self) }
    {
        if most >= self.len() {
            return None;
        }
        match self {
            Chunk::One(_entry) => None,
            Chunk::Message {
                position,
                notes,
                drained,
            } => Some(Chunk::Message {
                position,
                notes,
                drained: drained + most,
            }),
        }
    }
}
