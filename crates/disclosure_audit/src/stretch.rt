//! A stretch: records of a message that stand side by side, and of which the same is kept back.
ghost use Rattle.std.specs.Prelude.{◌≡◌, ◌≤◌, ◌<◌, ◌+◌, ◌++◌, ◌^◌, length, map, take, drop, vec_capacity, OnOk};
ghost use Rattle.disclosure_audit.specs.Noting.{note_at};
ghost use Rattle.disclosure_audit.specs.Queue.{stamp};

use crate::entry::{AuditEntry, KeptBack};
use std::alloc::AllocError;

/// Records side by side of which the same is kept back. What that is stands in a list beside it.
#[derive(Clone, Copy, Debug)]
pub(crate) struct Stretch {
    /// The place of the first record in its message.
    pub(crate) first: u32,
    /// How many records there are.
    pub(crate) count: u32,
    /// Where in the list stands what is kept back of each.
    pub(crate) from: u32,
    /// How many pieces that is.
    pub(crate) len: u32,
}

impl Stretch {
    ghost use Rattle.disclosure_audit.specs.Stretching.{IsWithinEach, notes_in};

    /// How many notes it stands for.
    pub(crate) fn size(&self, all: &[KeptBack]) -> usize
        requires { IsWithinEach all.now self.now }
        ensures { result ≡ length (notes_in all.now self.now) }
    {
        self.count as usize * self.len as usize
    }

    /// Adds `most` of its notes, those behind the first `skip`, to a list that has room for them, as entries of the
    /// message at `position`.
    pub(crate) fn copy_part(
        &self,
        all: &[KeptBack],
        position: u64,
        skip: usize,
        most: usize,
        out: &mut Vec<AuditEntry>,
    ) -> Result<(), AllocError>
        requires within { IsWithinEach all.now self.now }
        requires there { skip + most ≤ length (notes_in all.now self.now) }
        requires room { length out.old.items + most ≤ vec_capacity out.old }
        ensures copied { OnOk result (out.new.items
            ≡ out.old.items ++ map (stamp position) (take most (drop skip (notes_in all.now self.now)))) }
        ensures capacity { vec_capacity out.new ≡ vec_capacity out.old }
    {
        if most == 0 {
            return Ok(());
        }
        let len = self.len as usize;
        let each = &all[self.from as usize..self.from as usize + len];
        let mut record = skip / len;
        let mut place = skip % len;
        let mut left = most;
        'records: while left > 0 {
            let end = place + left.min(len - place);
            copy_record(position, self.first + record as u32, &each[place..end], out)?;
            left -= end - place;
            record += 1;
            place = 0;
        }
        Ok(())
    }
}

/// Adds what is kept back of one record to a list that has room for it, as entries of the message at `position`.
fn copy_record(
    position: u64,
    index: u32,
    each: &[KeptBack],
    out: &mut Vec<AuditEntry>,
) -> Result<(), AllocError>
    requires { length out.old.items + length each.now ≤ vec_capacity out.old }
    ensures copied { OnOk result (out.new.items
        ≡ out.old.items ++ map (stamp position) (map (note_at index) each.now)) }
    ensures capacity { vec_capacity out.new ≡ vec_capacity out.old }
{
    for kept in each {
        let what = kept.what.clone()?;
        out.push_reserved(AuditEntry {
            position,
            index,
            sub: kept.sub,
            what,
        });
    }
    Ok(())
}
