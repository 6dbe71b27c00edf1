//! What a message would do, found out before anything is changed.
ghost use Rattle.std.specs.Prelude.{◌≡◌, ℕ, List, map, Option, None, IfOk, IfSome, IfNone};
ghost use Rattle.ipfix_template.specs.DataRecord.{DataRecord};
ghost use Rattle.mediator_tables.specs.SubscriptionTable.{shown};
ghost use Rattle.disclosure_audit.specs.Queue.{stamp};
ghost use Rattle.history_verify.specs.Sharing.{IsFirstEmptyShare};

use disclosure_audit::{AuditEntry, Note};
use mediator_tables::{Share, Tally};
use std::alloc::{AllocError, Global};

/// What a message gives, counts and keeps back.
#[derive(Drop)]
pub(crate) struct Judged {
    /// What each subscription is given that is served.
    pub(crate) shares: Vec<Share>,
    /// What counts in the aggregates of each.
    pub(crate) tallies: Vec<Tally>,
    /// The audit's entries, where they are wanted.
    pub(crate) entries: Vec<AuditEntry>,
}

/// The place of the first of `shares` that has no record, or `None`.
pub(crate) fn first_empty(shares: &[Share]) -> Option<usize>
    ensures { IsFirstEmptyShare (map shown shares.now) result }
{
    'shares: for (place, share) in shares.iter().enumerate() {
        if share.given.is_empty() {
            return Some(place);
        }
    }
    None
}

/// The audit's entries of `notes`, which are of the message at `position`; in memory from `alloc`.
///
/// # Errors
/// Want of memory.
pub(crate) fn stamped(
    alloc: Global,
    notes: Vec<Note>,
    position: u64,
) -> Result<Vec<AuditEntry>, AllocError>
    ensures { IfOk result (λ v. v.items ≡ map (stamp position) notes.items) }
{
    let mut entries = Vec::with_capacity(alloc, notes.len())?;
    'notes: for Note { index, sub, what } in notes {
        entries.push_reserved(AuditEntry {
            position,
            index,
            sub,
            what,
        });
    }
    Ok(entries)
}
