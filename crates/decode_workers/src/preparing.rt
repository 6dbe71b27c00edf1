//! How a list of messages is prepared.

use bytes::Bytes;
use mediator_shares::Workspace;
use prepared_message::{Prepared, Snapshot};
use std::alloc::Global;

/// For each message as it was prepared, or nothing where it wasn't; or no item at all for want of memory.
pub(crate) type PreparedList = Vec<Option<Prepared>>;

/// Prepares each of `messages` against `snapshot`, with what `workspace` has worked out before. The list is in memory from `alloc`.
pub(crate) fn prepare_list(
    alloc: Global,
    snapshot: &Snapshot,
    messages: Vec<Bytes>,
    workspace: &mut Workspace,
) -> PreparedList {
    let mut list = Vec::new(alloc);
    if list.reserve(messages.len()).is_err() {
        return list;
    }
    for message in messages {
        // There is room.
        let _pushed = list.push(prepare_one(snapshot, message, workspace));
    }
    list
}

/// A message as it is prepared, where it can be and isn't too wide.
fn prepare_one(snapshot: &Snapshot, message: Bytes, workspace: &mut Workspace) -> Option<Prepared> {
    match snapshot.is_too_wide(&message) {
        Ok(false) => Prepared::prepare_in(snapshot, message, workspace).ok(),
        _ => None,
    }
}
