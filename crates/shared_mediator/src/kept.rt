//! What a caller keeps of a call that was accepted.

use event_journal::Entry;

/// The receipt of a call that added an entry to a journal.
#[derive(Debug, Drop)]
pub struct KeptEntry {
    /// The position at which the entry stands in the journal, counted from 0.
    pub position: u64,
    /// The entry, as the caller knows it.
    pub entry: Entry,
}
