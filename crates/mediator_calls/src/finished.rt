//! What stays of a run that has ended.

use event_journal::Journal;

/// What stays of a run that has ended.
#[derive(Debug, Drop)]
pub struct Finished {
    /// All that the mediator accepted, oldest first.
    pub journal: Journal,
}
