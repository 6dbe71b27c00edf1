//! What is added to groups that were made ready for it.
use crate::sums::Sums;

/// What a record adds, at the place of its group.
#[derive(Drop)]
pub struct Addition {
    /// The place of the group.
    pub(crate) place: usize,
    /// What the record adds to its sums.
    pub(crate) counters: Sums,
}
