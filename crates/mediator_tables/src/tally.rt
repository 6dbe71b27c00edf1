//! What is added to the groups of one subscription.
use flow_aggregate::{Addition, Count};

/// What is added to the aggregates of a subscription.
#[derive(Drop)]
pub struct Tally {
    /// The number of the subscription.
    pub sub: u64,
    /// What the message's records add, one after another.
    pub counts: Vec<Count>,
}

/// What was made ready for the groups of a subscription, whose place is known.
#[derive(Drop)]
pub struct Reserved {
    /// The place of the subscription's groups.
    pub(crate) place: usize,
    /// What is added to them.
    pub(crate) additions: Vec<Addition>,
}
