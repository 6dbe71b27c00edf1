//! What a message, or an advance of the clock, gives to one subscription.

use ipfix_records::Records;

/// The records that one subscription is given.
#[derive(Drop)]
pub struct Share {
    /// The number of the subscription.
    pub sub: u64,
    /// The records that pass, as they are disclosed.
    pub given: Records,
}
