//! What the Data Sets of a message hold.

use crate::read::Skips;
use ipfix_records::Records;

/// What a message holds, when it is read elsewhere than in its session.
#[derive(Drop)]
pub struct Contents {
    /// The Data Records, in the order of the message.
    pub records: Records,
    /// What the message brings that gives no record.
    pub skips: Skips,
}
