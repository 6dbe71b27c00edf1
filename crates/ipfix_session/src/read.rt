//! What a message of a session brings.

use ipfix_message::Header;
use ipfix_records::Records;

/// What a session's message means after the messages before it.
#[derive(Drop)]
pub struct Read {
    /// The message's header.
    pub header: Header,
    /// The Data Records, in the order of the message.
    pub records: Records,
    /// What the message brings that gives no record.
    pub skips: Skips,
    /// Set where the sequence number is not the one that the last message of the domain left to
    /// expect (RFC 7011, section 3.1).
    pub gap: Option<Gap>,
}

/// What a message brings that gives no record.
#[derive(Clone, Copy, Debug, PartialEq, Eq)]
pub struct Skips {
    /// Data Sets without a template in force.
    pub unknown: u64,
    /// Sets with a reserved ID: 0, 1 or 4 to 255 (RFC 7011, section 3.3.2).
    pub reserved: u64,
    /// Template records that are refused.
    pub refused: u64,
}

/// Sequence numbers that do not follow one another: records were lost, or come in another order
/// (RFC 7011, section 3.1).
#[derive(Clone, Copy, Debug, PartialEq, Eq)]
pub struct Gap {
    /// The number of the domain's last message and its records, modulo 2^32.
    pub expected: u32,
    /// The message's own number.
    pub got: u32,
}
