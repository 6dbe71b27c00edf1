//! What calls answer: the receipt of a message, and how a subscription stands.

use ipfix_session::{Gap, Skips};

/// What became of an accepted message.
#[derive(Clone, Copy, Debug, PartialEq, Eq)]
pub struct Receipt {
    /// The position of its entry in the history, counted from 0.
    pub position: u64,
    /// How many Data Records it brought.
    pub records: u64,
    /// How many subscriptions it cut. The entries of these cuts stand directly before its own.
    pub cut: u64,
    /// What it brought that gives no record.
    pub skips: Skips,
    /// Set where its Sequence Number is not the one that was expected (RFC 7011, section 3.1).
    pub gap: Option<Gap>,
}

/// How a live subscription stands.
#[derive(Clone, Copy, Debug, PartialEq, Eq)]
pub struct Status {
    /// How many records wait to be handed out.
    pub queued: u32,
    /// How many records were handed out.
    pub handed: u64,
    /// How many templates its stream has announced or is to announce.
    pub shapes: u32,
    /// Whether it was cut: it gets nothing more, and what waits can still be pulled.
    pub cut: bool,
}
