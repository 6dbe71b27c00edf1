//! How much a stream may hold.

/// The most templates that a stream can announce: their IDs are 256 to 65,535 (RFC 7011, section 3.4.1).
pub const MOST_SHAPES: u32 = 65_280;

/// The most records that a mediator lets wait in a stream. A stream by itself has no such limit.
pub const MOST_QUEUE: u32 = 1_000_000;

/// How much a stream may hold.
#[derive(Clone, Copy, Debug, PartialEq, Eq)]
pub struct StreamLimits {
    /// The most records that may wait; in a mediator at most [`MOST_QUEUE`].
    pub queue: u32,
    /// The most distinct templates that the stream's records may have, at most [`MOST_SHAPES`].
    pub shapes: u32,
}
