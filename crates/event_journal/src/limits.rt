//! The ranges of the limits that a journal may be made with.

/// The most entries that a journal may be made for: 100,000,000.
pub const MOST_ENTRIES: u64 = 100_000_000;

/// The most octets, of its file, that a journal may be made for: 2^40.
pub const MOST_OCTETS: u64 = 1 << 40;
