//! What is found where a record is looked for.

/// Where a value lies in the octets that were split.
#[derive(Clone, Copy, Debug, PartialEq, Eq)]
pub struct Span {
    /// The place of the value's first octet, counted from 0.
    pub start: usize,
    /// How many octets the value has, without a length before it.
    pub length: usize,
}

/// What stands at the front of a Data Set's content (RFC 7011, section 3.3.1).
#[derive(Debug, Drop)]
pub enum Split {
    /// A record: its values, field by field, and the octets that it takes.
    Record { spans: Vec<Span>, used: usize },
    /// Fewer octets than the shortest record has.
    Padding,
    /// The beginning of a record that runs past the end.
    Overrun,
}

/// What stands at the front of a Data Set's content, as [`Split`] says it, but for the values.
#[derive(Clone, Copy, Debug, PartialEq, Eq)]
pub enum Extent {
    /// A record: the octets that it takes, and whether each of its values stands in its shortest text (RFC 7011,
    /// section 7).
    Record { used: usize, is_shortest: bool },
    /// Fewer octets than the shortest record has.
    Padding,
    /// The beginning of a record that runs past the end.
    Overrun,
}
