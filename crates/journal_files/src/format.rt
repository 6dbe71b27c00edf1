//! The numbers of the file format: the magic number, the version, and the kinds of entries.

/// The letters `IPMJ` with which a file begins, as a number in 4 octets in network byte order.
pub(crate) const MAGIC: u32 = 0x4950_4d4a;

/// The version of the format, in 2 octets behind the magic number.
pub(crate) const VERSION: u16 = 1;

/// The octet with which an entry begins is its kind. This is that of a session's beginning.
pub(crate) const OPEN: u8 = 1;

/// The kind of a session's end.
pub(crate) const CLOSE: u8 = 2;

/// The kind of a message.
pub(crate) const MESSAGE: u8 = 3;

/// The kind of a policy's edit.
pub(crate) const EDIT: u8 = 4;

/// The kind of a subscription's beginning.
pub(crate) const SUBSCRIBE: u8 = 5;

/// The kind of a subscription's end.
pub(crate) const UNSUBSCRIBE: u8 = 6;

/// The kind of an advance of the clock.
pub(crate) const ADVANCE: u8 = 7;

/// The kind of a subscription's cut.
pub(crate) const CUT: u8 = 8;
