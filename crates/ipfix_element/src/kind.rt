//! What the values of an element are.

/// How the values of an information element are to be read (RFC 7012, section 3.1, in the classes
/// of this profile).
#[derive(Clone, Copy, Debug, PartialEq, Eq, PartialOrd, Ord, Hash)]
pub enum Kind {
    /// An unsigned number of 1 octet.
    U8,
    /// An unsigned number of at most 2 octets.
    U16,
    /// An unsigned number of at most 4 octets.
    U32,
    /// An unsigned number of at most 8 octets.
    U64,
    /// An IPv4 address.
    Ipv4,
    /// An IPv6 address.
    Ipv6,
    /// A MAC address.
    Mac,
    /// A time in seconds since 1970.
    Seconds,
    /// A time in milliseconds since 1970.
    Millis,
    /// Text in UTF-8.
    Text,
    /// Octets without further meaning.
    Octets,
}
