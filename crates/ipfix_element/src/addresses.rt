//! The elements that hold the addresses of a flow, by their numbers in IANA's registry.

/// Where a flow comes from, in IPv4.
pub const SOURCE_IPV4_ADDRESS: u16 = 8;

/// Where a flow goes to, in IPv4.
pub const DESTINATION_IPV4_ADDRESS: u16 = 12;

/// Where a flow comes from, in IPv6.
pub const SOURCE_IPV6_ADDRESS: u16 = 27;

/// Where a flow goes to, in IPv6.
pub const DESTINATION_IPV6_ADDRESS: u16 = 28;
