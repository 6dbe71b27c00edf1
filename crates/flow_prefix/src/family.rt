//! The two families of addresses, and how wide an address of each is.
ghost use Rattle.std.specs.Prelude.{◌≡◌};

/// The octets of an address of IPv4.
pub const IPV4_OCTETS: usize = 4;

/// The octets of an address of IPv6.
pub const IPV6_OCTETS: usize = 16;

/// How many values a group of an address of IPv6 has, of which its text has eight.
pub const GROUP_VALUES: u128 = 0x1_0000;

/// The bits of an address of IPv4.
pub const IPV4_BITS: u32 = 32;

/// The bits of an address of IPv6.
pub const IPV6_BITS: u32 = 128;

/// The two families of addresses.
#[derive(Clone, Copy, Debug, PartialEq, Eq)]
pub enum Family {
    /// IPv4: 4 octets, 32 bits.
    Ipv4,
    /// IPv6: 16 octets, 128 bits (RFC 4291, section 2).
    Ipv6,
}

impl Family {
    ghost use Rattle.flow_prefix.specs.Family.{width, places, base, separator};

    /// The bits of an address: 32 or 128.
    pub fn width(self) -> u32
        ensures { result ≡ width self }
    {
        match self {
            Family::Ipv4 => IPV4_BITS,
            Family::Ipv6 => IPV6_BITS,
        }
    }

    /// How many parts the text of an address has: octets of IPv4, groups of 16 bits of IPv6.
    pub(crate) fn places(self) -> usize
        ensures { result ≡ places self }
    {
        match self {
            Family::Ipv4 => 4,
            Family::Ipv6 => 8,
        }
    }

    /// One above the greatest part.
    pub(crate) fn base(self) -> u128
        ensures { result ≡ base self }
    {
        match self {
            Family::Ipv4 => 0x100,
            Family::Ipv6 => 0x1_0000,
        }
    }

    /// What stands between two parts of an address.
    pub(crate) fn separator(self) -> u8
        ensures { result ≡ separator self }
    {
        match self {
            Family::Ipv4 => b'.',
            Family::Ipv6 => b':',
        }
    }
}
