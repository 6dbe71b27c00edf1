//! What prefixes of the two families hold: an address, and how many of its first bits count.
ghost use Rattle.std.specs.Prelude.{◌≡◌, Bool, ◌==◌, ◌&&◌, ◌/◌, ◌%◌, ◌^◌, ◌<◌, length, IfOk, string_bytes};
ghost use Rattle.sequences.specs.Octets.{be_value};
ghost use Rattle.flow_prefix.specs.Net.{is_inside, IsNet};
ghost use Rattle.flow_prefix.specs.Printing.{net_text};

use crate::bits::{first_bits, number};
use crate::family::{Family, GROUP_VALUES, IPV4_OCTETS, IPV6_OCTETS};
use std::alloc::{AllocError, Global};
use std::marker::Model;

/// A prefix of IPv4: an address whose bits past the length, of at most 32, are 0.
#[derive(Clone, Copy, Debug, PartialEq, Eq)]
pub struct Prefix4 {
    address: u32,
    length: u8,
}

impl Model for Prefix4 {
    ghost use Rattle.flow_prefix.specs.Net.{Net, IsNet};

    ghost Value = { Net };

    ghost view = { λ p. record { address = p.address; length = p.length } };

    ghost invariant = { λ p. IsNet 32 p.address p.length };

    ghost inverse = { λ n. record { address = n.address; length = n.length } };
}

/// A prefix of IPv6: an address whose bits past the length, of at most 128, are 0.
#[derive(Clone, Copy, Debug, PartialEq, Eq)]
pub struct Prefix6 {
    address: u128,
    length: u8,
}

impl Model for Prefix6 {
    ghost use Rattle.flow_prefix.specs.Net.{Net, IsNet};

    ghost Value = { Net };

    ghost view = { λ p. record { address = p.address; length = p.length } };

    ghost invariant = { λ p. IsNet 128 p.address p.length };

    ghost inverse = { λ n. record { address = n.address; length = n.length } };
}

impl Prefix4 {
    /// The prefix of this address and length.
    pub(crate) fn new(address: u32, length: u8) -> Self
        requires { IsNet 32 address length }
        ensures { result ≡ record { address = address; length = length } }
    {
        Prefix4 { address, length }
    }

    /// The address, whose bits past the length are 0.
    pub fn address(&self) -> u32
        ensures { result ≡ self.now.address }
    {
        self.address
    }

    /// How many of the address's bits count, of 32.
    pub fn length(&self) -> u8
        ensures { result ≡ self.now.length }
    {
        self.length
    }

    /// Whether `octets` are an address of IPv4 whose first bits are those of the prefix.
    pub(crate) fn contains(&self, octets: &[u8]) -> bool
        ensures { result ≡ (length octets.now == 4 && is_inside 32 self.now (be_value octets.now)) }
    {
        if octets.len() != IPV4_OCTETS {
            return false;
        }
        let width = Family::Ipv4.width();
        first_bits(width, u32::from(self.length), number(octets)) == u128::from(self.address)
    }

    /// The text in dotted decimal, in memory from `alloc`.
    ///
    /// # Errors
    /// Want of memory.
    pub(crate) fn print(&self, alloc: Global) -> Result<String, AllocError>
        ensures text { IfOk result (λ text. string_bytes text ≡ net_text Family.Ipv4 self.now) }
        ensures sound { IsNet 32 self.now.address self.now.length }
    {
        let [first, second, third, fourth] = self.address.to_be_bytes();
        let length = self.length;
        format!(in alloc; "{first}.{second}.{third}.{fourth}/{length}")
    }
}

impl Prefix6 {
    /// The prefix of this address and length.
    pub(crate) fn new(address: u128, length: u8) -> Self
        requires { IsNet 128 address length }
        ensures { result ≡ record { address = address; length = length } }
    {
        Prefix6 { address, length }
    }

    /// The address, whose bits past the length are 0.
    pub fn address(&self) -> u128
        ensures { result ≡ self.now.address }
    {
        self.address
    }

    /// How many of the address's bits count, of 128.
    pub fn length(&self) -> u8
        ensures { result ≡ self.now.length }
    {
        self.length
    }

    /// Whether `octets` are an address of IPv6 whose first bits are those of the prefix.
    pub(crate) fn contains(&self, octets: &[u8]) -> bool
        ensures { result
            ≡ (length octets.now == 16 && is_inside 128 self.now (be_value octets.now)) }
    {
        if octets.len() != IPV6_OCTETS {
            return false;
        }
        let width = Family::Ipv6.width();
        first_bits(width, u32::from(self.length), number(octets)) == self.address
    }

    /// The text of eight groups in lower case, in memory from `alloc`.
    ///
    /// # Errors
    /// Want of memory.
    pub(crate) fn print(&self, alloc: Global) -> Result<String, AllocError>
        ensures text { IfOk result (λ text. string_bytes text ≡ net_text Family.Ipv6 self.now) }
        ensures sound { IsNet 128 self.now.address self.now.length }
    {
        let n = self.address;
        let (a, b, c, d) = (group(n, 7), group(n, 6), group(n, 5), group(n, 4));
        let (e, f, g, h) = (group(n, 3), group(n, 2), group(n, 1), group(n, 0));
        let length = self.length;
        format!(in alloc; "{a:x}:{b:x}:{c:x}:{d:x}:{e:x}:{f:x}:{g:x}:{h:x}/{length}")
    }
}

/// The group of an address at this place, counted from the last.
fn group(address: u128, place: u32) -> u16
    requires { place < 8 }
    ensures { result ≡ address / 65536 ^ place % 65536 }
{
    (address / GROUP_VALUES.pow(place) % GROUP_VALUES) as u16
}
