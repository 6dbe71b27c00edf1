//! Prefixes of either family: read from texts, written as texts, and asked for values.
ghost use Rattle.std.specs.Prelude.{◌≡◌, ◌↔◌, ℕ, Bool, ◌^◌, ◌<◌, Ok, Err, IfOk, IsErrOf, string_bytes};
ghost use Rattle.flow_prefix.specs.Family.{width};
ghost use Rattle.flow_prefix.specs.Reading.{prefix_of, checked_prefix};

use crate::address::read_address;
use crate::bits::first_bits;
use crate::family::Family;
use crate::fault::Fault;
use crate::net::{Prefix4, Prefix6};
use crate::scan::cut_at;
use numerals::read_number;
use std::alloc::{AllocError, Global};

/// The greatest number of three digits, as many as a length may have.
const GREATEST_LENGTH: u32 = 999;

/// A prefix of either family.
#[derive(Clone, Copy, Debug, PartialEq, Eq)]
pub enum Prefix {
    /// A prefix of IPv4.
    V4(Prefix4),
    /// A prefix of IPv6.
    V6(Prefix6),
}

impl Prefix {
    ghost use Rattle.flow_prefix.specs.Text.{IsReadAs};
    ghost use Rattle.flow_prefix.specs.Printing.{prefix_text};
    ghost use Rattle.flow_prefix.specs.Prefixes.{contains};

    /// The prefix that `text` writes: an address, `/` and a length (RFC 4291, section 2.3). An IPv4
    /// address is four decimal numbers. An IPv6 address is eight groups of hexadecimal digits,
    /// where one `::` may stand for one or more groups of zeros (RFC 4291, section 2.2, without its
    /// form with a dotted address).
    ///
    /// # Errors
    /// - `BadText` where the text has another form.
    /// - `BadLength`, else, where the length is above the family's width.
    /// - `HostBits`, else, where a bit of the address behind the length is set.
    pub fn parse(text: &str) -> Result<Prefix, Fault>
        ensures { IsReadAs text.now result }
    {
        Prefix::parse_ascii(text.as_bytes())
    }

    /// The prefix that the octets `text` write, as [`parse`](Prefix::parse) reads it.
    ///
    /// # Errors
    /// Those of [`parse`](Prefix::parse).
    pub fn parse_ascii(text: &[u8]) -> Result<Prefix, Fault>
        ensures { IsReadAs text.now result }
    {
        read_prefix(text)
    }

    /// Whether `octets` are an address of the prefix's family, 4 or 16 octets, whose first bits are
    /// those of the prefix.
    pub fn contains(&self, octets: &[u8]) -> bool
        ensures { result ≡ contains self.now octets.now }
    {
        match self {
            Prefix::V4(net) => net.contains(octets),
            Prefix::V6(net) => net.contains(octets),
        }
    }

    /// The canonical text, in memory from `alloc`: IPv4 in dotted decimal; IPv6 as eight groups in
    /// lower case without leading zeros and without `::`.
    ///
    /// # Errors
    /// Want of memory for the text.
    pub fn print(&self, alloc: Global) -> Result<String, AllocError>
        ensures text { IfOk result (λ text. string_bytes text ≡ prefix_text self.now) }
        ensures reads_back { IfOk result (λ text. prefix_of (string_bytes text) ≡ Ok self.now) }
    {
        match self {
            Prefix::V4(net) => net.print(alloc),
            Prefix::V6(net) => net.print(alloc),
        }
    }
}

/// The reading of a prefix: its address first, then its length, then its host bits.
#[tactic(auto, unfolding(crate::specs::Reading::prefix_of))]
fn read_prefix(text: &[u8]) -> Result<Prefix, Fault>
    ensures { result ≡ prefix_of text.now }
{
    let Some((address, length)) = cut_at(text, b'/') else {
        return Err(Fault::BadText);
    };
    let Some(bits) = read_number(length, GREATEST_LENGTH) else {
        return Err(Fault::BadText);
    };
    if let Some(number) = read_address(Family::Ipv4, address) {
        return judge(Family::Ipv4, number, bits);
    }
    match read_address(Family::Ipv6, address) {
        Some(number) => judge(Family::Ipv6, number, bits),
        None => Err(Fault::BadText),
    }
}

/// The prefix of an address and a length, or the fault of the two.
#[tactic(auto, unfolding(crate::specs::Reading::checked_prefix))]
fn judge(family: Family, address: u128, bits: u32) -> Result<Prefix, Fault>
    requires { address < 2 ^ width family }
    ensures { result ≡ checked_prefix family address bits }
{
    if bits > family.width() {
        return Err(Fault::BadLength);
    }
    if first_bits(family.width(), bits, address) != address {
        return Err(Fault::HostBits);
    }
    Ok(match family {
        Family::Ipv4 => Prefix::V4(Prefix4::new(address as u32, bits as u8)),
        Family::Ipv6 => Prefix::V6(Prefix6::new(address, bits as u8)),
    })
}
