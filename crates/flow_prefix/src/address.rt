//! Addresses, read from their texts (RFC 4291, section 2.2, for those of IPv6).
ghost use Rattle.std.specs.Prelude.{◌≡◌, ◌+◌, ◌-◌, ◌*◌, ◌<◌, ◌^◌, IfSome};
ghost use Rattle.flow_prefix.specs.Family.{width};
ghost use Rattle.flow_prefix.specs.Reading.{address_of, whole_number_of};
ghost use Rattle.flow_prefix.specs.Parts.{FitsFamily};

use crate::family::{Family, GROUP_VALUES};
use crate::parts::{Parts, read_groups, read_parts};
use crate::scan::cut_at_double;

/// How many groups of 16 bits an address of IPv6 has (RFC 4291, section 2.2).
const GROUPS: usize = 8;

/// The number of an address text of this family.
pub(crate) fn read_address(family: Family, text: &[u8]) -> Option<u128>
    ensures value { result ≡ address_of family text.now }
    ensures bound { IfSome result (λ address. address < 2 ^ width family) }
{
    match family {
        Family::Ipv4 => read_address4(text),
        Family::Ipv6 => read_address6(text),
    }
}

fn read_address4(text: &[u8]) -> Option<u128>
    ensures value { result ≡ address_of Family.Ipv4 text.now }
    ensures bound { IfSome result (λ address. address < 2 ^ 32) }
{
    read_whole(Family::Ipv4, text)
}

/// An address all of whose parts are written.
fn read_whole(family: Family, text: &[u8]) -> Option<u128>
    ensures value { result ≡ whole_number_of family text.now }
    ensures bound { IfSome result (λ address. address < 2 ^ width family) }
{
    let parts = read_parts(family, text)?;
    if parts.count != family.places() {
        return None;
    }
    Some(parts.value)
}

/// An IPv6 address, of which one `::` may stand for groups of zeros.
fn read_address6(text: &[u8]) -> Option<u128>
    ensures value { result ≡ address_of Family.Ipv6 text.now }
    ensures bound { IfSome result (λ address. address < 2 ^ 128) }
{
    let Some((before, after)) = cut_at_double(text) else {
        return read_whole(Family::Ipv6, text);
    };
    let left = read_groups(before)?;
    let right = read_groups(after)?;
    if left.count + right.count >= GROUPS {
        return None;
    }
    Some(filled(left, right))
}

/// The number of the eight groups that these make with zeros between.
fn filled(left: Parts, right: Parts) -> u128
    requires left_counted { FitsFamily Family.Ipv6 left }
    requires right_counted { FitsFamily Family.Ipv6 right }
    requires room { left.count + right.count < 8 }
    // The zeros stand between the two sides, and the whole is an address.
    ensures value { result ≡ left.value * 65536 ^ (8 - left.count) + right.value }
    ensures bound { result < 2 ^ 128 }
{
    let places = (GROUPS - 1 - left.count) as u32;
    left.value * GROUP_VALUES.pow(places) * GROUP_VALUES + right.value
}
