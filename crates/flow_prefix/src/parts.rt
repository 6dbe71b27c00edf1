//! The parts of an address's text, between its separators.
ghost use Rattle.std.specs.Prelude.{◌≡◌, ◌<◌, IfSome, IfSome, ◌∷◌, []};
ghost use Rattle.flow_prefix.specs.Family.{base};
ghost use Rattle.flow_prefix.specs.Reading.{part_of, parts_of, groups_of, each_part_of};
ghost use Rattle.flow_prefix.specs.Parts.{FitsFamily, added_parts, counted_parts};

use crate::family::Family;
use crate::scan::cut_at;
use numerals::{read_digits, read_number};

/// The greatest part of an address of IPv4.
const GREATEST_OCTET: u32 = 0xff;

/// The greatest part of an address of IPv6.
const GREATEST_GROUP: u32 = 0xffff;

/// The most digits of a part of an address of IPv6 (RFC 4291, section 2.2).
const GROUP_DIGITS: usize = 4;

/// The radix of these digits.
const HEXADECIMAL: u32 = 16;

/// The parts of an address read so far: how many, and the number that they make, the first the most
/// significant.
#[derive(Clone, Copy)]
pub(crate) struct Parts {
    /// How many parts were read.
    pub count: usize,
    /// The number that they make.
    pub value: u128,
}

#[tactic(auto, unfolding(crate::specs::Reading::part_of))]
/// One part of an address: a number from 0 to 255, or one to four hexadecimal digits.
fn read_part(family: Family, word: &[u8]) -> Option<u32>
    ensures value { result ≡ part_of family word.now }
    ensures bound { IfSome result (λ part. part < base family) }
{
    match family {
        Family::Ipv4 => read_number(word, GREATEST_OCTET),
        Family::Ipv6 => read_group(word),
    }
}

#[tactic(auto, unfolding(crate::specs::Reading::part_of))]
fn read_group(word: &[u8]) -> Option<u32>
    ensures value { result ≡ part_of Family.Ipv6 word.now }
    ensures bound { IfSome result (λ part. part < 65536) }
{
    if word.len() > GROUP_DIGITS {
        return None;
    }
    read_digits(word, HEXADECIMAL, GREATEST_GROUP)
}

/// These parts and the one that the word writes; `None` also where the family has no room for it.
fn with_word(family: Family, parts: Parts, word: &[u8]) -> Option<Parts>
    requires { FitsFamily family parts }
    ensures value { result ≡ added_parts family parts (each_part_of family (word.now ∷ [])) }
    ensures counted { IfSome result (λ more. FitsFamily family more) }
{
    let part = read_part(family, word)?;
    if parts.count == family.places() {
        return None;
    }
    Some(Parts {
        count: parts.count + 1,
        value: parts.value * family.base() + u128::from(part),
    })
}

/// The parts that a text writes with the separator between, if the family has room for them all.
pub(crate) fn read_parts(family: Family, text: &[u8]) -> Option<Parts>
    ensures value { result ≡ counted_parts family (parts_of family text.now) }
    ensures counted { IfSome result (λ parts. FitsFamily family parts) }
{
    let mut parts = Parts { count: 0, value: 0 };
    let mut rest = text;
    'words: while let Some((word, after)) = cut_at(rest, family.separator()) {
        parts = with_word(family, parts, word)?;
        rest = after;
    }
    with_word(family, parts, rest)
}

#[tactic(auto, unfolding(crate::specs::Reading::groups_of, crate::specs::Parts::added_parts))]
/// The groups of one side of a `::`, which may be none.
pub(crate) fn read_groups(text: &[u8]) -> Option<Parts>
    ensures value { result ≡ counted_parts Family.Ipv6 (groups_of text.now) }
    ensures counted { IfSome result (λ parts. FitsFamily Family.Ipv6 parts) }
{
    if text.is_empty() {
        return Some(Parts { count: 0, value: 0 });
    }
    read_parts(Family::Ipv6, text)
}
