//! The classes of addresses that the prefixes of rules make.
ghost use Rattle.std.specs.Prelude.{◌≡◌, ◌≤◌, length, Some, IfOk, IfSome};
ghost use Rattle.std.specs.List.{fold, zip};
ghost use Rattle.std.specs.List.Sorted.{IsNonDecreasing};
ghost use Rattle.sequences.specs.Octets.{be_value};
ghost use Rattle.policy_judge.specs.Sides.{is_of};
ghost use Rattle.policy_judge.specs.Occurrences.{values_of};
ghost use Rattle.rule_table.specs.Cuts.{AreCuts, HaveCuts, most_cuts};
ghost use Rattle.rule_table.specs.Classes.{class_of, digit_of, with_digit, with_field, class_key};
ghost use Rattle.rule_table.specs.Spans.{IsSpan, IsAmong, IsWideSpan, IsWideAmong};

use crate::cuts::sorted_cuts;
use crate::heads::{Heads, head_bits};
use crate::narrow::NarrowCuts;
use crate::span::{Span, WideSpan};
use crate::wide::wide_span_at;
use flow_prefix::{IPV4_OCTETS, IPV6_BITS, IPV6_OCTETS};
use ipfix_template::Record;
use policy_judge::Side;
use policy_text::Rule;
use std::alloc::{AllocError, Global};
use std::marker::Model;

/// The key of no value.
pub(crate) const EMPTY_KEY: u64 = 1;

/// One above the greatest digit of a key.
const DIGITS: u64 = 0x1_0000;

/// Keys of fewer than three digits are below this.
const FULL_KEY: u64 = 0x1_0000_0000_0000;

/// Where an address lies among the bounds of the prefixes that rules name. Contracts see the cuts.
pub struct AddressClasses {
    /// Before and behind each prefix, ascending.
    cuts: Vec<u128>,
    /// Those among which an address of IPv4 lies.
    narrow: NarrowCuts,
    /// How many are below an address of IPv6, as far as its first bits say.
    heads: Heads,
}

impl Drop for AddressClasses {
    // Written out: a derived one is proved anew in each crate that drops such a value.
    fn drop(self) {
        let AddressClasses {
            cuts: _,
            narrow: _,
            heads: _,
        } = self;
    }
}

impl Model for AddressClasses {
    ghost use Rattle.std.specs.Prelude.{ℕ, List};
    ghost use Rattle.rule_table.specs.Narrow.{AreKeptCuts};

    ghost Value = { List ℕ };

    ghost view = { λ c. c.cuts.items };

    ghost invariant = { λ c. AreKeptCuts c.cuts.items c.narrow c.heads };
}

impl AddressClasses {
    /// The classes that the prefixes of `rules`, at most 4,096, make, in memory from `alloc`.
    ///
    /// # Errors
    /// Want of memory.
    pub fn of_rules(alloc: Global, rules: &[Rule]) -> Result<AddressClasses, AllocError>
        requires { length rules.now ≤ 4096 }
        ensures { IfOk result (λ classes. HaveCuts classes rules.now) }
    {
        let cuts = sorted_cuts(alloc, rules)?;
        let narrow = NarrowCuts::of(alloc, &cuts)?;
        let bits = head_bits(wide_count(&cuts));
        let heads = Heads::of(alloc, &cuts, IPV6_BITS, bits)?;
        Ok(AddressClasses {
            cuts,
            narrow,
            heads,
        })
    }

    /// The cuts, ascending: addresses behind which a prefix begins, or ends.
    pub fn cuts(&self) -> &[u128]
        ensures value { result.now ≡ self.now }
        ensures sound { AreCuts self.now }
    {
        self.cuts.as_slice()
    }

    /// The key of the classes of those addresses of the record `flow_record` that are of `side`, in
    /// their order. `None` where there are more than three.
    pub fn key(&self, side: Side, flow_record: &Record) -> Option<u64>
        ensures few { length self.now ≤ most_cuts }
        ensures key { result ≡ class_key self.now (values_of (is_of side) flow_record.now) }
    {
        // What is read of the cuts has what their type keeps of them, as `few` says.
        let _for_proof = self.cuts.len();
        key_of_fields(self, side, flow_record)
    }

    /// The class of a value, odd for 4 octets and even for 16; 0 for a value that is no address.
    #[tactic(auto, unfolding(crate::specs::Classes::digit_of))]
    pub(crate) fn digit(&self, octets: &[u8]) -> u16
        ensures { result ≡ digit_of self.now octets.now }
    {
        if octets.len() == IPV4_OCTETS {
            return self.narrow_class(narrow_number(octets)) * 2 + 1;
        }
        if octets.len() == IPV6_OCTETS {
            return self.class(wide_number(octets)) * 2 + 2;
        }
        0
    }

    /// How many cuts are below an address.
    fn class(&self, address: u128) -> u16
        ensures class { result ≡ class_of self.now address }
        ensures few { result ≤ most_cuts }
    {
        let (low, high) = self.heads.bounds((address >> self.heads.shift) as usize);
        count_within(&self.cuts, low, high, address) as u16
    }

    /// The class of an address of IPv6, where its first bits say it.
    pub(crate) fn known_wide_class(&self, address: u128) -> Option<u16>
        ensures class { IfSome result (λ class. class ≡ class_of self.now address) }
        ensures few { IfSome result (λ class. class ≤ most_cuts) }
    {
        self.heads.class((address >> self.heads.shift) as usize)
    }

    /// The addresses about one that have its class: those between the cuts beside it.
    pub(crate) fn wide_span_of(&self, address: u128) -> WideSpan
        ensures span { IsWideSpan self.now result }
        ensures among { IsWideAmong address result }
    {
        let class = self.class(address);
        wide_span_at(&self.cuts, class, address)
    }

    /// The class of an address of IPv4, where its first bits say it.
    pub(crate) fn known_class(&self, address: u32) -> Option<u16>
        ensures class { IfSome result (λ class. class ≡ class_of self.now address) }
        ensures few { IfSome result (λ class. class ≤ most_cuts) }
    {
        self.narrow.known_class(address)
    }

    /// The addresses of IPv4 about one that have its class: those between the cuts beside it.
    pub(crate) fn span_of(&self, address: u32) -> Span
        ensures span { IsSpan self.now result }
        ensures among { IsAmong address result }
    {
        self.narrow.span_of(address)
    }

    /// How many cuts are below an address of IPv4.
    fn narrow_class(&self, address: u32) -> u16
        ensures class { result ≡ class_of self.now address }
        ensures few { result ≤ most_cuts }
    {
        self.narrow.class(address)
    }
}

/// The number that 4 octets write, the most significant first.
pub(crate) fn narrow_number(octets: &[u8]) -> u32
    requires { length octets.now ≡ 4 }
    ensures { result ≡ be_value octets.now }
{
    u32::from_be_bytes([octets[0], octets[1], octets[2], octets[3]])
}

/// The number that 16 octets write, the most significant first.
pub(crate) fn wide_number(octets: &[u8]) -> u128
    requires { length octets.now ≡ 16 }
    ensures { result ≡ be_value octets.now }
{
    u128::from_be_bytes([
        octets[0], octets[1], octets[2], octets[3], octets[4], octets[5], octets[6], octets[7],
        octets[8], octets[9], octets[10], octets[11], octets[12], octets[13], octets[14],
        octets[15],
    ])
}

/// One above the highest address of IPv4.
const ABOVE4: u128 = 0x1_0000_0000;

/// How many of ascending cuts are above the addresses of IPv4.
fn wide_count(cuts: &[u128]) -> usize {
    cuts.len()
        .saturating_sub(cuts.partition_point(|cut| *cut < ABOVE4))
}

/// How many of ascending cuts are below an address, where these are `low` at least and `high` at most.
fn count_within(cuts: &[u128], low: usize, high: usize, address: u128) -> usize
    requires ascending { IsNonDecreasing cuts.now }
    requires low { low ≤ class_of cuts.now address }
    requires high { class_of cuts.now address ≤ high }
    ensures class { result ≡ class_of cuts.now address }
    ensures within { result ≤ length cuts.now }
{
    let end = high.min(cuts.len());
    low + count_below(&cuts[low..end], address)
}

/// How many of ascending numbers are below a bound.
fn count_below(numbers: &[u128], bound: u128) -> usize
    requires { IsNonDecreasing numbers.now }
    ensures class { result ≡ class_of numbers.now bound }
    ensures within { result ≤ length numbers.now }
{
    numbers.partition_point(|number| *number < bound)
}

/// The key of those values whose fields are of this side.
fn key_of_fields(classes: &AddressClasses, side: Side, flow_record: &Record) -> Option<u64>
    ensures { result ≡ fold (with_field classes.now side)
        (Some 1) (zip flow_record.now.template.fields flow_record.now.values) }
{
    flow_record
        .entries()
        .fold(Some(EMPTY_KEY), |key, (field, value)| {
            if side.has(field.element) {
                with_digit(key, classes.digit(value))
            } else {
                key
            }
        })
}

/// A key with one digit more, if it has fewer than three.
pub(crate) fn with_digit(key: Option<u64>, digit: u16) -> Option<u64>
    ensures { result ≡ with_digit key digit }
{
    match key {
        Some(key) if key < FULL_KEY => Some(key * DIGITS + u64::from(digit)),
        _ => None,
    }
}
