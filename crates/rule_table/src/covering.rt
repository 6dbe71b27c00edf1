//! A record's addresses in order, so that a prefix is held against all of them at once.
ghost use Rattle.std.specs.Prelude.{◌≡◌, length, filter, IfOk};
ghost use Rattle.std.specs.List.{list_any, list_all, filter_map};
ghost use Rattle.std.specs.List.Sorted.{IsNonDecreasing, IsPermutation};
ghost use Rattle.policy_judge.specs.Occurrences.{values_of};
ghost use Rattle.policy_judge.specs.Sides.{is_of};
ghost use Rattle.rule_table.specs.Addresses.{addresses_of};
ghost use Rattle.rule_table.specs.Covering.{has_first_bits, are_in, number_at_width};

use crate::addresses::{Address, first_bits};
use crate::index::from_bound;
use flow_prefix::{IPV4_BITS, IPV6_BITS, Prefix};
use ipfix_template::{FieldSpec, Record};
use policy_judge::Side;
use std::alloc::{AllocError, Global};
use std::marker::Model;

/// The addresses of a record on a side in order, so that a prefix is held against all of them at once. Contracts see the values
/// of the fields, whatever their lengths.
pub(crate) struct Sorted<'a> {
    flow_record: &'a Record,
    side: Side,
    /// How many fields of this side there are.
    count: usize,
    /// The numbers of those of 4 octets, ascending.
    narrow: Vec<u128>,
    /// The numbers of those of 16 octets, ascending.
    wide: Vec<u128>,
}

impl<'a> Drop for Sorted<'a> {
    fn drop(self) {
        let Sorted {
            flow_record: _,
            side: _,
            count: _,
            narrow: _,
            wide: _,
        } = self;
    }
}

impl<'a> Model for Sorted<'a> {
    ghost use Rattle.std.specs.Prelude.{ℕ, List};
    ghost use Rattle.policy_judge.specs.Occurrences.{values_of};
    ghost use Rattle.policy_judge.specs.Sides.{is_of};
    ghost use Rattle.rule_table.specs.Covering.{AreSortedNumbers};

    ghost Value = { List (List ℕ) };

    ghost view = { λ s. values_of (is_of s.side) s.flow_record.now };

    ghost invariant = { λ s. AreSortedNumbers
        (values_of (is_of s.side) s.flow_record.now) s.count s.narrow.items s.wide.items };
}

impl<'a> Sorted<'a> {
    ghost use Rattle.policy_judge.specs.Match.{are_inside};

    /// Of the addresses of a record on this side.
    pub(crate) fn of(
        alloc: Global,
        side: Side,
        flow_record: &'a Record,
        addresses: &[Address],
    ) -> Result<Sorted<'a>, AllocError>
        requires { addresses.now ≡ addresses_of side flow_record.now }
        ensures { IfOk result (λ sorted. sorted ≡ values_of (is_of side) flow_record.now) }
    {
        let narrow = ascending(alloc, addresses, IPV4_BITS)?;
        let wide = ascending(alloc, addresses, IPV6_BITS)?;
        Ok(Sorted {
            flow_record,
            side,
            count: count_of(side, flow_record),
            narrow,
            wide,
        })
    }

    /// Whether they are such as a rule that denies, or one that permits, needs for this prefix.
    pub(crate) fn are_inside(&self, denies: bool, prefix: &Prefix) -> bool
        ensures { result ≡ are_inside denies self.now prefix.now }
    {
        match prefix {
            Prefix::V4(net) => {
                let (length, address) = (u32::from(net.length()), u128::from(net.address()));
                are_in(&self.narrow, self.count, denies, IPV4_BITS, length, address)
            }
            Prefix::V6(net) => {
                let (length, address) = (u32::from(net.length()), net.address());
                are_in(&self.wide, self.count, denies, IPV6_BITS, length, address)
            }
        }
    }
}

/// How many fields of this side a record has.
fn count_of(side: Side, flow_record: &Record) -> usize
    ensures { result ≡ length (values_of (is_of side) flow_record.now) }
{
    count_in(flow_record.template().fields.as_slice(), side)
}

/// How many of these fields are of this side.
fn count_in(fields: &[FieldSpec], side: Side) -> usize
    ensures { result ≡ length (filter (λ f. is_of side f.element) fields.now) }
{
    fields
        .iter()
        .filter(|field| side.has(field.element))
        .count()
}

/// The numbers of those addresses that have `width` bits, ascending.
fn ascending(alloc: Global, addresses: &[Address], width: u32) -> Result<Vec<u128>, AllocError>
    ensures each { IfOk result
        (λ numbers. IsPermutation (filter_map (number_at_width width) addresses.now) numbers.items) }
    ensures ascending { IfOk result (λ numbers. IsNonDecreasing numbers.items) }
{
    let mut numbers = listed(alloc, addresses, width)?;
    numbers.sort_unstable();
    Ok(numbers)
}

/// The numbers of those addresses that have `width` bits, in their order.
fn listed(alloc: Global, addresses: &[Address], width: u32) -> Result<Vec<u128>, AllocError>
    ensures { IfOk result (λ numbers. numbers.items ≡ filter_map (number_at_width width) addresses.now) }
{
    addresses
        .iter()
        .filter_map(|address| number_in(*address, width))
        .collect(alloc)
}

/// The number of an address, if it has `width` bits.
fn number_in(address: Address, width: u32) -> Option<u128>
    ensures { result ≡ number_at_width width address }
{
    if address.width == width {
        Some(address.number)
    } else {
        None
    }
}

/// Whether numbers are such as a rule needs for a prefix. A rule that denies needs one inside.
/// Another one needs that there are `count` numbers, one for each value of the side, and that each
/// is inside.
fn are_in(
    numbers: &[u128],
    count: usize,
    denies: bool,
    width: u32,
    length: u32,
    address: u128,
) -> bool
    requires { IsNonDecreasing numbers.now }
    ensures { result ≡ are_in denies count width length address numbers.now }
{
    if denies {
        return some_in(numbers, width, length, address);
    }
    count > 0 && numbers.len() == count && each_in(numbers, width, length, address)
}

/// Whether some number is inside: the first that isn't below the prefix is, if any is.
fn some_in(numbers: &[u128], width: u32, length: u32, address: u128) -> bool
    requires { IsNonDecreasing numbers.now }
    ensures { result ≡ list_any (has_first_bits width length address) numbers.now }
{
    match from_bound(numbers, address).first() {
        Some(number) => is_in(width, length, address, *number),
        None => false,
    }
}

/// Whether each number is inside: the first and the last are, if all are.
fn each_in(numbers: &[u128], width: u32, length: u32, address: u128) -> bool
    requires { IsNonDecreasing numbers.now }
    ensures { result ≡ list_all (has_first_bits width length address) numbers.now }
{
    match numbers.first() {
        Some(first) => {
            is_in(width, length, address, *first)
                && is_in(width, length, address, numbers[numbers.len() - 1])
        }
        None => true,
    }
}

/// Whether a number has the first bits of a prefix.
fn is_in(width: u32, length: u32, address: u128, number: u128) -> bool
    ensures { result ≡ has_first_bits width length address number }
{
    first_bits(width, length, number) == address
}
