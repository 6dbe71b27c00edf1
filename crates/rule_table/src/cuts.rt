//! The cuts among all addresses: where a prefix that a rule names begins or ends.
ghost use Rattle.std.specs.Prelude.{◌≡◌, ◌≤◌, ◌+◌, ◌-◌, ◌*◌, ◌^◌, ◌++◌, length, min, IfOk, OnOk};
ghost use Rattle.std.specs.List.{flat_map};
ghost use Rattle.std.specs.List.Sorted.{IsNonDecreasing};
ghost use Rattle.rule_table.specs.Cuts.{bounds_of, cuts_at, cuts_named, cuts_of, HaveCuts, most_cuts};

use flow_prefix::{IPV4_BITS, IPV6_BITS, Prefix};
use policy_text::Rule;
use std::alloc::{AllocError, Global};

/// The first address and the last one inside a prefix.
#[derive(Clone, Copy, Debug)]
pub(crate) struct Bounds {
    /// The first address, as a number.
    pub first: u128,
    /// The last address, as a number.
    pub last: u128,
}

/// The cuts of all prefixes that these rules name, ascending, each once.
pub(crate) fn sorted_cuts(alloc: Global, rules: &[Rule]) -> Result<Vec<u128>, AllocError>
    requires { length rules.now ≤ 4096 }
    ensures ascending { IfOk result (λ cuts. IsNonDecreasing cuts.items) }
    ensures few { IfOk result (λ cuts. length cuts.items ≤ most_cuts) }
    ensures all { IfOk result (λ cuts. HaveCuts cuts.items rules.now) }
{
    let mut cuts = listed_cuts(alloc, rules)?;
    cuts.sort_unstable();
    cuts.dedup();
    Ok(cuts)
}

/// The cuts in the order of the rules.
fn listed_cuts(alloc: Global, rules: &[Rule]) -> Result<Vec<u128>, AllocError>
    ensures { IfOk result (λ cuts. cuts.items ≡ flat_map cuts_of rules.now) }
{
    let mut cuts = Vec::new(alloc);
    for rule in rules {
        put_rule(rule, &mut cuts)?;
    }
    Ok(cuts)
}

/// Adds the cuts of the prefixes that a rule names.
fn put_rule(rule: &Rule, cuts: &mut Vec<u128>) -> Result<(), AllocError>
    ensures { OnOk result (cuts.new.items ≡ cuts.old.items ++ cuts_of rule.now) }
{
    put_named(&rule.from, cuts)?;
    put_named(&rule.to, cuts)
}

/// Adds the cuts of a prefix, if there is one.
fn put_named(named: &Option<Prefix>, cuts: &mut Vec<u128>) -> Result<(), AllocError>
    ensures { OnOk result (cuts.new.items ≡ cuts.old.items ++ cuts_named named.now) }
{
    match named {
        Some(prefix) => put_cuts(bounds_of(prefix), cuts),
        None => Ok(()),
    }
}

/// Adds the cuts before and behind a prefix.
fn put_cuts(bounds: Bounds, cuts: &mut Vec<u128>) -> Result<(), AllocError>
    ensures { OnOk result (cuts.new.items ≡ cuts.old.items ++ cuts_at bounds) }
{
    if bounds.first > 0 {
        cuts.push(bounds.first - 1)?;
    }
    cuts.push(bounds.last)?;
    Ok(())
}

/// The first address and the last one inside a prefix.
fn bounds_of(prefix: &Prefix) -> Bounds
    ensures { result ≡ bounds_of prefix.now }
{
    match prefix {
        Prefix::V4(net) => bounds_in(IPV4_BITS, u128::from(net.address()), net.length()),
        Prefix::V6(net) => bounds_in(IPV6_BITS, net.address(), net.length()),
    }
}

/// The bounds of a prefix of `length` bits from the address `first` on, whose addresses have
/// `width` bits.
fn bounds_in(width: u32, first: u128, length: u8) -> Bounds
    requires { width ≤ 128 }
    ensures { result
        ≡ record { first = first; last = min (first + (2 ^ (width - length) - 1)) (2 ^ 128 - 1) } }
{
    let free = ones(width.saturating_sub(u32::from(length)));
    Bounds {
        first,
        last: first.saturating_add(free),
    }
}

/// The number whose binary digits are `bits` ones.
fn ones(bits: u32) -> u128
    requires { bits ≤ 128 }
    ensures { result ≡ 2 ^ bits - 1 }
{
    match 1u128.checked_shl(bits) {
        Some(unit) => unit - 1,
        None => u128::MAX,
    }
}
