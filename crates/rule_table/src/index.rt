//! A table's entries, each a mark with a rule's place, in which a mark is found by halving.
ghost use Rattle.std.specs.Prelude.{◌≡◌, ◌<◌, ◌≤◌, ℕ, ◌%◌, ◌^◌, ◌++◌, length, map, slice_index, IfOk, OnOk};
ghost use Rattle.std.specs.List.{Contains};
ghost use Rattle.std.specs.List.Sorted.{IsNonDecreasing};
ghost use Rattle.rule_table.specs.Index.{entry, StandEach};

use crate::marks::SPAN;
use crate::rarest::{all_marks, rarest_mark};
use policy_text::Rule;
use std::alloc::{AllocError, Global};

/// The entries of rules, ascending: each rule stands under one of its marks, that which fewest rules have.
pub(crate) fn entries_of(alloc: Global, rules: &[Rule]) -> Result<Vec<u128>, AllocError>
    ensures each { IfOk result (λ entries. StandEach rules.now entries.items) }
    ensures ascending { IfOk result (λ entries. IsNonDecreasing entries.items) }
{
    let all = all_marks(alloc, rules)?;
    let mut entries = listed(alloc, rules, &all)?;
    entries.sort_unstable();
    Ok(entries)
}

/// The entries in the order of the rules, by the marks of all of them.
fn listed(alloc: Global, rules: &[Rule], all: &[u64]) -> Result<Vec<u128>, AllocError>
    ensures { IfOk result (λ entries. StandEach rules.now entries.items) }
{
    let mut entries = Vec::with_capacity(alloc, rules.len())?;
    for (place, rule) in rules.iter().enumerate() {
        entries.push(entry(rarest_mark(rule, all), place))?;
    }
    Ok(entries)
}

/// A mark and a place as one number.
fn entry(mark: u64, place: usize) -> u128
    ensures { result ≡ entry mark place }
{
    u128::from(mark) * SPAN + place as u128
}

/// The places, ascending, that stand under one of these marks. A mark is looked up once, however often it stands there, so
/// that no place is found twice.
pub(crate) fn places_under(
    alloc: Global,
    entries: &[u128],
    marks: Vec<u64>,
) -> Result<Vec<usize>, AllocError>
    requires { IsNonDecreasing entries.now }
    ensures each { IfOk result (λ places. (mark place : ℕ) → place < 4096
        → Contains marks.items mark
        → Contains entries.now (entry mark place) → Contains places.items place) }
    ensures ascending { IfOk result (λ places. IsNonDecreasing places.items) }
{
    let marks = each_once(marks);
    let mut places = gathered(alloc, entries, &marks)?;
    places.sort_unstable();
    Ok(places)
}

/// The marks, each once.
fn each_once(marks: Vec<u64>) -> Vec<u64>
    ensures { (mark : ℕ) → Contains marks.items mark → Contains result.items mark }
{
    let mut marks = marks;
    marks.sort_unstable();
    marks.dedup();
    marks
}

/// The places that stand under these marks, mark by mark.
fn gathered(alloc: Global, entries: &[u128], marks: &[u64]) -> Result<Vec<usize>, AllocError>
    requires { IsNonDecreasing entries.now }
    ensures { IfOk result (λ places. (mark place : ℕ) → place < 4096 → Contains marks.now mark
        → Contains entries.now (entry mark place) → Contains places.items place) }
{
    let mut places = Vec::new(alloc);
    for mark in marks {
        put_places(under(entries, *mark), &mut places)?;
    }
    Ok(places)
}

/// Adds the places of these entries.
fn put_places(entries: &[u128], places: &mut Vec<usize>) -> Result<(), AllocError>
    ensures { OnOk result
        (places.new.items ≡ places.old.items ++ map (λ entry. entry % 2 ^ 64) entries.now) }
{
    for entry in entries {
        places.push((*entry % SPAN) as usize)?;
    }
    Ok(())
}

/// The entries under a mark.
fn under(entries: &[u128], mark: u64) -> &[u128]
    requires { IsNonDecreasing entries.now }
    ensures { (place : ℕ) → place < 4096
        → Contains entries.now (entry mark place) → Contains result.now (entry mark place) }
{
    // Rules are few, so that none stands at the very last place.
    let low = entry(mark, 0);
    let rest = from_bound(entries, low);
    &rest[..count_below(rest, low + (SPAN - 1))]
}

/// The entries that aren't below a bound.
pub(crate) fn from_bound(entries: &[u128], bound: u128) -> &[u128]
    requires { IsNonDecreasing entries.now }
    ensures ascending { IsNonDecreasing result.now }
    // They are those of the entries that aren't below the bound, and all of these.
    ensures among { (entry : ℕ) → Contains result.now entry → Contains entries.now entry }
    ensures above { (entry : ℕ) → Contains result.now entry → bound ≤ entry }
    ensures kept { (entry : ℕ) → bound ≤ entry
        → Contains entries.now entry → Contains result.now entry }
{
    &entries[count_below(entries, bound)..]
}

/// How many entries are below a bound.
fn count_below(entries: &[u128], bound: u128) -> usize
    requires { IsNonDecreasing entries.now }
    ensures within { result ≤ length entries.now }
    ensures below { (k : ℕ) → k < result → slice_index entries.now k < bound }
    ensures above { (k : ℕ) → result ≤ k
        → k < length entries.now → bound ≤ slice_index entries.now k }
{
    entries.partition_point(|entry| *entry < bound)
}
