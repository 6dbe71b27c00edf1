//! The addresses of IPv6 between two cuts.
ghost use Rattle.std.specs.Prelude.{◌≡◌, ◌≤◌, ◌<◌, ℕ, length, slice_index};
ghost use Rattle.std.specs.List.Sorted.{IsNonDecreasing};
ghost use Rattle.rule_table.specs.Cuts.{most_cuts};
ghost use Rattle.rule_table.specs.Classes.{class_of};
ghost use Rattle.rule_table.specs.Spans.{IsWideSpan, IsWideAmong};

use crate::span::WideSpan;

/// The addresses between the cuts beside an address, which has `class` cuts below it.
pub(crate) fn wide_span_at(cuts: &[u128], class: u16, address: u128) -> WideSpan
    requires ascending { IsNonDecreasing cuts.now }
    requires few { length cuts.now ≤ most_cuts }
    requires class { class ≡ class_of cuts.now address }
    // They have one class, and the address is among them.
    ensures span { IsWideSpan cuts.now result }
    ensures among { IsWideAmong address result }
{
    WideSpan {
        first: first_of_class(cuts, class, address),
        last: last_of_class(cuts, class, address),
        class,
    }
}

/// The first address of the class of an address.
fn first_of_class(cuts: &[u128], class: u16, address: u128) -> u128
    requires ascending { IsNonDecreasing cuts.now }
    requires class { class ≡ class_of cuts.now address }
    ensures above { result ≤ address }
    ensures each { (k other : ℕ) → k < class → result ≤ other → slice_index cuts.now k < other }
{
    let place = usize::from(class);
    if place > 0 { cuts[place - 1] + 1 } else { 0 }
}

/// The last address of the class of an address.
fn last_of_class(cuts: &[u128], class: u16, address: u128) -> u128
    requires ascending { IsNonDecreasing cuts.now }
    requires class { class ≡ class_of cuts.now address }
    ensures below { address ≤ result }
    ensures each { (k other : ℕ) → class ≤ k
        → k < length cuts.now → other ≤ result → other ≤ slice_index cuts.now k }
{
    let place = usize::from(class);
    if place < cuts.len() {
        cuts[place]
    } else {
        u128::MAX
    }
}
