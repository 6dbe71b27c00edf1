//! The cuts among the addresses of IPv4, and how many of them are below one: most addresses are of IPv4.
ghost use Rattle.std.specs.Prelude.{◌≡◌, ◌≤◌, ◌<◌, ◌+◌, ◌*◌, ◌-◌, ◌^◌, ℕ, length, slice_index, IfOk, IfSome, OnOk};
ghost use Rattle.std.specs.List.Sorted.{IsNonDecreasing};
ghost use Rattle.rule_table.specs.Cuts.{most_cuts, narrow_cuts};
ghost use Rattle.rule_table.specs.Classes.{class_of};
ghost use Rattle.rule_table.specs.Narrow.{AreTops, AreBlocks, IsBlock, AreNarrowed};
ghost use Rattle.rule_table.specs.Spans.{IsSpan, IsAmong};

use crate::heads::{Heads, head_bits};
use crate::span::Span;
use flow_prefix::IPV4_BITS;
use std::alloc::{AllocError, Global};
use std::marker::Model;

/// One above the highest address of IPv4.
const ABOVE4: u128 = 0x1_0000_0000;

/// How many cuts stand from one top to the next. This many are counted faster than they are
/// searched by halves, where a processor guesses at each step which half is next.
const BLOCK: usize = 16;

/// How many cuts stand from one summit to the next.
const BLOCKS: usize = BLOCK * BLOCK;

/// Cuts below 2^32, ascending, and behind them the highest address as often as fills the last block: it is below none, so that it
/// counts nowhere. Contracts see the list of all.
#[derive(Drop)]
pub(crate) struct NarrowCuts {
    /// One block, or whole [`BLOCKS`].
    cuts: Vec<u32>,
    /// Each 16th of them, from the first on.
    tops: Vec<u32>,
    /// Each 16th of those.
    summits: Vec<u32>,
    /// How many of the cuts are below an address, as far as its first bits say.
    heads: Heads,
}

impl Model for NarrowCuts {
    ghost use Rattle.std.specs.Prelude.{ℕ, List};
    ghost use Rattle.rule_table.specs.Narrow.{AreNarrowBy};

    ghost Value = { List ℕ };

    ghost view = { λ c. c.cuts.items };

    ghost invariant = { λ c. AreNarrowBy c.heads c.cuts.items c.tops.items c.summits.items };
}

impl NarrowCuts {
    /// Those of ascending cuts that are below 2^32: an address of IPv4 has as many of them below it as of all cuts.
    ///
    /// # Errors
    /// Want of memory.
    pub(crate) fn of(alloc: Global, cuts: &[u128]) -> Result<NarrowCuts, AllocError>
        requires ascending { IsNonDecreasing cuts.now }
        requires few { length cuts.now ≤ most_cuts }
        ensures { IfOk result (AreNarrowed cuts.now) }
    {
        let mut narrow = narrow_cuts(alloc, cuts)?;
        let count = narrow.len();
        let heads = Heads::of(alloc, cuts, IPV4_BITS, head_bits(count))?;
        fill(&mut narrow, whole_blocks(count))?;
        let tops = tops_of(alloc, &narrow)?;
        let summits = tops_of(alloc, &tops)?;
        Ok(NarrowCuts {
            cuts: narrow,
            tops,
            summits,
            heads,
        })
    }

    /// How many of the cuts are below an address, where its first bits say so.
    pub(crate) fn known_class(&self, address: u32) -> Option<u16>
        ensures class { IfSome result (λ class. class ≡ class_of self.now address) }
        ensures few { IfSome result (λ class. class ≤ most_cuts) }
    {
        self.heads.class((address >> self.heads.shift) as usize)
    }

    /// How many of the cuts are below an address at least, and at most, by its first bits.
    fn bounds(&self, address: u32) -> (usize, usize)
        ensures low { result.0 ≤ class_of self.now address }
        ensures high { class_of self.now address ≤ result.1 }
    {
        self.heads.bounds((address >> self.heads.shift) as usize)
    }

    /// How many of the cuts are below an address.
    pub(crate) fn class(&self, address: u32) -> u16
        ensures class { result ≡ class_of self.now address }
        ensures few { result ≤ most_cuts }
    {
        if self.cuts.len() == BLOCK {
            return count_below(&self.cuts, address) as u16;
        }
        let (low, high) = self.bounds(address);
        if high <= low + BLOCK {
            let from = low.min(self.cuts.len() - BLOCK);
            return count_from(&self.cuts, from, address) as u16;
        }
        let summits_below = count_below(&self.summits, address);
        let tops_below = count_from(&self.tops, block_of(summits_below), address);
        count_from(&self.cuts, block_of(tops_below), address) as u16
    }

    /// The addresses about one that have its class: those between the cuts beside it.
    pub(crate) fn span_of(&self, address: u32) -> Span
        ensures span { IsSpan self.now result }
        ensures among { IsAmong address result }
    {
        let class = match self.known_class(address) {
            Some(class) => class,
            None => self.class(address),
        };
        span_at(&self.cuts, class, address)
    }
}

/// The addresses between the cuts beside an address, which has `class` cuts below it.
fn span_at(cuts: &[u32], class: u16, address: u32) -> Span
    requires ascending { IsNonDecreasing cuts.now }
    requires few { length cuts.now ≤ most_cuts }
    requires class { class ≡ class_of cuts.now address }
    // They have one class, and the address is among them.
    ensures span { IsSpan cuts.now result }
    ensures among { IsAmong address result }
{
    Span {
        first: first_of_class(cuts, class, address),
        last: last_of_class(cuts, class, address),
        class,
    }
}

/// The first address of the class of an address.
fn first_of_class(cuts: &[u32], class: u16, address: u32) -> u32
    requires ascending { IsNonDecreasing cuts.now }
    requires class { class ≡ class_of cuts.now address }
    ensures above { result ≤ address }
    ensures each { (k other : ℕ) → k < class → result ≤ other → slice_index cuts.now k < other }
{
    let place = usize::from(class);
    if place > 0 { cuts[place - 1] + 1 } else { 0 }
}

/// The last address of the class of an address.
fn last_of_class(cuts: &[u32], class: u16, address: u32) -> u32
    requires ascending { IsNonDecreasing cuts.now }
    requires class { class ≡ class_of cuts.now address }
    ensures below { address ≤ result }
    ensures each { (k other : ℕ) → class ≤ k
        → k < length cuts.now → other ≤ result → other ≤ slice_index cuts.now k }
{
    let place = usize::from(class);
    if place < cuts.len() {
        cuts[place]
    } else {
        u32::MAX
    }
}

/// Those below 2^32, in their order.
fn narrow_cuts(alloc: Global, cuts: &[u128]) -> Result<Vec<u32>, AllocError>
    ensures { IfOk result (λ narrow. narrow.items ≡ narrow_cuts cuts.now) }
{
    let mut narrow = Vec::new(alloc);
    for cut in cuts {
        if *cut < ABOVE4 {
            narrow.push(*cut as u32)?;
        }
    }
    Ok(narrow)
}

/// How many cuts there are with those that fill the last block.
fn whole_blocks(count: usize) -> usize
    requires { count ≤ most_cuts }
    ensures least { count ≤ result }
    ensures few { result ≤ most_cuts }
    ensures whole { AreBlocks result }
{
    if count <= BLOCK {
        BLOCK
    } else {
        (count + BLOCKS - 1) / BLOCKS * BLOCKS
    }
}

/// Appends the highest address until there are `count` cuts.
fn fill(cuts: &mut Vec<u32>, count: usize) -> Result<(), AllocError>
    requires ascending { IsNonDecreasing cuts.old.items }
    requires low { (k : ℕ) → k < length cuts.old.items → slice_index cuts.old.items k < 2 ^ 32 }
    requires room { length cuts.old.items ≤ count }
    // No address has more cuts below it than before.
    ensures ascending { OnOk result (IsNonDecreasing cuts.new.items) }
    ensures count { OnOk result (length cuts.new.items ≡ count) }
    ensures same { (address : ℕ) → address < 2 ^ 32
        → OnOk result (class_of cuts.new.items address ≡ class_of cuts.old.items address) }
{
    'cuts: while cuts.len() < count {
        cuts.push(u32::MAX)?;
    }
    Ok(())
}

/// Each 16th of the cuts, from the first on.
fn tops_of(alloc: Global, cuts: &[u32]) -> Result<Vec<u32>, AllocError>
    requires { length cuts.now ≤ most_cuts }
    ensures { IfOk result (λ tops. AreTops cuts.now tops.items) }
{
    let mut tops = Vec::new(alloc);
    for top in 0..cuts.len() / BLOCK {
        tops.push(cuts[top * BLOCK])?;
    }
    Ok(tops)
}

/// Where the block begins whose first cut is the last of the first `tops` tops.
fn block_of(tops: usize) -> usize
    requires { tops ≤ most_cuts }
    ensures { result ≡ 16 * (tops - 1) }
{
    tops.saturating_sub(1) * BLOCK
}

/// How many of ascending cuts are below an address, where they end in the block that begins at
/// `from`.
fn count_from(cuts: &[u32], from: usize, address: u32) -> usize
    requires ascending { IsNonDecreasing cuts.now }
    requires few { length cuts.now ≤ most_cuts }
    requires block { IsBlock cuts.now address from }
    // That is the class of the address.
    ensures class { result ≡ class_of cuts.now address }
    ensures within { result ≤ length cuts.now }
{
    from + count_below(&cuts[from..from + BLOCK], address)
}

/// How many of these cuts are below an address.
fn count_below(cuts: &[u32], address: u32) -> usize
    requires { length cuts.now ≤ most_cuts }
    ensures class { result ≡ class_of cuts.now address }
    ensures within { result ≤ length cuts.now }
{
    let mut count = 0u32;
    for cut in cuts {
        count += u32::from(*cut < address);
    }
    count as usize
}
