//! The heads of addresses, which are their first bits, and how many cuts are below the addresses with each.
ghost use Rattle.std.specs.Prelude.{◌≡◌, ◌<◌, ◌≤◌, ◌+◌, ◌*◌, ◌/◌, ◌%◌, ◌^◌, ℕ, length, slice_index, IfOk};
ghost use Rattle.std.specs.List.Sorted.{IsNonDecreasing};
ghost use Rattle.rule_table.specs.Cuts.{most_cuts};
ghost use Rattle.rule_table.specs.Classes.{class_of};
ghost use Rattle.rule_table.specs.Heads.{AreHeads, AreStarts, sure_class};

use std::alloc::{AllocError, Global};

/// How many cuts are below an address, as far as its head says: that is its first bits, as a number. Most addresses have a head
/// within whose addresses no cut lies.
#[derive(Drop)]
pub(crate) struct Heads {
    /// How many bits of an address are behind its head.
    pub shift: u32,
    /// For each head, twice, how many cuts are below the first address with it; and one more where no more are below the last.
    /// Behind them stands the same of the last address of all.
    pub starts: Vec<u16>,
}

impl Heads {
    /// The heads of `bits` bits of the addresses that have `width`, among ascending cuts.
    ///
    /// # Errors
    /// Want of memory.
    pub(crate) fn of(
        alloc: Global,
        cuts: &[u128],
        width: u32,
        bits: u32,
    ) -> Result<Heads, AllocError>
        requires ascending { IsNonDecreasing cuts.now }
        requires few { length cuts.now ≤ most_cuts }
        requires bits { (0 < bits) × (bits ≤ 16) }
        requires width { (16 < width) × (width ≤ 128) }
        ensures { IfOk result (AreHeads cuts.now width) }
    {
        let shift = width - bits;
        let starts = starts_of(alloc, cuts, 1 << bits, 1 << shift)?;
        Ok(Heads { shift, starts })
    }

    /// The class of all addresses with a head, where it knows of one.
    pub(crate) fn class(&self, head: usize) -> Option<u16>
        requires { head < length self.now.starts.items }
        ensures { result ≡ sure_class (slice_index self.now.starts.items head) }
    {
        let start = self.starts[head];
        if start % 2 == 1 {
            Some(start / 2)
        } else {
            None
        }
    }

    /// The least class of the addresses with a head, and one that is no less than the greatest.
    pub(crate) fn bounds(&self, head: usize) -> (usize, usize)
        requires { head + 1 < length self.now.starts.items }
        ensures low { result.0 ≡ slice_index self.now.starts.items head / 2 }
        ensures high { result.1 ≡ slice_index self.now.starts.items (head + 1) / 2 }
    {
        let (start, next) = (self.starts[head], self.starts[head + 1]);
        (usize::from(start / 2), usize::from(next / 2))
    }
}

/// How many first bits a head has where `cuts` cuts lie among the addresses: eight heads for a cut, or more, but few where
/// there are few cuts, since each is a place in memory and is worked out for each policy.
pub(crate) fn head_bits(cuts: usize) -> u32
    ensures { (0 < result) × (result ≤ 16) }
{
    match cuts {
        0..=32 => 8,
        33..=256 => 11,
        257..=2048 => 14,
        _ => 16,
    }
}

/// The entries of heads, each of which has `unit` addresses.
fn starts_of(alloc: Global, cuts: &[u128], heads: usize, unit: u128) -> Result<Vec<u16>, AllocError>
    requires ascending { IsNonDecreasing cuts.now }
    requires few { length cuts.now ≤ most_cuts }
    requires heads { heads ≤ 65536 }
    requires unit { (0 < unit) × (heads * unit ≤ 2 ^ 128) }
    ensures { IfOk result (λ starts. AreStarts cuts.now heads unit starts.items) }
{
    let mut starts = Vec::with_capacity(alloc, heads + 1)?;
    let mut below = 0;
    for head in 0..heads {
        let first = head as u128 * unit;
        let low = count_on(cuts, below, first);
        below = count_on(cuts, low, first + (unit - 1));
        starts.push(start_of(low, below))?;
    }
    starts.push(start_of(below, below))?;
    Ok(starts)
}

/// The entry of a head: `first` cuts are below its first address, and `last` below its last one.
fn start_of(first: usize, last: usize) -> u16
    requires { first ≤ most_cuts }
    ensures half { result / 2 ≡ first }
    ensures sure { result % 2 ≡ 1 → last ≡ first }
{
    first as u16 * 2 + u16::from(first == last)
}

/// How many of ascending cuts are below an address, where the first `from` are.
fn count_on(cuts: &[u128], from: usize, address: u128) -> usize
    requires ascending { IsNonDecreasing cuts.now }
    requires within { from ≤ length cuts.now }
    requires before { (k : ℕ) → k < from → slice_index cuts.now k < address }
    ensures class { result ≡ class_of cuts.now address }
    ensures within { result ≤ length cuts.now }
{
    for place in from..cuts.len() {
        if cuts[place] >= address {
            return place;
        }
    }
    cuts.len()
}
