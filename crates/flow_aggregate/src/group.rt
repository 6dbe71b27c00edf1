//! Groups of records that count together.
ghost use Rattle.std.specs.Prelude.{◌≡◌, ◌+◌, ◌≤◌, ◌<◌, ◌^◌, ◌++◌, true, length, IfOk, OnOk};
ghost use Rattle.flow_aggregate.specs.Values.{full_width};
ghost use Rattle.flow_aggregate.specs.Groups.{wide_value, key_octets, group_of, counted_as, IsGroup};
ghost use Rattle.flow_aggregate.specs.Placing.{closes_at};
ghost use Rattle.flow_aggregate.specs.Running.{IsPlaced, is_due};

use crate::definition::Definition;
use crate::timing::{interval_start, start_of};
use crate::values::first_value;
use ipfix_element::{ElementId, full_width, kind_of};
use ipfix_octets::message_format::MILLISECONDS;
use ipfix_template::Record;
use smallvec::SmallVec;
use std::alloc::{AllocError, Global};
use std::marker::Model;

/// Keys of at most this many octets are kept in the group itself: the addresses, ports and protocol
/// of an IPv6 flow have 37.
const KEY_OCTETS: usize = 40;

/// The records of one aggregate that start in one interval and agree in the key: where the interval starts, in
/// milliseconds since 1970, the aggregate, and the octets of the key's values, each at full width.
#[derive(Drop)]
pub(crate) struct Group {
    start: u64,
    definition: Definition,
    key: SmallVec<u8, KEY_OCTETS>,
}

impl Model for Group {
    ghost use Rattle.flow_aggregate.specs.Groups.{Group, IsGroup};

    ghost Value = { Group };

    ghost view = { λ g. record { start = g.start; definition = g.definition; key = g.key.items } };

    ghost invariant = { λ g. IsGroup
        (record { start = g.start; definition = g.definition; key = g.key.items }) };
}

impl Group {
    /// The group that a record of the aggregate counts in.
    ///
    /// # Errors
    /// Want of memory.
    pub(crate) fn of(
        alloc: Global,
        definition: &Definition,
        flow_record: &Record,
    ) -> Result<Group, AllocError>
        requires placed { IsPlaced definition.now flow_record.now }
        ensures { IfOk result (λ g. g ≡ group_of (counted_as definition.now flow_record.now)) }
    {
        // The values of a record have the lengths that their elements allow.
        let _for_proof = flow_record.template();
        let key = key_octets(alloc, definition.key(), flow_record)?;
        let start = start_of(flow_record).unwrap_or(0);
        Ok(Group {
            start: interval_start(definition.interval(), start),
            definition: definition.share()?,
            key,
        })
    }

    /// Where its interval ends and the grace behind it is over.
    pub(crate) fn closes_at(&self) -> u64
        ensures { result ≡ closes_at self.now.definition self.now.start }
    {
        let seconds = self.definition().interval() + self.definition().grace();
        self.start() + u64::from(seconds) * MILLISECONDS
    }

    /// Whether an advance of the clock to `t` comes to that time.
    pub(crate) fn is_due(&self, t: u64) -> bool
        ensures { result ≡ is_due t self.now }
    {
        self.closes_at() <= t
    }

    /// Where the interval starts.
    pub(crate) fn start(&self) -> u64
        ensures value { result ≡ self.now.start }
        ensures early { result ≤ 2 ^ 62 }
    {
        self.start
    }

    /// The aggregate in which its records count.
    pub(crate) fn definition(&self) -> &Definition
        ensures value { result.now ≡ self.now.definition }
        ensures sound { IsGroup self.now }
    {
        &self.definition
    }

    /// The octets of the key's values.
    pub(crate) fn key(&self) -> &[u8]
        ensures value { result.now ≡ self.now.key }
        ensures sound { IsGroup self.now }
    {
        self.key.as_slice()
    }

    /// This group once more, with another hold of its definition.
    ///
    /// # Errors
    /// Want of memory for the octets of a long key, or for the count of the definition's holds.
    pub(crate) fn share(&self) -> Result<Group, AllocError>
        ensures { IfOk result (λ g. g ≡ self.now) }
    {
        Ok(Group {
            start: self.start,
            definition: self.definition.share()?,
            key: SmallVec::from_slice(*self.key.allocator(), self.key.as_slice())?,
        })
    }
}

/// The octets of the values of the key's elements, each at full width.
///
/// # Errors
/// Want of memory.
#[tactic(auto, unfolding(crate::specs::Groups::key_octets))]
pub(crate) fn key_octets(
    alloc: Global,
    key: &[ElementId],
    flow_record: &Record,
) -> Result<SmallVec<u8, KEY_OCTETS>, AllocError>
    ensures { IfOk result (λ octets. octets.items ≡ key_octets key.now flow_record.now) }
{
    let mut octets = SmallVec::new(alloc);
    for element in key {
        put_wide(*element, flow_record, &mut octets)?;
    }
    Ok(octets)
}

/// Appends the value of the record's first field of the element, with zeros before it up to full width.
fn put_wide(
    element: ElementId,
    flow_record: &Record,
    out: &mut SmallVec<u8, KEY_OCTETS>,
) -> Result<(), AllocError>
    ensures { OnOk result (out.new.items ≡ out.old.items ++ wide_value flow_record.now element) }
{
    let value = match first_value(flow_record, element) {
        Some(value) => value,
        None => &[],
    };
    put_zeros(
        usize::from(width_of(element)).saturating_sub(value.len()),
        out,
    )?;
    out.extend_from_slice(value)
}

/// The octets of a value of the element at full width, and 0 where none is set.
#[tactic(auto, unfolding(crate::specs::Values::full_width))]
pub(crate) fn width_of(element: ElementId) -> u16
    ensures { result ≡ full_width element }
{
    full_width(kind_of(element)).unwrap_or(0)
}

fn put_zeros(count: usize, out: &mut SmallVec<u8, KEY_OCTETS>) -> Result<(), AllocError>
    ensures { OnOk result
        (out.new.items ≡ out.old.items ++ Rattle.std.specs.Prelude.replicate count 0) }
{
    for done in 0..count {
        out.push(0)?;
    }
    Ok(())
}
