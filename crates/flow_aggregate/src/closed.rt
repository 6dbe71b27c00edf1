//! Closed groups, and their records.
ghost use Rattle.std.specs.Prelude.{◌≡◌, ◌++◌, length, IfOk, OnOk};
ghost use Rattle.std.specs.List.{sum_by};
ghost use Rattle.flow_aggregate.specs.Values.{full_width};
ghost use Rattle.flow_aggregate.specs.Closed.{key_values, number_values, closed_values};

use crate::group::{Group, width_of};
use crate::sums::Sums;
use bytes::Bytes;
use ipfix_element::ElementId;
use ipfix_octets::message_format::MILLISECONDS;
use ipfix_template::{Record, Values};
use std::alloc::{AllocError, Global};

/// A group that is closed: no further record counts in it.
pub struct ClosedAggregate {
    group: Group,
    sums: Sums,
}

impl Drop for ClosedAggregate {
    // Written out: a derived one is proved anew in each crate that drops such a value.
    fn drop(self) {
        let ClosedAggregate { group: _, sums: _ } = self;
    }
}

impl ClosedAggregate {
    ghost use Rattle.flow_aggregate.specs.Running.{closed_one};
    ghost use Rattle.flow_aggregate.specs.Closing.{record_of};

    /// The closed group with these sums.
    pub(crate) fn new(group: Group, sums: Sums) -> ClosedAggregate
        ensures { result ≡ closed_one group sums }
    {
        ClosedAggregate { group, sums }
    }

    /// The group, without its sums.
    pub(crate) fn group(&self) -> &Group
        ensures { result.now ≡ self.now.group }
    {
        &self.group
    }

    /// The record of the group, in memory from `alloc`: the key's values at full width, where the
    /// interval starts and ends, in milliseconds since 1970, and the octets, packets and flows of
    /// its records, in 8 octets each (RFC 7015, sections 5.3.1, 7.1 and 7.2).
    ///
    /// # Errors
    /// Want of memory.
    pub fn record(&self, alloc: Global) -> Result<Record, AllocError>
        ensures { IfOk result (λ r. r ≡ record_of self.now) }
    {
        let template = self.group.definition().closed_template()?;
        let values = Values::from_vec(self.values(alloc)?);
        Record::new(alloc, template, &values)
    }

    #[tactic(auto, unfolding(crate::specs::Closed::closed_values))]
    fn values(&self, alloc: Global) -> Result<Vec<Bytes>, AllocError>
        ensures { IfOk result
            (λ values. values.items ≡ closed_values self.now.group self.now.sums) }
    {
        let definition = self.group.definition();
        let start = self.group.start();
        let end = start + u64::from(definition.interval()) * MILLISECONDS;
        let sums = self.sums;
        let mut values = Vec::new(alloc);
        let octets = Bytes::copy_from_slice(alloc, self.group.key())?;
        put_key_values(definition.key(), octets, &mut values)?;
        let numbers = [start, end, sums.octets, sums.packets, sums.flows];
        put_numbers(alloc, &numbers, &mut values)?;
        Ok(values)
    }
}

/// Appends the values of the key's elements, which stay where they are in its octets.
fn put_key_values(
    key: &[ElementId],
    octets: Bytes,
    values: &mut Vec<Bytes>,
) -> Result<(), AllocError>
    requires { length octets ≡ sum_by full_width key.now }
    ensures { OnOk result (values.new.items ≡ values.old.items ++ key_values key.now octets) }
{
    let mut rest = octets;
    for element in key {
        let value = rest.split_to(usize::from(width_of(*element)))?;
        values.push(value)?;
    }
    Ok(())
}

/// Appends numbers in 8 octets each.
fn put_numbers(alloc: Global, numbers: &[u64], values: &mut Vec<Bytes>) -> Result<(), AllocError>
    ensures { OnOk result (values.new.items ≡ values.old.items ++ number_values numbers.now) }
{
    for number in numbers {
        values.push(Bytes::copy_from_slice(alloc, &number.to_be_bytes())?)?;
    }
    Ok(())
}
