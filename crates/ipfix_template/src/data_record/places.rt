//! The values of a record, found in its octets.
ghost use Rattle.std.specs.Prelude.{◌≡◌, ◌<◌, ◌≤◌, ◌+◌, ◌-◌, [], length, take, drop, slice_index_or, IfOk};
ghost use Rattle.ipfix_octets.specs.Variable.{longest_value};
ghost use Rattle.ipfix_template.specs.Values.{values_in};
ghost use Rattle.ipfix_template.specs.DataRecord.{IsSound};
ghost use Rattle.ipfix_template.specs.Places.{AreKept, ArePassed};

use crate::data_record::{Record, Values};
use crate::field::FieldSpec;
use crate::values::find_span;
use bytes::Bytes;
use std::alloc::{AllocError, Global};

impl Record {
    /// The octets of the value of the field at `place`, counted from 0, where the record keeps
    /// them. The values before it are passed over, one after another.
    pub fn value(&self, place: usize) -> &[u8]
        requires { place < length self.now.template.fields }
        ensures value { result.now ≡ slice_index_or self.now.values place [] }
        ensures few { length result.now ≤ longest_value }
        ensures sound { IsSound self.now }
    {
        let octets = self.octets.as_slice();
        let (start, end) = place_of(self.template.fields.as_slice(), octets, place);
        &octets[start..end]
    }

    /// The values as a list, one for each field, in memory from `alloc`. Each is a part of the
    /// record's octets, and not copied.
    ///
    /// # Errors
    /// Want of memory.
    pub fn values(&self, alloc: Global) -> Result<Values, AllocError>
        ensures value { IfOk result (λ values. values ≡ self.now.values) }
        ensures sound { IsSound self.now }
    {
        let values = cut_values(alloc, self.template.fields.as_slice(), &self.octets)?;
        Ok(Values::from_vec(values))
    }
}

/// Where the value of the field at this place starts in a record's octets, and where it ends.
pub(crate) fn place_of(fields: &[FieldSpec], octets: &[u8], place: usize) -> (usize, usize)
    requires kept { AreKept fields.now octets.now }
    requires place { place < length fields.now }
    ensures within { (result.0 ≤ result.1) × (result.1 ≤ length octets.now) }
    ensures shown { take (result.1 - result.0) (drop result.0 octets.now)
        ≡ slice_index_or (values_in fields.now octets.now) place [] }
{
    let mut used = 0;
    for before in 0..place {
        (_, used) = next_place(fields, octets, before, used);
    }
    next_place(fields, octets, place, used)
}

/// The values of a record's octets.
fn cut_values(alloc: Global, fields: &[FieldSpec], octets: &Bytes) -> Result<Vec<Bytes>, AllocError>
    requires kept { AreKept fields.now octets.now }
    ensures { IfOk result (λ values. values.items ≡ values_in fields.now octets.now) }
{
    let mut values = Vec::with_capacity(alloc, fields.len())?;
    let mut used = 0;
    for place in 0..fields.len() {
        let (start, end) = next_place(fields, octets, place, used);
        values.push(octets.slice(start..end)?)?;
        used = end;
    }
    Ok(values)
}

/// Where the value of the field at this place starts and ends, with those of the fields before it in the first
/// `used` octets.
pub(crate) fn next_place(
    fields: &[FieldSpec],
    octets: &[u8],
    place: usize,
    used: usize,
) -> (usize, usize)
    requires kept { AreKept fields.now octets.now }
    requires place { place < length fields.now }
    requires passed { ArePassed fields.now octets.now place used }
    // The place is that of the value, and the next one follows it.
    ensures within { (result.0 ≤ result.1) × (result.1 ≤ length octets.now) }
    ensures shown { take (result.1 - result.0) (drop result.0 octets.now)
        ≡ slice_index_or (values_in fields.now octets.now) place [] }
    ensures passed { ArePassed fields.now octets.now (place + 1) result.1 }
{
    match find_span(&fields[place], &octets[used..]) {
        Some((start, length)) => (used + start, used + start + length),
        None => unreachable!(),
    }
}
