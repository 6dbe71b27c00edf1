//! A record among octets that others own.
ghost use Rattle.std.specs.Prelude.{◌≡◌, ◌≤◌, ◌<◌, ◌-◌, [], length, take, drop, slice_index_or, IfOk};
ghost use Rattle.std.specs.Arc.{arc_value};

use crate::data_record::Record;
use crate::data_record::places::place_of;
use crate::template::Template;
use bytes::Bytes;
use std::alloc::AllocError;
use std::marker::Model;
use std::sync::Arc;

/// A Data Record with its template (RFC 7011, section 3.4.3) as it stands among other octets, such as those of its Data
/// Set: nothing is held, cut out or copied. Its type keeps what [`Record`] keeps, and contracts see what they see of one.
#[derive(Drop)]
pub struct RecordView<'r> {
    template: &'r Arc<Template>,
    octets: &'r Bytes,
    start: usize,
    end: usize,
}

impl<'r> Model for RecordView<'r> {
    ghost use Rattle.std.specs.Prelude.{◌≤◌, ◌-◌, length, take, drop};
    ghost use Rattle.std.specs.Arc.{arc_value};
    ghost use Rattle.ipfix_template.specs.DataRecord.{DataRecord, IsKept, kept_record};

    ghost Value = { DataRecord };

    ghost view = { λ v. kept_record (arc_value v.template.now) (take (v.end - v.start) (drop v.start v.octets.now)) };

    ghost invariant = { λ v. (v.start ≤ v.end) × (v.end ≤ length v.octets.now)
        × IsKept (arc_value v.template.now) (take (v.end - v.start) (drop v.start v.octets.now)) };
}

impl<'r> RecordView<'r> {
    ghost use Rattle.ipfix_octets.specs.Variable.{longest_value};
    ghost use Rattle.ipfix_template.specs.DataRecord.{IsSound, IsKept, kept_record};
    ghost use Rattle.ipfix_template.specs.Values.{record_text};

    /// The record of `template` and of those `octets` that stand from `start` up to `end`. Of these
    /// it is known that they are the values of a record, each in its shortest text. It takes no
    /// memory.
    pub fn new(
        template: &'r Arc<Template>,
        octets: &'r Bytes,
        start: usize,
        end: usize,
    ) -> RecordView<'r>
        requires within { (start ≤ end) × (end ≤ length octets.now) }
        requires kept { IsKept
            (arc_value template.now) (take (end - start) (drop start octets.now)) }
        ensures { result
            ≡ kept_record (arc_value template.now) (take (end - start) (drop start octets.now)) }
    {
        RecordView {
            template,
            octets,
            start,
            end,
        }
    }

    /// The template. A record keeps that it passes [`Template::check`].
    pub fn template(&self) -> &'r Template
        ensures value { result.now ≡ self.now.template }
        ensures sound { IsSound self.now }
    {
        self.template
    }

    /// The octets that [`encode_record`](crate::encode_record) appends for the record: the values,
    /// each in its shortest text, one after another.
    pub fn as_octets(&self) -> &'r [u8]
        ensures value { result.now ≡ record_text self.now.template.fields self.now.values }
        ensures kept { IsKept self.now.template result.now }
        ensures sound { IsSound self.now }
    {
        &self.octets.as_slice()[self.start..self.end]
    }

    /// The octets of the value of the field at `place`, counted from 0. The values before it are
    /// passed over, one after another.
    pub fn value(&self, place: usize) -> &'r [u8]
        requires { place < length self.now.template.fields }
        ensures value { result.now ≡ slice_index_or self.now.values place [] }
        ensures few { length result.now ≤ longest_value }
        ensures sound { IsSound self.now }
    {
        let octets = &self.octets.as_slice()[self.start..self.end];
        let (start, end) = place_of(self.template.fields.as_slice(), octets, place);
        &octets[start..end]
    }

    /// The record by itself, which outlives this view. Its octets are a part of those among which
    /// it stands, and not copied.
    ///
    /// # Errors
    /// Want of memory.
    pub fn to_record(&self) -> Result<Record, AllocError>
        ensures { IfOk result (λ r. r ≡ self.now) }
    {
        let octets = self.octets.slice(self.start..self.end)?;
        let template = self.template.clone()?;
        Ok(Record::from_octets(template, octets))
    }
}

impl Record {
    /// The record as one among octets, which are its own.
    pub fn view(&self) -> RecordView<'_>
        ensures { result ≡ self.now }
    {
        RecordView::new(&self.template, &self.octets, 0, self.octets.len())
    }
}
