//! Records of texts that a message brought.
ghost use Rattle.std.specs.Prelude.{◌≡◌, true, IsOk, IfOk};
ghost use Rattle.std.specs.Arc.{arc_value};
ghost use Rattle.ipfix_template.specs.Values.{Splits, fit_fields, record_text, values_in};

use crate::data_record::Record;
use crate::encode::encode_value;
use crate::field::FieldSpec;
use crate::template::Template;
use crate::values::find_span;
use bytes::Bytes;
use std::alloc::{AllocError, Global};
use std::sync::Arc;

impl Record {
    ghost use Rattle.ipfix_template.specs.DataRecord.{IsSound, kept_record};

    /// The record of `template` that stands in `text`, as [`measure`](crate::measure) found it.
    /// `is_shortest` is what it said of the text: whether each value stands in its shortest text.
    /// The text itself is kept where that is so. Else the values are written again, in memory from
    /// `alloc`.
    ///
    /// # Errors
    /// Want of memory, only where a value doesn't stand in its shortest text.
    pub fn read(
        alloc: Global,
        template: Arc<Template>,
        text: Bytes,
        is_shortest: bool,
    ) -> Result<Record, AllocError>
        requires sound { IsSound (kept_record (arc_value template) text) }
        requires splits { Splits
            (arc_value template).fields text (values_in (arc_value template).fields text) }
        requires shortest { is_shortest ≡ true → text
            ≡ record_text (arc_value template).fields (values_in (arc_value template).fields text) }
        // What was measured is a record, and only another text of it takes memory.
        ensures value { IfOk result (λ r. r ≡ kept_record (arc_value template) text) }
        ensures no_memory { is_shortest ≡ true → IsOk result }
    {
        if is_shortest {
            return Ok(Record::from_octets(template, text));
        }
        let octets = shortest_text(alloc, template.fields.as_slice(), text.as_slice())?;
        Ok(Record::from_octets(template, octets))
    }
}

/// The values of a text, each in its shortest text.
fn shortest_text(alloc: Global, fields: &[FieldSpec], text: &[u8]) -> Result<Bytes, AllocError>
    requires fit { fit_fields fields.now (values_in fields.now text.now) ≡ true }
    requires splits { Splits fields.now text.now (values_in fields.now text.now) }
    ensures { IfOk result
        (λ octets. octets ≡ record_text fields.now (values_in fields.now text.now)) }
{
    let mut octets = Vec::with_capacity(alloc, text.len())?;
    let mut rest = text;
    for field in fields {
        let Some((start, length)) = find_span(field, rest) else {
            unreachable!()
        };
        encode_value(field, &rest[start..start + length], &mut octets)?;
        rest = &rest[start + length..];
    }
    Ok(Bytes::from_vec(octets)?)
}
