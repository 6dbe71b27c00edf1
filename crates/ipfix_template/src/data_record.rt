//! Records: a template, and values that fit it.
ghost use Rattle.std.specs.Prelude.{◌≡◌, ◌==◌, ◌≤◌, ◌*◌, ◌↔◌, IsTrue, true, length, IfOk, MatchResult};
ghost use Rattle.std.specs.Arc.{arc_value};

mod entries;
mod parts;
mod places;
mod reading;
mod view;

use crate::encode::encode_values;
use crate::field::FieldSpec;
use crate::template::Template;
use bytes::Bytes;
pub use entries::Entries;
use ipfix_octets::message_format::{
    HEADER_OCTETS, LEAST_TEMPLATE_ID, LONGEST_MESSAGE, OPTIONS_RECORD_HEADER_OCTETS,
    RECORD_HEADER_OCTETS, SET_HEADER_OCTETS,
};
use ipfix_octets::variable::LONGEST_VALUE;
use std::alloc::{AllocError, Global};
use std::marker::Model;
use std::sync::Arc;
pub use view::RecordView;

/// The octets that one message has for a template record or a data record: those of the longest one without
/// the headers of the message and of a set (RFC 7011, sections 3.1 and 3.3.2).
pub const RECORD_ROOM: usize = LONGEST_MESSAGE - HEADER_OCTETS - SET_HEADER_OCTETS;

/// A record's values, in the order of its template's fields. Contracts see the list.
#[derive(Debug, Drop)]
pub struct Values {
    values: Vec<Bytes>,
}

impl Model for Values {
    ghost use Rattle.std.specs.Prelude.{List, ℕ};

    ghost Value = { List (List ℕ) };

    ghost view = { λ v. v.values.items };
}

impl Values {
    /// Takes `values`, in their order, as the values of a record. Nothing is copied.
    pub fn from_vec(values: Vec<Bytes>) -> Values
        ensures { result ≡ values.items }
    {
        Values { values }
    }

    /// The values in their order. Nothing is copied.
    pub fn into_vec(self) -> Vec<Bytes>
        ensures { result.items ≡ self }
    {
        self.values
    }

    /// The values in their order.
    pub fn as_slice(&self) -> &[Bytes]
        ensures { result.now ≡ self.now }
    {
        self.values.as_slice()
    }

    /// How many values there are.
    pub fn len(&self) -> usize
        ensures { result ≡ length self.now }
    {
        self.values.len()
    }

    /// Whether there is no value.
    pub fn is_empty(&self) -> bool
        ensures { result ≡ (length self.now == 0) }
    {
        self.values.is_empty()
    }
}

/// A Data Record with its template (RFC 7011, section 3.4.3). Its type keeps that the template passes
/// [`Template::check`] (under the least ID, as an options template where it has scope fields), that there
/// is a value that fits for each field, and that template and record each fit one message. Records of
/// one Data Set share their template.
///
/// Its values are kept as the octets that [`encode_record`](crate::encode_record) writes for them, each value in
/// its shortest text, one after another; they may be a part of the message that brought them.
pub struct Record {
    template: Arc<Template>,
    octets: Bytes,
}

impl Drop for Record {
    // Written out: a derived one is proved anew in each crate that drops such a value.
    fn drop(self) {
        let Record {
            template: _,
            octets: _,
        } = self;
    }
}

impl Model for Record {
    ghost use Rattle.std.specs.Arc.{arc_value};
    ghost use Rattle.ipfix_template.specs.DataRecord.{DataRecord, IsKept, kept_record};

    ghost Value = { DataRecord };

    ghost view = { λ r. kept_record (arc_value r.template) r.octets };

    ghost invariant = { λ r. IsKept (arc_value r.template) r.octets };
}

/// Why a template and values were made no record.
#[derive(Clone, Copy, Debug, PartialEq, Eq)]
pub enum NotMade {
    /// They are no record.
    NoRecord,
    /// They are one, and there was no memory for its octets.
    OutOfMemory,
}

/// A template and values that were made no record, both given back, and why.
#[derive(Drop)]
pub struct RefusedRecord {
    /// The template, as it was given.
    pub template: Arc<Template>,
    /// The values, as they were given.
    pub values: Values,
    /// Why they were made no record.
    pub why: NotMade,
}

impl Record {
    ghost use Rattle.ipfix_template.specs.DataRecord.{DataRecord, IsSound, IsKept, kept_record};
    ghost use Rattle.ipfix_template.specs.Refusals.{IsWhy};

    /// For a program that has values of its own, and for tests: the record of `template` and
    /// `values`, a value for each field. Its octets are written anew, in memory from `alloc`.
    ///
    /// # Errors
    /// Both of them again: as [`NotMade::NoRecord`] exactly where they are no record, and else as
    /// [`NotMade::OutOfMemory`] for want of memory.
    pub fn try_new(
        alloc: Global,
        template: Arc<Template>,
        values: Values,
    ) -> Result<Record, RefusedRecord>
        ensures { MatchResult result
            (λ r. (r ≡ record { template = arc_value template; values = values }) × IsSound r)
            (λ refused. (arc_value refused.template ≡ arc_value template)
            × (refused.values ≡ values)
            × IsWhy refused.why (record { template = arc_value template; values = values })) }
    {
        if !is_record(&template, values.as_slice()) {
            let why = NotMade::NoRecord;
            return Err(RefusedRecord {
                template,
                values,
                why,
            });
        }
        match text_of(alloc, &template, &values) {
            Ok(octets) => Ok(Record { template, octets }),
            Err(_) => {
                let why = NotMade::OutOfMemory;
                Err(RefusedRecord {
                    template,
                    values,
                    why,
                })
            }
        }
    }

    /// The record of `template` and `values`, of which it is known that they are one. Its octets
    /// are written anew, in memory from `alloc`.
    ///
    /// # Errors
    /// Want of memory for its octets.
    pub fn new(
        alloc: Global,
        template: Arc<Template>,
        values: &Values,
    ) -> Result<Record, AllocError>
        requires { IsSound (record { template = arc_value template; values = values.now }) }
        ensures { IfOk result
            (λ r. r ≡ record { template = arc_value template; values = values.now }) }
    {
        let octets = text_of(alloc, &template, values)?;
        Ok(Record { template, octets })
    }

    /// The record of `template` and `octets`, of which it is known that they are the values of a
    /// record, each in its shortest text (RFC 7011, sections 3.4.3 and 7). Nothing is copied, and
    /// it takes no memory.
    pub fn from_octets(template: Arc<Template>, octets: Bytes) -> Record
        requires { IsKept (arc_value template) octets }
        ensures { result ≡ kept_record (arc_value template) octets }
    {
        Record { template, octets }
    }
}

ghost use Rattle.ipfix_template.specs.declared.field.TheConstants.{MOST_FIELDS};
ghost use Rattle.ipfix_template.specs.DataRecord.{IsSound};
ghost use Rattle.std.specs.List.{flat_map};
ghost use Rattle.ipfix_octets.specs.MessageFormat.{least_template_id};
ghost use Rattle.ipfix_template.specs.Template.{is_options, specifier, template_record};
ghost use Rattle.ipfix_template.specs.Values.{fits_field, fit_fields, value_text, record_text};

/// What is written for values that fit their fields.
fn text_of(alloc: Global, template: &Template, values: &Values) -> Result<Bytes, AllocError>
    requires { fit_fields template.now.fields values.now ≡ true }
    ensures { IfOk result (λ octets. octets ≡ record_text template.now.fields values.now) }
{
    let size = record_octets(template.fields.as_slice(), values.as_slice());
    let mut octets = Vec::with_capacity(alloc, size)?;
    encode_values(template, values, &mut octets)?;
    Ok(Bytes::from_vec(octets)?)
}

/// Whether the values are a record of the template.
fn is_record(template: &Template, values: &[Bytes]) -> bool
    ensures { IsTrue result ↔ IsSound (record { template = template.now; values = values.now }) }
{
    let fields = template.fields.as_slice();
    template
        .check(LEAST_TEMPLATE_ID, template.is_options())
        .is_ok()
        && template_octets(template) <= RECORD_ROOM
        && values_fit(fields, values)
        && record_octets(fields, values) <= RECORD_ROOM
}

/// How many octets [`encode_template`](crate::encode_template) appends for `template`: the header
/// of its record, and its Field Specifiers (RFC 7011, sections 3.2 and 3.4).
#[tactic(auto, using(crate::proofs::Encoding::octets_of_record))]
pub fn template_octets(template: &Template) -> usize
    ensures { result
        ≡ length (template_record least_template_id (is_options template.now) template.now) }
{
    let specifiers = specifier_octets(template.fields.as_slice());
    if template.is_options() {
        OPTIONS_RECORD_HEADER_OCTETS + specifiers
    } else {
        RECORD_HEADER_OCTETS + specifiers
    }
}

/// The octets of the fields' specifiers: one with an enterprise number has four more (RFC 7011, section 3.2).
fn specifier_octets(fields: &[FieldSpec]) -> usize
    requires { length fields.now ≤ MOST_FIELDS }
    ensures exact { result ≡ length (flat_map specifier fields.now) }
    ensures few { result ≤ 8 * length fields.now }
{
    let mut octets = 0;
    for field in fields {
        octets += if field.element.pen().is_some() { 8 } else { 4 };
    }
    octets
}

/// Whether there is a value for each field, and each fits its own.
fn values_fit(fields: &[FieldSpec], values: &[Bytes]) -> bool
    ensures { result ≡ fit_fields fields.now values.now }
{
    if fields.len() != values.len() {
        return false;
    }
    for (field, value) in fields.iter().zip(values) {
        if !value_fits(field, value) {
            return false;
        }
    }
    true
}

/// Whether the value can stand in the field: it has the field's length, or at most 65,535 octets
/// where it brings its own length.
fn value_fits(field: &FieldSpec, value: &[u8]) -> bool
    ensures { result ≡ fits_field field.now value.now }
{
    if field.is_variable() {
        value.len() <= LONGEST_VALUE
    } else {
        value.len() == usize::from(field.length)
    }
}

/// The octets of the record, each value in its shortest text.
fn record_octets(fields: &[FieldSpec], values: &[Bytes]) -> usize
    requires few { length fields.now ≤ MOST_FIELDS }
    requires fit { fit_fields fields.now values.now ≡ true }
    ensures { result ≡ length (record_text fields.now values.now) }
{
    let mut octets = 0;
    for (field, value) in fields.iter().zip(values) {
        octets += value_octets(field, value);
    }
    octets
}

/// The octets of a value in its shortest text.
fn value_octets(field: &FieldSpec, value: &[u8]) -> usize
    requires { fits_field field.now value.now ≡ true }
    ensures exact { result ≡ length (value_text field.now value.now) }
    ensures few { result ≤ 65538 }
{
    field.value_start(value.len()) + value.len()
}
