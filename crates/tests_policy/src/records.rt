//! Records of registered elements.
use bytes::Bytes;
use ipfix_element::ElementId;
use ipfix_template::{FieldSpec, Fields, Record, Template, Values};
use std::alloc::Global;
use std::sync::Arc;
use std::test::Fail;

pub(crate) const SOURCE_PORT: u16 = 7;

pub(crate) const SOURCE_IPV4: u16 = 8;

pub(crate) const DESTINATION_IPV4: u16 = 12;

pub(crate) const SOURCE_IPV6: u16 = 27;

pub(crate) const DESTINATION_IPV6: u16 = 28;

/// A field's element, its length and its value.
pub(crate) type Field = (u16, u16, &'static [u8]);

/// Adds a field.
pub(crate) fn put_field(
    alloc: Global,
    number: u16,
    length: u16,
    value: &[u8],
    specs: &mut Vec<FieldSpec>,
    values: &mut Vec<Bytes>,
) -> Option<()> {
    let element = ElementId::new(None, number)?;
    specs.push(FieldSpec { element, length }).ok()?;
    let value = Bytes::copy_from_slice(alloc, value).ok()?;
    values.push(value).ok()
}

/// A record of these fields, the first `scope` of them scope fields.
pub(crate) fn record_of(
    alloc: Global,
    specs: Vec<FieldSpec>,
    values: Vec<Bytes>,
    scope: u16,
) -> Option<Record> {
    let fields = Fields::from_vec(specs).ok()?;
    let template = Arc::new(alloc, Template { fields, scope }).ok()?;
    Record::try_new(alloc, template, Values::from_vec(values)).ok()
}

/// A record of the fields of a table, the first `scope` of them scope fields.
pub(crate) fn built(alloc: Global, fields: &[Field], scope: u16) -> Result<Record, Fail> {
    let mut specs = Vec::new(alloc);
    let mut values = Vec::new(alloc);
    for (number, length, value) in fields {
        if put_field(alloc, *number, *length, value, &mut specs, &mut values).is_none() {
            return Err(Fail::new("no field"));
        }
    }
    match record_of(alloc, specs, values, scope) {
        Some(flow_record) => Ok(flow_record),
        None => Err(Fail::new("no record")),
    }
}
