//! What is written for a template and for a record.
ghost use Rattle.std.specs.Prelude.{◌≡◌, ◌≤◌, ◌<◌, ◌^◌, ◌+◌, ◌++◌, true, length, take, None, OnOk, OnErr, vec_len, vec_capacity};
ghost use Rattle.std.specs.List.{flat_map};
ghost use Rattle.ipfix_template.specs.Template.{refusal_of, is_options, specifier, record_head, template_record};
ghost use Rattle.ipfix_template.specs.Values.{fit_fields, record_text};
ghost use Rattle.ipfix_template.specs.DataRecord.{IsSound};

mod parts;

use crate::data_record::Record;
use crate::field::FieldSpec;
use crate::template::Template;
use bytes::Bytes;
use ipfix_octets::message_format::ENTERPRISE_BIT;
pub use parts::{encode_value, encode_values};
use std::alloc::AllocError;

/// Appends `template` to `out` as a record of a Template Set or, where it has scope fields, of an
/// Options Template Set: `id`, Field Count, Scope Field Count for an options template, and the
/// Field Specifiers (RFC 7011, sections 3.2 and 3.4). The template passes [`Template::check`] under
/// this ID, so that the ID is from 256 to 65535.
///
/// # Errors
/// Want of memory, only where `out` had no room for the record, and then nothing is appended.
pub fn encode_template(id: u16, template: &Template, out: &mut Vec<u8>) -> Result<(), AllocError>
    requires { refusal_of id (is_options template.now) template.now ≡ None }
    // All of it is appended, or nothing.
    ensures ok { OnOk result (out.new.items
        ≡ out.old.items ++ template_record id (is_options template.now) template.now) }
    ensures err { OnErr result (out.new.items ≡ out.old.items) }
    // Room that is there is enough, and is kept.
    ensures memory { OnErr result (vec_capacity out.old
        < vec_len out.old + length (template_record id (is_options template.now) template.now)) }
    ensures capacity { vec_capacity out.old ≤ vec_capacity out.new }
{
    let held = out.len();
    let put = put_template(id, template, out);
    if put.is_err() {
        out.truncate(held);
    }
    put
}

/// For a program that writes records by itself, for tests and for laws: appends to `out` the values
/// of the record `whole`, each in its shortest text, as they stand in a Data Set (RFC 7011,
/// sections 3.4.3 and 7). It copies the octets that the record keeps.
///
/// # Errors
/// Want of memory, only where `out` had no room for them, and then nothing is appended.
pub fn encode_record(whole: &Record, out: &mut Vec<u8>) -> Result<(), AllocError>
    ensures ok { OnOk result
        (out.new.items ≡ out.old.items ++ record_text whole.now.template.fields whole.now.values) }
    ensures err { OnErr result (out.new.items ≡ out.old.items) }
    ensures memory { OnErr result (vec_capacity out.old
        < vec_len out.old + length (record_text whole.now.template.fields whole.now.values)) }
    ensures capacity { vec_capacity out.old ≤ vec_capacity out.new }
{
    out.extend_from_slice(whole.as_octets())
}

#[tactic(auto, unfolding(crate::specs::Template::template_record))]
fn put_template(id: u16, template: &Template, out: &mut Vec<u8>) -> Result<(), AllocError>
    ensures ok { OnOk result (out.new.items
        ≡ out.old.items ++ template_record id (is_options template.now) template.now) }
    ensures err { OnErr result (take (length out.old.items) out.new.items ≡ out.old.items) }
    ensures memory { OnErr result (vec_capacity out.old
        < vec_len out.old + length (template_record id (is_options template.now) template.now)) }
    ensures capacity { vec_capacity out.old ≤ vec_capacity out.new }
{
    put_head(id, template, out)?;
    put_specifiers(template.fields.as_slice(), out)
}

fn put_head(id: u16, template: &Template, out: &mut Vec<u8>) -> Result<(), AllocError>
    ensures ok { OnOk result
        (out.new.items ≡ out.old.items ++ record_head id (is_options template.now) template.now) }
    ensures err { OnErr result (out.new.items ≡ out.old.items) }
    ensures memory { OnErr result (vec_capacity out.old
        < vec_len out.old + length (record_head id (is_options template.now) template.now)) }
    ensures capacity { vec_capacity out.old ≤ vec_capacity out.new }
{
    let [a, b] = id.to_be_bytes();
    let [c, d] = (template.fields.len() as u16).to_be_bytes();
    if template.is_options() {
        let [e, f] = template.scope.to_be_bytes();
        out.extend_from_slice(&[a, b, c, d, e, f])
    } else {
        out.extend_from_slice(&[a, b, c, d])
    }
}

fn put_specifiers(fields: &[FieldSpec], out: &mut Vec<u8>) -> Result<(), AllocError>
    ensures ok { OnOk result (out.new.items ≡ out.old.items ++ flat_map specifier fields.now) }
    ensures err { OnErr result (take (length out.old.items) out.new.items ≡ out.old.items) }
    ensures memory { OnErr result
        (vec_capacity out.old < vec_len out.old + length (flat_map specifier fields.now)) }
    ensures capacity { vec_capacity out.old ≤ vec_capacity out.new }
{
    for field in fields {
        put_specifier(field, out)?;
    }
    Ok(())
}

fn put_specifier(field: &FieldSpec, out: &mut Vec<u8>) -> Result<(), AllocError>
    ensures ok { OnOk result (out.new.items ≡ out.old.items ++ specifier field.now) }
    ensures err { OnErr result (out.new.items ≡ out.old.items) }
    ensures memory { OnErr result
        (vec_capacity out.old < vec_len out.old + length (specifier field.now)) }
    ensures capacity { vec_capacity out.old ≤ vec_capacity out.new }
{
    let number = field.element.number();
    let [c, d] = field.length.to_be_bytes();
    match field.element.pen() {
        None => {
            let [a, b] = number.to_be_bytes();
            out.extend_from_slice(&[a, b, c, d])
        }
        Some(pen) => {
            let [a, b] = (number + ENTERPRISE_BIT).to_be_bytes();
            let [e, f, g, h] = pen.to_be_bytes();
            out.extend_from_slice(&[a, b, c, d, e, f, g, h])
        }
    }
}

fn put_values(fields: &[FieldSpec], values: &[Bytes], out: &mut Vec<u8>) -> Result<(), AllocError>
    requires { fit_fields fields.now values.now ≡ true }
    // All of it is appended, or what was there before is still at the front.
    ensures ok { OnOk result (out.new.items ≡ out.old.items ++ record_text fields.now values.now) }
    ensures err { OnErr result (take (length out.old.items) out.new.items ≡ out.old.items) }
    // Room that is there is enough, and is kept.
    ensures memory { OnErr result
        (vec_capacity out.old < vec_len out.old + length (record_text fields.now values.now)) }
    ensures capacity { vec_capacity out.old ≤ vec_capacity out.new }
{
    for (field, value) in fields.iter().zip(values) {
        encode_value(field, value, out)?;
    }
    Ok(())
}
