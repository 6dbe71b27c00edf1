//! What is written for values apart from their record.
ghost use Rattle.std.specs.Prelude.{◌≡◌, ◌<◌, ◌≤◌, ◌+◌, ◌++◌, true, length, OnOk, OnErr, vec_len, vec_capacity};
ghost use Rattle.ipfix_template.specs.Values.{fits_field, fit_fields, value_text, record_text};

use crate::data_record::Values;
use crate::encode::put_values;
use crate::field::FieldSpec;
use crate::template::Template;
use ipfix_octets::write_varlen;
use std::alloc::AllocError;

/// Appends `values` to `out`, one for each field of `template`, each in its shortest text. These
/// are the octets that [`encode_record`](crate::encode_record) appends for a record of them (RFC
/// 7011, sections 3.4.3 and 7).
///
/// # Errors
/// Want of memory, only where `out` had no room for them, and then nothing is appended.
pub fn encode_values(
    template: &Template,
    values: &Values,
    out: &mut Vec<u8>,
) -> Result<(), AllocError>
    requires { fit_fields template.now.fields values.now ≡ true }
    // All of it is appended, or nothing.
    ensures ok { OnOk result
        (out.new.items ≡ out.old.items ++ record_text template.now.fields values.now) }
    ensures err { OnErr result (out.new.items ≡ out.old.items) }
    // Room that is there is enough, and is kept.
    ensures memory { OnErr result (vec_capacity out.old
        < vec_len out.old + length (record_text template.now.fields values.now)) }
    ensures capacity { vec_capacity out.old ≤ vec_capacity out.new }
{
    let held = out.len();
    let put = put_values(template.fields.as_slice(), values.as_slice(), out);
    if put.is_err() {
        out.truncate(held);
    }
    put
}

/// Appends `value` to `out` in its shortest text, as it stands in a record in the place of `field`,
/// which it fits: as it is, or behind its length where the field's length is
/// [`VARIABLE`](crate::field::VARIABLE) (RFC 7011, section 7).
///
/// # Errors
/// Want of memory, only where `out` had no room for it, and then nothing is appended.
pub fn encode_value(field: &FieldSpec, value: &[u8], out: &mut Vec<u8>) -> Result<(), AllocError>
    requires { fits_field field.now value.now ≡ true }
    // All of it is appended, or nothing.
    ensures ok { OnOk result (out.new.items ≡ out.old.items ++ value_text field.now value.now) }
    ensures err { OnErr result (out.new.items ≡ out.old.items) }
    // Room that is there is enough, and is kept.
    ensures memory { OnErr result
        (vec_capacity out.old < vec_len out.old + length (value_text field.now value.now)) }
    ensures capacity { vec_capacity out.old ≤ vec_capacity out.new }
{
    if field.is_variable() {
        write_varlen(value, out)
    } else {
        out.extend_from_slice(value)
    }
}
