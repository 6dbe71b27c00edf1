//! The lines of text of audit entries.
ghost use Rattle.std.specs.Prelude.{◌≡◌, ◌++◌, ◌∷◌, [], ◌<◌, OnOk, IfOk, string_bytes};
ghost use Rattle.std.specs.Fmt.{decimal};
ghost use Rattle.std.specs.List.{join_with_byte};
ghost use Rattle.disclosure_audit.specs.Lines.{audit_line, what_words, fields_text, field_text};

use crate::entry::{AuditEntry, RemovedField, What};
use itoa::Buffer;
use std::alloc::{AllocError, Global};

/// The line of `entry` with its line feed, in memory from `alloc`: the position, the index and the
/// subscription, then what was kept back, words parted by one space.
///
/// # Errors
/// Want of memory.
pub fn line(alloc: Global, entry: &AuditEntry) -> Result<String, AllocError>
    ensures { IfOk result (λ text. string_bytes text ≡ audit_line entry.now) }
{
    let mut text = String::new(alloc);
    put_line(&mut text, entry)?;
    Ok(text)
}

/// Adds the line of `entry`, as [`line`] answers it, to `text`.
///
/// # Errors
/// Want of memory, and then a part of the line may stand there.
pub fn put_line(text: &mut String, entry: &AuditEntry) -> Result<(), AllocError>
    ensures { OnOk result (string_bytes text.new ≡ string_bytes text.old ++ audit_line entry.now) }
{
    put_number(text, entry.position)?;
    put_mark(text, ' ')?;
    put_number(text, u64::from(entry.index))?;
    put_mark(text, ' ')?;
    put_number(text, entry.sub)?;
    put_mark(text, ' ')?;
    put_what(text, &entry.what)?;
    put_mark(text, '\n')
}

pub(crate) fn put_what(text: &mut String, what: &What) -> Result<(), AllocError>
    ensures { OnOk result (string_bytes text.new ≡ string_bytes text.old
        ++ join_with_byte 32 (what_words what.now)) }
{
    match what {
        What::Withheld { rule, reason } => {
            text.push_str("withheld ")?;
            put_number(text, u64::from(*rule))?;
            put_mark(text, ' ')?;
            text.push_str(reason.word())
        }
        What::Aggregated { rule } => {
            text.push_str("aggregated ")?;
            put_number(text, u64::from(*rule))
        }
        What::Removed { fields } => {
            text.push_str("removed ")?;
            put_fields(text, fields.as_slice())
        }
        What::Cut => text.push_str("cut"),
    }
}

/// Removed fields with commas between.
fn put_fields(text: &mut String, fields: &[RemovedField]) -> Result<(), AllocError>
    ensures { OnOk result
        (string_bytes text.new ≡ string_bytes text.old ++ fields_text fields.now) }
{
    for (at, field) in fields.iter().enumerate() {
        if at > 0 {
            put_mark(text, ',')?;
        }
        put_field(text, *field)?;
    }
    Ok(())
}

/// The place of a removed field, a colon, and its rule.
fn put_field(text: &mut String, field: RemovedField) -> Result<(), AllocError>
    ensures { OnOk result (string_bytes text.new ≡ string_bytes text.old ++ field_text field) }
{
    put_number(text, u64::from(field.place))?;
    put_mark(text, ':')?;
    put_number(text, u64::from(field.rule))
}

pub(crate) fn put_number(text: &mut String, number: u64) -> Result<(), AllocError>
    ensures { OnOk result (string_bytes text.new ≡ string_bytes text.old ++ decimal number) }
{
    if number < 10 {
        return put_mark(text, char::from(b'0' + number as u8));
    }
    let mut digits = Buffer::new();
    text.push_str(digits.format(number))
}

/// Adds one character of ASCII.
pub(crate) fn put_mark(text: &mut String, mark: char) -> Result<(), AllocError>
    requires { mark < 128 }
    ensures { OnOk result (string_bytes text.new ≡ string_bytes text.old ++ mark ∷ []) }
{
    text.push(mark)
}
