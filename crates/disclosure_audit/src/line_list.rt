//! The lines of text of many audit entries, where a line takes from the one before it what both say.
ghost use Rattle.std.specs.Prelude.{◌≡◌, ◌+◌, ◌%◌, ◌++◌, ◌∷◌, true, OnOk, IfOk, string_bytes};
ghost use Rattle.std.specs.List.{flat_map};
ghost use Rattle.disclosure_audit.specs.Lines.{audit_line, line_front, line_tail};

use crate::entry::{AuditEntry, RemovedField, What};
use crate::lines::{put_mark, put_number, put_what};
use std::alloc::{AllocError, Global};
use std::mem::swap;

/// Adds the lines of `entries`, as [`crate::line`] answers them, to `text`, one after another. What
/// lines share is kept meanwhile, in memory from `alloc`.
///
/// # Errors
/// Want of memory, and then a part of the lines may stand there.
pub fn put_lines(
    alloc: Global,
    text: &mut Vec<u8>,
    entries: &[AuditEntry],
) -> Result<(), AllocError>
    ensures { OnOk result (text.new.items ≡ text.old.items ++ flat_map audit_line entries.now) }
{
    let Some(first) = entries.first() else {
        return Ok(());
    };
    let mut front = String::new(alloc);
    put_front(&mut front, first)?;
    let mut tail = String::new(alloc);
    put_tail(&mut tail, first)?;
    let mut before = first;
    // The tail before this one is kept too, since records of two classes often take turns.
    let mut other_tail = String::new(alloc);
    put_tail(&mut other_tail, first)?;
    let mut other = first;
    'entries: for entry in entries {
        renew_front(&mut front, before, entry)?;
        if !has_same_tail(before, entry) {
            swap(&mut tail, &mut other_tail);
            renew_tail(&mut tail, other, entry)?;
            other = before;
        }
        put_parts(text, front.as_bytes(), entry.index, tail.as_bytes())?;
        before = entry;
    }
    Ok(())
}

/// Adds a line by its parts: between its front and its tail the last digit of its index.
fn put_parts(text: &mut Vec<u8>, front: &[u8], index: u32, tail: &[u8]) -> Result<(), AllocError>
    ensures { OnOk result (text.new.items
        ≡ text.old.items ++ (front.now ++ (48 + index % 10) ∷ tail.now)) }
{
    text.extend_from_slice(front)?;
    text.push(b'0' + (index % 10) as u8)?;
    text.extend_from_slice(tail)
}

/// Adds what stands before the last digit of the index of a line: the position, a space, and the
/// other digits of the index.
fn put_front(front: &mut String, entry: &AuditEntry) -> Result<(), AllocError>
    ensures { OnOk result (string_bytes front.new ≡ string_bytes front.old ++ line_front entry.now) }
{
    put_number(front, entry.position)?;
    put_mark(front, ' ')?;
    let tens = entry.index / 10;
    if tens == 0 {
        return Ok(());
    }
    put_number(front, u64::from(tens))
}

/// Adds what stands behind the index of a line: the subscription and what was kept back, a space
/// before each, and a line feed.
fn put_tail(tail: &mut String, entry: &AuditEntry) -> Result<(), AllocError>
    ensures { OnOk result (string_bytes tail.new ≡ string_bytes tail.old ++ line_tail entry.now) }
{
    put_mark(tail, ' ')?;
    put_number(tail, entry.sub)?;
    put_mark(tail, ' ')?;
    put_what(tail, &entry.what)?;
    put_mark(tail, '\n')
}

/// Makes the front of the line of `before` that of the line of `entry`.
fn renew_front(
    front: &mut String,
    before: &AuditEntry,
    entry: &AuditEntry,
) -> Result<(), AllocError>
    requires { string_bytes front.old ≡ line_front before.now }
    ensures { OnOk result (string_bytes front.new ≡ line_front entry.now) }
{
    if before.position == entry.position && before.index / 10 == entry.index / 10 {
        return Ok(());
    }
    front.clear();
    put_front(front, entry)
}

/// Makes the tail of the line of `before` that of the line of `entry`.
fn renew_tail(tail: &mut String, before: &AuditEntry, entry: &AuditEntry) -> Result<(), AllocError>
    requires { string_bytes tail.old ≡ line_tail before.now }
    ensures { OnOk result (string_bytes tail.new ≡ line_tail entry.now) }
{
    if has_same_tail(before, entry) {
        return Ok(());
    }
    tail.clear();
    put_tail(tail, entry)
}

/// Whether the same was kept from the same subscription.
fn has_same_tail(one: &AuditEntry, other: &AuditEntry) -> bool
    ensures { result ≡ true → line_tail one.now ≡ line_tail other.now }
{
    one.sub == other.sub && is_same(&one.what, &other.what)
}

/// Whether the same was kept back.
fn is_same(one: &What, other: &What) -> bool
    ensures { result ≡ true → one.now ≡ other.now }
{
    match one {
        What::Withheld { rule, reason } => match other {
            What::Withheld {
                rule: other_rule,
                reason: other_reason,
            } => *rule == *other_rule && *reason == *other_reason,
            _ => false,
        },
        What::Aggregated { rule } => match other {
            What::Aggregated { rule: other_rule } => *rule == *other_rule,
            _ => false,
        },
        What::Removed { fields } => match other {
            What::Removed {
                fields: other_fields,
            } => are_same(fields.as_slice(), other_fields.as_slice()),
            _ => false,
        },
        What::Cut => match other {
            What::Cut => true,
            _ => false,
        },
    }
}

/// Whether two lists of removed fields are the same.
fn are_same(one: &[RemovedField], other: &[RemovedField]) -> bool
    ensures { result ≡ true → one.now ≡ other.now }
{
    match one {
        [one] => match other {
            [other] => one.place == other.place && one.rule == other.rule,
            _ => false,
        },
        _ => one == other,
    }
}
