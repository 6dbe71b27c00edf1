//! The lines of audit entries, a piece at a time: a line, or what stands in it before the fields that were removed, or
//! one of these.
ghost use Rattle.std.specs.Prelude.{◌≡◌, ◌+◌, ◌<◌, ◌≤◌, ◌++◌, ◌∷◌, [], length, codes, MatchOption, if◌then◌else◌};
ghost use Rattle.std.specs.Fmt.{decimal};
ghost use Rattle.std.specs.List.{join_with_byte};
ghost use Rattle.disclosure_audit.specs.Lines.{audit_line, what_words, field_text};
ghost use Rattle.answer_writing.specs.Pieces.{most_octets, longest_piece, rest_of_line, rest_of_lines};

use crate::buffer::AnswerBuffer;
use disclosure_audit::{AuditEntry, RemovedField, What};

/// What of the lines of entries is still to be put.
#[derive(Clone, Copy)]
pub(crate) struct Rest<'e> {
    /// The fields that the line in hand still lists.
    fields: &'e [RemovedField],
    /// The entries behind it.
    entries: &'e [AuditEntry],
}

impl<'e> Rest<'e> {
    /// The lines of all `entries`.
    pub(crate) fn all_of(entries: &'e [AuditEntry]) -> Rest<'e>
        ensures fields { result.fields.now ≡ [] }
        ensures entries { result.entries.now ≡ entries.now }
    {
        Rest {
            fields: &[],
            entries,
        }
    }
}

/// Puts the first line of an answer with `count` entries into `buffer`, which has room for a piece: `ok COUNT`.
pub(crate) fn put_count(buffer: &mut AnswerBuffer, count: usize)
    requires room { length buffer.old + longest_piece ≤ most_octets }
    ensures put { buffer.new ≡ buffer.old ++ (codes "ok " ++ decimal count ++ 10 ∷ []) }
    ensures short { length buffer.new ≤ length buffer.old + longest_piece }
{
    buffer.put(b"ok ");
    buffer.put_number(count as u64);
    buffer.put(b"\n");
}

/// Puts the next piece of `rest` into `buffer`, which has room for one, and answers what is then still to be put; or
/// `None` where nothing was.
pub(crate) fn put_next<'e>(buffer: &mut AnswerBuffer, rest: Rest<'e>) -> Option<Rest<'e>>
    requires room { length buffer.old + longest_piece ≤ most_octets }
    ensures { MatchOption result ((buffer.new ≡ buffer.old)
        × (rest_of_lines rest.entry.fields.now rest.entry.entries.now ≡ []))
        (λ after. (buffer.new ++ rest_of_lines after.fields.now after.entries.now
        ≡ buffer.old ++ rest_of_lines rest.entry.fields.now rest.entry.entries.now)
        × (length buffer.old < length buffer.new)) }
{
    match rest.fields.split_first() {
        Some((field, fields)) => {
            put_field(buffer, *field, fields.is_empty());
            Some(Rest {
                fields,
                entries: rest.entries,
            })
        }
        None => put_next_entry(buffer, rest.entries),
    }
}

/// Puts the first piece of the line of the first of `entries` into `buffer`, which has room for one, and answers what
/// is then still to be put; or `None` where there is no entry.
fn put_next_entry<'e>(buffer: &mut AnswerBuffer, entries: &'e [AuditEntry]) -> Option<Rest<'e>>
    requires room { length buffer.old + longest_piece ≤ most_octets }
    ensures { MatchOption result ((buffer.new ≡ buffer.old) × (entries.now ≡ []))
        (λ after. (buffer.new ++ rest_of_lines after.fields.now after.entries.now
        ≡ buffer.old ++ rest_of_lines [] entries.now) × (length buffer.old < length buffer.new)) }
{
    match entries.split_first() {
        Some((entry, entries)) => {
            let fields = put_entry(buffer, entry);
            Some(Rest { fields, entries })
        }
        None => None,
    }
}

/// Puts the line of `entry` into `buffer`, which has room for a piece, up to the fields that the line lists; and
/// answers these.
fn put_entry<'e>(buffer: &mut AnswerBuffer, entry: &'e AuditEntry) -> &'e [RemovedField]
    requires room { length buffer.old + longest_piece ≤ most_octets }
    ensures put { buffer.new ++ rest_of_line result.now ≡ buffer.old ++ audit_line entry.now }
    ensures some { length buffer.old < length buffer.new }
{
    buffer.put_number(entry.position);
    buffer.put(b" ");
    buffer.put_number(u64::from(entry.index));
    buffer.put(b" ");
    buffer.put_number(entry.sub);
    buffer.put(b" ");
    put_what(buffer, &entry.what)
}

/// Puts `what`, which an entry says of its record or subscription, into `buffer`, up to the fields that it lists; and
/// answers these. Where it lists none, the line is whole.
fn put_what<'e>(buffer: &mut AnswerBuffer, what: &'e What) -> &'e [RemovedField]
    requires room { length buffer.old + 64 ≤ most_octets }
    ensures put { buffer.new ++ rest_of_line result.now
        ≡ buffer.old ++ (join_with_byte 32 (what_words what.now) ++ 10 ∷ []) }
    ensures some { length buffer.old ≤ length buffer.new }
{
    match what {
        What::Withheld { rule, reason } => {
            buffer.put(b"withheld ");
            buffer.put_number(u64::from(*rule));
            buffer.put(b" ");
            buffer.put(reason.word().as_bytes());
            buffer.put(b"\n");
            &[]
        }
        What::Aggregated { rule } => {
            buffer.put(b"aggregated ");
            buffer.put_number(u64::from(*rule));
            buffer.put(b"\n");
            &[]
        }
        What::Removed { fields } => {
            buffer.put(b"removed ");
            if fields.is_empty() {
                buffer.put(b"\n");
            }
            fields.as_slice()
        }
        What::Cut => {
            buffer.put(b"cut\n");
            &[]
        }
    }
}

/// Puts the removed `field` into `buffer`, which has room for a piece: its place in the record, a colon and the number
/// of the rule; and then a line feed where it `is_last` of its line, else a comma.
fn put_field(buffer: &mut AnswerBuffer, field: RemovedField, is_last: bool)
    requires room { length buffer.old + longest_piece ≤ most_octets }
    ensures put { buffer.new
        ≡ buffer.old ++ (field_text field ++ (if is_last then 10 else 44) ∷ []) }
    ensures some { length buffer.old < length buffer.new }
{
    buffer.put_number(u64::from(field.place));
    buffer.put(b":");
    buffer.put_number(u64::from(field.rule));
    buffer.put(if is_last { b"\n" } else { b"," });
}
