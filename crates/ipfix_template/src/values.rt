//! A record's values at the front of octets.
ghost use Rattle.std.specs.Prelude.{◌≡◌, ◌≤◌, ◌+◌, ◌++◌, ℕ, List, length, IsOk, IfOk, IfSome, ◌↔◌, ◌<◌};
ghost use Rattle.ipfix_template.specs.Values.{Splits, span_at, values_at, record_front};
ghost use Rattle.ipfix_template.specs.Template.{shortest_record};
ghost use Rattle.ipfix_template.specs.Shown.{Shows, IsSplitBy, IsLaid, IsRecordFound, spans_shown, AreFoundLaid, AreFoundWithin, IsPadding};

use crate::field::FieldSpec;
use crate::spans::{Span, Split};
use crate::template::Template;
use ipfix_octets::read_varlen;
use std::alloc::{AllocError, Global};

/// Finds the record of `template` at the front of `octets`: where each value lies, without a copy,
/// and how many octets the record takes (RFC 7011, sections 3.3.1 and 3.4.3). The list of spans is
/// in memory from `alloc`.
///
/// # Errors
/// Want of memory for the list of spans. Padding needs none.
pub fn split(alloc: Global, template: &Template, octets: &[u8]) -> Result<Split, AllocError>
    // What is found is split so by the fields.
    ensures found { IfOk result (IsSplitBy template.now.fields octets.now) }
    // Each span lies where its field's value is, also one of no octets or of octets that stand twice.
    ensures laid { IfOk result (IsLaid template.now.fields octets.now) }
    // What is split so by the fields is found, whatever follows it.
    ensures only { (text rest : List ℕ) (values : List (List ℕ)) → octets.now ≡ text ++ rest
        → Splits template.now.fields text values
        → IfOk result (IsRecordFound octets.now values (length text)) }
    ensures padding { IfOk result
        (λ s. IsPadding s ↔ (length octets.now < shortest_record template.now)) }
    ensures exact { IfOk result (Shows octets.now (record_front template.now octets.now)) }
    ensures no_memory { length octets.now < shortest_record template.now → IsOk result }
{
    find_record(alloc, template, octets)
}

#[tactic(auto, unfolding(crate::specs::Values::record_front))]
fn find_record(alloc: Global, template: &Template, octets: &[u8]) -> Result<Split, AllocError>
    ensures laid { IfOk result (IsLaid template.now.fields octets.now) }
    ensures exact { IfOk result (Shows octets.now (record_front template.now octets.now)) }
    ensures no_memory { length octets.now < shortest_record template.now → IsOk result }
{
    if octets.len() < template.shortest() as usize {
        return Ok(Split::Padding);
    }
    match find_values(alloc, template.fields.as_slice(), octets)? {
        Some((spans, used)) => Ok(Split::Record { spans, used }),
        None => Ok(Split::Overrun),
    }
}

/// Where the values of the fields lie, and the place after them.
fn find_values(
    alloc: Global,
    fields: &[FieldSpec],
    octets: &[u8],
) -> Result<Option<(Vec<Span>, usize)>, AllocError>
    ensures shown { IfOk result
        (λ found. spans_shown octets.now found ≡ values_at fields.now octets.now) }
    ensures within { IfOk result (AreFoundWithin octets.now) }
    ensures laid { IfOk result (AreFoundLaid fields.now octets.now) }
{
    let mut spans = Vec::with_capacity(alloc, fields.len())?;
    let mut used = 0;
    for field in fields {
        let Some((start, length)) = find_span(field, &octets[used..]) else {
            return Ok(None);
        };
        spans.push(Span {
            start: used + start,
            length,
        })?;
        used += start + length;
    }
    Ok(Some((spans, used)))
}

/// Where the field's value starts at the front of `octets`, and its length.
pub(crate) fn find_span(field: &FieldSpec, octets: &[u8]) -> Option<(usize, usize)>
    ensures exact { result ≡ span_at field.now octets.now }
    ensures within { IfSome result (λ f. f.0 + f.1 ≤ length octets.now) }
{
    if field.is_variable() {
        return read_varlen(octets);
    }
    let length = usize::from(field.length);
    (length <= octets.len()).then_some((0, length))
}
