//! The octets of fixed length before, between and behind the fields of variable length.
ghost use Rattle.std.specs.Prelude.{◌≡◌, ◌≤◌, ◌*◌, length, IfOk, IfSome};
ghost use Rattle.ipfix_template.specs.declared.field.TheConstants.{MOST_FIELDS};
ghost use Rattle.ipfix_records.specs.Gaps.{first_gap, gaps_behind, walk_at, start_of};

use ipfix_octets::message_format::LONG_FORM;
use ipfix_octets::read_varlen;
use ipfix_template::FieldSpec;
use std::alloc::{AllocError, Global};

/// The octets of the fields before the first field of variable length.
pub(crate) fn first_gap(fields: &[FieldSpec]) -> usize
    requires { length fields.now ≤ MOST_FIELDS }
    ensures { result ≡ first_gap fields.now }
{
    let mut octets = 0;
    for field in fields {
        if field.is_variable() {
            return octets;
        }
        octets += usize::from(field.length);
    }
    octets
}

/// For each field of variable length, the octets of the fields between it and the next one, or the end.
pub(crate) fn gaps_behind(alloc: Global, fields: &[FieldSpec]) -> Result<Vec<usize>, AllocError>
    requires { length fields.now ≤ MOST_FIELDS }
    ensures { IfOk result (λ gaps. gaps.items ≡ gaps_behind fields.now) }
{
    let mut gaps = Vec::new(alloc);
    for place in 0..fields.len() {
        if fields[place].is_variable() {
            gaps.push(first_gap(&fields[place + 1..]))?;
        }
    }
    Ok(gaps)
}

/// How many octets the gaps take with the values of variable length between them, and whether each of these values
/// stands in its shortest text.
pub(crate) fn walk(first: usize, gaps: &[usize], octets: &[u8]) -> Option<(usize, bool)>
    ensures exact { result ≡ walk_at first gaps.now octets.now }
    ensures within { IfSome result (λ extent. extent.0 ≤ length octets.now) }
{
    if octets.len() < first {
        return None;
    }
    let mut used = first;
    let mut is_shortest = true;
    for gap in gaps {
        let Some((start, length)) = read_varlen(&octets[used..]) else {
            return None;
        };
        let end = used + start + length;
        if octets.len() - end < *gap {
            return None;
        }
        is_shortest = is_shortest && start == shortest_start(length);
        used = end + *gap;
    }
    Some((used, is_shortest))
}

/// Where a value of `length` octets starts in its shortest text.
fn shortest_start(length: usize) -> usize
    ensures { result ≡ start_of length }
{
    if length < usize::from(LONG_FORM) {
        1
    } else {
        3
    }
}
