//! The records of a Template Set or an Options Template Set.
ghost use Rattle.std.specs.Prelude.{◌≡◌, ◌≤◌, length, vec_len, IfOk, Ok};
ghost use Rattle.ipfix_message.specs.Records.{bare_item, template_item};
ghost use Rattle.ipfix_message.specs.Reading.{GivesDecoded, or_overrun, field_at, fields_at, scoped_at, template_at, template_front};
ghost use Rattle.ipfix_message.specs.Shows.{ShowsField, ShowsFront, fields_seen, template_seen};
ghost use Rattle.ipfix_template.specs.Sequence.{read_all};

use crate::fault::Fault;
use crate::item::Item;
use crate::octets::{u16_at, u32_at};
use ipfix_element::ElementId;
use ipfix_octets::message_format::{
    ENTERPRISE_BIT, LEAST_TEMPLATE_ID, OPTIONS_TEMPLATE_SET, RECORD_HEADER_OCTETS, TEMPLATE_SET,
};
use ipfix_template::{FieldSpec, Fields, Refused, Template};
use std::alloc::Global;

/// The octets of a Field Specifier without an enterprise number (RFC 7011, section 3.2).
const SPECIFIER: usize = 4;

/// The octets of a Field Specifier with an enterprise number (RFC 7011, section 3.2).
const ENTERPRISE_SPECIFIER: usize = 8;

/// The Field Specifier at the front, and the octets after it.
#[tactic(auto, unfolding(crate::specs::Reading::field_at))]
fn first_field(octets: &[u8]) -> Option<(FieldSpec, &[u8])>
    ensures { ShowsField result (field_at octets.now) }
{
    if octets.len() < SPECIFIER {
        return None;
    }
    let number = u16_at(octets, 0);
    let length = u16_at(octets, 2);
    if number < ENTERPRISE_BIT {
        let element = ElementId::registered(number);
        return Some((FieldSpec { element, length }, octets.split_at(SPECIFIER).1));
    }
    if octets.len() < ENTERPRISE_SPECIFIER {
        return None;
    }
    let element = ElementId::enterprise(u32_at(octets, 4), number - ENTERPRISE_BIT);
    Some((
        FieldSpec { element, length },
        octets.split_at(ENTERPRISE_SPECIFIER).1,
    ))
}

/// The first `count` Field Specifiers, and the octets after them.
fn first_fields(alloc: Global, count: u16, octets: &[u8]) -> Result<(Vec<FieldSpec>, &[u8]), Fault>
    ensures read { GivesDecoded fields_seen result (or_overrun (fields_at count octets.now)) }
    ensures count { IfOk result (λ found. vec_len found.0 ≡ count) }
{
    let mut fields = Vec::new(alloc);
    let mut rest = octets;
    for _ in 0..count {
        let Some((field, after)) = first_field(rest) else {
            return Err(Fault::TemplateOverrun);
        };
        fields.push(field)?;
        rest = after;
    }
    Ok((fields, rest))
}

/// What follows ID and Field Count: the Scope Field Count of an options template, and the fields.
#[tactic(auto, unfolding(crate::specs::Reading::template_at))]
fn first_template(
    alloc: Global,
    options: bool,
    count: u16,
    octets: &[u8],
) -> Result<(Template, &[u8]), Fault>
    ensures { GivesDecoded template_seen result (or_overrun (template_at options count octets.now)) }
{
    if !options {
        return with_scope(alloc, 0, count, octets);
    }
    if octets.len() < 2 {
        return Err(Fault::TemplateOverrun);
    }
    let scope = u16_at(octets, 0);
    with_scope(alloc, scope, count, octets.split_at(2).1)
}

/// The template of the first `count` Field Specifiers, and the octets after them.
#[tactic(auto, unfolding(crate::specs::Reading::scoped_at))]
fn with_scope(
    alloc: Global,
    scope: u16,
    count: u16,
    octets: &[u8],
) -> Result<(Template, &[u8]), Fault>
    ensures { GivesDecoded template_seen result (or_overrun (scoped_at scope count octets.now)) }
{
    let (specs, rest) = first_fields(alloc, count, octets)?;
    match Fields::from_vec(specs) {
        Ok(fields) => Ok((Template { fields, scope }, rest)),
        Err(_) => unreachable!(),
    }
}

/// What a record without fields says: a withdrawal of one ID, or of all templates of the set's kind.
fn bare(options: bool, id: u16) -> Item
    ensures { result ≡ bare_item options id }
{
    let all = if options {
        OPTIONS_TEMPLATE_SET
    } else {
        TEMPLATE_SET
    };
    if id == all {
        return Item::WithdrawAll { options };
    }
    if id < LEAST_TEMPLATE_ID {
        return Item::Refused {
            id,
            why: Refused::BadId,
        };
    }
    Item::Withdraw { id }
}

/// What a record with fields says: a definition, or a refusal with its first reason.
fn judged(options: bool, id: u16, template: Template) -> Item
    ensures { result ≡ template_item options id template }
{
    match template.check(id, options) {
        Ok(()) => Item::Define { id, template },
        Err(why) => Item::Refused { id, why },
    }
}

/// The record at the front of a set of templates, and the octets after it; nothing where only padding
/// is left.
#[tactic(auto, unfolding(crate::specs::Reading::template_front))]
pub(crate) fn first_record(
    alloc: Global,
    options: bool,
    octets: &[u8],
) -> Result<Option<(Item, &[u8])>, Fault>
    ensures { ShowsFront result (template_front options octets.now) }
{
    if octets.len() < RECORD_HEADER_OCTETS {
        return Ok(None);
    }
    let id = u16_at(octets, 0);
    let count = u16_at(octets, 2);
    let body = octets.split_at(RECORD_HEADER_OCTETS).1;
    if count == 0 {
        return Ok(Some((bare(options, id), body)));
    }
    let (template, rest) = first_template(alloc, options, count, body)?;
    Ok(Some((judged(options, id, template), rest)))
}
