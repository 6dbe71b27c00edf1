//! Where the values of a side stand in each record of a template.
ghost use Rattle.std.specs.Prelude.{◌≡◌, ◌≤◌, ◌+◌, ◌*◌, ◌∷◌, [], length, IfOk, IfSome};
ghost use Rattle.ipfix_template.specs.declared.field.TheConstants.{VARIABLE, MOST_FIELDS};
ghost use Rattle.rule_table.specs.Places.{ArePlaces, place_at, start_behind};
ghost use Rattle.rule_table.specs.declared.place.Place.TheVariants.{Narrow};

use flow_prefix::{IPV4_OCTETS, IPV6_OCTETS};
use ipfix_template::FieldSpec;
use policy_judge::Side;
use std::alloc::{AllocError, Global};

/// Where a value stands in each record of a template.
#[derive(Clone, Copy, Debug)]
pub(crate) enum Place {
    /// An address of IPv4, in the octets of the record from here on: only fields of fixed length stand before it.
    Narrow(usize),
    /// An address of IPv6, likewise.
    Wide(usize),
    /// At the field of this place.
    Field(usize),
}

/// The places of the values of a side, in the order of their fields.
pub(crate) fn places_of(
    alloc: Global,
    side: Side,
    fields: &[FieldSpec],
) -> Result<Vec<Place>, AllocError>
    requires { length fields.now ≤ MOST_FIELDS }
    ensures { IfOk result (λ places. ArePlaces side fields.now places.items) }
{
    let mut places = Vec::new(alloc);
    let mut start = Some(0);
    for index in 0..fields.len() {
        let field = &fields[index];
        if side.has(field.element) {
            places.push(place_at(start, field, index))?;
        }
        start = start_behind(start, field);
    }
    Ok(places)
}

/// Where a field's value stands, with where it starts, if that is the same in each record.
fn place_at(start: Option<usize>, field: &FieldSpec, index: usize) -> Place
    ensures { result ≡ place_at start field.now index }
{
    match (start, usize::from(field.length)) {
        (Some(from), IPV4_OCTETS) => Place::Narrow(from),
        (Some(from), IPV6_OCTETS) => Place::Wide(from),
        _ => Place::Field(index),
    }
}

/// Where the value behind the field's starts, if that is the same in each record.
fn start_behind(start: Option<usize>, field: &FieldSpec) -> Option<usize>
    requires { IfSome start (λ s. s ≤ MOST_FIELDS * VARIABLE) }
    ensures start { result ≡ start_behind start field.now }
    ensures near { IfSome start (λ s. IfSome result (λ next. next ≤ s + VARIABLE)) }
{
    let length = usize::from(field.length);
    match start {
        Some(from) if !field.is_variable() => Some(from + length),
        _ => None,
    }
}

/// Where the address of IPv4 stands, where that is the only place.
pub(crate) fn lone_narrow(places: &[Place]) -> Option<usize>
    ensures { IfSome result (λ from. places.now ≡ Narrow from ∷ []) }
{
    match places {
        [place] => match place {
            Place::Narrow(from) => Some(*from),
            _ => None,
        },
        _ => None,
    }
}
