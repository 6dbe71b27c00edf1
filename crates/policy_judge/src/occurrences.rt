//! A record's source and destination addresses, and whether they are inside a prefix.
ghost use Rattle.std.specs.Prelude.{◌≡◌, ◌&&◌, ◌||◌, not};
ghost use Rattle.std.specs.List.{list_any, list_all, zip};
ghost use Rattle.flow_prefix.specs.Prefixes.{contains};
ghost use Rattle.policy_judge.specs.Occurrences.{values_of};
ghost use Rattle.policy_judge.specs.Match.{are_inside};

use flow_prefix::Prefix;
use ipfix_element::ElementId;
use ipfix_element::addresses::{
    DESTINATION_IPV4_ADDRESS, DESTINATION_IPV6_ADDRESS, SOURCE_IPV4_ADDRESS, SOURCE_IPV6_ADDRESS,
};
use ipfix_template::{FieldSpec, Record};

/// Which of a record's addresses: those of one end of the flow.
#[derive(Clone, Copy)]
pub enum Side {
    /// Where the flow comes from.
    Source,
    /// Where the flow goes to.
    Destination,
}

impl Side {
    ghost use Rattle.policy_judge.specs.Sides.{is_of};

    /// Whether fields of `element` hold addresses of this side.
    pub fn has(self, element: ElementId) -> bool
        ensures { result ≡ is_of self element }
    {
        let number = element.number();
        element.pen().is_none()
            && match self {
                Side::Source => number == SOURCE_IPV4_ADDRESS || number == SOURCE_IPV6_ADDRESS,
                Side::Destination => {
                    number == DESTINATION_IPV4_ADDRESS || number == DESTINATION_IPV6_ADDRESS
                }
            }
    }
}

ghost use Rattle.policy_judge.specs.Sides.{is_of};

/// Whether these occurrences of the record are such as a rule that denies, or one that permits, needs.
#[tactic(auto, using(crate::proofs::OccurrenceLaws::any_picked, crate::proofs::OccurrenceLaws::all_picked, crate::proofs::OccurrenceLaws::some_picked))]
pub(crate) fn are_inside(flow_record: &Record, side: Side, denies: bool, prefix: &Prefix) -> bool
    ensures { result ≡ are_inside denies (values_of (is_of side) flow_record.now) prefix.now }
{
    if denies {
        some_inside(flow_record, side, prefix)
    } else {
        occurs(flow_record, side) && each_inside(flow_record, side, prefix)
    }
}

/// Whether there is an occurrence.
fn occurs(flow_record: &Record, side: Side) -> bool
    ensures { result ≡ list_any
        (λ p. is_of side p.0.element) (zip flow_record.now.template.fields flow_record.now.values) }
{
    has_field(flow_record.template().fields.as_slice(), side)
}

/// Whether a field is of this side.
fn has_field(fields: &[FieldSpec], side: Side) -> bool
    ensures { result ≡ list_any (λ f. is_of side f.element) fields.now }
{
    fields.iter().any(|field| side.has(field.element))
}

/// Whether some occurrence is inside.
fn some_inside(flow_record: &Record, side: Side, prefix: &Prefix) -> bool
    ensures { result ≡ list_any (λ p. is_of side p.0.element && contains prefix.now p.1)
        (zip flow_record.now.template.fields flow_record.now.values) }
{
    flow_record.entries().any(|(field, value)| side.has(field.element) && prefix.contains(value))
}

/// Whether each occurrence is inside.
fn each_inside(flow_record: &Record, side: Side, prefix: &Prefix) -> bool
    ensures { result ≡ list_all (λ p. not (is_of side p.0.element) || contains prefix.now p.1)
        (zip flow_record.now.template.fields flow_record.now.values) }
{
    flow_record.entries().all(|(field, value)| !side.has(field.element) || prefix.contains(value))
}
