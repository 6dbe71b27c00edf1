//! The values of a record that aggregates look at.
ghost use Rattle.std.specs.Prelude.{◌≡◌, ◌<◌, ◌≤◌, ◌^◌, option_map, IfSome};
ghost use Rattle.policy_judge.specs.Match.{is_same_element};
ghost use Rattle.flow_aggregate.specs.Values.{of_iana, first_value, first_number, full_width};
ghost use Rattle.flow_aggregate.specs.Widths.{IsWide};

use ipfix_element::ElementId;
use ipfix_octets::be_number;
use ipfix_template::{FieldSpec, Record};

/// The number of the element `octetDeltaCount`, in IANA's registry as the others here are.
pub(crate) const OCTET_DELTA_COUNT: u16 = 1;

/// The number of the element `packetDeltaCount`.
pub(crate) const PACKET_DELTA_COUNT: u16 = 2;

/// The number of the element `deltaFlowCount`.
pub(crate) const DELTA_FLOW_COUNT: u16 = 3;

/// The number of the element `flowStartSeconds`.
pub(crate) const FLOW_START_SECONDS: u16 = 150;

/// The number of the element `flowStartMilliseconds`.
pub(crate) const FLOW_START_MILLISECONDS: u16 = 152;

/// The number of the element `flowEndMilliseconds`.
pub(crate) const FLOW_END_MILLISECONDS: u16 = 153;

/// The value of the record's first field of the element.
pub(crate) fn first_value(flow_record: &Record, element: ElementId) -> Option<&[u8]>
    ensures exact { option_map (λ v. v.now) result ≡ first_value element flow_record.now }
    ensures wide { IfSome result (λ v. IsWide element v.now) }
{
    let fields = flow_record.template().fields.as_slice();
    let place = place_of(fields, element)?;
    Some(flow_record.value(place))
}

/// The place of the first field of the element.
fn place_of(fields: &[FieldSpec], element: ElementId) -> Option<usize>
    ensures { result
        ≡ Rattle.std.specs.Prelude.position (λ f. is_same_element element f.element) fields.now }
{
    fields
        .iter()
        .position(|field| is_same_element(element, field.element))
}

fn is_same_element(element: ElementId, other: ElementId) -> bool
    ensures { result ≡ is_same_element element other }
{
    element.pen() == other.pen() && element.number() == other.number()
}

/// The value of the record's first field of the element of this number, as a number. The element is
/// one whose values are numbers.
pub(crate) fn first_number(flow_record: &Record, number: u16) -> Option<u64>
    requires below { number < 32768 }
    requires some { 1 ≤ full_width (of_iana number) }
    requires few { full_width (of_iana number) ≤ 8 }
    // It is the value of the first such field, and one that the element can have.
    ensures exact { result ≡ first_number (of_iana number) flow_record.now }
    ensures below { IfSome result (λ n. n < 256 ^ full_width (of_iana number)) }
{
    let value = first_value(flow_record, ElementId::registered(number))?;
    Some(be_number(value))
}
