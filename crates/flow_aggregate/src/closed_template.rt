//! The templates of closed groups' records.
ghost use Rattle.std.specs.Prelude.{◌≡◌, ◌≤◌, ◌<◌, ◌++◌, ◌∷◌, [], length, IfOk, OnOk};
ghost use Rattle.std.specs.Arc.{arc_value};
ghost use Rattle.flow_aggregate.specs.Values.{of_iana};
ghost use Rattle.flow_aggregate.specs.Closed.{HasTemplate, field, key_fields, sum_fields};

use crate::group::width_of;
use crate::values::{
    DELTA_FLOW_COUNT, FLOW_END_MILLISECONDS, FLOW_START_MILLISECONDS, OCTET_DELTA_COUNT,
    PACKET_DELTA_COUNT,
};
use ipfix_element::ElementId;
use ipfix_template::{FieldSpec, Fields, Template};
use std::alloc::{AllocError, Global};
use std::sync::Arc;

/// The octets of an interval's ends and of a sum.
const NUMBER_OCTETS: u16 = 8;

/// The template of the records of an aggregate with this key.
///
/// # Errors
/// Want of memory.
pub(crate) fn template_for(alloc: Global, key: &[ElementId]) -> Result<Arc<Template>, AllocError>
    requires few { length key.now ≤ 16 }
    ensures { IfOk result (λ t. HasTemplate key.now (arc_value t)) }
{
    let mut specs = Vec::new(alloc);
    put_key_fields(key, &mut specs)?;
    put_sum_fields(&mut specs)?;
    let fields = match Fields::from_vec(specs) {
        Ok(fields) => fields,
        Err(_) => unreachable!(),
    };
    Ok(Arc::new(alloc, Template { fields, scope: 0 })?)
}

fn put_key_fields(key: &[ElementId], specs: &mut Vec<FieldSpec>) -> Result<(), AllocError>
    ensures { OnOk result (specs.new.items ≡ specs.old.items ++ key_fields key.now) }
{
    for element in key {
        put_field(*element, width_of(*element), specs)?;
    }
    Ok(())
}

/// The interval's start and end, and the sums.
fn put_sum_fields(specs: &mut Vec<FieldSpec>) -> Result<(), AllocError>
    ensures { OnOk result (specs.new.items ≡ specs.old.items ++ sum_fields) }
{
    put_number_field(FLOW_START_MILLISECONDS, specs)?;
    put_number_field(FLOW_END_MILLISECONDS, specs)?;
    put_number_field(OCTET_DELTA_COUNT, specs)?;
    put_number_field(PACKET_DELTA_COUNT, specs)?;
    put_number_field(DELTA_FLOW_COUNT, specs)
}

fn put_number_field(number: u16, specs: &mut Vec<FieldSpec>) -> Result<(), AllocError>
    requires { number < 32768 }
    ensures { OnOk result (specs.new.items ≡ specs.old.items ++ field (of_iana number) 8 ∷ []) }
{
    put_field(ElementId::registered(number), NUMBER_OCTETS, specs)
}

fn put_field(element: ElementId, length: u16, specs: &mut Vec<FieldSpec>) -> Result<(), AllocError>
    ensures { OnOk result (specs.new.items ≡ specs.old.items ++ field element length ∷ []) }
{
    specs.push(FieldSpec { element, length })?;
    Ok(())
}
