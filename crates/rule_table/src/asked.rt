//! The marks that are looked up for a record.
ghost use Rattle.std.specs.Prelude.{◌≡◌, ◌∷◌, [], ◌++◌, IfOk, OnOk};
ghost use Rattle.std.specs.List.{filter_map};
ghost use Rattle.policy_judge.specs.declared.occurrences.Side.TheVariants.{Source, Destination};
ghost use Rattle.rule_table.specs.Addresses.{addresses_of};
ghost use Rattle.rule_table.specs.Asked.{asked_at, asked_of, asked_elements, asked_marks};
ghost use Rattle.rule_table.specs.Marks.{domain_mark};

use crate::addresses::{Address, Shape, first_bits};
use crate::marks::{ANY_SUBSCRIBER, domain_mark, element_mark, inside_mark, name_mark};
use ipfix_template::{FieldSpec, Record};
use policy_judge::Side;
use std::alloc::{AllocError, Global};

/// The marks that are looked up for a record with these sources and destinations.
pub(crate) fn asked(
    alloc: Global,
    sources: &[Shape],
    destinations: &[Shape],
    name: &[u8],
    domain: u32,
    flow_record: &Record,
    from: &[Address],
    to: &[Address],
) -> Result<Vec<u64>, AllocError>
    requires from { from.now ≡ addresses_of Source flow_record.now }
    requires to { to.now ≡ addresses_of Destination flow_record.now }
    ensures { IfOk result (λ marks. marks.items
        ≡ asked_marks name.now domain sources.now destinations.now flow_record.now) }
{
    let mut marks = Vec::new(alloc);
    let fields = flow_record.template().fields.as_slice();
    let any = ANY_SUBSCRIBER;
    ask(any, domain, fields, &mut marks)?;
    ask_all(any, Side::Source, sources, from, &mut marks)?;
    ask_all(any, Side::Destination, destinations, to, &mut marks)?;
    let one = name_mark(name);
    ask(one, domain, fields, &mut marks)?;
    ask_all(one, Side::Source, sources, from, &mut marks)?;
    ask_all(one, Side::Destination, destinations, to, &mut marks)?;
    Ok(marks)
}

/// Adds what is looked up for the rules of a subscriber, or for those of any, that stand under no prefix.
fn ask(who: u64, domain: u32, fields: &[FieldSpec], marks: &mut Vec<u64>) -> Result<(), AllocError>
    ensures { OnOk result (marks.new.items ≡ marks.old.items
        ++ who ∷ [] ++ domain_mark who domain ∷ [] ++ asked_elements who fields.now) }
{
    marks.push(who)?;
    marks.push(domain_mark(who, domain))?;
    for field in fields {
        marks.push(element_mark(who, field.element))?;
    }
    Ok(())
}

/// Adds the marks of all prefixes of these shapes that these addresses are inside.
fn ask_all(
    who: u64,
    side: Side,
    shapes: &[Shape],
    addresses: &[Address],
    marks: &mut Vec<u64>,
) -> Result<(), AllocError>
    ensures { OnOk result
        (marks.new.items ≡ marks.old.items ++ asked_of who side shapes.now addresses.now) }
{
    for address in addresses {
        ask_one(who, side, shapes, *address, marks)?;
    }
    Ok(())
}

/// Adds the marks of all prefixes of these shapes that this address is inside.
fn ask_one(
    who: u64,
    side: Side,
    shapes: &[Shape],
    address: Address,
    marks: &mut Vec<u64>,
) -> Result<(), AllocError>
    ensures { OnOk result
        (marks.new.items ≡ marks.old.items ++ filter_map (asked_at who side address) shapes.now) }
{
    for shape in shapes {
        if let Some(mark) = asked_at(who, side, address, *shape) {
            marks.push(mark)?;
        }
    }
    Ok(())
}

/// The mark of the prefix of this shape that the address is inside, if the shape is one for such addresses.
fn asked_at(who: u64, side: Side, address: Address, shape: Shape) -> Option<u64>
    ensures { result ≡ asked_at who side address shape }
{
    if shape.width != address.width {
        return None;
    }
    let number = first_bits(shape.width, shape.length, address.number);
    Some(inside_mark(who, side, shape.width, shape.length, number))
}
