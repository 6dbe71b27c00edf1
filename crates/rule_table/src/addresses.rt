//! A record's addresses as numbers, and the shapes of the prefixes that rules name.
ghost use Rattle.std.specs.Prelude.{◌≡◌, ◌==◌, ◌&&◌, if◌then◌else◌, None, IfOk, IfSome, OnOk};
ghost use Rattle.std.specs.List.{Contains, list_any};
ghost use Rattle.flow_prefix.specs.Bits.{truncated};
ghost use Rattle.policy_judge.specs.Sides.{is_of};
ghost use Rattle.rule_table.specs.Addresses.{address_value, addresses_of, shape_of, prefix_on};
ghost use Rattle.rule_table.specs.Index.{HaveShapes};

use flow_prefix::{IPV4_BITS, IPV4_OCTETS, IPV6_BITS, IPV6_OCTETS, Prefix, number};
use ipfix_element::ElementId;
use ipfix_template::Record;
use policy_judge::Side;
use policy_text::Rule;
use std::alloc::{AllocError, Global};

/// An address: how many bits it has, and its number.
#[derive(Clone, Copy, Debug)]
pub(crate) struct Address {
    /// How many bits it has: 32 or 128.
    pub width: u32,
    /// The number that its octets are.
    pub number: u128,
}

/// What a prefix is without its address: how many bits an address has, and how many of them count.
#[derive(Clone, Copy, Debug)]
pub(crate) struct Shape {
    /// How many bits an address has: 32 or 128.
    pub width: u32,
    /// How many of them count.
    pub length: u32,
}

/// The addresses of a record on a side, in the order of its fields.
pub(crate) fn addresses_of(
    alloc: Global,
    side: Side,
    flow_record: &Record,
) -> Result<Vec<Address>, AllocError>
    ensures { IfOk result (λ addresses. addresses.items ≡ addresses_of side flow_record.now) }
{
    flow_record
        .entries()
        .filter_map(|(field, value)| address_at(side, field.element, value))
        .collect(alloc)
}

/// The address that a field of this element holds on a side.
fn address_at(side: Side, element: ElementId, value: &[u8]) -> Option<Address>
    ensures { result ≡ (if is_of side element then address_value value.now else None) }
{
    if side.has(element) {
        address_of(value)
    } else {
        None
    }
}

/// The address that a value of 4 octets, or of 16, writes.
fn address_of(octets: &[u8]) -> Option<Address>
    ensures { result ≡ address_value octets.now }
{
    if octets.len() == IPV4_OCTETS {
        return Some(Address {
            width: IPV4_BITS,
            number: number(octets),
        });
    }
    if octets.len() == IPV6_OCTETS {
        return Some(Address {
            width: IPV6_BITS,
            number: number(octets),
        });
    }
    None
}

/// A number of `width` bits with its first `kept` bits, and the others set to 0.
pub(crate) fn first_bits(width: u32, kept: u32, number: u128) -> u128
    ensures { result ≡ truncated width kept number }
{
    match 1u128.checked_shl(width.saturating_sub(kept)) {
        Some(unit) => number / unit * unit,
        None => 0,
    }
}

/// The shape of a prefix.
fn shape_of(prefix: &Prefix) -> Shape
    ensures { result ≡ shape_of prefix.now }
{
    match prefix {
        Prefix::V4(net) => Shape {
            width: IPV4_BITS,
            length: u32::from(net.length()),
        },
        Prefix::V6(net) => Shape {
            width: IPV6_BITS,
            length: u32::from(net.length()),
        },
    }
}

/// The shapes of the prefixes that the rules name on a side, each once.
pub(crate) fn shapes_of(alloc: Global, side: Side, rules: &[Rule]) -> Result<Vec<Shape>, AllocError>
    ensures { IfOk result (λ shapes. HaveShapes side rules.now shapes.items) }
{
    let mut shapes = Vec::new(alloc);
    for rule in rules {
        note_rule(&mut shapes, side, rule)?;
    }
    Ok(shapes)
}

/// Adds the shape of the prefix that a rule names on a side, if it names one and its shape isn't there yet.
fn note_rule(shapes: &mut Vec<Shape>, side: Side, rule: &Rule) -> Result<(), AllocError>
    ensures kept { OnOk result ((shape : _) → Contains shapes.old.items shape
        → Contains shapes.new.items shape) }
    ensures noted { OnOk result
        (IfSome (prefix_on side rule.now) (λ prefix. Contains shapes.new.items (shape_of prefix))) }
{
    let prefix = match side {
        Side::Source => &rule.from,
        Side::Destination => &rule.to,
    };
    match prefix {
        Some(prefix) => note(shapes, shape_of(prefix)),
        None => Ok(()),
    }
}

/// Adds a shape, if it isn't there yet.
fn note(shapes: &mut Vec<Shape>, shape: Shape) -> Result<(), AllocError>
    ensures kept { OnOk result ((other : _) → Contains shapes.old.items other
        → Contains shapes.new.items other) }
    ensures noted { OnOk result (Contains shapes.new.items shape) }
{
    if !has_shape(shapes, shape) {
        shapes.push(shape)?;
    }
    Ok(())
}

/// Whether the shape is among these.
fn has_shape(shapes: &[Shape], shape: Shape) -> bool
    ensures { result ≡ list_any
        (λ other. other.width == shape.width && other.length == shape.length) shapes.now }
{
    shapes.iter().any(|other| other.width == shape.width && other.length == shape.length)
}
