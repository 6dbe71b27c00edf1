//! Where from and to a record's flow goes, in words.
ghost use Rattle.std.specs.Prelude.{◌≡◌, ◌≤◌, ◌<◌, ◌/◌, ◌%◌, ◌^◌, length, true, IfOk, IfSome, position, string_bytes};
ghost use Rattle.sequences.specs.Octets.{be_value};
ghost use Rattle.flow_prefix.specs.declared.family.Family.TheVariants.{Ipv4, Ipv6};
ghost use Rattle.flow_prefix.specs.Printing.{address_text};
ghost use Rattle.ipmd_explain.specs.FlowWords.{address_words, end_words, first_passing_value, flow_words, is_address, is_end, is_one_of, is_port};

use flow_prefix::{GROUP_VALUES, IPV4_OCTETS, IPV6_OCTETS, number};
use ipfix_element::ElementId;
use ipfix_element::addresses::{
    DESTINATION_IPV4_ADDRESS, DESTINATION_IPV6_ADDRESS, SOURCE_IPV4_ADDRESS, SOURCE_IPV6_ADDRESS,
};
use ipfix_template::{FieldSpec, Record};
use std::alloc::{AllocError, Global};

// Elements of IANA's registry, by their numbers.
const SOURCE_TRANSPORT_PORT: u16 = 7;

const DESTINATION_TRANSPORT_PORT: u16 = 11;

/// The most octets of a port.
const PORT_OCTETS: usize = 2;

/// Where from and to the flow of a record goes, and `; ` behind it; no text where the record doesn't say it.
///
/// # Errors
/// Want of memory.
pub(crate) fn flow_words(alloc: Global, flow_record: &Record) -> Result<String, AllocError>
    ensures { IfOk result (λ text. string_bytes text ≡ flow_words flow_record.now) }
{
    let source = first_value(flow_record, SOURCE_IPV4_ADDRESS, SOURCE_IPV6_ADDRESS);
    let from = first_value(flow_record, SOURCE_TRANSPORT_PORT, SOURCE_TRANSPORT_PORT);
    let destination = first_value(
        flow_record,
        DESTINATION_IPV4_ADDRESS,
        DESTINATION_IPV6_ADDRESS,
    );
    let to = first_value(
        flow_record,
        DESTINATION_TRANSPORT_PORT,
        DESTINATION_TRANSPORT_PORT,
    );
    if is_end(source, from) && is_end(destination, to) {
        let begins = end_words(alloc, source, from)?;
        let ends = end_words(alloc, destination, to)?;
        let (begins, ends) = (begins.as_str(), ends.as_str());
        return format!(in alloc; "{begins} -> {ends}; ");
    }
    Ok(String::new(alloc))
}

/// The first value of a field with one of these elements; no octets where there is none.
fn first_value(flow_record: &Record, number: u16, other: u16) -> &[u8]
    ensures { result.now ≡ first_passing_value (is_one_of number other) flow_record.now }
{
    match first_place(flow_record.template().fields.as_slice(), number, other) {
        Some(place) => flow_record.value(place),
        None => &[],
    }
}

/// The place of the first field with one of these elements.
fn first_place(fields: &[FieldSpec], number: u16, other: u16) -> Option<usize>
    ensures value { result ≡ position (λ f. is_one_of number other f.element) fields.now }
    ensures within { IfSome result (λ place. place < length fields.now) }
{
    fields
        .iter()
        .position(|field| is_one_of(field.element, number, other))
}

/// Whether an element is one of IANA's registry with one of these numbers.
fn is_one_of(element: ElementId, number: u16, other: u16) -> bool
    ensures { result ≡ is_one_of number other element }
{
    element.pen().is_none() && (element.number() == number || element.number() == other)
}

/// Whether these are an address and a port.
fn is_end(address: &[u8], port: &[u8]) -> bool
    ensures { result ≡ is_end address.now port.now }
{
    is_address(address) && is_port(port)
}

/// Whether these octets are an address, by their number.
fn is_address(octets: &[u8]) -> bool
    ensures { result ≡ is_address octets.now }
{
    octets.len() == IPV4_OCTETS || octets.len() == IPV6_OCTETS
}

/// Whether these octets are a port, by their number.
fn is_port(octets: &[u8]) -> bool
    ensures { result ≡ is_port octets.now }
{
    !octets.is_empty() && octets.len() <= PORT_OCTETS
}

/// An address and a port.
fn end_words(alloc: Global, address: &[u8], port: &[u8]) -> Result<String, AllocError>
    requires { is_end address.now port.now ≡ true }
    ensures { IfOk result (λ text. string_bytes text ≡ end_words address.now port.now) }
{
    let before = address_words(alloc, address)?;
    let (before, port) = (before.as_str(), number(port));
    format!(in alloc; "{before}:{port}")
}

/// An address; one of IPv6 in brackets.
fn address_words(alloc: Global, octets: &[u8]) -> Result<String, AllocError>
    requires { is_address octets.now ≡ true }
    ensures { IfOk result (λ text. string_bytes text ≡ address_words octets.now) }
{
    if octets.len() == IPV4_OCTETS {
        return dotted(alloc, number(octets) as u32);
    }
    let groups = groups(alloc, number(octets))?;
    let groups = groups.as_str();
    format!(in alloc; "[{groups}]")
}

/// An address of IPv4, in dotted decimal.
fn dotted(alloc: Global, address: u32) -> Result<String, AllocError>
    ensures { IfOk result (λ text. string_bytes text ≡ address_text Ipv4 address) }
{
    let [first, second, third, fourth] = address.to_be_bytes();
    format!(in alloc; "{first}.{second}.{third}.{fourth}")
}

/// An address of IPv6, as eight groups in lower case.
fn groups(alloc: Global, n: u128) -> Result<String, AllocError>
    ensures { IfOk result (λ text. string_bytes text ≡ address_text Ipv6 n) }
{
    let (a, b, c, d) = (group(n, 7), group(n, 6), group(n, 5), group(n, 4));
    let (e, f, g, h) = (group(n, 3), group(n, 2), group(n, 1), group(n, 0));
    format!(in alloc; "{a:x}:{b:x}:{c:x}:{d:x}:{e:x}:{f:x}:{g:x}:{h:x}")
}

/// The group of an address at this place, counted from the last.
fn group(address: u128, place: u32) -> u16
    requires { place < 8 }
    ensures { result ≡ address / 65536 ^ place % 65536 }
{
    (address / GROUP_VALUES.pow(place) % GROUP_VALUES) as u16
}
