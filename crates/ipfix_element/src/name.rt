//! The names of elements in a policy.
//!
//! An element of the registry has its registry name and no other. Every other element without an
//! enterprise number is `eN`, and an enterprise's element is `ePEN/N`, where PEN is 0 to 4294967295 and
//! N is 0 to 32767, both decimal without leading zeros.
ghost use Rattle.std.specs.Prelude.{◌≡◌, ◌<◌, ◌^◌, ℕ, Some, IfSome, IfOk};
ghost use Rattle.std.specs.Fmt.{decimal};
ghost use Rattle.std.specs.String.{string_bytes};
ghost use Rattle.ipfix_element.specs.Element.{Element, IsElement};
ghost use Rattle.ipfix_element.specs.Lines.{IsLineName, is_named};
ghost use Rattle.ipfix_element.specs.Names.{element_name, numbered_name, OneName, OneWord};

use crate::element_id::ElementId;
use crate::registry::{NUMBERS, entry_for, entry_of};
use numerals::read_number;
use std::alloc::{AllocError, Global};

/// The name of `element` in a policy, in memory from `alloc`. Each [`ElementId`] has one, and is
/// what the laws of names ask of an element.
///
/// # Errors
/// Want of memory for the name.
#[tactic(auto, unfolding(crate::specs::Names::element_name))]
pub fn name_of(alloc: Global, element: ElementId) -> Result<String, AllocError>
    ensures name { IfOk result (λ name. string_bytes name ≡ element_name element) }
    ensures element { IsElement element }
{
    let (pen, number) = (element.pen(), element.number());
    if let Some(entry) = entry_for(element) {
        return String::from_str(alloc, entry.name);
    }
    match pen {
        Some(pen) => format!(in alloc; "e{pen}/{number}"),
        None => format!(in alloc; "e{number}"),
    }
}

/// The element whose name is `text`. `None` for every text that is no element's name, `e8` and
/// `e08` among them: element 8 has a registry name, and no number has a leading zero.
#[tactic(auto, unfolding(crate::specs::Names::element_name))]
pub fn by_name(text: &str) -> Option<ElementId>
    // What is found has this name.
    ensures found { IfSome result (λ e. IsElement e × (text.now ≡ element_name e)) }
    // What has this name is found.
    ensures only { (e : Element) → IsElement e → text.now ≡ element_name e → result ≡ Some e }
{
    if let Some(number) = registered_number(text) {
        return Some(ElementId::registered(number));
    }
    let element = numbered(text)?;
    match entry_for(element) {
        Some(_) => None,
        None => Some(element),
    }
}

/// No two elements have one name.
pub fn one_name()
    ensures { OneName }
{}

/// A name is one word of letters, digits and `/`.
pub fn one_word()
    ensures { OneWord }
{}

/// The number that the registry has under this name.
fn registered_number(text: &str) -> Option<u16>
    ensures found { IfSome result (λ number. (number < 32768) × IsLineName number text.now) }
    ensures only { (number : ℕ) → IsLineName number text.now → result ≡ Some number }
{
    NUMBERS
        .iter()
        .copied()
        .find(|number| is_named(*number, text))
}

/// Whether the registry has the number under this name.
fn is_named(number: u16, name: &str) -> bool
    ensures { result ≡ is_named number name.now }
{
    entry_of(number).is_some_and(|entry| entry.name == name)
}

/// The element that `eN` or `ePEN/N` spells, whether or not it has a registry name.
fn numbered(text: &str) -> Option<ElementId>
    ensures found { IfSome result (λ e. IsElement e × (text.now ≡ numbered_name e.pen e.number)) }
    ensures only { (e : Element) → IsElement e → text.now ≡ numbered_name e.pen e.number
        → result ≡ Some e }
{
    let numbers = text.strip_prefix('e')?;
    match numbers.split_once('/') {
        Some((pen, number)) => element_at(Some(read_number(pen.as_bytes(), u32::MAX)?), number),
        None => element_at(None, numbers),
    }
}

/// The element of the number that the text is.
fn element_at(pen: Option<u32>, text: &str) -> Option<ElementId>
    ensures found { IfSome result
        (λ e. (e.pen ≡ pen) × (e.number < 32768) × (text.now ≡ decimal e.number)) }
    ensures only { (number : ℕ) → number < 32768 → text.now ≡ decimal number
        → result ≡ Some (record { pen = pen; number = number }) }
{
    let number = u16::try_from(read_number(text.as_bytes(), u32::MAX)?).ok()?;
    ElementId::new(pen, number)
}
