//! The marks of rules: numbers, each made of a rule's subscriber and of one of its conditions.
ghost use Rattle.std.specs.Prelude.{◌≡◌, option_map};
ghost use Rattle.rule_table.specs.Marks.{mixed_mark, name_mark, side_number, inside_mark, prefix_mark, domain_mark, condition_marks, who_mark, element_mark, pen_number, named_element};

use flow_prefix::{IPV4_BITS, IPV6_BITS, Prefix};
use ipfix_element::ElementId;
use policy_judge::Side;
use policy_text::{Action, Name, Rule};

/// What rules of any subscriber are marked by.
pub(crate) const ANY_SUBSCRIBER: u64 = 0;

/// What a name's octets are mixed into.
const NAME_SEED: u64 = 1;

/// What tells a domain from the sides.
const DOMAIN: u64 = 3;

/// What tells an element from them.
const ELEMENT: u64 = 4;

/// An odd number with about as many ones as zeros, evenly spread: 2^64 over the golden ratio.
const FACTOR: u64 = 0x9E37_79B9_7F4A_7C15;

/// One above the greatest number of 64 bits, as a mark and a place have.
pub(crate) const SPAN: u128 = 0x1_0000_0000_0000_0000;

/// A mark with one number more.
#[tactic(auto, unfolding(crate::specs::Marks::mixed_mark))]
fn mixed(mark: u64, number: u64) -> u64
    ensures { result ≡ mixed_mark mark number }
{
    mark.wrapping_mul(FACTOR).wrapping_add(number)
}

/// The mark of a subscriber's name.
#[tactic(auto, unfolding(crate::specs::Marks::name_mark))]
pub(crate) fn name_mark(name: &[u8]) -> u64
    ensures { result ≡ name_mark name.now }
{
    name.iter()
        .fold(NAME_SEED, |mark, octet| mixed(mark, u64::from(*octet)))
}

/// The mark of an observation domain.
#[tactic(auto, unfolding(crate::specs::Marks::domain_mark))]
pub(crate) fn domain_mark(who: u64, domain: u32) -> u64
    ensures { result ≡ domain_mark who domain }
{
    mixed(mixed(who, DOMAIN), u64::from(domain))
}

/// The mark of an information element.
#[tactic(auto, unfolding(crate::specs::Marks::element_mark))]
pub(crate) fn element_mark(who: u64, element: ElementId) -> u64
    ensures { result ≡ element_mark who element }
{
    let mark = mixed(mixed(who, ELEMENT), pen_number(element));
    mixed(mark, u64::from(element.number()))
}

/// A number for the enterprise of an element: 0 where it has none.
fn pen_number(element: ElementId) -> u64
    ensures { result ≡ pen_number element.pen }
{
    match element.pen() {
        Some(pen) => u64::from(pen) + 1,
        None => 0,
    }
}

/// A number for a side.
fn side_number(side: Side) -> u64
    ensures { result ≡ side_number side }
{
    match side {
        Side::Source => 1,
        Side::Destination => 2,
    }
}

/// The mark of a prefix: its side, its shape and its address.
#[tactic(auto, unfolding(crate::specs::Marks::inside_mark))]
pub(crate) fn inside_mark(who: u64, side: Side, width: u32, length: u32, address: u128) -> u64
    ensures { result ≡ inside_mark who side width length address }
{
    let mark = mixed(who, side_number(side));
    let mark = mixed(mark, u64::from(width));
    let mark = mixed(mark, u64::from(length));
    let mark = mixed(mark, (address / SPAN) as u64);
    mixed(mark, (address % SPAN) as u64)
}

/// The mark of a prefix of a rule.
fn prefix_mark(who: u64, side: Side, prefix: &Prefix) -> u64
    ensures { result ≡ prefix_mark who side prefix.now }
{
    match prefix {
        Prefix::V4(net) => {
            let address = u128::from(net.address());
            inside_mark(who, side, IPV4_BITS, u32::from(net.length()), address)
        }
        Prefix::V6(net) => {
            let address = net.address();
            inside_mark(who, side, IPV6_BITS, u32::from(net.length()), address)
        }
    }
}

/// The marks of a rule's conditions, each where the rule has it: of the prefix of its sources, of that of its destinations, of
/// the element that it names, and of its domain.
pub(crate) fn condition_marks(rule: &Rule) -> [Option<u64>; 4]
    ensures { result ≡ condition_marks (who_mark rule.now.who) rule.now }
{
    let who = who_mark(&rule.who);
    [
        side_mark(who, Side::Source, &rule.from),
        side_mark(who, Side::Destination, &rule.to),
        element_of(rule).map(|element| element_mark(who, element)),
        rule.domain.map(|domain| domain_mark(who, domain)),
    ]
}

/// The mark of the prefix that a rule names on a side.
fn side_mark(who: u64, side: Side, prefix: &Option<Prefix>) -> Option<u64>
    ensures { result ≡ option_map (prefix_mark who side) prefix.now }
{
    match prefix {
        Some(prefix) => Some(prefix_mark(who, side, prefix)),
        None => None,
    }
}

/// The mark of a rule's subscriber alone.
pub(crate) fn who_mark(who: &Option<Name>) -> u64
    ensures { result ≡ who_mark who.now }
{
    match who {
        Some(name) => name_mark(name.as_bytes()),
        None => ANY_SUBSCRIBER,
    }
}

/// The element that a rule on fields names.
fn element_of(rule: &Rule) -> Option<ElementId>
    ensures { result ≡ named_element rule.now }
{
    match rule.action {
        Action::Pass | Action::Withhold | Action::Aggregate(_) => None,
        Action::Keep | Action::Remove | Action::Truncate(_) | Action::Degrade(_) => rule.element,
    }
}
