//! The one printed text of a policy.
ghost use Rattle.std.specs.Prelude.{◌≡◌, ◌++◌, ◌∷◌, [], OnOk, IfOk, map, string_bytes, codes};
ghost use Rattle.std.specs.Fmt.{decimal};
ghost use Rattle.std.specs.List.{flat_map, join_with_byte};
ghost use Rattle.ipfix_element.specs.Names.{element_name};
ghost use Rattle.flow_prefix.specs.Printing.{prefix_text};
ghost use Rattle.policy_text.specs.Grammar.{name_at};
ghost use Rattle.policy_text.specs.Printing.{policy_text, header, rule_words, aggregate_words, action_words, key_text, line_text, word_or_star, itself};

use crate::aggregate::AggregateDef;
use crate::name::Name;
use crate::policy::Policy;
use crate::rule::{Action, Rule};
use crate::version::Version;
use flow_prefix::Prefix;
use ipfix_element::{ElementId, name_of};
use std::alloc::{AllocError, Global};
use std::fmt::Write;

/// The one printed text of a policy.
pub(crate) fn policy_to_text(alloc: Global, policy: &Policy) -> Result<String, AllocError>
    ensures { IfOk result (λ text. string_bytes text ≡ policy_text policy.now) }
{
    let mut text = String::new(alloc);
    put_header(&mut text, policy.version())?;
    put_aggregates(alloc, &mut text, policy.aggregates())?;
    put_rules(alloc, &mut text, policy.aggregates(), policy.rules())?;
    Ok(text)
}

fn put_header(text: &mut String, version: Version) -> Result<(), AllocError>
    ensures { OnOk result (string_bytes text.new ≡ string_bytes text.old
        ++ line_text (header version)) }
{
    text.push_str(match version {
        Version::One => "policy 1\n",
        Version::Two => "policy 2\n",
    })
}

fn put_aggregates(
    alloc: Global,
    text: &mut String,
    aggregates: &[AggregateDef],
) -> Result<(), AllocError>
    ensures { OnOk result (string_bytes text.new ≡ string_bytes text.old
        ++ flat_map line_text (map aggregate_words aggregates.now)) }
{
    for aggregate in aggregates {
        put_aggregate(alloc, text, aggregate)?;
    }
    Ok(())
}

fn put_rules(
    alloc: Global,
    text: &mut String,
    aggregates: &[AggregateDef],
    rules: &[Rule],
) -> Result<(), AllocError>
    ensures { OnOk result (string_bytes text.new ≡ string_bytes text.old
        ++ flat_map line_text (map (rule_words aggregates.now) rules.now)) }
{
    for rule in rules {
        put_rule(alloc, text, aggregates, rule)?;
    }
    Ok(())
}

fn put_aggregate(
    alloc: Global,
    text: &mut String,
    aggregate: &AggregateDef,
) -> Result<(), AllocError>
    ensures { OnOk result (string_bytes text.new ≡ string_bytes text.old
        ++ line_text (aggregate_words aggregate.now)) }
{
    text.push_str("aggregate ")?;
    text.push_str(aggregate.name().as_str())?;
    text.push_str(" key ")?;
    put_key(alloc, text, aggregate.key())?;
    text.push_str(" interval ")?;
    put_number(text, aggregate.interval())?;
    text.push_str(" grace ")?;
    put_number(text, aggregate.grace())?;
    text.push_str("\n")
}

/// Element names with commas between.
fn put_key(alloc: Global, text: &mut String, key: &[ElementId]) -> Result<(), AllocError>
    ensures { OnOk result (string_bytes text.new ≡ string_bytes text.old ++ key_text key.now) }
{
    for (place, element) in key.iter().enumerate() {
        if place > 0 {
            text.push_str(",")?;
        }
        put_element(alloc, text, *element)?;
    }
    Ok(())
}

fn put_rule(
    alloc: Global,
    text: &mut String,
    aggregates: &[AggregateDef],
    rule: &Rule,
) -> Result<(), AllocError>
    ensures { OnOk result (string_bytes text.new ≡ string_bytes text.old
        ++ line_text (rule_words aggregates.now rule.now)) }
{
    text.push_str("rule for ")?;
    put_who(text, &rule.who)?;
    text.push_str(" in ")?;
    put_domain(text, rule.domain)?;
    text.push_str(" from ")?;
    put_prefix(alloc, text, &rule.from)?;
    text.push_str(" to ")?;
    put_prefix(alloc, text, &rule.to)?;
    text.push_str(" ")?;
    put_action(alloc, text, aggregates, rule)?;
    text.push_str("\n")
}

fn put_action(
    alloc: Global,
    text: &mut String,
    aggregates: &[AggregateDef],
    rule: &Rule,
) -> Result<(), AllocError>
    ensures { OnOk result (string_bytes text.new ≡ string_bytes text.old
        ++ join_with_byte 32 (action_words aggregates.now rule.now.element rule.now.action)) }
{
    match rule.action {
        Action::Pass => text.push_str("pass"),
        Action::Withhold => text.push_str("withhold"),
        Action::Aggregate(place) => {
            text.push_str("aggregate ")?;
            put_name_at(text, aggregates, place)
        }
        Action::Keep => {
            put_on_element(alloc, text, &rule.element)?;
            text.push_str("keep")
        }
        Action::Remove => {
            put_on_element(alloc, text, &rule.element)?;
            text.push_str("remove")
        }
        Action::Truncate(bits) => {
            put_on_element(alloc, text, &rule.element)?;
            text.push_str("truncate ")?;
            put_bits(text, bits)
        }
        Action::Degrade(seconds) => {
            put_on_element(alloc, text, &rule.element)?;
            text.push_str("degrade ")?;
            put_number(text, seconds)
        }
    }
}

/// The name of the aggregate at a place.
#[tactic(auto, using(crate::proofs::PrintLaws::name_at_read, crate::proofs::PrintLaws::name_at_past))]
fn put_name_at(
    text: &mut String,
    aggregates: &[AggregateDef],
    place: usize,
) -> Result<(), AllocError>
    ensures { OnOk result (string_bytes text.new ≡ string_bytes text.old
        ++ name_at aggregates.now place) }
{
    if place >= aggregates.len() {
        return Ok(());
    }
    let aggregate = &aggregates[place];
    text.push_str(aggregate.name().as_str())
}

/// `element ELEM ` before what is done with the field.
fn put_on_element(
    alloc: Global,
    text: &mut String,
    element: &Option<ElementId>,
) -> Result<(), AllocError>
    ensures { OnOk result (string_bytes text.new ≡ string_bytes text.old
        ++ (codes "element " ++ (word_or_star element_name element.now ++ 32 ∷ []))) }
{
    text.push_str("element ")?;
    match element {
        Some(element) => put_element(alloc, text, *element)?,
        None => text.push_str("*")?,
    }
    text.push_str(" ")
}

fn put_element(alloc: Global, text: &mut String, element: ElementId) -> Result<(), AllocError>
    ensures { OnOk result (string_bytes text.new ≡ string_bytes text.old ++ element_name element) }
{
    let name = name_of(alloc, element)?;
    text.push_str(name.as_str())
}

fn put_who(text: &mut String, who: &Option<Name>) -> Result<(), AllocError>
    ensures { OnOk result (string_bytes text.new ≡ string_bytes text.old
        ++ word_or_star itself who.now) }
{
    match who {
        Some(name) => text.push_str(name.as_str()),
        None => text.push_str("*"),
    }
}

fn put_domain(text: &mut String, domain: Option<u32>) -> Result<(), AllocError>
    ensures { OnOk result (string_bytes text.new ≡ string_bytes text.old
        ++ word_or_star decimal domain) }
{
    match domain {
        Some(domain) => put_number(text, domain),
        None => text.push_str("*"),
    }
}

fn put_prefix(alloc: Global, text: &mut String, prefix: &Option<Prefix>) -> Result<(), AllocError>
    ensures { OnOk result (string_bytes text.new ≡ string_bytes text.old
        ++ word_or_star prefix_text prefix.now) }
{
    match prefix {
        Some(prefix) => {
            let word = prefix.print(alloc)?;
            text.push_str(word.as_str())
        }
        None => text.push_str("*"),
    }
}

fn put_number(text: &mut String, number: u32) -> Result<(), AllocError>
    ensures { OnOk result (string_bytes text.new ≡ string_bytes text.old ++ decimal number) }
{
    write!(text, "{number}")
}

fn put_bits(text: &mut String, bits: usize) -> Result<(), AllocError>
    ensures { OnOk result (string_bytes text.new ≡ string_bytes text.old ++ decimal bits) }
{
    write!(text, "{bits}")
}
