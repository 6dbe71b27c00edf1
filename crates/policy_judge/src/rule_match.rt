//! Whether a rule matches a record or a field, and what it asks for that.
ghost use Rattle.std.specs.Prelude.{◌≡◌, ◌==◌, Some};
ghost use Rattle.std.specs.Str.{bytes_eq};
ghost use Rattle.policy_judge.specs.Occurrences.{sources, destinations};
ghost use Rattle.policy_judge.specs.Match.{is_met, is_on_records, denies, are_inside, is_for, covers, is_same_element, is_element, matches_record, matches_field};

use crate::occurrences::{Side, are_inside};
use ipfix_element::ElementId;
use ipfix_template::Record;
use policy_text::{Action, Name, Rule};

/// Whether `rule` is one on records and matches the record `flow_record` of the Observation Domain
/// `domain`, for the subscriber called `name`. For each prefix that it names, a rule that denies
/// needs some address of that side inside. A rule that permits needs an address of that side, and
/// each of them inside.
pub fn matches_record(rule: &Rule, name: &[u8], domain: u32, flow_record: &Record) -> bool
    ensures { result ≡ matches_record name.now domain flow_record.now rule.now }
{
    is_on_records(rule.action) && is_for(rule, name, domain) && covers(rule, flow_record)
}

/// Whether `rule` is one on fields and matches fields of `element` in the record `flow_record` of
/// the Observation Domain `domain`, for the subscriber called `name`. What it needs for each prefix
/// that it names, [`matches_record`] says.
pub fn matches_field(
    rule: &Rule,
    name: &[u8],
    domain: u32,
    flow_record: &Record,
    element: ElementId,
) -> bool
    ensures { result ≡ matches_field name.now domain flow_record.now (Some element) rule.now }
{
    !is_on_records(rule.action)
        && is_on_element(&rule.element, element)
        && is_for(rule, name, domain)
        && covers(rule, flow_record)
}

/// Whether a rule whose action is `action` is one on records, or else one on fields.
pub fn is_on_records(action: Action) -> bool
    ensures { result ≡ is_on_records action }
{
    match action {
        Action::Pass | Action::Withhold | Action::Aggregate(_) => true,
        Action::Keep | Action::Remove | Action::Truncate(_) | Action::Degrade(_) => false,
    }
}

/// Whether a rule whose action is `action` denies, or else permits.
pub fn denies(action: Action) -> bool
    ensures { result ≡ denies action }
{
    match action {
        Action::Withhold | Action::Remove => true,
        Action::Pass
        | Action::Aggregate(_)
        | Action::Keep
        | Action::Truncate(_)
        | Action::Degrade(_) => false,
    }
}

/// Whether `rule` is for the subscriber called `name` and for the Observation Domain `domain`,
/// whatever else it asks.
pub fn is_for(rule: &Rule, name: &[u8], domain: u32) -> bool
    ensures { result ≡ is_for name.now domain rule.now }
{
    is_name(&rule.who, name) && is_domain(&rule.domain, domain)
}

fn is_name(who: &Option<Name>, name: &[u8]) -> bool
    ensures { result ≡ is_met (bytes_eq name.now) who.now }
{
    match who {
        Some(who) => name == who.as_bytes(),
        None => true,
    }
}

fn is_domain(condition: &Option<u32>, domain: u32) -> bool
    ensures { result ≡ is_met (λ d. d == domain) condition.now }
{
    match condition {
        Some(condition) => *condition == domain,
        None => true,
    }
}

fn is_on_element(condition: &Option<ElementId>, element: ElementId) -> bool
    ensures { result ≡ is_met (is_element (Some element)) condition.now }
{
    match condition {
        Some(condition) => is_same(element, *condition),
        None => true,
    }
}

fn is_same(element: ElementId, other: ElementId) -> bool
    ensures { result ≡ is_same_element element other }
{
    element.pen() == other.pen() && element.number() == other.number()
}

fn covers(rule: &Rule, flow_record: &Record) -> bool
    ensures { result ≡ covers flow_record.now rule.now }
{
    let denies = denies(rule.action);
    let from = match &rule.from {
        Some(prefix) => are_inside(flow_record, Side::Source, denies, prefix),
        None => true,
    };
    from && match &rule.to {
        Some(prefix) => are_inside(flow_record, Side::Destination, denies, prefix),
        None => true,
    }
}
