//! The judge: the first rule of a policy that matches a record, or a field of it, and what it does.
ghost use Rattle.std.specs.Prelude.{◌≡◌, ◌<◌, ◌≤◌, Some, IfSome, length, position};
ghost use Rattle.policy_judge.specs.Match.{matches_record, matches_field};
ghost use Rattle.policy_judge.specs.Verdicts.{record_action, element_action, record_verdict_of, element_verdict_of, record_verdict_at, element_verdict_at};

use crate::rule_match::{matches_field, matches_record};
use crate::verdict::{ElementAction, ElementVerdict, RecordAction, RecordVerdict};
use ipfix_element::ElementId;
use ipfix_template::Record;
use policy_text::{Action, Policy, Rule};

/// The verdict of `policy` on the record `flow_record` of the Observation Domain `domain`, for the
/// subscriber called `name`: that of the first matching rule on records, or rule 0, which
/// withholds.
pub fn record_verdict(
    policy: &Policy,
    name: &str,
    domain: u32,
    flow_record: &Record,
) -> RecordVerdict
    ensures { result ≡ record_verdict_of name.now domain flow_record.now policy.now.rules }
{
    record_verdict_of(policy.rules(), name, domain, flow_record)
}

/// The verdict of `policy` on the field at the place `field`, counted from 0, of the record
/// `flow_record` of the Observation Domain `domain`, for the subscriber called `name`: that of the
/// first matching rule on fields, or rule 0, which removes.
pub fn element_verdict(
    policy: &Policy,
    name: &str,
    domain: u32,
    flow_record: &Record,
    field: usize,
) -> ElementVerdict
    requires { field < length flow_record.now.template.fields }
    ensures { result ≡ element_verdict_of name.now domain flow_record.now field policy.now.rules }
{
    element_verdict_of(policy.rules(), name, domain, flow_record, field)
}

/// The verdict of a policy's `rules`, at most 4,096, on the record `flow_record` of the Observation
/// Domain `domain`, for the subscriber called `name`: that of the first matching rule on records,
/// or rule 0, which withholds.
pub fn record_verdict_of(
    rules: &[Rule],
    name: &str,
    domain: u32,
    flow_record: &Record,
) -> RecordVerdict
    requires { length rules.now ≤ 4096 }
    ensures { result ≡ record_verdict_of name.now domain flow_record.now rules.now }
{
    let first = first_on_records(rules, name.as_bytes(), domain, flow_record);
    record_verdict_at(rules, first)
}

/// The verdict of a policy's `rules`, at most 4,096, on the field at the place `field`, counted
/// from 0, of the record `flow_record` of the Observation Domain `domain`, for the subscriber
/// called `name`: that of the first matching rule on fields, or rule 0, which removes.
pub fn element_verdict_of(
    rules: &[Rule],
    name: &str,
    domain: u32,
    flow_record: &Record,
    field: usize,
) -> ElementVerdict
    requires few { length rules.now ≤ 4096 }
    requires there { field < length flow_record.now.template.fields }
    ensures { result ≡ element_verdict_of name.now domain flow_record.now field rules.now }
{
    let element = flow_record.template().fields.as_slice()[field].element;
    let first = first_on_fields(rules, name.as_bytes(), domain, flow_record, element);
    element_verdict_at(rules, first)
}

/// The verdict on a record, where `first` is the place among `rules`, at most 4,096, of the first
/// rule on records that matches it. Where there is none, it is that of rule 0, which withholds.
pub fn record_verdict_at(rules: &[Rule], first: Option<usize>) -> RecordVerdict
    requires few { length rules.now ≤ 4096 }
    requires within { IfSome first (λ place. place < length rules.now) }
    ensures { result ≡ record_verdict_at rules.now first }
{
    match first {
        Some(place) => RecordVerdict {
            rule: place as u32 + 1,
            action: record_action(rules[place].action),
        },
        None => RecordVerdict {
            rule: 0,
            action: RecordAction::Withhold,
        },
    }
}

/// The verdict on a field, where `first` is the place among `rules`, at most 4,096, of the first
/// rule on fields that matches it. Where there is none, it is that of rule 0, which removes.
pub fn element_verdict_at(rules: &[Rule], first: Option<usize>) -> ElementVerdict
    requires few { length rules.now ≤ 4096 }
    requires within { IfSome first (λ place. place < length rules.now) }
    ensures { result ≡ element_verdict_at rules.now first }
{
    match first {
        Some(place) => ElementVerdict {
            rule: place as u32 + 1,
            action: element_action(rules[place].action),
        },
        None => ElementVerdict {
            rule: 0,
            action: ElementAction::Remove,
        },
    }
}

/// The place of the first rule that matches the record.
fn first_on_records(rules: &[Rule], name: &[u8], domain: u32, flow_record: &Record) -> Option<usize>
    ensures value { result ≡ position (matches_record name.now domain flow_record.now) rules.now }
    ensures within { IfSome result (λ place. place < length rules.now) }
{
    rules
        .iter()
        .position(|rule| matches_record(rule, name, domain, flow_record))
}

/// The place of the first rule that matches a field of this element.
fn first_on_fields(
    rules: &[Rule],
    name: &[u8],
    domain: u32,
    flow_record: &Record,
    element: ElementId,
) -> Option<usize>
    ensures value { result
        ≡ position (matches_field name.now domain flow_record.now (Some element)) rules.now }
    ensures within { IfSome result (λ place. place < length rules.now) }
{
    rules.iter().position(|rule| matches_field(rule, name, domain, flow_record, element))
}

/// What a rule on records does.
fn record_action(action: Action) -> RecordAction
    ensures { result ≡ record_action action }
{
    match action {
        Action::Pass => RecordAction::Pass,
        Action::Aggregate(place) => RecordAction::Aggregate(place),
        Action::Withhold
        | Action::Keep
        | Action::Remove
        | Action::Truncate(_)
        | Action::Degrade(_) => RecordAction::Withhold,
    }
}

/// What a rule on fields does.
fn element_action(action: Action) -> ElementAction
    ensures { result ≡ element_action action }
{
    match action {
        Action::Keep => ElementAction::Keep,
        Action::Truncate(bits) => ElementAction::Truncate(bits),
        Action::Degrade(seconds) => ElementAction::Degrade(seconds),
        Action::Remove | Action::Pass | Action::Withhold | Action::Aggregate(_) => {
            ElementAction::Remove
        }
    }
}
