//! The words that explain what a subscriber sees of a record.
ghost use Rattle.std.specs.Prelude.{◌≡◌, ◌<◌, length, IfOk, string_bytes};
ghost use Rattle.ipfix_element.specs.Names.{element_name};
ghost use Rattle.mediator_history.specs.Counting.{timing_at};
ghost use Rattle.disclosure_audit.specs.declared.reason.Reason.{Reason};
ghost use Rattle.ipmd_explain.specs.Wording.{explained_aggregate, by_rule, change_words, explanation, field_words, fields_words, passing_words, timing_words, withheld_words};

use flow_aggregate::{Timing, judge_time};
use flow_anonymize::{Disclosure, Reason, disclose};
use ipfix_element::name_of;
use ipfix_template::Record;
use policy_judge::{ElementAction, element_verdict, record_verdict};
use policy_text::Policy;
use std::alloc::{AllocError, Global};

/// What the subscriber called `name` sees of `flow_record`, a record of the observation domain `domain`, and by which rules of
/// `policy`. `clock` is where the clock stands, in milliseconds since 1970. The text takes memory from `alloc`.
///
/// # Errors
/// Want of memory.
pub(crate) fn explanation(
    alloc: Global,
    policy: &Policy,
    name: &str,
    domain: u32,
    clock: u64,
    flow_record: &Record,
) -> Result<String, AllocError>
    ensures { IfOk result (λ text. string_bytes text
        ≡ explanation policy.now name.now domain clock flow_record.now) }
{
    match disclose(alloc, policy, name, domain, flow_record)? {
        Disclosure::Passed {
            kept: _,
            removed: _,
        } => passing_words(alloc, policy, name, domain, flow_record),
        Disclosure::Aggregated { rule, definition } => {
            aggregate_words(alloc, policy, rule, definition, clock, flow_record)
        }
        Disclosure::Withheld { rule, reason } => {
            let by = by_rule(alloc, rule)?;
            withheld_words(
                alloc,
                policy,
                name,
                domain,
                flow_record,
                by.as_str(),
                reason,
            )
        }
    }
}

/// That a record is withheld, and why, with the words for the rule.
fn withheld_words(
    alloc: Global,
    policy: &Policy,
    name: &str,
    domain: u32,
    flow_record: &Record,
    by: &str,
    reason: Reason,
) -> Result<String, AllocError>
    ensures { IfOk result (λ text. string_bytes text ≡ withheld_words
        (passing_words policy.now.rules name.now domain flow_record.now) by.now reason) }
{
    let why = match reason {
        Reason::ScopeLost => "a scope field is removed",
        Reason::Empty => "all is removed",
        // The rules withhold none for the reasons of aggregates.
        Reason::Rule | Reason::NoTime | Reason::NoKey | Reason::Late => {
            return format!(in alloc; "withheld{by}");
        }
    };
    let passing = passing_words(alloc, policy, name, domain, flow_record)?;
    let passing = passing.as_str();
    format!(in alloc; "{passing}; withheld, since {why}{by}")
}

/// That a rule lets a record pass, and what becomes of its fields.
fn passing_words(
    alloc: Global,
    policy: &Policy,
    name: &str,
    domain: u32,
    flow_record: &Record,
) -> Result<String, AllocError>
    ensures { IfOk result (λ text. string_bytes text
        ≡ passing_words policy.now.rules name.now domain flow_record.now) }
{
    let rule = record_verdict(policy, name, domain, flow_record).rule;
    let fields = fields_words(alloc, policy, name, domain, flow_record)?;
    let fields = fields.as_str();
    format!(in alloc; "rule {rule} passes it{fields}")
}

/// What becomes of each field, and by which rule.
fn fields_words(
    alloc: Global,
    policy: &Policy,
    name: &str,
    domain: u32,
    flow_record: &Record,
) -> Result<String, AllocError>
    ensures { IfOk result (λ text. string_bytes text
        ≡ fields_words policy.now.rules name.now domain flow_record.now) }
{
    let count = flow_record.template().fields.len();
    let mut text = String::new(alloc);
    'fields: for place in 0..count {
        let words = field_words(alloc, policy, name, domain, flow_record, place)?;
        text.push_str(words.as_str())?;
    }
    Ok(text)
}

/// What becomes of the field at this place.
fn field_words(
    alloc: Global,
    policy: &Policy,
    name: &str,
    domain: u32,
    flow_record: &Record,
    place: usize,
) -> Result<String, AllocError>
    requires { place < length flow_record.now.template.fields }
    ensures { IfOk result (λ text. string_bytes text
        ≡ field_words policy.now.rules name.now domain flow_record.now place) }
{
    let verdict = element_verdict(policy, name, domain, flow_record, place);
    let element = flow_record.template().fields.as_slice()[place].element;
    let element = name_of(alloc, element)?;
    let by = by_rule(alloc, verdict.rule)?;
    change_words(alloc, element.as_str(), verdict.action, by.as_str())
}

/// What an action does to the field of an element of this name, with the words for the rule.
fn change_words(
    alloc: Global,
    name: &str,
    action: ElementAction,
    by: &str,
) -> Result<String, AllocError>
    ensures { IfOk result (λ text. string_bytes text ≡ change_words name.now action by.now) }
{
    match action {
        ElementAction::Keep => format!(in alloc; "; {name} kept{by}"),
        ElementAction::Remove => format!(in alloc; "; {name} removed{by}"),
        ElementAction::Truncate(bits) => format!(in alloc; "; {name} cut to {bits} bits{by}"),
        ElementAction::Degrade(seconds) => {
            format!(in alloc; "; {name} lowered to a multiple of {seconds} seconds{by}")
        }
    }
}

/// By which rule; rule 0 stands where none matches.
fn by_rule(alloc: Global, rule: u32) -> Result<String, AllocError>
    ensures { IfOk result (λ text. string_bytes text ≡ by_rule rule) }
{
    if rule == 0 {
        return String::from_str(alloc, ", no rule matches it");
    }
    format!(in alloc; " by rule {rule}")
}

/// That a record counts in the aggregate at a place of the policy's list, by this rule, or why it doesn't.
fn aggregate_words(
    alloc: Global,
    policy: &Policy,
    rule: u32,
    place: usize,
    clock: u64,
    flow_record: &Record,
) -> Result<String, AllocError>
    ensures { IfOk result (λ text. string_bytes text
        ≡ explained_aggregate policy.now.aggregates rule place clock flow_record.now) }
{
    let by = by_rule(alloc, rule)?;
    match policy.aggregates().get(place) {
        Some(definition) => {
            let timing = judge_time(definition, flow_record, clock);
            timing_words(alloc, definition.name().as_str(), by.as_str(), timing)
        }
        None => timing_words(alloc, "", by.as_str(), Timing::NoTime),
    }
}

/// That a record counts in the aggregate of this name, or why it doesn't, with the words for the rule.
fn timing_words(alloc: Global, name: &str, by: &str, timing: Timing) -> Result<String, AllocError>
    ensures { IfOk result (λ text. string_bytes text ≡ timing_words name.now by.now timing) }
{
    match timing {
        Timing::Placed { .. } => format!(in alloc; "counted in the aggregate {name}{by}"),
        Timing::NoTime => {
            format!(in alloc; "withheld{by}: the aggregate {name} finds no time in it")
        }
        Timing::NoKey => format!(in alloc; "withheld{by}: the aggregate {name} finds no key in it"),
        Timing::Late => format!(in alloc; "withheld{by}: it is late for the aggregate {name}"),
    }
}
