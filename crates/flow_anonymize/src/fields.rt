//! The verdict on each field of a record, and which fields stay.
ghost use Rattle.std.specs.Prelude.{◌≡◌, ◌<◌, ◌≤◌, length, map, filter, not, IfOk};
ghost use Rattle.std.specs.List.{zip};
ghost use Rattle.ipfix_template.specs.declared.field.TheConstants.{MOST_FIELDS};
ghost use Rattle.flow_anonymize.specs.Remaining.{verdicts_of, is_kept, kept_fields, removed_fields};
ghost use Rattle.flow_anonymize.specs.Within.{AreJudged};

use disclosure_audit::RemovedField;
use ipfix_template::{FieldSpec, Record};
use policy_judge::{ElementAction, ElementVerdict, element_verdict};
use policy_text::Policy;
use rule_table::Candidates;
use std::alloc::{AllocError, Global};

/// The verdict on each field of the record.
pub(crate) fn judge_fields(
    alloc: Global,
    policy: &Policy,
    name: &str,
    domain: u32,
    flow_record: &Record,
) -> Result<Vec<ElementVerdict>, AllocError>
    ensures exact { IfOk result (λ verdicts. verdicts.items
        ≡ verdicts_of name.now domain flow_record.now policy.now.rules) }
    ensures judged { IfOk result (λ verdicts. AreJudged flow_record.now verdicts.items) }
{
    // Each rule is one of the grammar, so it keeps no more bits than a value of its element has.
    let _for_proof = policy.rules();
    let count = flow_record.template().fields.len();
    let mut verdicts = Vec::with_capacity(alloc, count)?;
    for field in 0..count {
        verdicts.push(element_verdict(policy, name, domain, flow_record, field))?;
    }
    Ok(verdicts)
}

/// The verdict on each of a record's fields, by the rules that may match it.
pub(crate) fn judge_candidates(
    alloc: Global,
    candidates: &Candidates<'_>,
    fields: usize,
) -> Result<Vec<ElementVerdict>, AllocError>
    requires { fields ≡ length candidates.now.flow_record.template.fields }
    ensures { IfOk result (λ verdicts. verdicts.items ≡ verdicts_of
        candidates.now.name candidates.now.domain candidates.now.flow_record candidates.now.rules) }
{
    let mut verdicts = Vec::with_capacity(alloc, fields)?;
    for field in 0..fields {
        verdicts.push(candidates.element_verdict(field))?;
    }
    Ok(verdicts)
}

/// Whether the field stays.
fn is_kept(verdict: &ElementVerdict) -> bool
    ensures { result ≡ is_kept verdict.now }
{
    match verdict.action {
        ElementAction::Keep | ElementAction::Truncate(_) | ElementAction::Degrade(_) => true,
        ElementAction::Remove => false,
    }
}

/// The fields that stay.
pub(crate) fn kept_fields(
    alloc: Global,
    fields: &[FieldSpec],
    verdicts: &[ElementVerdict],
) -> Result<Vec<FieldSpec>, AllocError>
    ensures { IfOk result (λ kept. kept.items ≡ kept_fields fields.now verdicts.now) }
{
    fields
        .iter()
        .zip(verdicts)
        .filter(|(_, verdict)| is_kept(verdict))
        .map(|(field, _)| *field)
        .collect(alloc)
}

/// The fields that are left out, in the order of their places.
pub(crate) fn removed_fields(
    alloc: Global,
    verdicts: &[ElementVerdict],
) -> Result<Vec<RemovedField>, AllocError>
    requires { length verdicts.now ≤ MOST_FIELDS }
    ensures { IfOk result (λ removed. removed.items ≡ removed_fields verdicts.now) }
{
    verdicts
        .iter()
        .enumerate()
        .filter(|(_, verdict)| !is_kept(verdict))
        .map(|(place, verdict)| RemovedField {
            place: place as u16,
            rule: verdict.rule,
        })
        .collect(alloc)
}
