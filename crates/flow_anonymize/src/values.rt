//! What is shown of a record's values.
ghost use Rattle.std.specs.Prelude.{◌≡◌, length, IfOk};
ghost use Rattle.std.specs.List.{list_all};
ghost use Rattle.ipfix_template.specs.Values.{record_text};
ghost use Rattle.flow_anonymize.specs.Remaining.{kept_fields, kept_values};
ghost use Rattle.flow_anonymize.specs.Steps.{shown_by, steps_in, AreSteps};
ghost use Rattle.flow_anonymize.specs.Within.{is_whole};

use crate::steps::{Steps, octets_for_proof, put_by_steps};
use bytes::Bytes;
use ipfix_template::Record;
use policy_judge::{ElementAction, ElementVerdict};
use std::alloc::{AllocError, Global};

/// What is shown of the values of the fields that stay, each in its shortest text, one after another. Where all of them stay
/// as they are, the record's octets are shared, and not copied.
pub(crate) fn kept_text(
    alloc: Global,
    flow_record: &Record,
    verdicts: &[ElementVerdict],
    steps: &Steps,
) -> Result<Bytes, AllocError>
    requires by_steps { AreSteps
        flow_record.now.template.fields verdicts.now (steps_in steps.now) }
    requires each { length verdicts.now ≡ length flow_record.now.template.fields }
    ensures { IfOk result (λ text. text
        ≡ record_text (kept_fields flow_record.now.template.fields verdicts.now)
        (kept_values flow_record.now.values verdicts.now)) }
{
    let octets = flow_record.as_octets();
    if are_whole(verdicts) {
        return octets.clone();
    }
    octets_for_proof(octets);
    written_text(alloc, octets, steps)
}

/// Whether each field stays as it is.
fn are_whole(verdicts: &[ElementVerdict]) -> bool
    ensures { result ≡ list_all is_whole verdicts.now }
{
    verdicts.iter().all(is_whole)
}

fn is_whole(verdict: &ElementVerdict) -> bool
    ensures { result ≡ is_whole verdict.now }
{
    match verdict.action {
        ElementAction::Keep => true,
        ElementAction::Remove | ElementAction::Truncate(_) | ElementAction::Degrade(_) => false,
    }
}

/// What steps show of octets.
fn written_text(alloc: Global, octets: &[u8], steps: &Steps) -> Result<Bytes, AllocError>
    ensures { IfOk result (λ text. text ≡ shown_by (steps_in steps.now) octets.now) }
{
    let mut text = Vec::with_capacity(alloc, octets.len())?;
    put_by_steps(steps, octets, &mut text)?;
    Ok(Bytes::from_vec(text)?)
}
