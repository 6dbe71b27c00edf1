//! What is shown of a record, by a few steps over its octets that are worked out once for a plan.
ghost use Rattle.std.specs.Prelude.{◌≡◌, ◌+◌, ◌≤◌, ◌++◌, ◌∷◌, [], List, length, take, drop, map, IfOk, IfSome, OnOk, OnErr};
ghost use Rattle.sequences.specs.Octets.{AreOctets};
ghost use Rattle.flow_anonymize.specs.declared.steps.Step.{Step};
ghost use Rattle.flow_anonymize.specs.Changes.{changed_value};
ghost use Rattle.flow_anonymize.specs.declared.steps.Step.TheVariants.{Octets};
ghost use Rattle.flow_anonymize.specs.Stretches.{zeroed, stretch_shown};
ghost use Rattle.flow_anonymize.specs.Steps.{variable_span, shown_at, behind, shown_by, steps_in, step_of, truncating_step, changed_step, ShowAlike, AreSteps};

use crate::change::{Change, put_changed};
use crate::stretch::{Stretch, behind, put_stretches, split};
use ipfix_octets::read_varlen;
use ipfix_template::FieldSpec;
use policy_judge::{ElementAction, ElementVerdict};
use std::alloc::{AllocError, Global};

/// A step over the octets of a record's values.
#[derive(Clone, Copy)]
pub(crate) enum Step {
    /// Octets whose number the template fixes.
    Octets(Stretch),
    /// A value of variable length is shown as it stands, behind its length (RFC 7011, section 7).
    ShowVariable,
    /// A value of variable length is left out, and its length too.
    SkipVariable,
    /// A value of `octets` octets is shown with a change.
    Changed { octets: usize, change: Change },
    /// A value of variable length is shown with a change, behind its length.
    ChangedVariable(Change),
}

/// Steps over the octets of a record's values, one after another.
#[derive(Drop)]
pub(crate) enum Steps {
    /// Each is over octets whose number the template fixes.
    Fixed(Vec<Stretch>),
    /// Some are over values of variable length, or change values.
    Mixed(Vec<Step>),
}

/// The steps for records of these fields by these verdicts.
///
/// # Errors
/// Want of memory.
pub(crate) fn steps_of(
    alloc: Global,
    fields: &[FieldSpec],
    verdicts: &[ElementVerdict],
) -> Result<Steps, AllocError>
    ensures { IfOk result (λ steps. AreSteps fields.now verdicts.now (steps_in steps)) }
{
    let steps = made_steps(alloc, fields, verdicts)?;
    match stretches_of(alloc, &steps)? {
        Some(stretches) => Ok(Steps::Fixed(stretches)),
        None => Ok(Steps::Mixed(steps)),
    }
}

/// The steps for these fields by these verdicts, as few as they can be joined to.
fn made_steps(
    alloc: Global,
    fields: &[FieldSpec],
    verdicts: &[ElementVerdict],
) -> Result<Vec<Step>, AllocError>
    ensures { IfOk result (λ steps. AreSteps fields.now verdicts.now steps.items) }
{
    let mut steps = Vec::new(alloc);
    let mut last = Step::Octets(Stretch::of(0, 0, 0));
    'fields: for (field, verdict) in fields.iter().zip(verdicts) {
        let next = step_of(field, verdict.action);
        last = join(last, next, &mut steps)?;
    }
    end(last, &mut steps)?;
    Ok(steps)
}

/// The step for a field.
fn step_of(field: &FieldSpec, action: ElementAction) -> Step
    ensures { result ≡ step_of field.now action }
{
    let octets = usize::from(field.length);
    match action {
        ElementAction::Keep if field.is_variable() => Step::ShowVariable,
        ElementAction::Keep => Step::Octets(Stretch::of(octets, 0, 0)),
        ElementAction::Remove if field.is_variable() => Step::SkipVariable,
        ElementAction::Remove => Step::Octets(Stretch::of(0, 0, octets)),
        ElementAction::Truncate(bits) => truncating_step(field, bits),
        ElementAction::Degrade(seconds) => changed_step(field, Change::Degrade(seconds)),
    }
}

/// The step for a field of which the values keep their first bits: where these fill octets, they stay as they stand.
fn truncating_step(field: &FieldSpec, bits: usize) -> Step
    ensures { result ≡ truncating_step field.now bits }
{
    if field.is_variable() || bits % 8 != 0 {
        return changed_step(field, Change::Truncate(bits));
    }
    let octets = usize::from(field.length);
    let whole = octets.min(bits / 8);
    Step::Octets(Stretch::of(whole, octets - whole, 0))
}

/// The step for a field of which the values are changed.
fn changed_step(field: &FieldSpec, change: Change) -> Step
    ensures { result ≡ changed_step field.now change }
{
    if field.is_variable() {
        return Step::ChangedVariable(change);
    }
    Step::Changed {
        octets: usize::from(field.length),
        change,
    }
}

/// Joins the next step with the last one, or appends the last one; the step that comes last then.
fn join(last: Step, next: Step, steps: &mut Vec<Step>) -> Result<Step, AllocError>
    ensures { IfOk result (λ step. (after : List Step)
        → ShowAlike (steps.new.items ++ step ∷ after) (steps.old.items ++ last ∷ next ∷ after)) }
{
    match joined(last, next) {
        Some(both) => Ok(both),
        None => {
            steps.push(last)?;
            Ok(next)
        }
    }
}

/// One step in place of two neighbours over octets whose number is fixed, or of which one takes no octets: so each step but the
/// last takes some, and a record has no more steps than octets.
fn joined(last: Step, next: Step) -> Option<Step>
    ensures { IfSome result
        (λ both. (after : List Step) → ShowAlike (both ∷ after) (last ∷ next ∷ after)) }
{
    match (last, next) {
        (Step::Octets(front), Step::Octets(back)) => Some(Step::Octets(front.joined(back)?)),
        (Step::Octets(none), next) if none.is_empty() => Some(next),
        (last, Step::Octets(none)) if none.is_empty() => Some(last),
        _ => None,
    }
}

/// Appends the last step, if it shows something.
fn end(last: Step, steps: &mut Vec<Step>) -> Result<(), AllocError>
    ensures { OnOk result (ShowAlike steps.new.items (steps.old.items ++ last ∷ [])) }
{
    match last {
        Step::Octets(stretch) if stretch.shows_none() => {}
        Step::SkipVariable => {}
        _ => steps.push(last)?,
    }
    Ok(())
}

/// The stretches of steps, where all are over octets whose number is fixed.
fn stretches_of(alloc: Global, steps: &[Step]) -> Result<Option<Vec<Stretch>>, AllocError>
    ensures { IfOk result
        (λ found. IfSome found (λ stretches. map Octets stretches.items ≡ steps.now)) }
{
    let mut stretches = Vec::with_capacity(alloc, steps.len())?;
    for step in steps {
        match step {
            Step::Octets(stretch) => stretches.push(*stretch)?,
            _ => return Ok(None),
        }
    }
    Ok(Some(stretches))
}

/// Tells proofs that octets are less than 256, by their type. It does nothing.
pub(crate) fn octets_for_proof(octets: &[u8])
    ensures { AreOctets octets.now }
{}

/// Appends what the steps show of octets.
///
/// # Errors
/// Want of memory, and then nothing is appended.
pub(crate) fn put_by_steps(
    steps: &Steps,
    octets: &[u8],
    text: &mut Vec<u8>,
) -> Result<(), AllocError>
    ensures ok { OnOk result
        (text.new.items ≡ text.old.items ++ shown_by (steps_in steps.now) octets.now) }
    ensures err { OnErr result (text.new.items ≡ text.old.items) }
{
    match steps {
        Steps::Fixed(stretches) => put_stretches(stretches, octets, text),
        Steps::Mixed(steps) => put_all_steps(steps, octets, text),
    }
}

/// Appends what the steps show of octets.
///
/// # Errors
/// Want of memory, and then nothing is appended.
fn put_all_steps(steps: &[Step], octets: &[u8], text: &mut Vec<u8>) -> Result<(), AllocError>
    ensures ok { OnOk result (text.new.items ≡ text.old.items ++ shown_by steps.now octets.now) }
    ensures err { OnErr result (text.new.items ≡ text.old.items) }
{
    let held = text.len();
    let put = put_steps(steps, octets, text);
    if put.is_err() {
        text.truncate(held);
    }
    put
}

/// Appends what the steps show of octets. At an error, what stood there before is still at the
/// front.
fn put_steps(steps: &[Step], octets: &[u8], text: &mut Vec<u8>) -> Result<(), AllocError>
    ensures ok { OnOk result (text.new.items ≡ text.old.items ++ shown_by steps.now octets.now) }
    ensures err { OnErr result (take (length text.old.items) text.new.items ≡ text.old.items) }
{
    let mut rest = octets;
    'steps: for step in steps {
        rest = put_step(*step, rest, text)?;
    }
    Ok(())
}

/// Appends what a step shows of octets, and answers those behind it.
fn put_step<'o>(step: Step, octets: &'o [u8], text: &mut Vec<u8>) -> Result<&'o [u8], AllocError>
    ensures shown { OnOk result (text.new.items ≡ text.old.items ++ shown_at step octets.now) }
    ensures behind { IfOk result (λ rest. rest.now ≡ behind step octets.now) }
    ensures err { OnErr result (take (length text.old.items) text.new.items ≡ text.old.items) }
{
    match step {
        Step::Octets(stretch) => {
            put_shown_and_zeros(stretch, octets, text)?;
            Ok(behind(stretch, octets))
        }
        Step::ShowVariable => {
            let (start, len) = variable_span(octets);
            let (here, rest) = split(octets, start + len);
            text.extend_from_slice(here)?;
            Ok(rest)
        }
        Step::SkipVariable => {
            let (start, len) = variable_span(octets);
            let (_, rest) = split(octets, start + len);
            Ok(rest)
        }
        Step::Changed {
            octets: count,
            change,
        } => {
            let (here, rest) = split(octets, count);
            put_changed(here, change, text)?;
            Ok(rest)
        }
        Step::ChangedVariable(change) => {
            let (start, len) = variable_span(octets);
            put_behind(&octets[..start], &octets[start..start + len], change, text)?;
            Ok(&octets[start + len..])
        }
    }
}

/// Appends what a stretch shows of octets.
fn put_shown_and_zeros(
    stretch: Stretch,
    octets: &[u8],
    text: &mut Vec<u8>,
) -> Result<(), AllocError>
    ensures ok { OnOk result (text.new.items ≡ text.old.items ++ stretch_shown stretch octets.now) }
    ensures err { OnErr result (take (length text.old.items) text.new.items ≡ text.old.items) }
{
    let (here, behind) = split(octets, stretch.shown);
    text.extend_from_slice(here)?;
    let (hidden, _) = split(behind, stretch.zeros);
    put_zeros(hidden.len(), text)
}

/// Appends `count` octets that are 0.
fn put_zeros(count: usize, text: &mut Vec<u8>) -> Result<(), AllocError>
    ensures ok { OnOk result (text.new.items ≡ text.old.items ++ zeroed count) }
    ensures err { OnErr result (text.new.items ≡ text.old.items) }
{
    match text.len().checked_add(count) {
        Some(length) => text.resize(length, 0),
        None => Err(AllocError),
    }
}

/// Where the value of variable length at the front of octets starts, and its length; both are 0 where none stands there.
fn variable_span(octets: &[u8]) -> (usize, usize)
    ensures exact { result ≡ variable_span octets.now }
    ensures within { result.0 + result.1 ≤ length octets.now }
{
    match read_varlen(octets) {
        Some(span) => span,
        None => (0, 0),
    }
}

/// Appends octets as they stand, and behind them a value with a change.
fn put_behind(
    before: &[u8],
    value: &[u8],
    change: Change,
    text: &mut Vec<u8>,
) -> Result<(), AllocError>
    ensures ok { OnOk result
        (text.new.items ≡ text.old.items ++ (before.now ++ changed_value change value.now)) }
    ensures err { OnErr result (take (length text.old.items) text.new.items ≡ text.old.items) }
{
    text.extend_from_slice(before)?;
    put_changed(value, change, text)
}
