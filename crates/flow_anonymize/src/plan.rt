//! What becomes of all records of one template for which the verdicts are the same.
ghost use Rattle.std.specs.Prelude.{◌≡◌, ◌≢◌, ◌<◌, ◌≤◌, ◌++◌, ℕ, List, length, IsOk, IfOk, OnOk, OnErr, MatchOption};
ghost use Rattle.std.specs.Option.{option_map};
ghost use Rattle.std.specs.Arc.{arc_value};
ghost use Rattle.flow_anonymize.specs.Outcome.{Outcome, passed_text, IsKeptAsText};
ghost use Rattle.flow_anonymize.specs.Remaining.{removed_fields};
ghost use Rattle.flow_anonymize.specs.Within.{AreJudged};
ghost use Rattle.flow_anonymize.specs.Disclosed.{remaining_template, first_lost, first_rule_of, by_verdict};

use crate::disclosure::Disclosure;
use crate::fields::{kept_fields, removed_fields};
use crate::steps::{Steps, octets_for_proof, put_by_steps, steps_of};
use crate::values::kept_text;
use disclosure_audit::{Reason, RemovedField, RemovedFields};
use ipfix_template::{Fields, Record, RecordView, Template};
use policy_judge::{ElementVerdict, RecordAction, RecordVerdict};
use std::alloc::{AllocError, Global};
use std::sync::Arc;

/// What becomes of records, but for their values.
pub(crate) type Plan = Disclosure<Passing>;

/// How records pass: with this template, and each field by the verdict on it, which these steps over a record's octets do.
#[derive(Drop)]
pub(crate) struct Passing {
    template: Arc<Template>,
    verdicts: Vec<ElementVerdict>,
    steps: Steps,
}

impl Disclosure<Passing> {
    ghost use Rattle.flow_anonymize.specs.Planning.{planned, shown_template, IsShowable, ShowsNone, IsPassing};
    ghost use Rattle.flow_anonymize.specs.Outcome.{decision_of};

    /// The plan for records that don't pass.
    pub(crate) fn for_verdict(verdict: RecordVerdict) -> Option<Plan>
        ensures { MatchOption result (verdict.action ≡ RecordAction.Pass)
            (λ plan. ShowsNone plan × ((values : List (List ℕ)) (passing : Outcome)
            → planned plan values ≡ by_verdict verdict passing)) }
    {
        let rule = verdict.rule;
        match verdict.action {
            RecordAction::Pass => None,
            RecordAction::Withhold => Some(Disclosure::Withheld {
                rule,
                reason: Reason::Rule,
            }),
            RecordAction::Aggregate(definition) => Some(Disclosure::Aggregated {
                rule,
                definition,
            }),
        }
    }

    /// The plan for records that pass, as this one does: they keep, in their order, the fields that no rule removes. They are
    /// withheld where a scope field is removed, and else where no octets are left of the shortest record.
    ///
    /// # Errors
    /// Want of memory.
    pub(crate) fn for_passing(
        alloc: Global,
        flow_record: &Record,
        verdicts: Vec<ElementVerdict>,
    ) -> Result<Plan, AllocError>
        requires { AreJudged flow_record.now verdicts.items }
        ensures passing { IfOk result
            (λ plan. IsPassing flow_record.now.template verdicts.items plan) }
        ensures showable { IfOk result (λ plan. IsShowable plan flow_record.now) }
    {
        let removed = removed_fields(alloc, &verdicts)?;
        if let Some(field) = first_lost(&removed, flow_record.template().scope) {
            return Ok(Disclosure::Withheld {
                rule: field.rule,
                reason: Reason::ScopeLost,
            });
        }
        let template = remaining_template(alloc, flow_record, &verdicts, &removed)?;
        if template.shortest() == 0 {
            return Ok(Disclosure::Withheld {
                rule: first_rule_of(&removed),
                reason: Reason::Empty,
            });
        }
        let steps = steps_of(alloc, flow_record.template().fields.as_slice(), &verdicts)?;
        Ok(Disclosure::Passed {
            removed: RemovedFields::from_vec(alloc, removed)?,
            kept: Passing {
                template,
                verdicts,
                steps,
            },
        })
    }

    /// What is disclosed of a record by its plan.
    ///
    /// # Errors
    /// Want of memory.
    pub(crate) fn disclose(
        &self,
        alloc: Global,
        flow_record: &Record,
    ) -> Result<Disclosure<Record>, AllocError>
        requires { IsShowable self.now flow_record.now }
        ensures exact { IfOk result (λ d. d ≡ planned self.now flow_record.now.values) }
        // What is said of a record that isn't shown takes no memory.
        ensures no_memory { ShowsNone self.now → IsOk result }
    {
        match self {
            Disclosure::Passed { kept, removed } => pass(
                alloc,
                &kept.template,
                removed,
                &kept.verdicts,
                &kept.steps,
                flow_record,
            ),
            Disclosure::Aggregated { rule, definition } => Ok(Disclosure::Aggregated {
                rule: *rule,
                definition: *definition,
            }),
            Disclosure::Withheld { rule, reason } => Ok(Disclosure::Withheld {
                rule: *rule,
                reason: *reason,
            }),
        }
    }

    /// Appends what is shown of a record that passes: the octets of the record that is kept, under the plan's template. Of others
    /// nothing is appended.
    ///
    /// # Errors
    /// Want of memory, and then nothing is appended.
    pub(crate) fn put_shown(
        &self,
        flow_record: &RecordView<'_>,
        text: &mut Vec<u8>,
    ) -> Result<(), AllocError>
        requires { IsShowable self.now flow_record.now }
        // All of it is appended, or nothing.
        ensures ok { OnOk result (text.new.items
            ≡ text.old.items ++ passed_text (planned self.now flow_record.now.values)) }
        ensures err { OnErr result (text.new.items ≡ text.old.items) }
        // What is appended is kept as a record is.
        ensures kept { IsKeptAsText (planned self.now flow_record.now.values) }
        // What is said of a record that isn't shown takes no memory.
        ensures no_memory { ShowsNone self.now → IsOk result }
    {
        match self {
            Disclosure::Passed { kept, .. } => {
                let octets = flow_record.as_octets();
                octets_for_proof(octets);
                put_by_steps(&kept.steps, octets, text)
            }
            Disclosure::Aggregated { .. } => Ok(()),
            Disclosure::Withheld { .. } => Ok(()),
        }
    }

    /// The template of what is shown, if anything is.
    pub(crate) fn template(&self) -> Option<&Arc<Template>>
        ensures { option_map (λ t. arc_value t.now) result ≡ shown_template self.now }
    {
        match self {
            Disclosure::Passed { kept, .. } => Some(&kept.template),
            Disclosure::Aggregated { .. } | Disclosure::Withheld { .. } => None,
        }
    }

    /// What is said of a record by its plan.
    ///
    /// # Errors
    /// Want of memory.
    pub(crate) fn decision(&self) -> Result<Disclosure<()>, AllocError>
        ensures { (values : List (List ℕ))
            → IfOk result (λ d. d ≡ decision_of (planned self.now values)) }
    {
        Ok(match self {
            Disclosure::Passed { removed, .. } => Disclosure::Passed {
                kept: (),
                removed: removed.clone()?,
            },
            Disclosure::Aggregated { rule, definition } => Disclosure::Aggregated {
                rule: *rule,
                definition: *definition,
            },
            Disclosure::Withheld { rule, reason } => Disclosure::Withheld {
                rule: *rule,
                reason: *reason,
            },
        })
    }
}

ghost use Rattle.flow_anonymize.specs.declared.disclosure.Disclosure.TheVariants.{Passed};
ghost use Rattle.flow_anonymize.specs.Remaining.{kept_values};
ghost use Rattle.flow_anonymize.specs.Planning.{ShowsRecord};
ghost use Rattle.flow_anonymize.specs.Steps.{steps_in};

/// The record that passes.
fn pass(
    alloc: Global,
    template: &Arc<Template>,
    removed: &RemovedFields,
    verdicts: &[ElementVerdict],
    steps: &Steps,
    flow_record: &Record,
) -> Result<Disclosure<Record>, AllocError>
    requires { ShowsRecord
        flow_record.now (arc_value template.now) verdicts.now (steps_in steps.now) }
    ensures { IfOk result (λ d. d ≡ Passed (record {
      template = arc_value template.now;
      values = kept_values flow_record.now.values verdicts.now;
    }) removed.now) }
{
    let text = kept_text(alloc, flow_record, verdicts, steps)?;
    let kept = Record::from_octets(template.clone()?, text);
    let removed = removed.clone()?;
    Ok(Disclosure::Passed { kept, removed })
}

/// The first removed field that is a scope field.
fn first_lost(removed: &[RemovedField], scope: u16) -> Option<RemovedField>
    ensures { result ≡ first_lost scope removed.now }
{
    removed.iter().copied().find(|field| field.place < scope)
}

/// The rule of the first removed field.
fn first_rule_of(removed: &[RemovedField]) -> u32
    ensures { result ≡ first_rule_of removed.now }
{
    match removed.first() {
        Some(field) => field.rule,
        None => 0,
    }
}

/// The template of what is left, which is the record's own where nothing is removed.
fn remaining_template(
    alloc: Global,
    flow_record: &Record,
    verdicts: &[ElementVerdict],
    removed: &[RemovedField],
) -> Result<Arc<Template>, AllocError>
    requires judged { AreJudged flow_record.now verdicts.now }
    requires removed { removed.now ≡ removed_fields verdicts.now }
    ensures { IfOk result
        (λ t. arc_value t ≡ remaining_template flow_record.now.template verdicts.now) }
{
    if removed.is_empty() {
        return flow_record.shared_template().clone();
    }
    let template = flow_record.template();
    let scope = template.scope;
    let kept = kept_fields(alloc, template.fields.as_slice(), verdicts)?;
    let fields = match Fields::from_vec(kept) {
        Ok(fields) => fields,
        Err(_) => unreachable!(),
    };
    Ok(Arc::new(alloc, Template { fields, scope })?)
}
