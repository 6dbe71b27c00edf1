//! What the policy of a table's rules discloses of a record.
ghost use Rattle.std.specs.Prelude.{◌≡◌, ◌≢◌, IsOk, IfOk};
ghost use Rattle.policy_judge.specs.declared.verdict.RecordAction.TheVariants as on_record;
ghost use Rattle.policy_judge.specs.Verdicts.{record_verdict_of};
ghost use Rattle.flow_anonymize.specs.Disclosed.{disclosure_of};

use crate::disclosure::Disclosure;
use crate::fields::judge_candidates;
use crate::plan::Plan;
use ipfix_template::Record;
use rule_table::RuleTable;
use std::alloc::{AllocError, Global};

/// What the policy of the rules of `table` discloses of the record `flow_record` of the Observation
/// Domain `domain`, to the subscriber called `name`. It is what [`disclose`](crate::disclose)
/// answers by that policy, and few of its rules are looked at. What passes is in memory from
/// `alloc`.
///
/// # Errors
/// Want of memory, which says nothing of the record.
pub fn disclose_by(
    alloc: Global,
    table: &RuleTable,
    name: &str,
    domain: u32,
    flow_record: &Record,
) -> Result<Disclosure<Record>, AllocError>
    ensures exact { IfOk result
        (λ d. d ≡ disclosure_of name.now domain flow_record.now table.now) }
    // What is said of a record that doesn't pass takes no memory.
    ensures no_memory { (record_verdict_of name.now domain flow_record.now table.now).action
        ≢ on_record.Pass
        → IsOk result }
{
    let plan = plan_by(alloc, table, name, domain, flow_record)?;
    plan.disclose(alloc, flow_record)
}

ghost use Rattle.flow_anonymize.specs.Remaining.{verdicts_of};
ghost use Rattle.flow_anonymize.specs.Planning.{IsPlanFrom, IsShowable};

/// The plan for a record, by the rules of a table.
///
/// # Errors
/// Want of memory; of a record that doesn't pass none is wanted.
pub(crate) fn plan_by(
    alloc: Global,
    table: &RuleTable,
    name: &str,
    domain: u32,
    flow_record: &Record,
) -> Result<Plan, AllocError>
    ensures plan { IfOk result (λ plan. IsPlanFrom flow_record.now.template
        (record_verdict_of name.now domain flow_record.now table.now)
        (verdicts_of name.now domain flow_record.now table.now) plan) }
    ensures showable { IfOk result (λ plan. IsShowable plan flow_record.now) }
    ensures no_memory { (record_verdict_of name.now domain flow_record.now table.now).action
        ≢ on_record.Pass
        → IsOk result }
{
    let Ok(candidates) = table.candidates(alloc, name, domain, flow_record) else {
        let verdict = table.record_verdict(name, domain, flow_record);
        return Plan::for_verdict(verdict).ok_or(AllocError);
    };
    if let Some(plan) = Plan::for_verdict(candidates.record_verdict()) {
        return Ok(plan);
    }
    // Each rule is one of the grammar, so it keeps no more bits than a value of its element has.
    let _for_proof = table.rules();
    let fields = flow_record.template().fields.len();
    let verdicts = judge_candidates(alloc, &candidates, fields)?;
    Plan::for_passing(alloc, flow_record, verdicts)
}
