//! What a policy discloses of a record.
ghost use Rattle.std.specs.Prelude.{◌≡◌, ◌≢◌, IsOk, IfOk};
ghost use Rattle.policy_judge.specs.declared.verdict.RecordAction.TheVariants as on_record;
ghost use Rattle.policy_judge.specs.Verdicts.{record_verdict_of};
ghost use Rattle.flow_anonymize.specs.Disclosed.{disclosure_of};

use crate::disclosure::Disclosure;
use crate::fields::judge_fields;
use crate::plan::Plan;
use ipfix_template::Record;
use policy_judge::record_verdict;
use policy_text::Policy;
use std::alloc::{AllocError, Global};

/// For a program of one stream, tests and laws: what `policy` discloses of the record `flow_record`
/// of the Observation Domain `domain`, to the subscriber called `name`. What passes is in memory
/// from `alloc`.
///
/// A record that passes keeps, in their order, the fields that no rule removes. A truncated value
/// keeps its first bits, and the others are 0 (RFC 6235, section 4.1.1). A degraded time is lowered
/// to a multiple of the rule's seconds (RFC 6235, section 4.3.1). The record is withheld where a
/// scope field is removed, and else where no octets are left of its shortest record. Rules on
/// fields are asked only of a record that passes. A value that stays as it is is not copied, and
/// where no field is removed the template is shared.
///
/// # Errors
/// Want of memory, which says nothing of the record.
///
/// # Examples
///
/// The record has a source address and a count of octets. The policy keeps 24 bits of the address,
/// and nothing else:
///
/// ```rust
/// use flow_anonymize::{Disclosure, RemovedField, disclose};
/// use ipfix_session::Session;
/// use policy_text::Policy;
///
/// let text = "policy 1\n\
///     rule for acme in * from * to * pass\n\
///     rule for acme in * from * to * element sourceIPv4Address truncate 24\n";
/// let policy = Policy::parse(alloc, text)?;
/// let message: &[u8] = b"\x00\x0a\x00\x2c\x65\x53\xf1\x00\x00\x00\x00\x00\x00\x00\x00\x07\
///     \x00\x02\x00\x10\x01\x00\x00\x02\x00\x08\x00\x04\x00\x01\x00\x04\
///     \x01\x00\x00\x0c\xc0\x00\x02\x4d\x00\x00\x05\xdc";
/// let read = Session::new(alloc).apply(message)?;
/// let records = read.records.to_vec(alloc)?;
/// let flow_record = records.first().expect(&rt, "a record");
/// let disclosure = disclose(alloc, &policy, "acme", 7, flow_record)?;
/// let Disclosure::Passed { kept, removed } = disclosure else {
///     panic!(rt; "it doesn't pass")
/// };
/// assert!(rt; kept.as_octets().as_slice() == b"\xc0\x00\x02\x00".as_slice());
/// assert!(rt; removed.as_slice() == [RemovedField { place: 1, rule: 0 }].as_slice());
/// ```
pub fn disclose(
    alloc: Global,
    policy: &Policy,
    name: &str,
    domain: u32,
    flow_record: &Record,
) -> Result<Disclosure<Record>, AllocError>
    ensures exact { IfOk result
        (λ d. d ≡ disclosure_of name.now domain flow_record.now policy.now.rules) }
    // What is said of a record that doesn't pass takes no memory.
    ensures no_memory { (record_verdict_of name.now domain flow_record.now policy.now.rules).action
        ≢ on_record.Pass
        → IsOk result }
{
    let plan = plan_of(alloc, policy, name, domain, flow_record)?;
    plan.disclose(alloc, flow_record)
}

ghost use Rattle.flow_anonymize.specs.Remaining.{verdicts_of};
ghost use Rattle.flow_anonymize.specs.Planning.{IsPlanFrom, IsShowable};

/// The plan for a record.
fn plan_of(
    alloc: Global,
    policy: &Policy,
    name: &str,
    domain: u32,
    flow_record: &Record,
) -> Result<Plan, AllocError>
    ensures plan { IfOk result (λ plan. IsPlanFrom flow_record.now.template
        (record_verdict_of name.now domain flow_record.now policy.now.rules)
        (verdicts_of name.now domain flow_record.now policy.now.rules) plan) }
    ensures showable { IfOk result (λ plan. IsShowable plan flow_record.now) }
    ensures no_memory { (record_verdict_of name.now domain flow_record.now policy.now.rules).action
        ≢ on_record.Pass
        → IsOk result }
{
    if let Some(plan) = Plan::for_verdict(record_verdict(policy, name, domain, flow_record)) {
        return Ok(plan);
    }
    let verdicts = judge_fields(alloc, policy, name, domain, flow_record)?;
    Plan::for_passing(alloc, flow_record, verdicts)
}
