//! What is decided of records side by side, and what is kept back of each of them.
ghost use Rattle.std.specs.Prelude.{◌≡◌, ◌<◌, ◌≤◌, ◌+◌, ◌++◌, [], ℕ, List, Some, None, true, length, map, IfOk, OnOk};
ghost use Rattle.ipfix_template.specs.DataRecord.{DataRecord};
ghost use Rattle.flow_anonymize.specs.Classes.{classes_of};
ghost use Rattle.flow_anonymize.specs.Parts.{record_at, records_between};
ghost use Rattle.mediator_shares.specs.Alike.{AreLed};
ghost use Rattle.mediator_shares.specs.Judges.{JudgeFor};
ghost use Rattle.mediator_shares.specs.Sharing.{shares_of};
ghost use Rattle.mediator_shares.specs.Deciding.{decision_for, kept_whatever, kept_from, IsWhatever, AreKeptAlike};

use crate::in_force::InForce;
use crate::judges::Judges;
use disclosure_audit::{KeptBack, What};
use flow_anonymize::{Disclosure, RecordClasses};
use ipfix_records::Run;
use mediator_tables::Served;
use std::alloc::{AllocError, Global};

/// Room for what is decided of records side by side. It is kept from one stretch of them to the next, and by the judges
/// from one message to the next.
#[derive(Drop)]
pub(crate) struct Room {
    /// What was decided of each of them, for each leader.
    pub(crate) decided: Vec<Disclosure<()>>,
    /// What is kept back of each of them.
    pub(crate) kept: Vec<KeptBack>,
}

impl Room {
    /// No room yet; it is taken from `alloc`.
    pub(crate) fn new(alloc: Global) -> Room {
        Room {
            decided: Vec::new(alloc),
            kept: Vec::new(alloc),
        }
    }

    /// Drops what stands in it.
    pub(crate) fn clear(&mut self) {
        self.decided.clear();
        self.kept.clear();
    }
}

/// Judges the records of `run` from the place `from` on that stand before `to`, of which there is one at least, and of each
/// of which `classes` are the classes, for each of the subscriptions `leaders`: `judges` are given what passes, and what is
/// decided of each of the records is put into `decided`.
///
/// # Errors
/// Want of memory.
pub(crate) fn decide(
    alloc: Global,
    in_force: &InForce,
    judges: &mut Judges,
    domain: u32,
    classes: Option<RecordClasses>,
    run: &Run,
    from: usize,
    to: usize,
    leaders: &[Served<'_>],
    decided: &mut Vec<Disclosure<()>>,
) -> Result<(), AllocError>
    requires judges { JudgeFor judges.old in_force.now domain (Some run.now.template) leaders.now }
    requires each { length judges.old.shares ≡ length leaders.now }
    requires some { from < to }
    requires within { to ≤ length run.now.texts }
    requires classes { (i : ℕ) → from ≤ i → i < to
        → classes ≡ classes_of judges.old.cuts (record_at run.now i) }
    requires alone { classes ≡ None → to ≡ from + 1 }
    ensures shares { (done : List DataRecord)
        → judges.old.shares ≡ shares_of domain in_force.now done leaders.now
        → OnOk result (judges.new.shares
        ≡ shares_of domain in_force.now (done ++ records_between from to run.now) leaders.now) }
    ensures decided { (i : ℕ) → from ≤ i → i < to → OnOk result (decided.new.items
        ≡ map (decision_for domain in_force.now (record_at run.now i)) leaders.now) }
    // The judges are fit for what comes next.
    ensures judges { OnOk result
        (JudgeFor judges.new in_force.now domain (Some run.now.template) leaders.now) }
    ensures cuts { OnOk result (judges.new.cuts ≡ judges.old.cuts) }
    ensures stay { OnOk result (length judges.new.shares ≡ length leaders.now) }
{
    decided.clear();
    'leaders: for place in 0..leaders.len() {
        let found = judges.disclose(alloc, place, classes, run, from, to)?;
        decided.push(found)?;
    }
    Ok(())
}

/// What is kept back from each of `served`, whose leaders stand at `places`, of each of the records of `run` from the place
/// `from` on that stand before `to`, of which `decided` was decided for each leader. It is put into `kept`. It answers whether
/// that is so: not where a record counts in an aggregate, of which more is said.
///
/// # Errors
/// Want of memory.
pub(crate) fn keep_back(
    in_force: &InForce,
    domain: u32,
    run: &Run,
    from: usize,
    to: usize,
    decided: &Vec<Disclosure<()>>,
    leaders: &[Served<'_>],
    places: &[usize],
    served: &[Served<'_>],
    kept: &mut Vec<KeptBack>,
) -> Result<bool, AllocError>
    requires some { from < to }
    requires led { AreLed in_force.now.policy.rules leaders.now served.now places.now }
    requires decided { (i : ℕ) → from ≤ i → i < to → decided.now.items
        ≡ map (decision_for domain in_force.now (record_at run.now i)) leaders.now }
    ensures { IfOk result (λ so. so ≡ true
        → AreKeptAlike domain in_force.now run.now from to served.now kept.new.items) }
{
    kept.clear();
    'served: for (place, who) in served.iter().enumerate() {
        let found = &decided[places[place]];
        if !put_kept(who.sub, found, kept)? {
            return Ok(false);
        }
    }
    Ok(true)
}

/// Adds what `found` keeps back of a record from the subscription with the number `sub`, whatever the record, and answers
/// whether it says all.
///
/// # Errors
/// Want of memory.
fn put_kept(sub: u64, found: &Disclosure<()>, kept: &mut Vec<KeptBack>) -> Result<bool, AllocError>
    ensures kept { OnOk result (kept.new.items
        ≡ kept.old.items ++ map (kept_from sub) (kept_whatever found.now)) }
    ensures all { IfOk result (λ so. so ≡ true → IsWhatever found.now) }
{
    match found {
        Disclosure::Passed { kept: _, removed } => {
            if !removed.is_empty() {
                let fields = removed.clone()?;
                let what = What::Removed { fields };
                kept.push(KeptBack { sub, what })?;
            }
            Ok(true)
        }
        Disclosure::Aggregated { .. } => Ok(false),
        Disclosure::Withheld { rule, reason } => {
            let (rule, reason) = (*rule, *reason);
            let what = What::Withheld { rule, reason };
            kept.push(KeptBack { sub, what })?;
            Ok(true)
        }
    }
}
