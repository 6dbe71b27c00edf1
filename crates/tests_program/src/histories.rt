//! Histories that are verified as a whole: of a journal that was read, and of what stays of a run. Each call is made once, and
//! again where it was refused memory.
ghost use Rattle.std.specs.Prelude.{IfOk};
ghost use Rattle.history_verify.specs.Legal.{IsLegal};

use crate::journals::journal;
use crate::offline::{ONE_RECORD, REMOVE};
use bytes::Bytes;
use disclosure_audit::{AuditEntry, RemovedField, What};
use event_journal::Journal;
use history_verify::{Fault as VerifyFault, SubscriptionCount, Verified, verify};
use mediator_core::{Call, Fault, Finished, Limits, Reply, SessionId, Transcript, run};
use mediator_legal_runs::{runs_are_legal, verify_finished};
use std::alloc::{AllocError, Global};
use std::process::Abort;
use std::test::Fail;

/// Whether a count is of the subscription `sub` with the name `name`, and of `disclosed` records.
fn is_count(count: Option<&SubscriptionCount>, sub: u64, name: &str, disclosed: u64) -> bool {
    match count {
        Some(count) => {
            count.sub == sub && count.name.as_str() == name && count.disclosed == disclosed
        }
        None => false,
    }
}

/// Whether an entry of the audit is of this position and subscription, and of a message's first record or of a cut.
fn stands_at(entry: &AuditEntry, position: u64, sub: u64) -> bool {
    entry.position == position && entry.index == 0 && entry.sub == sub
}

/// Whether the only entry of an audit is the cut of the journal that was read.
fn names_cut(audit: &[AuditEntry]) -> bool {
    match audit {
        [entry] => stands_at(entry, 5, 1) && matches!(entry.what, What::Cut),
        _ => false,
    }
}

/// Whether this was found of the journal that was read: one record for the first subscription, and four for the second.
fn is_found(verified: &Verified) -> bool {
    let counts = verified.subs.as_slice();
    counts.len() == 2
        && is_count(counts.first(), 1, "acme", 1)
        && is_count(counts.last(), 2, "beta", 4)
        && names_cut(verified.audit.as_slice())
}

/// What a journal's history says.
fn found_of(alloc: Global, journal: &Journal) -> Result<Verified, VerifyFault> {
    match verify(alloc, journal) {
        Err(VerifyFault::OutOfMemory) => verify(alloc, journal),
        answer => answer,
    }
}

#[test]
fn journal_verified(rt: HostRuntime) -> Result<(), Fail> {
    let journal = journal(rt.alloc())?;
    let verified = found_of(rt.alloc(), &journal)?;
    assert!(rt; is_found(&verified));
    Ok(())
}

const LIMITS: Limits = Limits {
    queue: 10,
    shapes: 10,
    audit: 10,
    entries: 10,
    octets: 1000,
};

/// A policy, a subscription, a session, and a message of one record.
fn calls(alloc: Global) -> Result<Vec<Call>, AllocError> {
    let mut calls = Vec::with_capacity(alloc, 4)?;
    calls.push(Call::Edit {
        text: String::from_str(alloc, REMOVE)?,
    })?;
    calls.push(Call::Subscribe {
        name: String::from_str(alloc, "acme")?,
    })?;
    calls.push(Call::Open)?;
    calls.push(Call::Receive {
        session: SessionId(1),
        number: 0,
        message: Bytes::copy_from_slice(alloc, ONE_RECORD)?,
    })?;
    Ok(calls)
}

/// Whether memory was refused to a call.
fn wanted_memory(replies: &[Reply]) -> bool {
    replies.iter().any(|reply| matches!(reply, Reply::Refused(Fault::OutOfMemory)))
}

/// What stays of a run of these calls, each of which was accepted.
fn ended_once(alloc: Global) -> Result<Finished, Fault>
    ensures { IfOk result (λ f. IsLegal f.journal.entries) }
{
    runs_are_legal();
    let Transcript { replies, mediator } = run(alloc, LIMITS, calls(alloc)?)?;
    if wanted_memory(replies.as_slice()) {
        return Err(Fault::OutOfMemory);
    }
    Ok(mediator.finish())
}

/// What stays of a run of these calls, each of which was accepted: of a second run where memory was refused to the
/// first.
fn ended(alloc: Global) -> Result<Finished, Fault>
    ensures { IfOk result (λ f. IsLegal f.journal.entries) }
{
    match ended_once(alloc) {
        Err(Fault::OutOfMemory) => ended_once(alloc),
        answer => answer,
    }
}

/// Whether the only entry of an audit is the record's third field, which the second rule removes.
fn names_field(audit: &[AuditEntry]) -> bool {
    match audit {
        [entry] => stands_at(entry, 3, 1) && removes_third(&entry.what),
        _ => false,
    }
}

fn removes_third(what: &What) -> bool {
    match what {
        What::Removed { fields } => {
            fields.as_slice() == [RemovedField { place: 2, rule: 2 }].as_slice()
        }
        _ => false,
    }
}

/// Whether this was found of the run: one record, without a field.
fn is_found_of_run(verified: &Verified) -> bool {
    let counts = verified.subs.as_slice();
    counts.len() == 1
        && is_count(counts.first(), 1, "acme", 1)
        && names_field(verified.audit.as_slice())
}

/// Whether what stays of a run is verified, by a second call where memory was refused to the first.
fn verifies(alloc: Global, finished: &Finished) -> Result<bool, AllocError>
    requires { IsLegal finished.now.journal.entries }
{
    match verify_finished(alloc, finished) {
        Ok(verified) => Ok(is_found_of_run(&verified)),
        Err(_) => Ok(is_found_of_run(&verify_finished(alloc, finished)?)),
    }
}

#[test]
fn run_verified(rt: HostRuntime) -> Result<(), Fail> {
    let finished = ended(rt.alloc())?;
    assert!(rt; verifies(rt.alloc(), &finished)?);
    Ok(())
}
