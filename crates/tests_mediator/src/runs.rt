//! The worked cases as lists of calls: `run` replies to each call what a state answers.
use crate::aggregates::AGGREGATES;
use crate::cases::{CASES, Case, Step};
use crate::worked::{are_lines, is_message, plain, status};
use bytes::Bytes;
use mediator_core::{Call, Fault, Receipt, Reply, SessionId, SubId, Transcript, run};
use std::alloc::{AllocError, Global};
use std::process::Abort;
use std::test::Fail;

/// The call of a step.
fn call_of(alloc: Global, step: &Step) -> Result<Call, AllocError> {
    Ok(match step {
        Step::Open(_) => Call::Open,
        Step::Close(session, _) => Call::Close {
            session: SessionId(*session),
        },
        Step::Accept(session, number, octets, _, _) => receive(alloc, *session, *number, octets)?,
        Step::Receive(session, number, octets, _) => receive(alloc, *session, *number, octets)?,
        Step::Edit(text, _) => Call::Edit {
            text: String::from_str(alloc, text)?,
        },
        Step::Subscribe(name, _) => Call::Subscribe {
            name: String::from_str(alloc, name)?,
        },
        Step::Unsubscribe(sub, _) => Call::Unsubscribe { sub: SubId(*sub) },
        Step::Advance(t, _) => Call::Advance { t: *t },
        Step::Pull(sub, target, _) => Call::Pull {
            sub: SubId(*sub),
            now: 0x6553_f13c,
            target: *target,
        },
        Step::Served(sub, _, _, _) => Call::Status { sub: SubId(*sub) },
        Step::WasCut(sub, _, _, _) => Call::Status { sub: SubId(*sub) },
        Step::Gone(sub) => Call::Status { sub: SubId(*sub) },
        Step::Audit(most, _) => Call::DrainAudit { most: *most },
    })
}

fn receive(alloc: Global, session: u64, number: u64, octets: &[u8]) -> Result<Call, AllocError> {
    Ok(Call::Receive {
        session: SessionId(session),
        number,
        message: Bytes::copy_from_slice(alloc, octets)?,
    })
}

/// Whether a message was received so.
fn is_received(reply: &Reply, due: &Result<Receipt, Fault>) -> bool {
    match (reply, due) {
        (Reply::Received(receipt), Ok(wanted)) => receipt == wanted,
        (Reply::Refused(fault), Err(wanted)) => fault == wanted,
        _ => false,
    }
}

/// Whether a call that answers a number was answered so.
fn is_number(reply: &Reply, due: &Result<u64, Fault>) -> bool {
    match (reply, due) {
        (Reply::Opened(session), Ok(wanted)) => session.0 == *wanted,
        (Reply::Edited(revision), Ok(wanted)) => *revision == *wanted,
        (Reply::Subscribed(sub), Ok(wanted)) => sub.0 == *wanted,
        (Reply::Refused(fault), Err(wanted)) => fault == wanted,
        _ => false,
    }
}

/// Whether a call that answers nothing was done so.
fn is_done(reply: &Reply, due: &Result<(), Fault>) -> bool {
    match (reply, due) {
        (Reply::Closed, Ok(())) => true,
        (Reply::Unsubscribed, Ok(())) => true,
        (Reply::Advanced, Ok(())) => true,
        (Reply::Refused(fault), Err(wanted)) => fault == wanted,
        _ => false,
    }
}

fn is_pulled(reply: &Reply, due: &Result<Option<&[u8]>, Fault>) -> bool {
    match (reply, due) {
        (Reply::Pulled(message), Ok(wanted)) => is_message(message, *wanted),
        (Reply::Refused(fault), Err(wanted)) => fault == wanted,
        _ => false,
    }
}

fn is_status(reply: &Reply, queued: u32, handed: u64, shapes: u32, cut: bool) -> bool {
    match reply {
        Reply::Stands(stands) => Some(*stands) == status(queued, handed, shapes, cut),
        _ => false,
    }
}

/// Whether a call was answered as its step wants it.
fn is_reply(alloc: Global, reply: &Reply, step: &Step) -> Result<bool, AllocError> {
    Ok(match step {
        Step::Open(due) => is_number(reply, due),
        Step::Close(_, due) => is_done(reply, due),
        Step::Accept(_, _, _, position, records) => {
            is_received(reply, &Ok(plain(*position, *records)))
        }
        Step::Receive(_, _, _, due) => is_received(reply, due),
        Step::Edit(_, due) => is_number(reply, due),
        Step::Subscribe(_, due) => is_number(reply, due),
        Step::Unsubscribe(_, due) => is_done(reply, due),
        Step::Advance(_, due) => is_done(reply, due),
        Step::Pull(_, _, due) => is_pulled(reply, due),
        Step::Served(_, queued, handed, shapes) => {
            is_status(reply, *queued, *handed, *shapes, false)
        }
        Step::WasCut(_, queued, handed, shapes) => {
            is_status(reply, *queued, *handed, *shapes, true)
        }
        Step::Gone(_) => is_done(reply, &Err(Fault::UnknownSub)),
        Step::Audit(_, due) => match reply {
            Reply::Drained(entries) => are_lines(alloc, entries, due)?,
            _ => false,
        },
    })
}

/// The calls of a case.
fn calls_of(alloc: Global, case: &Case) -> Result<Vec<Call>, AllocError> {
    let mut calls = Vec::new(alloc);
    for step in case.begin.iter().chain(case.steps) {
        calls.push(call_of(alloc, step)?)?;
    }
    Ok(calls)
}

/// A run of a case's calls.
fn run_case(alloc: Global, case: &Case) -> Result<Transcript, Fault> {
    run(alloc, case.limits, calls_of(alloc, case)?)
}

/// Whether memory was refused to a call.
fn wanted_memory(transcript: &Transcript) -> bool {
    transcript.replies.iter().any(|reply| matches!(reply, Reply::Refused(Fault::OutOfMemory)))
}

/// A run of a case's calls, made again where memory is refused.
fn run_again(alloc: Global, case: &Case) -> Result<Transcript, Fault> {
    match run_case(alloc, case) {
        Ok(transcript) if !wanted_memory(&transcript) => Ok(transcript),
        _ => run_case(alloc, case),
    }
}

/// That each reply of a case's run is what is wanted.
fn expect_replies(
    rt: &impl Abort,
    alloc: Global,
    case: &Case,
    replies: &[Reply],
) -> Result<(), AllocError> {
    let steps = case.begin.iter().chain(case.steps);
    for (step, reply) in steps.zip(replies) {
        let same = is_reply(alloc, reply, step)?;
        assert!(rt; same, "{}", case.name);
    }
    Ok(())
}

/// That a case's run replies what is wanted, or isn't begun where its limits, which a state may have, are no mediator's.
fn expect_case(rt: &impl Abort, alloc: Global, case: &Case) -> Result<(), AllocError> {
    match run_again(alloc, case) {
        Ok(transcript) => {
            let count = case.begin.len() + case.steps.len();
            assert!(rt; transcript.replies.len() == count, "{}", case.name);
            expect_replies(rt, alloc, case, &transcript.replies)
        }
        Err(Fault::OutOfMemory) => Err(AllocError),
        Err(fault) => {
            assert!(rt; fault == Fault::BadLimits, "{}", case.name);
            assert!(rt; case.limits.queue == 0, "{}", case.name);
            Ok(())
        }
    }
}

#[test]
fn calls_as_a_list(rt: HostRuntime) -> Result<(), Fail> {
    for case in CASES {
        expect_case(&rt, rt.alloc(), case)?;
    }
    Ok(())
}

#[test]
fn aggregates_as_a_list(rt: HostRuntime) -> Result<(), Fail> {
    for case in AGGREGATES {
        expect_case(&rt, rt.alloc(), case)?;
    }
    Ok(())
}
