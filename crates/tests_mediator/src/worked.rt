//! The worked cases, carried out over a journal and over its sizes alone, and with an audit whose entries are kept or
//! counted: each call answers the same over all of them, but for the entries that are kept nowhere.
ghost use Rattle.std.specs.Prelude.{◌≡◌, [], IfOk};
ghost use Rattle.mediator_state.specs.Calls.{StandsForSome};

use crate::aggregates::AGGREGATES;
use crate::calls;
use crate::cases::{CASES, Case, Step};
use bytes::Bytes;
use disclosure_audit::{Audit, AuditEntry, AuditQueue, CountedQueue, KeptQueue, line};
use event_journal::{Chronicle, Journal, JournalSizes, MOST_ENTRIES, MOST_OCTETS};
use ipfix_session::Skips;
use mediator_calls::{SessionId, SubId};
use mediator_core::Limits;
use mediator_state::{Fault, Receipt, State, Status};
use std::alloc::{AllocError, Global};
use std::process::Abort;
use std::test::Fail;
use subscriber_stream::StreamLimits;

/// A state over a chronicle of no entry, and over a queue of none.
fn begin<C: Chronicle + Drop, Q: AuditQueue + Drop>(
    rt: &impl Abort,
    alloc: Global,
    limits: Limits,
    chronicle: C,
    queue: Q,
) -> Result<State<C, Q>, AllocError>
    requires empty { C.tells chronicle [] }
    requires none { (Q.seen queue).count ≡ 0 }
    ensures stands { IfOk result (λ s. StandsForSome C.tells s) }
{
    assert!(rt; limits.queue <= 1_000_000);
    assert!(rt; limits.shapes <= 65_280);
    assert!(rt; 1 <= limits.audit);
    assert!(rt; limits.audit <= 10_000_000);
    let streams = StreamLimits {
        queue: limits.queue,
        shapes: limits.shapes,
    };
    State::new(alloc, streams, Audit::new(queue, limits.audit), chronicle)
}

/// Whether a message is the one that is wanted, or both are none.
pub(crate) fn is_message(message: &Option<Bytes>, wanted: Option<&[u8]>) -> bool {
    match (message, wanted) {
        (Some(octets), Some(due)) => octets.as_slice() == due,
        (None, None) => true,
        (Some(_), None) | (None, Some(_)) => false,
    }
}

/// Whether a pull answers what is wanted.
fn is_pull(answer: &Result<Option<Bytes>, Fault>, wanted: &Result<Option<&[u8]>, Fault>) -> bool {
    match (answer, wanted) {
        (Ok(message), Ok(due)) => is_message(message, *due),
        (Err(fault), Err(due)) => fault == due,
        (Ok(_), Err(_)) | (Err(_), Ok(_)) => false,
    }
}

/// A text of an entry, which is made again where memory is refused.
pub(crate) fn text_of(alloc: Global, entry: &AuditEntry) -> Result<String, AllocError> {
    match line(alloc, entry) {
        Ok(text) => Ok(text),
        Err(_) => line(alloc, entry),
    }
}

/// Whether the entries' lines are those that are wanted.
pub(crate) fn are_lines(
    alloc: Global,
    entries: &[AuditEntry],
    wanted: &[&str],
) -> Result<bool, AllocError> {
    let mut same = entries.len() == wanted.len();
    for (entry, due) in entries.iter().zip(wanted) {
        same &= text_of(alloc, entry)?.as_str() == *due;
    }
    Ok(same)
}

/// The receipt of a message at `position` that brings `records` records and nothing else.
pub(crate) fn plain(position: u64, records: u64) -> Receipt {
    Receipt {
        position,
        records,
        cut: 0,
        skips: Skips {
            unknown: 0,
            reserved: 0,
            refused: 0,
        },
        gap: None,
    }
}

pub(crate) fn status(queued: u32, handed: u64, shapes: u32, cut: bool) -> Option<Status> {
    Some(Status {
        queued,
        handed,
        shapes,
        cut,
    })
}

/// Whether an answer is this number of a session, or this fault.
fn is_opened(answer: Result<SessionId, Fault>, due: &Result<u64, Fault>) -> bool {
    match answer {
        Ok(session) => *due == Ok(session.0),
        Err(fault) => *due == Err(fault),
    }
}

/// Whether an answer is this number of a subscription, or this fault.
fn is_subscribed(answer: Result<SubId, Fault>, due: &Result<u64, Fault>) -> bool {
    match answer {
        Ok(sub) => *due == Ok(sub.0),
        Err(fault) => *due == Err(fault),
    }
}

/// Whether as many entries of the audit wait no more as are wanted, and those are handed out, where they are kept.
fn is_drained<C: Chronicle + Drop, Q: AuditQueue + Drop>(
    alloc: Global,
    state: &mut State<C, Q>,
    most: u32,
    due: &[&str],
) -> Result<bool, AllocError>
    requires stands { StandsForSome C.tells state.old }
    ensures stands { StandsForSome C.tells state.new }
{
    let before = state.audit_waiting();
    let entries = calls::drain_audit(state, most)?;
    let fewer = before.saturating_sub(state.audit_waiting()) as usize;
    let is_told = if Q::KEEPS {
        are_lines(alloc, &entries, due)?
    } else {
        entries.is_empty()
    };
    Ok(fewer == due.len() && is_told)
}

/// Whether a call answers what is wanted.
fn answers<C: Chronicle + Drop, Q: AuditQueue + Drop>(
    alloc: Global,
    state: &mut State<C, Q>,
    step: &Step,
) -> Result<bool, AllocError>
    requires stands { StandsForSome C.tells state.old }
    ensures stands { StandsForSome C.tells state.new }
{
    match step {
        Step::Open(due) => Ok(is_opened(calls::open(state), due)),
        Step::Close(session, due) => Ok(calls::close(state, SessionId(*session)) == *due),
        Step::Accept(session, number, octets, position, records) => {
            let due = Ok(plain(*position, *records));
            Ok(calls::receive(alloc, state, SessionId(*session), *number, octets) == due)
        }
        Step::Receive(session, number, octets, due) => {
            Ok(calls::receive(alloc, state, SessionId(*session), *number, octets) == *due)
        }
        Step::Edit(text, due) => Ok(calls::edit(state, text) == *due),
        Step::Subscribe(name, due) => Ok(is_subscribed(calls::subscribe(state, name), due)),
        Step::Unsubscribe(sub, due) => Ok(calls::unsubscribe(state, SubId(*sub)) == *due),
        Step::Advance(t, due) => Ok(calls::advance(state, *t) == *due),
        Step::Pull(sub, target, due) => Ok(is_pull(&calls::pull(state, SubId(*sub), *target), due)),
        Step::Served(sub, queued, handed, shapes) => {
            Ok(state.status(SubId(*sub)) == status(*queued, *handed, *shapes, false))
        }
        Step::WasCut(sub, queued, handed, shapes) => {
            Ok(state.status(SubId(*sub)) == status(*queued, *handed, *shapes, true))
        }
        Step::Gone(sub) => Ok(state.status(SubId(*sub)).is_none()),
        Step::Audit(most, due) => is_drained(alloc, state, *most, due),
    }
}

/// That each call answers what is wanted.
fn expect_steps<C: Chronicle + Drop, Q: AuditQueue + Drop>(
    rt: &impl Abort,
    alloc: Global,
    name: &str,
    state: &mut State<C, Q>,
    steps: &[Step],
) -> Result<(), AllocError>
    requires stands { StandsForSome C.tells state.old }
    ensures stands { StandsForSome C.tells state.new }
{
    for (place, step) in steps.iter().enumerate() {
        let same = answers(alloc, state, step)?;
        assert!(rt; same, "{name}, call {place}");
    }
    Ok(())
}

/// That a case's calls answer what is wanted over a chronicle and a queue of no entry. There are two of them, since a
/// state that is refused memory keeps neither.
fn expect_case<C: Chronicle + Drop, Q: AuditQueue + Drop>(
    rt: &impl Abort,
    alloc: Global,
    case: &Case,
    first: C,
    second: C,
    first_queue: Q,
    second_queue: Q,
) -> Result<(), AllocError>
    requires first { C.tells first [] }
    requires second { C.tells second [] }
    requires first_none { (Q.seen first_queue).count ≡ 0 }
    requires second_none { (Q.seen second_queue).count ≡ 0 }
{
    let mut state = match begin(rt, alloc, case.limits, first, first_queue) {
        Ok(state) => state,
        Err(_) => begin(rt, alloc, case.limits, second, second_queue)?,
    };
    expect_steps(rt, alloc, case.name, &mut state, case.begin)?;
    expect_steps(rt, alloc, case.name, &mut state, case.steps)
}

/// That a case's calls answer what is wanted over a journal, and over its sizes alone; and with an audit whose entries
/// are counted alone.
fn expect_each(rt: &impl Abort, alloc: Global, case: &Case) -> Result<(), AllocError> {
    let (entries, octets) = (case.limits.entries, case.limits.octets);
    assert!(rt; 1 <= entries);
    assert!(rt; entries <= MOST_ENTRIES);
    assert!(rt; 1 <= octets);
    assert!(rt; octets <= MOST_OCTETS);
    expect_case(
        rt,
        alloc,
        case,
        Journal::new(alloc, entries, octets),
        Journal::new(alloc, entries, octets),
        KeptQueue::new(alloc),
        KeptQueue::new(alloc),
    )?;
    expect_case(
        rt,
        alloc,
        case,
        JournalSizes::new(entries, octets),
        JournalSizes::new(entries, octets),
        KeptQueue::new(alloc),
        KeptQueue::new(alloc),
    )?;
    expect_case(
        rt,
        alloc,
        case,
        JournalSizes::new(entries, octets),
        JournalSizes::new(entries, octets),
        CountedQueue::new(alloc),
        CountedQueue::new(alloc),
    )
}

#[test]
fn worked_cases(rt: HostRuntime) -> Result<(), Fail> {
    for case in CASES {
        expect_each(&rt, rt.alloc(), case)?;
    }
    Ok(())
}

#[test]
fn worked_cases_of_aggregates(rt: HostRuntime) -> Result<(), Fail> {
    for case in AGGREGATES {
        expect_each(&rt, rt.alloc(), case)?;
    }
    Ok(())
}
