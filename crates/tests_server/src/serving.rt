//! Exporters' streams: in pieces, to each fault, and by too few reads. Each time the session is closed then, and no other, behind
//! the messages that were offered, unless the journal is full.
use crate::octets::{
    CUT_OFF, EIGHT_EMPTY, LENGTH_15, LONG_TEMPLATE, ONE_RECORD, SET_OF_3, STREAM, TWO_RECORDS,
    VERSION_9,
};
use crate::returned_handles::{
    Bounds, ENOUGH, NOTHING, PASS, ROOMY, begin, limits_of, returned_handles,
};
use crate::server::Told;
use crate::stage::{Case, ReturnedHandles, play};
use event_journal::Entry;
use ipfix_message::Fault as DecodeError;
use ipfix_reader::FramingFault;
use ipfix_session::Fault as ReadError;
use mediator_connections::{Fault as ServeFault, ServedExporter, serve_exporter};
use mediator_core::Fault;
use octet_io::Device;
use shared_mediator::{Closed, EntryLedger, RecordLedger, SharedMediator};
use std::alloc::{AllocError, Global};
use std::io::ErrorKind::ConnectionReset;
use std::process::Abort;
use std::sync::Wait;
use std::test::Fail;
use std::thread;
use std::thread::Threads;
use test_io::Sparing;

/// How many entries come before a session's messages: an edit, a subscription's begin, another session's, and the session's.
const BEFORE: u64 = 4;

/// A stream, how it is read, and what is answered: how it ends, and what it brought.
#[derive(Clone, Copy)]
pub(crate) struct Row {
    policy: &'static str,
    /// Whether the session was closed before.
    was_closed: bool,
    stream: &'static [u8],
    /// The most octets of one read.
    most: usize,
    /// How many reads come before one that fails.
    reads: usize,
    turns: u64,
    workers: u64,
    due: Result<(), ServeFault>,
    brought: ServedExporter,
}

/// What an exporter's stream brought: how many messages, how many records and how many gaps.
const fn brought((messages, records, gaps): (u64, u64, u64)) -> ServedExporter {
    ServedExporter {
        messages,
        records,
        gaps,
    }
}

/// By how many workers each stream is read.
static WORKERS: [u64; 2] = [1, 2];

const BAD_VERSION: Result<(), ServeFault> = Err(ServeFault::Framing(FramingFault::BadVersion));

const BAD_LENGTH: Result<(), ServeFault> = Err(ServeFault::Framing(FramingFault::BadLength));

const ENDS_INSIDE: Result<(), ServeFault> = Err(ServeFault::Framing(FramingFault::CutOff));

/// Streams with the most octets of a read, how many reads come before one that fails, and how many are allowed; how each ends,
/// and how many messages, records and gaps it brought by then. The stream of 116 octets takes 17 reads of 7 octets, and one more
/// for its end; its messages end at 50, 100 and 116 octets, and the last one has no record, and a Sequence Number that isn't due.
const ROWS: &[(
    &[u8],
    usize,
    usize,
    u64,
    Result<(), ServeFault>,
    (u64, u64, u64),
)] = &[
    (STREAM, 1, ENOUGH, 1000, Ok(()), (3, 2, 1)),
    (STREAM, 65_536, ENOUGH, 1000, Ok(()), (3, 2, 1)),
    (STREAM, 7, ENOUGH, 18, Ok(()), (3, 2, 1)),
    (STREAM, 7, ENOUGH, 17, Err(ServeFault::Turns), (3, 2, 1)),
    (STREAM, 7, ENOUGH, 8, Err(ServeFault::Turns), (1, 1, 0)),
    (STREAM, 7, ENOUGH, 0, Err(ServeFault::Turns), (0, 0, 0)),
    (STREAM, 7, 0, 1000, Err(ServeFault::Read), (0, 0, 0)),
    (STREAM, 7, 15, 1000, Err(ServeFault::Read), (2, 2, 0)),
    (TWO_RECORDS, 60, 1, 1000, Err(ServeFault::Read), (1, 2, 0)),
    // A message of 50 octets takes eight reads of 7 octets, and one more meets the end. Whichever of them fails, the message is
    // offered only where eight came before.
    (ONE_RECORD, 7, ENOUGH, 9, Ok(()), (1, 1, 0)),
    (ONE_RECORD, 7, ENOUGH, 8, Err(ServeFault::Turns), (1, 1, 0)),
    (ONE_RECORD, 7, ENOUGH, 7, Err(ServeFault::Turns), (0, 0, 0)),
    (ONE_RECORD, 7, 0, 1000, Err(ServeFault::Read), (0, 0, 0)),
    (ONE_RECORD, 7, 1, 1000, Err(ServeFault::Read), (0, 0, 0)),
    (ONE_RECORD, 7, 2, 1000, Err(ServeFault::Read), (0, 0, 0)),
    (ONE_RECORD, 7, 3, 1000, Err(ServeFault::Read), (0, 0, 0)),
    (ONE_RECORD, 7, 4, 1000, Err(ServeFault::Read), (0, 0, 0)),
    (ONE_RECORD, 7, 5, 1000, Err(ServeFault::Read), (0, 0, 0)),
    (ONE_RECORD, 7, 6, 1000, Err(ServeFault::Read), (0, 0, 0)),
    (ONE_RECORD, 7, 7, 1000, Err(ServeFault::Read), (0, 0, 0)),
    (ONE_RECORD, 7, 8, 1000, Err(ServeFault::Read), (1, 1, 0)),
    // A reader that gives a message without records with each read, and has more than it is asked for: no end is seen of it.
    (
        EIGHT_EMPTY,
        16,
        ENOUGH,
        7,
        Err(ServeFault::Turns),
        (7, 0, 0),
    ),
    (VERSION_9, 7, ENOUGH, 1000, BAD_VERSION, (1, 1, 0)),
    (LENGTH_15, 1, ENOUGH, 1000, BAD_LENGTH, (1, 1, 0)),
    (CUT_OFF, 7, ENOUGH, 1000, ENDS_INSIDE, (1, 1, 0)),
];

/// Serves a stream: the answer is the one that is due, the server was told of each message that was accepted, and the session is
/// closed, or can't be.
pub(crate) fn serve<E: EntryLedger, H: RecordLedger, R: Threads + Wait + Abort + Sync>(
    rt: &R,
    alloc: Global,
    shared: &SharedMediator<E, H>,
    row: Row,
) -> Result<ReturnedHandles<E, H>, AllocError> {
    let (admin, other) = begin(rt, alloc, shared, row.policy, &[])?;
    let mut exporter = shared.exporter(rt).expect(rt, "an exporter");
    if row.was_closed {
        exporter.end(rt, shared).expect(rt, "an end");
    }
    let (turns, workers) = (row.turns, row.workers);
    let told = Told::nothing(alloc, row.stream);
    let served = thread::scope(thread::scope_env(), rt, |scope| {
        let mut reader = Device::new(Sparing::new(
            row.stream,
            row.most,
            row.reads,
            ConnectionReset,
        ));
        serve_exporter(
            rt,
            alloc,
            shared,
            &mut exporter,
            &mut reader,
            turns,
            workers,
            &told,
            scope,
        )
    });
    let due = match row.due {
        Ok(()) => Ok(row.brought),
        Err(fault) => Err((fault, row.brought)),
    };
    assert!(rt; served == due, "{served:?}");
    assert!(rt; told.messages() == Some(row.brought.messages));
    let ended = exporter.end(rt, shared);
    assert!(rt; ended == Err(Fault::UnknownSession) || ended == Err(Fault::JournalFull));
    let mut all = returned_handles(alloc, exporter, admin, None)?;
    all.exporters.push(other)?;
    Ok(all)
}

/// Plays a row by each number of workers: the messages are offered, and then the session is closed.
fn expect_row(
    rt: &(impl Threads + Wait + Abort + Sync),
    alloc: Global,
    mut row: Row,
    bounds: Bounds,
) -> Result<(), AllocError> {
    for workers in &WORKERS {
        row.workers = *workers;
        let closed = play(rt, alloc, limits_of(bounds), Case::Serve(row))?;
        let due = row.due;
        assert!(rt;
            is_closed(&closed, row.brought.messages, bounds.0),
            "{due:?}"
        );
    }
    Ok(())
}

#[test]
fn streams(rt: HostRuntime) -> Result<(), Fail> {
    for (stream, most, reads, turns, due, counts) in ROWS {
        let row = Row {
            policy: PASS,
            was_closed: false,
            stream: *stream,
            most: *most,
            reads: *reads,
            turns: *turns,
            workers: 0,
            due: *due,
            brought: brought(*counts),
        };
        expect_row(&rt, rt.alloc(), row, ROOMY)?;
    }
    Ok(())
}

const BAD_SET: Fault = Fault::Malformed(ReadError::Malformed(DecodeError::BadSetLength));

const OVERRUN: Fault = Fault::Malformed(ReadError::Malformed(DecodeError::TemplateOverrun));

const FULL_AUDIT: Fault = Fault::AuditFull { need: 2, room: 1 };

/// Streams, the policy, the bounds, and whether the session was closed before; the fault of the first message that is refused, and
/// how many were offered before it. A message that is none is refused for that, also where the journal is full.
const REFUSED: &[(&[u8], &str, Bounds, bool, Fault, u64)] = &[
    (SET_OF_3, PASS, ROOMY, false, BAD_SET, 1),
    (SET_OF_3, PASS, (5, 100, 100), false, BAD_SET, 1),
    (LONG_TEMPLATE, PASS, ROOMY, false, OVERRUN, 0),
    (STREAM, PASS, (6, 100, 100), false, Fault::JournalFull, 2),
    (TWO_RECORDS, NOTHING, (1000, 1, 100), false, FULL_AUDIT, 0),
    (STREAM, PASS, ROOMY, true, Fault::UnknownSession, 0),
];

/// Each is read at once, and octet by octet.
#[test]
fn refusals(rt: HostRuntime) -> Result<(), Fail> {
    for (stream, policy, bounds, was_closed, fault, messages) in REFUSED {
        let mut row = Row {
            policy: *policy,
            was_closed: *was_closed,
            stream: *stream,
            most: 65_536,
            reads: ENOUGH,
            turns: 1000,
            workers: 0,
            due: Err(ServeFault::Mediator(*fault)),
            // Each message before it has one record.
            brought: brought((*messages, *messages, 0)),
        };
        expect_row(&rt, rt.alloc(), row, *bounds)?;
        row.most = 1;
        expect_row(&rt, rt.alloc(), row, *bounds)?;
    }
    Ok(())
}

/// Whether `messages` messages were accepted, and nothing came behind them but the session's end. Where the journal is
/// full by then, with `most` entries, the session's end doesn't come either.
fn is_closed(closed: &Closed, messages: u64, most: u64) -> bool {
    let journal = closed.mediator.journal();
    let place = BEFORE.saturating_add(messages);
    if place == most {
        return closed.accepted == messages && journal.len() == most;
    }
    let is_closed = matches!(journal.get(place), Some(Entry::Close { session: 2 }));
    is_closed && closed.accepted == messages && journal.len() == place.saturating_add(1)
}
