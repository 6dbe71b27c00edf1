//! Administrators' connections: the worked session of the format, single commands and lines, ends inside a command, readers and
//! writers that do little at a time, or fail, limits that are reached, several subscriptions, and an audit of many entries.
use crate::octets::{FLOW_TO_80, FLOW_TO_443, NOW, ONE_RECORD, TWO_RECORDS};
use crate::returned_handles::{
    Bounds, ENOUGH, NOTHING, PASS, ROOMY, SMALL, begin, limits_of, offer_all, returned_handles,
};
use crate::server::Told;
use crate::stage::{Case, ReturnedHandles, play};
use ipfix_reader::FramingFault;
use mediator_connections::{Fault as ServeFault, serve_admin};
use mediator_core::SubId;
use octet_io::Device;
use shared_mediator::{
    AdminHandle, DeliveryHandle, EntryLedger, ExporterHandle, RecordLedger, SharedMediator,
};
use std::alloc::{AllocError, Global};
use std::fmt::Write;
use std::io::ErrorKind::{BrokenPipe, ConnectionReset};
use std::process::Abort;
use std::sync::Wait;
use std::test::Fail;
use std::thread::Threads;
use test_io::{Narrow, Sparing};

/// Room for all answers of a connection here.
const ROOM: usize = 32_768;

/// How many entries come before the messages: an edit, a subscription's begin, and a session's.
const BEFORE: u64 = 3;

/// What came before a connection; its octets, how they are read and the answers written; and what is due.
#[derive(Clone, Copy)]
pub(crate) struct Row {
    bounds: Bounds,
    policy: &'static str,
    offered: &'static [&'static [u8]],
    /// Whether `beta` is there too.
    with_beta: bool,
    asked: &'static [u8],
    /// The most octets of one read.
    most: usize,
    /// How many reads come before one that fails.
    reads: usize,
    turns: u64,
    /// The most octets that a write takes.
    takes: usize,
    /// How many writes come before one that fails.
    writes: usize,
    due: Result<u64, ServeFault>,
    answered: &'static [u8],
    /// How many audit entries are handed out behind that, each time.
    drains: &'static [u64],
    /// The most octets of all that are written.
    front: usize,
    /// How many entries the calls add to the journal.
    entries: u64,
    /// How often the server is told to stop.
    stops: u64,
}

/// The worked session, behind one record that waits: each line is a command, and each line of the answers answers one.
const SESSION: Row = Row {
    bounds: ROOMY,
    policy: PASS,
    offered: &[ONE_RECORD],
    with_beta: false,
    asked: b"status 1\nsubscribe Acme\nsubscribe acme\nadvance 1000\nadvance 5\naudit 10\nunsubscribe 1\nstatus 1\n",
    most: 1,
    reads: ENOUGH,
    turns: 1000,
    takes: 1,
    writes: ENOUGH,
    due: Ok(8),
    answered: b"ok 1 0 live\nerr BadName\nerr AlreadySubscribed 1\nok\nerr ClockBack 1000\nok 0\nok\nerr UnknownSub\n",
    drains: &[],
    front: ENOUGH,
    entries: 2,
    stops: 0,
};

/// Serves a connection: the answer is the one that is due, and so are the octets that are written, and what the server is told.
pub(crate) fn administer<E: EntryLedger, H: RecordLedger, R: Wait + Abort>(
    rt: &R,
    alloc: Global,
    shared: &SharedMediator<E, H>,
    row: Row,
) -> Result<ReturnedHandles<E, H>, AllocError> {
    let (mut admin, mut exporter) = begin(rt, alloc, shared, row.policy, row.offered)?;
    let delivery = if row.with_beta {
        Some(begin_beta(rt, alloc, shared, &mut admin, &mut exporter)?)
    } else {
        None
    };
    let mut reader = Device::new(Sparing::new(row.asked, row.most, row.reads, ConnectionReset));
    let mut writer = Device::new(Narrow::new(alloc, ROOM, row.takes, row.writes, BrokenPipe)?);
    let told = Told::nothing(alloc, &[]);
    let before = admin.kept().len();
    let served = serve_admin(
        rt,
        alloc,
        shared,
        &mut admin,
        &mut reader,
        &mut writer,
        row.turns,
        &told,
    );
    assert!(rt; served == row.due, "{served:?}");
    assert!(rt; told.stops() == row.stops);
    let kept = admin.kept().len().saturating_sub(before);
    assert!(rt; told.accepted() == kept as u64);
    let written = writer.into_inner().octets;
    let answered = answered(alloc, row)?;
    assert!(rt; written.as_slice() == answered.as_slice(), "{written:?}");
    returned_handles(alloc, exporter, admin, delivery)
}

/// Behind four records that wait for `acme`: three of them are handed out, behind their template. Then `beta` is subscribed too,
/// and six records more come.
fn begin_beta<E: EntryLedger, H: RecordLedger, R: Wait + Abort>(
    rt: &R,
    alloc: Global,
    shared: &SharedMediator<E, H>,
    admin: &mut AdminHandle<E>,
    exporter: &mut ExporterHandle<E>,
) -> Result<DeliveryHandle<H>, AllocError> {
    let mut acme = shared.delivery(rt, SubId(1)).expect(rt, "a delivery");
    let pulled = acme.pull_some(rt, shared, NOW, SMALL, 4);
    assert!(rt; matches!(pulled, Ok(messages) if messages.len() == 4));
    let sub = admin.subscribe(rt, shared, "beta");
    assert!(rt; sub == Ok(SubId(2)));
    offer_all(rt, alloc, shared, exporter, &[TWO_RECORDS; 3])?;
    Ok(acme)
}

/// What is to be answered. Each audit entry is there once, oldest first: every message has two records, the first one has
/// position 3, and all of them are withheld.
fn answered(alloc: Global, row: Row) -> Result<Vec<u8>, AllocError> {
    let mut text = String::new(alloc);
    let mut entry = 6u64;
    for count in row.drains {
        writeln!(text, "ok {count}")?;
        for _ in 0..*count {
            let (position, index) = (entry / 2, entry % 2);
            writeln!(text, "{position} {index} 1 withheld 0 rule")?;
            entry = entry.saturating_add(1);
        }
    }
    let mut octets = Vec::from_slice(alloc, row.answered)?;
    octets.extend_from_slice(text.as_bytes())?;
    octets.truncate(row.front);
    Ok(octets)
}

/// Plays a row, and that the journal has as many entries more.
fn expect_row(
    rt: &(impl Threads + Wait + Abort + Sync),
    alloc: Global,
    row: Row,
) -> Result<(), AllocError> {
    let closed = play(rt, alloc, limits_of(row.bounds), Case::Administer(row))?;
    let before = BEFORE.saturating_add(row.offered.len() as u64);
    let entries = closed.mediator.journal().len();
    assert!(rt; entries == before.saturating_add(row.entries), "{entries}");
    Ok(())
}

/// The octets of a read, how many reads come before one that fails, and how many are allowed; the octets that a write takes, and
/// how many writes come before one that fails; what the session ends in then, how many octets of its answers are written, and how
/// many entries it adds.
type Devices = (
    usize,
    usize,
    u64,
    usize,
    usize,
    Result<u64, ServeFault>,
    usize,
    u64,
);

const READ: Result<u64, ServeFault> = Err(ServeFault::Read);

const TURNS: Result<u64, ServeFault> = Err(ServeFault::Turns);

const NO_WRITE: Result<u64, ServeFault> = Err(ServeFault::Write { sent: 0 });

/// Octet by octet the session takes 94 reads, and one more for its end. What was read by then is answered, up to a line's end.
const DEVICES: &[Devices] = &[
    (65_536, ENOUGH, 1000, 1, ENOUGH, Ok(8), 93, 2),
    (65_536, ENOUGH, 1000, 65_536, 8, Ok(8), 93, 2),
    (65_536, 1, 1000, 1, ENOUGH, READ, 93, 2),
    (7, ENOUGH, 1000, 7, ENOUGH, Ok(8), 93, 2),
    (7, 13, 1000, 1, ENOUGH, READ, 78, 2),
    (40, 1, 1000, 1, ENOUGH, READ, 48, 0),
    (1, 95, 95, 1, 93, Ok(8), 93, 2),
    (1, 94, 1000, 1, ENOUGH, READ, 93, 2),
    (1, ENOUGH, 94, 1, ENOUGH, TURNS, 93, 2),
    (1, ENOUGH, 0, 1, ENOUGH, TURNS, 0, 0),
    // A write that takes nothing is one that fails.
    (1, ENOUGH, 1000, 0, ENOUGH, NO_WRITE, 0, 0),
];

/// Where a line of the session begins and ends, and where its answer does; and how many entries the session has added before the
/// line, and behind it.
type Line = (usize, usize, usize, usize, u64, u64);

const LINES: &[Line] = &[
    (0, 9, 0, 12, 0, 0),
    (9, 24, 12, 24, 0, 0),
    (24, 39, 24, 48, 0, 0),
    (39, 52, 48, 51, 0, 1),
    (52, 62, 51, 70, 1, 1),
    (62, 71, 70, 75, 1, 1),
    (71, 85, 75, 78, 1, 2),
    (85, 94, 78, 93, 2, 2),
];

/// Plays the worked session by these devices.
fn expect_session(
    rt: &(impl Threads + Wait + Abort + Sync),
    alloc: Global,
    (most, reads, turns, takes, writes, due, answered, entries): Devices,
) -> Result<(), AllocError> {
    let mut row = SESSION;
    row.most = most;
    row.reads = reads;
    row.turns = turns;
    row.takes = takes;
    row.writes = writes;
    row.due = due;
    row.answered = SESSION.answered.get(..answered).unwrap_or(&[]);
    row.entries = entries;
    expect_row(rt, alloc, row)
}

/// What is answered where the writer failed behind `sent` octets.
fn stopped(sent: usize) -> Result<u64, ServeFault> {
    Err(ServeFault::Write { sent: sent as u64 })
}

/// Each read of a line fails: nothing is done of it. Each write of its answer fails, by one octet and by all: its call was made,
/// and nothing is done behind it.
fn expect_line(
    rt: &(impl Threads + Wait + Abort + Sync),
    alloc: Global,
    place: usize,
    (begin, end, first, last, before, behind): Line,
) -> Result<(), AllocError> {
    for reads in begin..end {
        let failing = (1, reads, 1000, 1, ENOUGH, READ, first, before);
        expect_session(rt, alloc, failing)?;
    }
    for sent in first..last {
        let failing = (1, ENOUGH, 1000, 1, sent, stopped(sent), sent, behind);
        expect_session(rt, alloc, failing)?;
    }
    let failing = (
        1,
        ENOUGH,
        1000,
        65_536,
        place,
        stopped(first),
        first,
        behind,
    );
    expect_session(rt, alloc, failing)
}

#[test]
fn worked_session(rt: HostRuntime) -> Result<(), Fail> {
    for devices in DEVICES {
        expect_session(&rt, rt.alloc(), *devices)?;
    }
    for (place, line) in LINES.iter().enumerate() {
        expect_line(&rt, rt.alloc(), place, *line)?;
    }
    Ok(())
}

const CUT_OFF: Result<u64, ServeFault> = Err(ServeFault::Framing(FramingFault::CutOff));

/// Connections with what they end in and what is answered to them, and how many entries they add.
const CONNECTIONS: &[(&[u8], Result<u64, ServeFault>, &[u8], u64)] = &[
    (b"", Ok(0), b"", 0),
    // Edits. What is behind their octets is a line again.
    (
        b"edit 5\nhellostatus 1\n",
        Ok(2),
        b"err Policy 1 NoHeader\nok 1 0 live\n",
        0,
    ),
    (b"edit 8\npolicy 1", Ok(1), b"ok 2\n", 1),
    (
        b"edit 2\n\xff\xfestatus 1\n",
        Ok(2),
        b"err Text\nok 1 0 live\n",
        0,
    ),
    (b"status 1\nedit 5\nhel", CUT_OFF, b"ok 1 0 live\n", 0),
    // Lines that are no commands end it, whatever comes behind.
    (
        b"status 1\naudit 0\nstatus 1\n",
        Ok(1),
        b"ok 1 0 live\nerr Line\n",
        0,
    ),
    (b"status 1\r\n", Ok(0), b"err Line\n", 0),
    // Any word may be tried as a name.
    (b"subscribe \xff\n", Ok(1), b"err BadName\n", 0),
    (
        b"unsubscribe 1\nsubscribe acme\nstatus 2\nunsubscribe 9\n",
        Ok(4),
        b"ok\nok 2\nok 0 0 live\nerr UnknownSub\n",
        2,
    ),
    // Pages are told behind what was accepted before, with as many lines as they have.
    (
        b"run\nadvance 5\nrun\npolicy\nhelp\nstatus\nstatus 1\n",
        Ok(7),
        b"ok 1\nrun\nok\nok 1\nrun behind a call\nok 2\npolicy 1\n\nok 0\nerr OutOfMemory\nok 1 0 live\n",
        1,
    ),
    (b"run\nhelp \nrun\n", Ok(1), b"ok 1\nrun\nerr Line\n", 0),
    (b"policy 1\n", Ok(0), b"err Line\n", 0),
];

/// Connections with a `stop`, or nearly one; how many writes come before one that fails; what they end in, what is answered, and
/// how often the server is told to stop. Nothing behind a `stop` is read.
const STOPS: &[(&[u8], usize, Result<u64, ServeFault>, &[u8], u64)] = &[
    (b"stop\n", ENOUGH, Ok(1), b"ok\n", 1),
    (
        b"status 1\nstop\nunsubscribe 1\nstop\n",
        ENOUGH,
        Ok(2),
        b"ok 1 0 live\nok\n",
        1,
    ),
    (b"stop\nedit 5\nhel", ENOUGH, Ok(1), b"ok\n", 1),
    // Whoever can't be answered has been heard.
    (b"stop\n", 2, Err(ServeFault::Write { sent: 2 }), b"ok", 1),
    (b"stop", ENOUGH, CUT_OFF, b"", 0),
    (b"stop 1\n", ENOUGH, Ok(0), b"err Line\n", 0),
    (b"stop \n", ENOUGH, Ok(0), b"err Line\n", 0),
    (b" stop\n", ENOUGH, Ok(0), b"err Line\n", 0),
    (b"stops\n", ENOUGH, Ok(0), b"err Line\n", 0),
];

#[test]
fn stops(rt: HostRuntime) -> Result<(), Fail> {
    for (asked, writes, due, answered, stops) in STOPS {
        let mut row = SESSION;
        row.asked = *asked;
        row.writes = *writes;
        row.due = *due;
        row.answered = *answered;
        row.entries = 0;
        row.stops = *stops;
        expect_row(&rt, rt.alloc(), row)?;
    }
    Ok(())
}

#[test]
fn connections(rt: HostRuntime) -> Result<(), Fail> {
    for (asked, due, answered, entries) in CONNECTIONS {
        let mut row = SESSION;
        row.asked = *asked;
        row.due = *due;
        row.answered = *answered;
        row.entries = *entries;
        expect_row(&rt, rt.alloc(), row)?;
    }
    Ok(())
}

/// Acme's flows are added up by the port that they go to, in intervals of five minutes.
const ADDED: &str =
    "policy 1\naggregate web key destinationTransportPort interval 300 grace 60\nrule for acme in * from * to * aggregate web\n";

/// Flows to two ports.
const FLOWS: &[&[u8]] = &[FLOW_TO_80, FLOW_TO_443];

/// Where the journal is full, each call that needs an entry is refused, and no other.
#[test]
fn full_journal(rt: HostRuntime) -> Result<(), Fail> {
    let mut row = SESSION;
    row.bounds = (4, 100, 100);
    row.asked =
        b"edit 8\npolicy 1subscribe beta\nunsubscribe 1\nadvance 5\nstatus 1\naudit 10000\n";
    row.due = Ok(6);
    row.answered =
        b"err JournalFull\nerr JournalFull\nerr JournalFull\nerr JournalFull\nok 1 0 live\nok 0\n";
    row.entries = 0;
    expect_row(&rt, rt.alloc(), row)?;
    Ok(())
}

/// Two groups close for a queue of one record: that cuts the subscription, which the audit has no room to note until it is
/// drained, one entry after another.
#[test]
fn full_audit(rt: HostRuntime) -> Result<(), Fail> {
    let mut row = SESSION;
    row.bounds = (1000, 2, 1);
    row.policy = ADDED;
    row.offered = FLOWS;
    row.asked = b"advance 1700000460000\naudit 1\nadvance 1700000460000\naudit 10\nstatus 1\n";
    row.due = Ok(5);
    row.answered =
        b"err AuditFull 1 0\nok 1\n3 0 1 aggregated 1\nok\nok 2\n4 0 1 aggregated 1\n5 0 1 cut\nok 0 0 cut\n";
    row.entries = 2;
    expect_row(&rt, rt.alloc(), row)?;
    Ok(())
}

/// Each answer is of the subscription that is asked for, and has its number. An edit is told how many there were, and not how many
/// commands. Where six records may wait, `acme` has no room for the last two: the cut stands behind five messages.
#[test]
fn several_subscriptions(rt: HostRuntime) -> Result<(), Fail> {
    let mut row = SESSION;
    row.bounds = (1000, 100, 6);
    row.offered = &[TWO_RECORDS, TWO_RECORDS];
    row.with_beta = true;
    row.asked =
        b"status 1\nstatus 2\nsubscribe beta\nsubscribe cyd\nstatus 3\naudit 10\nedit 8\npolicy 1edit 8\npolicy 1\
unsubscribe 2\nstatus 2\nstatus 1\nsubscribe beta\nstatus 4\n";
    row.due = Ok(13);
    row.answered =
        b"ok 5 3 cut\nok 6 0 live\nerr AlreadySubscribed 2\nok 3\nok 0 0 live\nok 1\n8 0 1 cut\nok 2\nok 3\n\
ok\nerr UnknownSub\nok 5 3 cut\nok 4\nok 0 0 live\n";
    row.entries = 10;
    expect_row(&rt, rt.alloc(), row)?;
    Ok(())
}

/// The octets that a write takes, and how many writes come before one that fails; what a connection ends in then, and how many
/// octets are written.
type Writes = (usize, usize, Result<u64, ServeFault>, usize);

/// The answers have 19,005 octets: 682, and then 18,323, which are more than wait at once. Octet by octet the writer fails in the
/// first one, behind it, and in the other before the octets that wait of it at first have ended, behind them, and at the last
/// octet.
const WRITES: &[Writes] = &[
    (65_536, ENOUGH, Ok(2), 65_536),
    (1000, ENOUGH, Ok(2), 65_536),
    (1, 19_005, Ok(2), 65_536),
    (1, 5, Err(ServeFault::Write { sent: 5 }), 5),
    (1, 682, Err(ServeFault::Write { sent: 682 }), 682),
    (1, 16_900, Err(ServeFault::Write { sent: 16_900 }), 16_900),
    (1, 17_100, Err(ServeFault::Write { sent: 17_100 }), 17_100),
    (1, 19_004, Err(ServeFault::Write { sent: 19_004 }), 19_004),
];

/// Of eight hundred audit entries each line has as many as it asks for, and the last one those that are left.
#[test]
fn long_audit(rt: HostRuntime) -> Result<(), Fail> {
    let mut row = SESSION;
    row.bounds = (1000, 800, 100);
    row.policy = NOTHING;
    row.offered = &[TWO_RECORDS; 400];
    row.asked = b"audit 30\naudit 1000\n";
    row.answered = b"";
    row.drains = &[30, 770];
    row.entries = 0;
    for (takes, writes, due, front) in WRITES {
        row.takes = *takes;
        row.writes = *writes;
        row.due = *due;
        row.front = *front;
        expect_row(&rt, rt.alloc(), row)?;
    }
    Ok(())
}
