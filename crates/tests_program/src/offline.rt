//! Streams that are filtered with a bound on reads, and on devices of which each call fails; and the names of faults. A run that is
//! refused memory has written a front of what is due.
use ipfix_reader::FramingFault;
use ipfix_session::Fault as SessionFault;
use mediator_offline::{Device, Fault as OfflineFault, OfflineJob, OfflineReport, offline};
use mediator_state::Fault;
use policy_text::{Fault as PolicyFault, FaultKind};
use std::alloc::{AllocError, Global};
use std::fmt::Display;
use std::io::ErrorKind::{BrokenPipe, ConnectionReset};
use std::process::Abort;
use std::test::Fail;
use test_io::{Narrow, Sparing};

/// A template of ports, protocol and octets, and one record of it: a message of 50 octets.
pub(crate) const ONE_RECORD: &[u8] =
    b"\x00\x0a\x00\x32\x65\x53\xf1\x00\x00\x00\x00\x00\x00\x00\x00\x07\
\x00\x02\x00\x14\x01\x00\x00\x03\x00\x08\x00\x04\x00\x07\x00\x02\x00\x01\x00\x04\
\x01\x00\x00\x0e\xc0\x00\x02\x4d\x01\xbb\x00\x00\x05\xdc";

/// The record without its octet count: a template of two fields, and 6 octets; another Export Time, and domain 0.
const WITHOUT_OCTETS: &[u8] = b"\x00\x0a\x00\x2a\x65\x53\xf1\x3c\x00\x00\x00\x00\x00\x00\x00\x00\
\x00\x02\x00\x10\x01\x00\x00\x02\x00\x08\x00\x04\x00\x07\x00\x02\
\x01\x00\x00\x0a\xc0\x00\x02\x4d\x01\xbb";

pub(crate) const REMOVE: &str =
    "policy 1\nrule for * in * from * to * pass\nrule for * in * from * to * element octetDeltaCount remove\nrule for * in * from * to * element * keep\n";

/// What a run answered and left.
#[derive(Drop)]
struct Ran {
    answer: Result<OfflineReport, OfflineFault>,
    written: Vec<u8>,
    audit: Vec<u8>,
}

fn job(turns: u64, asked: bool) -> OfflineJob<'static> {
    OfflineJob {
        policy: REMOVE,
        name: "acme",
        now: 0x6553_f13c,
        target: 1400,
        turns,
        audit: asked,
    }
}

fn run(alloc: Global, turns: u64, asked: bool) -> Ran {
    let job = job(turns, asked);
    let mut reader = Device::new(ONE_RECORD);
    let mut writer = Device::new(Vec::new(alloc));
    let mut audit = Device::new(Vec::new(alloc));
    let answer = offline(alloc, &job, &mut reader, &mut writer, &mut audit);
    Ran {
        answer,
        written: writer.into_inner(),
        audit: audit.into_inner(),
    }
}

/// Whether a run was refused memory.
fn was_refused(ran: &Ran) -> bool {
    matches!(
        ran.answer,
        Err(
            OfflineFault::Mediator(Fault::OutOfMemory)
                | OfflineFault::Write { .. }
                | OfflineFault::AuditWrite
        )
    )
}

/// How many reads are allowed, whether the audit is asked for, and what is answered. A read that finds the end counts too.
#[derive(Drop)]
struct Case {
    turns: u64,
    asked: bool,
    answer: Result<OfflineReport, OfflineFault>,
}

fn reading_case(turns: u64, asked: bool, answer: Result<OfflineReport, OfflineFault>) -> Case {
    Case {
        turns,
        asked,
        answer,
    }
}

/// Whether a run answers and leaves what it must.
fn is_left(case: &Case, ran: &Ran) -> bool {
    let audit: &[u8] = if case.asked {
        b"3 0 1 removed 2:2\n"
    } else {
        b""
    };
    ran.answer == case.answer
        && ran.written.as_slice() == WITHOUT_OCTETS
        && ran.audit.as_slice() == audit
}

/// Whether the case runs so; where a run is refused memory, what it wrote is a front of that, and it is made again.
fn runs_so(alloc: Global, case: &Case) -> bool {
    let ran = run(alloc, case.turns, case.asked);
    if was_refused(&ran) {
        return WITHOUT_OCTETS.starts_with(ran.written.as_slice())
            && is_left(case, &run(alloc, case.turns, case.asked));
    }
    is_left(case, &ran)
}

const DONE: OfflineReport = OfflineReport {
    messages: 1,
    records: 1,
    disclosed: 1,
};

/// Whether a run by one read is cut, and one by two is done, with an audit or without.
fn counts_reads(alloc: Global, asked: bool) -> bool {
    runs_so(alloc, &reading_case(1, asked, Err(OfflineFault::Turns)))
        && runs_so(alloc, &reading_case(2, asked, Ok(DONE)))
}

#[test]
fn reads_are_counted(rt: HostRuntime) {
    assert!(rt; counts_reads(rt.alloc(), true), "with an audit");
    assert!(rt; counts_reads(rt.alloc(), false), "without one");
}

/// The message of one record, and the next one without its template: 50 and 30 octets.
const TWO_MESSAGES: &[u8] = b"\x00\x0a\x00\x32\x65\x53\xf1\x00\x00\x00\x00\x00\x00\x00\x00\x07\
\x00\x02\x00\x14\x01\x00\x00\x03\x00\x08\x00\x04\x00\x07\x00\x02\x00\x01\x00\x04\
\x01\x00\x00\x0e\xc0\x00\x02\x4d\x01\xbb\x00\x00\x05\xdc\
\x00\x0a\x00\x1e\x65\x53\xf1\x00\x00\x00\x00\x01\x00\x00\x00\x07\
\x01\x00\x00\x0e\xc0\x00\x02\x4d\x01\xbb\x00\x00\x05\xdc";

/// What is written of both: 42 and 26 octets.
const BOTH_WITHOUT_OCTETS: &[u8] =
    b"\x00\x0a\x00\x2a\x65\x53\xf1\x3c\x00\x00\x00\x00\x00\x00\x00\x00\
\x00\x02\x00\x10\x01\x00\x00\x02\x00\x08\x00\x04\x00\x07\x00\x02\
\x01\x00\x00\x0a\xc0\x00\x02\x4d\x01\xbb\
\x00\x0a\x00\x1a\x65\x53\xf1\x3c\x00\x00\x00\x01\x00\x00\x00\x00\
\x01\x00\x00\x0a\xc0\x00\x02\x4d\x01\xbb";

/// What the audit says of both: 18 octets each.
const BOTH_LINES: &[u8] = b"3 0 1 removed 2:2\n4 0 1 removed 2:2\n";

/// How many reads of seven octets come before one that fails; how much a write takes, and how many come before one that fails;
/// and the same of the audit's writes.
type Devices = (usize, (usize, usize), (usize, usize));

/// More than any run makes or writes here.
const ENOUGH: usize = 100;

/// By one octet a write, with no write that fails.
const SOUND: (usize, usize) = (1, ENOUGH);

fn run_by(
    alloc: Global,
    (reads, (takes, writes), (notes, lines)): Devices,
) -> Result<Ran, AllocError> {
    let mut reader = Device::new(Sparing::new(TWO_MESSAGES, 7, reads, ConnectionReset));
    let mut writer = Device::new(Narrow::new(alloc, ENOUGH, takes, writes, BrokenPipe)?);
    let mut audit = Device::new(Narrow::new(alloc, ENOUGH, notes, lines, BrokenPipe)?);
    let answer = offline(
        alloc,
        &job(1000, true),
        &mut reader,
        &mut writer,
        &mut audit,
    );
    Ok(Ran {
        answer,
        written: writer.into_inner().octets,
        audit: audit.into_inner().octets,
    })
}

/// That a run answers `due`, and leaves the first `written` octets of the messages, and the first `audited` octets of
/// the audit. Where it is refused memory, it leaves fronts of them, and is made again.
fn expect_run(
    rt: &impl Abort,
    alloc: Global,
    devices: Devices,
    due: Result<OfflineReport, OfflineFault>,
    written: usize,
    audited: usize,
) -> Result<(), AllocError> {
    let mut ran = run_by(alloc, devices)?;
    if ran.answer == Err(OfflineFault::Mediator(Fault::OutOfMemory)) {
        assert!(rt; BOTH_WITHOUT_OCTETS.starts_with(ran.written.as_slice()));
        assert!(rt; BOTH_LINES.starts_with(ran.audit.as_slice()));
        ran = run_by(alloc, devices)?;
    }
    let answer = ran.answer;
    assert!(rt; answer == due, "{answer:?}");
    assert!(rt; Some(ran.written.as_slice()) == BOTH_WITHOUT_OCTETS.get(..written));
    assert!(rt; Some(ran.audit.as_slice()) == BOTH_LINES.get(..audited));
    Ok(())
}

/// Of each message: the first read with which it isn't whole, and the first one behind it; and where what is written of it begins
/// and ends, and what the audit says of it. The thirteenth read meets the end.
const MESSAGES: &[(usize, usize, usize, usize, usize, usize)] = &[
    (0, 8, 0, 42, 0, 18),
    (8, 12, 42, 68, 18, 36),
];

/// Each read of a message fails, and each write of it and of the audit, by one octet and by all.
fn expect_message(
    rt: &impl Abort,
    alloc: Global,
    place: usize,
    (first, last, begin, end, above, below): (usize, usize, usize, usize, usize, usize),
) -> Result<(), AllocError> {
    for reads in first..last {
        let due = Err(OfflineFault::Read);
        expect_run(rt, alloc, (reads, SOUND, SOUND), due, begin, above)?;
    }
    for sent in begin..end {
        let due = Err(OfflineFault::Write { sent: sent as u64 });
        expect_run(rt, alloc, (ENOUGH, (1, sent), SOUND), due, sent, above)?;
    }
    for lines in above..below {
        let due = Err(OfflineFault::AuditWrite);
        expect_run(rt, alloc, (ENOUGH, SOUND, (1, lines)), due, end, lines)?;
    }
    let due = Err(OfflineFault::Write { sent: begin as u64 });
    expect_run(
        rt,
        alloc,
        (ENOUGH, (ENOUGH, place), SOUND),
        due,
        begin,
        above,
    )?;
    let due = Err(OfflineFault::AuditWrite);
    expect_run(rt, alloc, (ENOUGH, SOUND, (ENOUGH, place)), due, end, above)
}

const BOTH_DONE: OfflineReport = OfflineReport {
    messages: 2,
    records: 2,
    disclosed: 2,
};

/// Devices with what a run by them answers, how much is written, and how much of the audit. A write that takes nothing is one that
/// fails.
const RUNS: &[(Devices, Result<OfflineReport, OfflineFault>, usize, usize)] = &[
    ((13, (1, 68), (1, 36)), Ok(BOTH_DONE), 68, 36),
    ((13, (ENOUGH, 2), (ENOUGH, 2)), Ok(BOTH_DONE), 68, 36),
    ((12, SOUND, SOUND), Err(OfflineFault::Read), 68, 36),
    (
        (13, (0, ENOUGH), SOUND),
        Err(OfflineFault::Write { sent: 0 }),
        0,
        0,
    ),
    (
        (13, SOUND, (0, ENOUGH)),
        Err(OfflineFault::AuditWrite),
        42,
        0,
    ),
];

#[test]
fn each_call_fails(rt: HostRuntime) -> Result<(), Fail> {
    for (devices, due, written, audited) in RUNS {
        expect_run(&rt, rt.alloc(), *devices, *due, *written, *audited)?;
    }
    for (place, message) in MESSAGES.iter().enumerate() {
        expect_message(&rt, rt.alloc(), place, *message)?;
    }
    Ok(())
}

/// What stands behind the two messages: the begin of one of another version; or one that is refused, since its record goes past its
/// set.
const FAULTY: &[u8] = b"\x00\x09\x00\x10";

const REFUSED: &[u8] = b"\x00\x0a\x00\x22\x65\x53\xf1\x00\x00\x00\x00\x02\x00\x00\x00\x07\
\x00\x02\x00\x0c\x01\x01\x00\x01\x00\x52\xff\xff\
\x01\x01\x00\x06\x05\x41";

/// A run without an audit that reads the two messages, and these octets behind them, at once.
fn run_at_once(
    alloc: Global,
    behind: &[u8],
    (takes, writes): (usize, usize),
) -> Result<Ran, AllocError> {
    let mut input = Vec::from_slice(alloc, TWO_MESSAGES)?;
    input.extend_from_slice(behind)?;
    let mut reader = Device::new(input.as_slice());
    let mut writer = Device::new(Narrow::new(alloc, ENOUGH, takes, writes, BrokenPipe)?);
    let mut audit = Device::new(Vec::new(alloc));
    let answer = offline(
        alloc,
        &job(1000, false),
        &mut reader,
        &mut writer,
        &mut audit,
    );
    Ok(Ran {
        answer,
        written: writer.into_inner().octets,
        audit: audit.into_inner(),
    })
}

/// That such a run answers `due`, and leaves `written` octets of what is due, and no audit. Where it is refused memory, it leaves a
/// front of them, and is made again.
fn expect_at_once(
    rt: &impl Abort,
    alloc: Global,
    behind: &[u8],
    writer: (usize, usize),
    due: Result<OfflineReport, OfflineFault>,
    written: usize,
) -> Result<(), AllocError> {
    let mut ran = run_at_once(alloc, behind, writer)?;
    if ran.answer == Err(OfflineFault::Mediator(Fault::OutOfMemory)) {
        assert!(rt; BOTH_WITHOUT_OCTETS.starts_with(ran.written.as_slice()));
        ran = run_at_once(alloc, behind, writer)?;
    }
    let answer = ran.answer;
    assert!(rt; answer == due, "{answer:?}");
    assert!(rt; Some(ran.written.as_slice()) == BOTH_WITHOUT_OCTETS.get(..written));
    assert!(rt; ran.audit.is_empty());
    Ok(())
}

/// What stands behind the two messages, and what such a run answers.
const ENDS: &[(&[u8], Result<OfflineReport, OfflineFault>)] = &[
    (b"", Ok(BOTH_DONE)),
    (FAULTY, Err(OfflineFault::Framing(FramingFault::BadVersion))),
    (
        REFUSED,
        Err(OfflineFault::Mediator(Fault::Malformed(SessionFault::RecordOverrun))),
    ),
];

/// What is due for both is written by one write, also before a fault; and where the writer fails inside it, that is said.
#[test]
fn one_read_is_one_write(rt: HostRuntime) -> Result<(), Fail> {
    let alloc = rt.alloc();
    for (behind, due) in ENDS {
        expect_at_once(&rt, alloc, behind, (ENOUGH, 1), *due, 68)?;
        for sent in 0..68 {
            let due = Err(OfflineFault::Write { sent: sent as u64 });
            expect_at_once(&rt, alloc, behind, (1, sent), due, sent)?;
        }
    }
    Ok(())
}

const NO_HEADER: PolicyFault = PolicyFault {
    line: 1,
    kind: FaultKind::NoHeader,
};

const NAMES: &[(OfflineFault, &str)] = &[
    (OfflineFault::Read, "Read"),
    (OfflineFault::Write { sent: 3 }, "Write"),
    (OfflineFault::Framing(FramingFault::CutOff), "Framing"),
    (OfflineFault::Turns, "Turns"),
    (OfflineFault::Mediator(Fault::BadName), "Mediator"),
    (OfflineFault::Cut, "Cut"),
    (OfflineFault::AuditWrite, "AuditWrite"),
];

/// Those that the program says are left out.
const NAMES_OF_THE_MEDIATOR: &[(Fault, &str)] = &[
    (Fault::Policy(NO_HEADER), "Policy"),
    (Fault::JournalFull, "JournalFull"),
    (Fault::AuditFull { need: 2, room: 1 }, "AuditFull"),
    (Fault::OutOfMemory, "OutOfMemory"),
];

/// That each fault has its name.
fn expect_names<F: Display>(
    rt: &impl Abort,
    alloc: Global,
    rows: &[(F, &str)],
) -> Result<(), Fail> {
    for (fault, name) in rows {
        let text = format!(in alloc; "{fault}")?;
        assert!(rt; text.as_str() == *name, "{name}");
    }
    Ok(())
}

#[test]
fn names_of_faults(rt: HostRuntime) -> Result<(), Fail> {
    expect_names(&rt, rt.alloc(), NAMES)?;
    expect_names(&rt, rt.alloc(), NAMES_OF_THE_MEDIATOR)
}
