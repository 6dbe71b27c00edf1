//! `ipmd`'s commands for one stream, one policy and the version, on devices that fail in the middle or take little at a time. What
//! a closed pipe or a full device does to the process is tested from outside.
use crate::places::is_at;
use crate::system::System;
use ipmd_command_line::{OfflineOptions, PolicySource, Task, read_command_line};
use ipmd_commands::{Fault as ProgramFault, Place, check_policy, filter, show, tell};
use mediator_offline::OfflineReport;
use octet_io::{Device, write_all};
use std::alloc::{AllocError, Global};
use std::io::ErrorKind::{BrokenPipe, ConnectionReset};
use std::io::{self, BufWriter, Read, Write};
use std::process::Abort;
use std::rt::Files;
use std::test::Fail;
use test_io::{Narrow, Sparing};

/// A policy that passes each record whole.
const PASS: &str =
    "policy 1;rule for * in * from * to * pass;rule for * in * from * to * element * keep";

/// Room for what a run writes.
const ROOM: usize = 4096;

/// A run over a message with two records: its input, which may be hexadecimal text, and the three messages of 36, 30 and 30 octets
/// that it writes.
struct TwoFlows {
    hex: bool,
    input: &'static [u8],
    whole: &'static [u8],
    /// How much is written by none of the writes, by the first, and so on to the last: what a message gives is one write, and
    /// so is each line.
    ends: &'static [usize],
}

const AS_OCTETS: &TwoFlows = &TwoFlows {
    hex: false,
    input: b"\x00\x0a\x00\x3c\x65\x53\xf1\x00\x00\x00\x00\x00\x00\x00\x00\x07\
\x00\x02\x00\x14\x01\x00\x00\x03\x00\x08\x00\x04\x00\x07\x00\x02\x00\x01\x00\x04\
\x01\x00\x00\x18\xc0\x00\x02\x4d\x01\xbb\x00\x00\x05\xdc\xc0\x00\x02\x4e\x01\xbb\x00\x00\x05\xdd",
    whole: b"\x00\x0a\x00\x24\x65\x53\xf1\x3c\x00\x00\x00\x00\x00\x00\x00\x00\
\x00\x02\x00\x14\x01\x00\x00\x03\x00\x08\x00\x04\x00\x07\x00\x02\x00\x01\x00\x04\
\x00\x0a\x00\x1e\x65\x53\xf1\x3c\x00\x00\x00\x00\x00\x00\x00\x00\
\x01\x00\x00\x0e\xc0\x00\x02\x4d\x01\xbb\x00\x00\x05\xdc\
\x00\x0a\x00\x1e\x65\x53\xf1\x3c\x00\x00\x00\x01\x00\x00\x00\x00\
\x01\x00\x00\x0e\xc0\x00\x02\x4e\x01\xbb\x00\x00\x05\xdd",
    ends: &[0, 96],
};

const AS_LINES: &TwoFlows = &TwoFlows {
    hex: true,
    input: b"000a003c 6553f100 00000000 00000007  00020014 01000003 00080004 00070002 00010004  01000018 c000024d 01bb 000005dc c000024e 01bb 000005dd",
    whole: b"000a00246553f13c00000000000000000002001401000003000800040007000200010004
000a001e6553f13c00000000000000000100000ec000024d01bb000005dc
000a001e6553f13c00000001000000000100000ec000024e01bb000005dd
",
    ends: &[0, 73, 134, 195],
};

const REPORT: OfflineReport = OfflineReport {
    messages: 1,
    records: 2,
    disclosed: 2,
};

/// To pass each record to `acme`, in the smallest messages.
fn passing(hex: bool) -> OfflineOptions<'static> {
    OfflineOptions {
        policy: PolicySource::Text(PASS),
        subscriber: "acme",
        now: 1_700_000_060,
        target: 16,
        audit: None,
        hex,
    }
}

/// A writer that takes at most `most` octets a call, and fails after `calls` calls.
fn narrow(alloc: Global, most: usize, calls: usize) -> Result<Narrow, AllocError> {
    Narrow::new(alloc, ROOM, most, calls, BrokenPipe)
}

/// What a run answered, and the octets that it wrote.
#[derive(Drop)]
struct Ran {
    answer: Result<OfflineReport, ProgramFault>,
    written: Vec<u8>,
}

/// Whether a run is done, or ended because this stream failed, and wrote so much of what is due.
fn is_left(ran: &Ran, flows: &TwoFlows, sent: usize, done: bool, stream: &Place) -> bool {
    let written = ran.written.as_slice();
    let answered = match &ran.answer {
        Ok(report) => done && *report == REPORT,
        Err(fault) => !done && is_at(fault, stream),
    };
    answered && written.len() == sent && flows.whole.starts_with(written)
}

/// A run over the flows, whose writer takes at most `most` octets a call and fails after `calls` calls.
fn run_into<R: System>(
    rt: &R,
    flows: &TwoFlows,
    most: usize,
    calls: usize,
) -> Result<Ran, AllocError>
where
    R::File: Send + 'static,
{
    let mut output = Device::new(narrow(rt.alloc(), most, calls)?);
    let answer = filter(rt, &passing(flows.hex), flows.input, &mut output);
    Ok(Ran {
        answer,
        written: output.into_inner().octets,
    })
}

/// Whether such a writer is sent so much.
fn sends<R: System>(
    rt: &R,
    flows: &TwoFlows,
    most: usize,
    calls: usize,
    sent: usize,
) -> Result<bool, AllocError>
where
    R::File: Send + 'static,
{
    let ran = run_into(rt, flows, most, calls)?;
    Ok(is_left(&ran, flows, sent, sent == flows.whole.len(), &Place::Output))
}

/// Whether a write that fails is the end of what is written.
fn ends_at_a_write<R: System>(rt: &R, flows: &TwoFlows) -> Result<bool, AllocError>
where
    R::File: Send + 'static,
{
    for (calls, sent) in flows.ends.iter().enumerate() {
        if !sends(rt, flows, ROOM, calls, *sent)? {
            return Ok(false);
        }
    }
    Ok(true)
}

/// Whether a writer of one octet at a time gets all, and each octet that it took stays.
fn ends_at_an_octet<R: System>(rt: &R, flows: &TwoFlows) -> Result<bool, AllocError>
where
    R::File: Send + 'static,
{
    for sent in 0..=flows.whole.len() {
        if !sends(rt, flows, 1, sent, sent)? {
            return Ok(false);
        }
    }
    Ok(true)
}

/// Whether each writer of a run is sent what it must; one that takes nothing has failed.
fn sends_each<R: System>(rt: &R, flows: &TwoFlows) -> Result<bool, AllocError>
where
    R::File: Send + 'static,
{
    Ok(ends_at_a_write(rt, flows)? && ends_at_an_octet(rt, flows)? && sends(rt, flows, 0, ROOM, 0)?)
}

#[test]
fn writers(rt: HostRuntime) -> Result<(), Fail> {
    assert!(rt; sends_each(&rt, AS_OCTETS)?, "octets");
    assert!(rt; sends_each(&rt, AS_LINES)?, "lines");
    Ok(())
}

/// A buffer before a pipe whose reader has gone.
fn buffer(alloc: Global) -> Result<Device<BufWriter<Narrow>>, Fail> {
    Ok(Device::new(BufWriter::with_capacity(alloc, ROOM, narrow(alloc, ROOM, 0)?)?))
}

/// Whether the output failed.
fn has_failed<T>(answer: &Result<T, ProgramFault>) -> bool {
    match answer {
        Ok(_) => false,
        Err(fault) => is_at(fault, &Place::Output),
    }
}

/// Whether it is seen at the flush that the reader of the messages has gone.
fn fails_to_filter<R: System>(rt: &R) -> Result<bool, Fail>
where
    R::File: Send + 'static,
{
    let mut output = buffer(rt.alloc())?;
    let answer = filter(rt, &passing(true), AS_LINES.input, &mut output);
    Ok(has_failed(&answer))
}

/// Whether it is seen at the flush that the reader of a policy's counts has gone.
fn fails_to_count<R: Files + AllocGlobal>(rt: &R) -> Result<bool, Fail> {
    let mut output = buffer(rt.alloc())?;
    let answer = check_policy(rt, PolicySource::Text(PASS), &mut output);
    Ok(has_failed(&answer))
}

/// Whether it is seen at the flush that the reader of the version has gone.
fn fails_to_show(alloc: Global) -> Result<bool, Fail> {
    let words = ["--version"];
    let mut output = buffer(alloc)?;
    let task = read_command_line(alloc, &words);
    let Ok(Task::Show(shown)) = &task else {
        return Ok(false);
    };
    let answer = show(alloc, shown, &mut output);
    Ok(has_failed(&answer))
}

#[test]
fn flushed(rt: HostRuntime) -> Result<(), Fail> {
    assert!(rt; fails_to_filter(&rt)?, "offline");
    assert!(rt; fails_to_count(&rt)?, "check-policy");
    assert!(rt; fails_to_show(rt.alloc())?, "--version");
    Ok(())
}

/// What a run leaves on an output that has failed before, at its first call alone.
fn run_behind_a_failure<R: System>(rt: &R) -> Result<Ran, AllocError>
where
    R::File: Send + 'static,
{
    let mut output = Device::new(narrow(rt.alloc(), ROOM, 0)?);
    let _ = write_all(&mut output, b"0");
    let answer = filter(rt, &passing(false), AS_OCTETS.input, &mut output);
    Ok(Ran {
        answer,
        written: output.into_inner().octets,
    })
}

/// Nothing is written to an output that has failed before.
#[test]
fn failed_before(rt: HostRuntime) -> Result<(), Fail> {
    let ran = run_behind_a_failure(&rt)?;
    assert!(rt; is_left(&ran, AS_OCTETS, 0, false, &Place::Output));
    Ok(())
}

/// A reader that gives at most `most` octets a call and fails after `calls` calls; `sent`, how many octets are written,
/// and `done`, whether the run is done.
#[derive(Clone, Copy)]
struct Reader {
    name: &'static str,
    flows: &'static TwoFlows,
    most: usize,
    calls: usize,
    sent: usize,
    done: bool,
}

/// A reader of one octet, or of seven, gives what one of all gives.
const READERS: &[Reader] = &[
    Reader {
        name: "one octet at a time",
        flows: AS_OCTETS,
        most: 1,
        calls: ROOM,
        sent: 96,
        done: true,
    },
    Reader {
        name: "seven octets at a time",
        flows: AS_OCTETS,
        most: 7,
        calls: ROOM,
        sent: 96,
        done: true,
    },
    Reader {
        name: "all octets",
        flows: AS_OCTETS,
        most: ROOM,
        calls: ROOM,
        sent: 96,
        done: true,
    },
    Reader {
        name: "a read of a text fails",
        flows: AS_LINES,
        most: 7,
        calls: 3,
        sent: 0,
        done: false,
    },
];

/// Whether a run by this reader leaves what it must.
fn reads<R: System>(rt: &R, case: &Reader) -> bool
where
    R::File: Send + 'static,
{
    let flows = case.flows;
    let input = Sparing::new(flows.input, case.most, case.calls, ConnectionReset);
    let mut output = Device::new(Vec::new(rt.alloc()));
    let answer = filter(rt, &passing(flows.hex), input, &mut output);
    let ran = Ran {
        answer,
        written: output.into_inner(),
    };
    is_left(&ran, flows, case.sent, case.done, &Place::Input)
}

/// That the run leaves what it must by each reader.
fn expect_readers<R: System + Abort>(rt: &R, cases: &[Reader])
where
    R::File: Send + 'static,
{
    for case in cases {
        assert!(rt; reads(rt, case), "{}", case.name);
    }
}

/// How much is written where each of ten reads fails. A read that fails is the end of the stream; what came before it is written:
/// sixty octets take nine reads of seven, and a tenth meets the end.
const BEFORE_A_FAILURE: &[usize] = &[0, 0, 0, 0, 0, 0, 0, 0, 0, 96];

/// That the run leaves what it must, whichever of its reads fails.
fn expect_failing_reads<R: System + Abort>(rt: &R)
where
    R::File: Send + 'static,
{
    for (calls, sent) in BEFORE_A_FAILURE.iter().enumerate() {
        let case = Reader {
            name: "a read fails",
            flows: AS_OCTETS,
            most: 7,
            calls,
            sent: *sent,
            done: false,
        };
        assert!(rt; reads(rt, &case), "{calls}");
    }
}

#[test]
fn readers(rt: HostRuntime) {
    expect_readers(&rt, READERS);
    expect_failing_reads(&rt);
}

/// Whether the octets `told` of the report are taken, two a call, where the call after `calls` calls fails, and the
/// rest is dropped.
fn tells(alloc: Global, calls: usize, told: &[u8]) -> Result<bool, AllocError> {
    let mut errors = Device::new(narrow(alloc, 2, calls)?);
    tell(REPORT, &mut errors);
    Ok(errors.into_inner().octets.as_slice() == told)
}

/// Whether the octets `told` of a fault of the output are taken, two a call, where the call after `calls` calls fails:
/// the line that names the output ends there, and the fault's own line comes.
fn blames(alloc: Global, calls: usize, told: &[u8]) -> Result<bool, AllocError> {
    let mut errors = Device::new(narrow(alloc, 2, calls)?);
    let fault = ProgramFault::failed(Place::Output, io::Error::from(BrokenPipe));
    let status = fault.report(alloc, &mut errors);
    Ok(status == 3 && errors.into_inner().octets.as_slice() == told)
}

#[test]
fn fault_is_said(rt: HostRuntime) -> Result<(), Fail> {
    assert!(rt;
        blames(rt.alloc(), 0, b"ipmd: device\n")?,
        "at the first write"
    );
    assert!(rt;
        blames(
            rt.alloc(),
            ROOM,
            b"ipmd: standard output: broken pipe\nipmd: device\n"
        )?,
        "at none"
    );
    Ok(())
}

#[test]
fn report_fails(rt: HostRuntime) -> Result<(), Fail> {
    assert!(rt; tells(rt.alloc(), 0, b"")?, "at the first write");
    assert!(rt; tells(rt.alloc(), 2, b"mess")?, "at the third write");
    assert!(rt;
        tells(rt.alloc(), ROOM, b"messages 1 records 2 disclosed 2\n")?,
        "at none"
    );
    Ok(())
}
