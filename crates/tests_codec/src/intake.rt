//! Streams that are read in pieces of seven octets, to their end and to each fault; and a long one, in pieces as great as
//! they may be.
use ipfix_reader::{Fault as IntakeFault, FramingFault, Intake};
use octet_io::Device;
use std::alloc::Global;
use std::io::ErrorKind::Interrupted;
use std::process::Abort;
use std::test::Fail;
use test_io::Sparing;

/// Two messages without sets.
const TWO: &[u8] =
    b"\x00\x0a\x00\x10\x65\x53\xf1\x00\x00\x00\x00\x00\x00\x00\x00\x07\x00\x0a\x00\x10\x65\x53\xf1\x00\x00\x00\x00\x00\x00\x00\x00\x07";

/// One, and then the front of a message of version 9.
const VERSION_9: &[u8] =
    b"\x00\x0a\x00\x10\x65\x53\xf1\x00\x00\x00\x00\x00\x00\x00\x00\x07\x00\x09\x00\x10";

/// The front of a message with a length of 15.
const LENGTH_15: &[u8] = b"\x00\x0a\x00\x0f";

/// A stream, the reads that are made before one fails and those that are allowed, and what is answered.
#[derive(Clone, Copy)]
struct Case {
    octets: &'static [u8],
    until_failure: usize,
    turns: u64,
    messages: usize,
    ends: Option<IntakeFault>,
}

fn row(
    octets: &'static [u8],
    until_failure: usize,
    turns: u64,
    messages: usize,
    ends: Option<IntakeFault>,
) -> Case {
    Case {
        octets,
        until_failure,
        turns,
        messages,
        ends,
    }
}

/// How many messages are handed out, and how it ends.
fn taken(alloc: Global, case: Case) -> Result<(usize, Option<IntakeFault>), Fail> {
    let mut intake = Intake::new(alloc, case.turns)?;
    let mut device = Device::new(Sparing::new(case.octets, 7, case.until_failure, Interrupted));
    let mut messages = 0usize;
    for _ in 0..16 {
        match intake.next(&mut device) {
            Ok(Some(found)) => messages = messages.saturating_add(found.len()),
            Ok(None) => return Ok((messages, None)),
            Err(fault) => return Ok((messages, Some(fault))),
        }
    }
    Err(Fail::new("no end"))
}

fn expect(rt: &impl Abort, alloc: Global, case: Case) -> Result<(), Fail> {
    let (messages, ends) = taken(alloc, case)?;
    assert_eq!(rt; messages, case.messages);
    assert_eq!(rt; ends, case.ends);
    Ok(())
}

#[test]
fn ends_and_faults(rt: HostRuntime) -> Result<(), Fail> {
    let framing = |fault| Some(IntakeFault::Framing(fault));
    let cases = [
        row(TWO, 9, 9, 2, None),
        row(b"", 9, 9, 0, None),
        row(&TWO[..31], 9, 9, 1, framing(FramingFault::CutOff)),
        row(VERSION_9, 9, 9, 1, framing(FramingFault::BadVersion)),
        row(LENGTH_15, 9, 9, 0, framing(FramingFault::BadLength)),
        row(TWO, 9, 3, 1, Some(IntakeFault::Turns)),
        row(TWO, 2, 9, 0, Some(IntakeFault::Read)),
    ];
    for case in cases {
        expect(&rt, rt.alloc(), case)?;
    }
    Ok(())
}

/// How many messages of 16 octets each of four reads of a long stream brings.
fn brought(alloc: Global, intake: &mut Intake) -> Result<Vec<usize>, Fail> {
    let mut octets = Vec::new(alloc);
    for _ in 0..65_536 {
        octets.extend_from_slice(&TWO[..16])?;
    }
    let mut device = Device::new(octets.as_slice());
    let mut counts = Vec::new(alloc);
    for _ in 0..4 {
        let Ok(Some(found)) = intake.next(&mut device) else {
            return Err(Fail::new("no messages"));
        };
        counts.push(found.len())?;
    }
    Ok(counts)
}

#[test]
fn reads_widen(rt: HostRuntime) -> Result<(), Fail> {
    let alloc = rt.alloc();
    let cases = [
        (Intake::new(alloc, 4)?, [4096, 4096, 4096, 4096]),
        (Intake::widening(alloc, 4)?, [4096, 8192, 16_384, 16_384]),
    ];
    for (mut intake, counts) in cases {
        assert_eq!(rt; brought(alloc, &mut intake)?.as_slice(), &counts[..]);
    }
    Ok(())
}
