//! `ipmd verify` on devices that fail in the middle or give little at a time, and where one allocation is refused: the run is made
//! again then, and answers as if nothing had happened.
use crate::octets::{RULED, RULED_TEXT, RUN};
use crate::places::{is_at, is_at_file};
use ipmd_commands::{Fault as ProgramFault, Place};
use ipmd_verify::{OnTerminal, verify_input};
use octet_io::Device;
use std::alloc::{AllocError, Global};
use std::io::ErrorKind::{BrokenPipe, ConnectionReset};
use std::io::{self, Write};
use std::process::Abort;
use std::test::Fail;
use test_io::{Narrow, Sparing};

/// What the history of [`RUN`] discloses, and what its audit names.
const FOUND: &[u8] = b"sub 1 acme disclosed 1\nsub 2 beta disclosed 4\n5 0 1 cut\n";

/// How many of these octets are the lines of the subscriptions.
const COUNTS: usize = 46;

/// Room for what a run writes.
const ROOM: usize = 4096;

/// The path of the file.
const PATH: &str = "run.journal";

/// What a run did, and the octets that it wrote.
#[derive(Drop)]
struct Ran {
    answer: Result<(), ProgramFault>,
    written: Vec<u8>,
}

/// Whether a run wrote all that is due.
fn is_done(ran: &Ran, due: &[u8]) -> bool {
    matches!(ran.answer, Ok(())) && ran.written.as_slice() == due
}

/// Whether a run was refused memory, and wrote nothing.
fn was_refused(ran: &Ran) -> bool {
    matches!(ran.answer, Err(ProgramFault::OutOfMemory)) && ran.written.is_empty()
}

/// A run over `octets`, of which a read gives at most `most`. The reader fails after `reads` reads. The output has room
/// for all.
fn run_once(
    alloc: Global,
    quiet: bool,
    octets: &[u8],
    most: usize,
    reads: usize,
) -> Result<Ran, AllocError> {
    let input = Sparing::new(octets, most, reads, ConnectionReset);
    let mut output = Device::new(Vec::with_capacity(alloc, ROOM)?);
    let mut progress = OnTerminal::new(Device::new(io::sink()), true);
    let answer = verify_input(alloc, quiet, PATH, input, &mut output, &mut progress);
    Ok(Ran {
        answer,
        written: output.into_inner(),
    })
}

/// Such a run, made again where it was refused memory.
fn run_of(
    alloc: Global,
    quiet: bool,
    octets: &[u8],
    most: usize,
    reads: usize,
) -> Result<Ran, AllocError> {
    let ran = run_once(alloc, quiet, octets, most, reads)?;
    if was_refused(&ran) {
        return run_once(alloc, quiet, octets, most, reads);
    }
    Ok(ran)
}

/// Whether a file is verified.
fn verifies(alloc: Global, quiet: bool, file: &[u8], due: &[u8]) -> Result<bool, AllocError> {
    let ran = run_of(alloc, quiet, file, ROOM, ROOM)?;
    Ok(is_done(&ran, due))
}

#[test]
fn a_cut_that_is_borne_out(rt: HostRuntime) -> Result<(), Fail> {
    assert!(rt; verifies(rt.alloc(), false, RUN, FOUND)?, "with the audit");
    assert!(rt; verifies(rt.alloc(), true, RUN, &FOUND[..COUNTS])?, "quiet");
    Ok(())
}

#[test]
fn what_rules_do(rt: HostRuntime) -> Result<(), Fail> {
    assert!(rt; verifies(rt.alloc(), false, RULED, RULED_TEXT)?);
    Ok(())
}

/// Whether the run over a front of the file says that it is cut off.
fn is_cut_off(alloc: Global, length: usize) -> Result<bool, AllocError> {
    let Some(front) = RUN.get(..length) else {
        return Ok(false);
    };
    let ran = run_of(alloc, false, front, ROOM, ROOM)?;
    Ok(matches!(ran.answer, Err(ProgramFault::Journal(_))) && ran.written.is_empty())
}

#[test]
fn each_front_is_cut_off(rt: HostRuntime) -> Result<(), Fail> {
    for length in 0..RUN.len() {
        assert!(rt; is_cut_off(rt.alloc(), length)?);
    }
    Ok(())
}

/// Whether a reader of one octet at a time is read to its end.
fn reads_sparingly(alloc: Global) -> Result<bool, AllocError> {
    let ran = run_of(alloc, false, RUN, 1, RUN.len() + 1)?;
    Ok(is_done(&ran, FOUND))
}

/// Whether a reader that fails in the middle is told.
fn tells_of_reader(alloc: Global) -> Result<bool, AllocError> {
    let ran = run_of(alloc, false, RUN, 1, 100)?;
    Ok(match &ran.answer {
        Err(fault) => is_at_file(fault, PATH) && ran.written.is_empty(),
        Ok(()) => false,
    })
}

#[test]
fn readers(rt: HostRuntime) -> Result<(), Fail> {
    assert!(rt; reads_sparingly(rt.alloc())?, "one octet at a time");
    assert!(rt; tells_of_reader(rt.alloc())?, "one that fails");
    Ok(())
}

/// A run whose writer takes an octet at a time, and fails after `sent` octets.
fn run_into(alloc: Global, sent: usize) -> Result<Ran, AllocError> {
    let mut output = Device::new(Narrow::new(alloc, ROOM, 1, sent, BrokenPipe)?);
    let mut progress = OnTerminal::new(Device::new(io::sink()), false);
    let answer = verify_input(alloc, false, PATH, RUN, &mut output, &mut progress);
    Ok(Ran {
        answer,
        written: output.into_inner().octets,
    })
}

/// Whether a run ended because its writer failed, which has the first `sent` octets of what is due.
fn has_front(ran: &Ran, sent: usize) -> bool {
    let written = ran.written.as_slice();
    let failed = match &ran.answer {
        Err(fault) => is_at(fault, &Place::Output),
        Ok(()) => false,
    };
    failed && written.len() == sent && FOUND.starts_with(written)
}

/// Whether such a writer has a front of what is due, by a second run where the first was refused memory.
fn writes_a_front(alloc: Global, sent: usize) -> Result<bool, AllocError> {
    let ran = run_into(alloc, sent)?;
    if was_refused(&ran) {
        return Ok(has_front(&run_into(alloc, sent)?, sent));
    }
    Ok(has_front(&ran, sent))
}

#[test]
fn writers_that_fail(rt: HostRuntime) -> Result<(), Fail> {
    for sent in 0..FOUND.len() {
        assert!(rt; writes_a_front(rt.alloc(), sent)?);
    }
    Ok(())
}
