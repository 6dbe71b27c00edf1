//! `ipmd explain` where one allocation is refused: a front of what is due was written, and the run that is made again then writes
//! all.
use crate::octets::{RULED, RUN};
use ipmd_commands::Fault as ProgramFault;
use ipmd_explain::{Question, explain_input};
use ipmd_verify::OnTerminal;
use octet_io::Device;
use std::alloc::{AllocError, Global};
use std::io::{self, Write};
use std::process::Abort;
use std::test::Fail;

/// Room for what a run writes.
const ROOM: usize = 4096;

/// What the second subscription saw of the history of [`RUN`].
const SEEN: &[u8] =
    b"position 4 index 0: rule 1 passes it; sourceIPv4Address kept by rule 2; sourceTransportPort kept by rule 2; octetDeltaCount kept by rule 2
position 6 index 0: rule 1 passes it; sourceIPv4Address kept by rule 2; sourceTransportPort kept by rule 2; octetDeltaCount kept by rule 2
position 6 index 1: rule 1 passes it; sourceIPv4Address kept by rule 2; sourceTransportPort kept by rule 2; octetDeltaCount kept by rule 2
position 6 index 2: rule 1 passes it; sourceIPv4Address kept by rule 2; sourceTransportPort kept by rule 2; octetDeltaCount kept by rule 2
";

/// What the subscription of [`RULED`] saw of it.
const SEEN_BY_RULES: &[u8] =
    b"position 3 index 0: 192.0.2.1:49153 -> 198.51.100.9:443; withheld by rule 1
position 3 index 1: 192.0.2.2:49153 -> 198.51.100.9:443; counted in the aggregate web by rule 2
position 3 index 2: 192.0.2.3:49153 -> 198.51.100.9:443; rule 3 passes it; sourceIPv4Address cut to 24 bits by rule 4; destinationIPv4Address kept by rule 6; sourceTransportPort removed by rule 5; destinationTransportPort removed, no rule matches it; flowStartSeconds removed, no rule matches it
position 3 index 3: 192.0.2.4:49153 -> 198.51.100.9:443; withheld, no rule matches it
";

/// What a run did, and the octets that it wrote.
#[derive(Drop)]
struct Ran {
    answer: Result<(), ProgramFault>,
    written: Vec<u8>,
}

/// A run that asks of a file what a subscription saw of all records.
fn run_of(alloc: Global, file: &[u8], sub: u64) -> Result<Ran, AllocError> {
    let question = Question {
        sub,
        position: None,
        index: None,
    };
    let mut output = Device::new(Vec::with_capacity(alloc, ROOM)?);
    let mut progress = OnTerminal::new(Device::new(io::sink()), false);
    let answer = explain_input(
        alloc,
        question,
        "run.journal",
        file,
        &mut output,
        &mut progress,
    );
    Ok(Ran {
        answer,
        written: output.into_inner(),
    })
}

/// Whether a run wrote all that is due.
fn is_done(ran: &Ran, due: &[u8]) -> bool {
    matches!(ran.answer, Ok(())) && ran.written.as_slice() == due
}

/// Whether a run was refused memory, and wrote a front of what is due.
fn was_refused(ran: &Ran, due: &[u8]) -> bool {
    matches!(ran.answer, Err(ProgramFault::OutOfMemory)) && due.starts_with(ran.written.as_slice())
}

/// Whether a file is explained, by a second run where the first was refused memory.
fn explains(alloc: Global, file: &[u8], sub: u64, due: &[u8]) -> Result<bool, AllocError> {
    let ran = run_of(alloc, file, sub)?;
    Ok(is_done(&ran, due) || was_refused(&ran, due) && is_done(&run_of(alloc, file, sub)?, due))
}

#[test]
fn explained(rt: HostRuntime) -> Result<(), Fail> {
    assert!(rt; explains(rt.alloc(), RUN, 2, SEEN)?, "records that pass");
    assert!(rt;
        explains(rt.alloc(), RULED, 1, SEEN_BY_RULES)?,
        "what rules do"
    );
    Ok(())
}
