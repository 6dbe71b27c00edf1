//! `ipmd`'s commands for one stream and one policy, where one allocation is refused: the answer says so, and what was written is a
//! front of what is due. A run that was refused memory is made again, and gives all. Nothing refuses memory here;
//! `bench/refuse_allocations tests_program` refuses each allocation in turn.
use crate::system::System;
use ipmd_command_line::{OfflineOptions, PolicySource};
use ipmd_commands::{Fault as ProgramFault, check_policy, filter};
use octet_io::Device;
use std::alloc::AllocError;
use std::process::Abort;
use std::rt::Files;
use std::test::Fail;

/// A message with a template of source address, source port and octet count, and one record.
const FLOW: &[u8] =
    b"000a0032 6553f100 00000000 00000007  00020014 01000003 00080004 00070002 00010004  0100000e c000024d 01bb 000005dc";

/// What it is without its source port.
const WITHOUT_PORT: &[u8] =
    b"000a002c6553f13c0000000000000000000200100100000200080004000100040100000cc000024d000005dc\n";

/// To pass each record to `acme` without its source port, with an audit.
const REMOVE_PORT: OfflineOptions<'static> = OfflineOptions {
    policy: PolicySource::Text(
        "policy 1;rule for * in * from * to * pass;rule for * in * from * to * element sourceTransportPort remove;rule for * in * from * to * element * keep",
    ),
    subscriber: "acme",
    now: 1_700_000_060,
    target: 1400,
    audit: Some("/dev/null"),
    hex: true,
};

/// Room for what a run writes.
const ROOM: usize = 4096;

/// What a run did, and the octets that it wrote.
#[derive(Drop)]
struct Ran {
    answer: Result<(), ProgramFault>,
    written: Vec<u8>,
}

/// Whether a run gave all.
fn is_done(ran: &Ran, due: &[u8]) -> bool {
    matches!(ran.answer, Ok(())) && ran.written.as_slice() == due
}

/// Whether a run was refused memory, and wrote a front of what is due.
fn was_refused(ran: &Ran, due: &[u8]) -> bool {
    matches!(ran.answer, Err(ProgramFault::OutOfMemory)) && due.starts_with(ran.written.as_slice())
}

fn filtered<R: System>(rt: &R) -> Result<Ran, AllocError>
where
    R::File: Send + 'static,
{
    let mut output = Device::new(Vec::with_capacity(rt.alloc(), ROOM)?);
    let answer = match filter(rt, &REMOVE_PORT, FLOW, &mut output) {
        Ok(_) => Ok(()),
        Err(fault) => Err(fault),
    };
    Ok(Ran {
        answer,
        written: output.into_inner(),
    })
}

fn counted<R: Files + AllocGlobal>(rt: &R) -> Result<Ran, AllocError> {
    let mut output = Device::new(Vec::with_capacity(rt.alloc(), ROOM)?);
    let answer = check_policy(rt, REMOVE_PORT.policy, &mut output);
    Ok(Ran {
        answer,
        written: output.into_inner(),
    })
}

/// Whether a stream is filtered, by a second run where the first was refused memory.
fn filters<R: System>(rt: &R) -> Result<bool, AllocError>
where
    R::File: Send + 'static,
{
    let ran = filtered(rt)?;
    Ok(
        is_done(&ran, WITHOUT_PORT)
            || was_refused(&ran, WITHOUT_PORT) && is_done(&filtered(rt)?, WITHOUT_PORT),
    )
}

/// Whether a policy's rules are counted, by a second run where the first was refused memory.
fn counts<R: Files + AllocGlobal>(rt: &R) -> Result<bool, AllocError> {
    let due = b"rules 3 aggregates 0\n".as_slice();
    let ran = counted(rt)?;
    Ok(is_done(&ran, due) || was_refused(&ran, due) && is_done(&counted(rt)?, due))
}

#[test]
fn each_refusal_of_memory(rt: HostRuntime) -> Result<(), Fail> {
    assert!(rt; filters(&rt)?, "offline");
    assert!(rt; counts(&rt)?, "check-policy");
    Ok(())
}
