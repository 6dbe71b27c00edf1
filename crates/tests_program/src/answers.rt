//! Answers to an admin that no server is brought to give: the greatest numbers, refusals for want of memory, and those whose octets
//! can't be counted.
use admin_text::{Answer, write_answer};
use answer_writing::{AnswerBuffer, Stopped};
use disclosure_audit::{AuditEntry, What};
use mediator_state::{Fault, Status};
use octet_io::Device;
use policy_text::{Fault as PolicyFault, FaultKind};
use std::alloc::{AllocError, Global};
use std::io::ErrorKind::BrokenPipe;
use std::process::Abort;
use std::test::Fail;
use test_io::Narrow;

const FULLEST: Status = Status {
    queued: u32::MAX,
    handed: u64::MAX,
    shapes: u32::MAX,
    cut: false,
};

const NO_MEMORY_FOR_A_POLICY: PolicyFault = PolicyFault {
    line: 0,
    kind: FaultKind::OutOfMemory,
};

const REFUSALS: &[(Fault, &str)] = &[
    (
        Fault::Policy(NO_MEMORY_FOR_A_POLICY),
        "err Policy 0 OutOfMemory\n",
    ),
    (Fault::AuditFull { need: 2, room: 1 }, "err AuditFull 2 1\n"),
    (Fault::OutOfMemory, "err OutOfMemory\n"),
];

/// The most octets of an answer here.
const ROOM: usize = 64;

/// Whether an answer is written so, behind as many octets as can be counted beside it, and counted.
fn is_told(alloc: Global, answer: &Answer, wanted: &str) -> Result<bool, AllocError> {
    let mut buffer = AnswerBuffer::new(alloc)?;
    let mut writer = Device::new(Narrow::new(alloc, ROOM, 1, ROOM, BrokenPipe)?);
    let before = u64::MAX.saturating_sub(wanted.len() as u64);
    let sent = write_answer(alloc, &mut buffer, &mut writer, answer, before);
    Ok(sent == Ok(u64::MAX) && writer.into_inner().octets.as_slice() == wanted.as_bytes())
}

fn expect_refusals(
    rt: &impl Abort,
    alloc: Global,
    rows: &[(Fault, &str)],
) -> Result<(), AllocError> {
    for (why, wanted) in rows {
        assert!(rt; is_told(alloc, &Answer::Refused(*why), wanted)?, "{wanted}");
    }
    Ok(())
}

#[test]
fn refusals(rt: HostRuntime) -> Result<(), Fail> {
    expect_refusals(&rt, rt.alloc(), REFUSALS)?;
    Ok(())
}

/// Pages with what is written of them: first how many lines they have.
const PAGES: &[(&[u8], &str)] = &[
    (b"", "ok 0\n"),
    (b"\n", "ok 1\n\n"),
    (b"policy 1\n\nno rule\n", "ok 3\npolicy 1\n\nno rule\n"),
];

#[test]
fn pages(rt: HostRuntime) -> Result<(), Fail> {
    for (page, wanted) in PAGES {
        let told = Answer::Told(Vec::from_slice(rt.alloc(), *page)?);
        assert!(rt; is_told(rt.alloc(), &told, *wanted)?, "{wanted}");
    }
    Ok(())
}

const FULLEST_TEXT: &str = "ok 4294967295 18446744073709551615 live\n";

#[test]
fn greatest_numbers(rt: HostRuntime) -> Result<(), Fail> {
    let last = Answer::Subscribed(u64::MAX);
    assert!(rt; is_told(rt.alloc(), &last, "ok 18446744073709551615\n")?);
    assert!(rt; is_told(rt.alloc(), &Answer::Stands(FULLEST), FULLEST_TEXT)?);
    Ok(())
}

/// Whether an answer is refused where three octets more can be counted, and none of it written.
fn is_uncounted(alloc: Global, answer: &Answer) -> Result<bool, AllocError> {
    let mut buffer = AnswerBuffer::new(alloc)?;
    let mut writer = Device::new(Narrow::new(alloc, ROOM, 1, ROOM, BrokenPipe)?);
    let sent = write_answer(alloc, &mut buffer, &mut writer, answer, u64::MAX - 3);
    Ok(sent == Err(Stopped::Uncounted) && writer.into_inner().octets.is_empty())
}

/// The answer that has one audit entry, of a cut.
fn one_cut(alloc: Global) -> Result<Answer, AllocError> {
    let mut entries = Vec::new(alloc);
    entries.push(AuditEntry {
        position: 9,
        index: 0,
        sub: 2,
        what: What::Cut,
    })?;
    Ok(Answer::Drained(entries))
}

#[test]
fn counted_octets(rt: HostRuntime) -> Result<(), Fail> {
    let drained = one_cut(rt.alloc())?;
    assert!(rt; is_told(rt.alloc(), &drained, "ok 1\n9 0 2 cut\n")?);
    assert!(rt; is_uncounted(rt.alloc(), &drained)?);
    assert!(rt; is_uncounted(rt.alloc(), &Answer::BadLine)?);
    Ok(())
}
