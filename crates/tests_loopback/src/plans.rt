//! A plan's numbers reach the calls, and a collector's socket is set as it is to be.

use crate::octets::{ONE_RECORD, TWO_RECORDS};
use crate::play::{expect_note, play};
use crate::stage::USUAL;
use std::test::Fail;
use std::time::Duration;

/// The most octets of a message, and how many the collector gets of two records: one message of 64, or the template in one of 36
/// and each record in one of 30.
const TARGETS: &[(u16, usize)] = &[(1400, 60), (60, 60), (59, 50 + 30), (16, 36 + 30 + 30)];

#[test]
fn targets(rt: HostRuntime) -> Result<(), Fail> {
    for (target, octets) in TARGETS {
        let mut scene = USUAL;
        scene.target = *target;
        let played = play(&rt, rt.alloc(), scene, b"", TWO_RECORDS, None)?;
        let got = played.taken.get(0).expect(&rt, "a collector").len();
        assert!(rt; got == *octets, "{target} {got}");
    }
    Ok(())
}

/// How often a connection may be read, and how the exporter's and the administrator's end: a message comes by one read, and so
/// does a command; the end of either by one more.
const TURNS: &[(u64, &str, &str)] = &[
    (2, "ended: messages 1 records 1 gaps 0", "ended: commands 1"),
    (
        1,
        "failed, Turns: messages 1 records 1 gaps 0",
        "failed, Turns",
    ),
];

#[test]
fn turns(rt: HostRuntime) -> Result<(), Fail> {
    let alloc = rt.alloc();
    for (turns, exported, asked) in TURNS {
        let mut scene = USUAL;
        scene.turns = *turns;
        let played = play(&rt, alloc, scene, b"advance 1000\n", ONE_RECORD, None)?;
        let (exporter, admin) = (&played.exporter, &played.admin);
        let notes = played.notes.as_slice();
        expect_note(
            &rt,
            notes,
            format!(in alloc; "exporter {exporter} {exported}")?.as_str(),
        );
        expect_note(
            &rt,
            notes,
            format!(in alloc; "admin {admin} {asked}")?.as_str(),
        );
    }
    Ok(())
}

/// What is written to a collector leaves at once, and a write that waits comes back four times a second, as well as the system's
/// clock tells that.
#[test]
fn sockets(rt: HostRuntime) -> Result<(), Fail> {
    let played = play(&rt, rt.alloc(), USUAL, b"", ONE_RECORD, None)?;
    let least = Duration::from_millis(250);
    let most = Duration::from_millis(270);
    for (at_once, patience) in &played.sockets {
        assert!(rt; *at_once);
        assert!(rt; matches!(patience, Some(time) if *time >= least && *time <= most));
    }
    assert!(rt; played.sockets.len() == 1);
    Ok(())
}
