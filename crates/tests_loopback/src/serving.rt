//! What peers get, and what is noted of them. Each number in a note is another one.

use crate::octets::{DISCLOSED, FOUR_MESSAGES, ONE_RECORD, TWO_TEMPLATES};
use crate::play::{Played, expect_note, play};
use crate::stage::USUAL;
use crate::world::Time;
use std::alloc::{AllocError, Global};
use std::process::Abort;
use std::test::Fail;

/// What the clock shows.
const NOW: Option<Time> = Some(1_700_000_060_000);

/// An exporter sends a message, its collector gets what is disclosed, and the administrator advances the clock.
#[test]
fn loopback(rt: HostRuntime) -> Result<(), Fail> {
    let played = play(&rt, rt.alloc(), USUAL, b"advance 1000\n", ONE_RECORD, NOW)?;
    assert!(rt; played.counts == (1, 1));
    assert!(rt; played.answered.as_slice() == b"ok\n".as_slice());
    let got = played.taken.get(0).expect(&rt, "a collector").as_slice();
    assert!(rt; got.get(..4) == ONE_RECORD.get(..4));
    assert!(rt; got.get(8..) == Some(DISCLOSED));
    Ok(())
}

/// Acme sees what comes from 192.0.2.0/24, and beta what comes from 192.0.2.77.
const BY_SOURCE: &str = "policy 1\n\
rule for acme in * from 192.0.2.0/24 to * pass\n\
rule for beta in * from 192.0.2.77/32 to * pass\n\
rule for * in * from * to * element * keep\n";

/// How many octets the collector at `place` got.
fn taken(rt: &impl Abort, played: &Played, place: usize) -> usize {
    played.taken.get(place).expect(rt, "a collector").len()
}

/// That a note tells `end` of the collector at `place`, with `octets` octets and `records` records that it was sent.
fn expect_collector(
    rt: &impl Abort,
    alloc: Global,
    played: &Played,
    place: usize,
    end: &str,
    octets: usize,
    records: u64,
) -> Result<(), AllocError> {
    let collector = played.collectors.get(place).expect(rt, "a collector");
    let note = format!(in alloc; "collector {collector} {end}: octets {octets} records {records}")?;
    expect_note(rt, played.notes.as_slice(), note.as_str());
    Ok(())
}

/// Of four messages with three records and two gaps two records are disclosed to one collector, and one to the other. A line
/// that is no command ends the administrator's connection alone.
#[test]
fn notes_and_totals(rt: HostRuntime) -> Result<(), Fail> {
    let alloc = rt.alloc();
    let mut scene = USUAL;
    scene.policy = BY_SOURCE;
    scene.subscribers = &["acme", "beta"];
    let asked = b"status 1\nstatus 2\nstatus 3\nadvance 5\nadvance 6\nstat\nadvance 7\n";
    let played = play(&rt, alloc, scene, asked, FOUR_MESSAGES, NOW)?;
    let answered = b"ok 0 0 live\nok 0 0 live\nerr UnknownSub\nok\nok\nerr Line\n";
    assert!(rt; played.answered.as_slice() == answered.as_slice());
    assert!(rt; played.counts == (4, 3));
    let (exporter, admin) = (&played.exporter, &played.admin);
    for note in [
        format!(in alloc; "exporter {exporter} ended: messages 4 records 3 gaps 2")?,
        format!(in alloc; "admin {admin} ended: commands 5")?,
        format!(in alloc; "accepted 4 handed 3")?,
    ] {
        expect_note(&rt, played.notes.as_slice(), note.as_str());
    }
    let (acme, beta) = (taken(&rt, &played, 0), taken(&rt, &played, 1));
    expect_collector(&rt, alloc, &played, 0, "ended", acme, 2)?;
    expect_collector(&rt, alloc, &played, 1, "ended", beta, 1)?;
    Ok(())
}

/// Beta is cut by the second template, which acme sees nothing of: only of beta it is said. It was sent what the exporter's first
/// message has; since its connection ends by a reset, which may overtake that, what beta got isn't looked at.
#[test]
fn cut_is_noted(rt: HostRuntime) -> Result<(), Fail> {
    let alloc = rt.alloc();
    let mut scene = USUAL;
    scene.policy = "policy 1\n\
        rule for acme in * from 198.51.100.0/24 to * withhold\n\
        rule for * in * from * to * pass\n\
        rule for * in * from * to * element * keep\n";
    scene.subscribers = &["acme", "beta"];
    scene.shapes = 1;
    let played = play(&rt, alloc, scene, b"", TWO_TEMPLATES, NOW)?;
    assert!(rt; played.counts == (2, 2));
    let acme = taken(&rt, &played, 0);
    expect_collector(&rt, alloc, &played, 0, "ended", acme, 1)?;
    expect_collector(&rt, alloc, &played, 1, "was cut", ONE_RECORD.len(), 1)?;
    Ok(())
}
