//! Between preparing and receiving the policy, the clock, the subscriptions and the templates change, one alone or several: what
//! is disclosed stays that of a twin that reads each message as it comes.
use crate::changes::{Seen, change, pulled};
use crate::flows::{Random, flows};
use crate::twins::{
    Known, Twins, begun, expect_audit, expect_journals, expect_statuses, prepared, pull, swap, take,
};
use mediator_core::{Fault, SubId};
use prepared_message::Prepared;
use std::alloc::{AllocError, Global};
use std::process::Abort;
use std::test::Fail;

const STEPS: usize = 2000;

/// More than is noted in all steps: at most five things in each.
const MOST_NOTES: usize = 12_000;

/// The clock at the beginning, in milliseconds since 1970.
const BEGIN: u64 = 1_700_000_000_000;

/// Each must have happened so often at least.
const LEAST: usize = 10;

static ALL: [Seen; 15] = [
    Seen::Nothing,
    Seen::Edit,
    Seen::Advance,
    Seen::Subscribe,
    Seen::Unsubscribe,
    Seen::Pull,
    Seen::Other,
    Seen::Cut,
    Seen::Template,
    Seen::SameTemplate,
    Seen::AnotherId,
    Seen::Kept,
    Seen::Stale,
    Seen::CutByPrepared,
    Seen::Late,
];

/// A list with room for all notes, which is made again where memory is refused.
fn no_notes(alloc: Global) -> Result<Vec<Seen>, AllocError> {
    match Vec::with_capacity(alloc, MOST_NOTES) {
        Ok(seen) => Ok(seen),
        Err(_) => Vec::with_capacity(alloc, MOST_NOTES),
    }
}

fn note(seen: &mut Vec<Seen>, what: Seen) -> Result<(), AllocError> {
    seen.reserve(1)?;
    seen.push_reserved(what);
    Ok(())
}

/// No change, one or three. What was one, or none, is noted.
fn changes(
    rt: &impl Abort,
    alloc: Global,
    random: &mut Random,
    twins: &mut Twins,
    seen: &mut Vec<Seen>,
) -> Result<(), Fault> {
    match random.below(8) {
        0 => note(seen, Seen::Nothing)?,
        1 => {
            for _ in 0..3 {
                change(rt, alloc, random, twins)?;
            }
        }
        _ => note(seen, change(rt, alloc, random, twins)?)?,
    }
    Ok(())
}

/// A prepared message is received, and it is noted what came of it.
fn receive(
    rt: &impl Abort,
    alloc: Global,
    twins: &mut Twins,
    message: Prepared,
    known: Known,
    seen: &mut Vec<Seen>,
) -> Result<(), Fault> {
    let (receipt, stale) = take(rt, alloc, twins, message, known)?;
    note(seen, if stale { Seen::Stale } else { Seen::Kept })?;
    if receipt.cut != 0 {
        note(seen, Seen::CutByPrepared)?;
    }
    Ok(())
}

/// That both twins disclosed the same up to here.
fn compare(
    rt: &impl Abort,
    alloc: Global,
    random: &mut Random,
    twins: &mut Twins,
    seen: &mut Vec<Seen>,
) -> Result<(), Fault> {
    expect_statuses(rt, twins);
    if expect_audit(rt, alloc, twins)? {
        note(seen, Seen::Late)?;
    }
    pulled(rt, random, twins)?;
    Ok(())
}

/// Two messages are prepared and received, with changes between, and compared.
fn step(
    rt: &impl Abort,
    alloc: Global,
    random: &mut Random,
    twins: &mut Twins,
    seen: &mut Vec<Seen>,
) -> Result<(), Fail> {
    let known = twins.mine.known;
    let (early, later) = (flows(random, twins.clock), flows(random, twins.clock));
    let (early, later) = prepared(alloc, twins, &early, &later)?;
    changes(rt, alloc, random, twins, seen)?;
    receive(rt, alloc, twins, early, known, seen)?;
    receive(rt, alloc, twins, later, known, seen)?;
    Ok(compare(rt, alloc, random, twins, seen)?)
}

/// Pulls up to one message that isn't there.
fn drain(rt: &impl Abort, twins: &mut Twins, sub: SubId) -> Result<(), Fault> {
    for _ in 0..100 {
        if !pull(rt, twins, sub)? {
            return Ok(());
        }
    }
    Ok(())
}

fn drain_all(rt: &impl Abort, twins: &mut Twins) -> Result<(), Fault> {
    for place in 0..4 {
        match twins.subs.get(place).copied() {
            Some(sub) => drain(rt, twins, sub)?,
            None => return Ok(()),
        }
    }
    Ok(())
}

/// What happened in all steps.
fn all_steps(rt: &impl Abort, alloc: Global) -> Result<Vec<Seen>, Fail> {
    let mut random = Random { state: 20 };
    let mut seen = no_notes(alloc)?;
    let mut twins = begun(rt, alloc, BEGIN)?;
    for _ in 0..STEPS {
        if random.below(2) == 0 {
            swap(&mut twins);
        }
        step(rt, alloc, &mut random, &mut twins, &mut seen)?;
    }
    drain_all(rt, &mut twins)?;
    expect_statuses(rt, &twins);
    expect_journals(rt, &twins);
    Ok(seen)
}

fn times(seen: &[Seen], what: Seen) -> usize {
    let mut times = 0usize;
    for one in seen {
        if *one == what {
            times = times.saturating_add(1);
        }
    }
    times
}

#[test]
fn changes_between(rt: HostRuntime) -> Result<(), Fail> {
    let seen = all_steps(&rt, rt.alloc())?;
    for what in &ALL {
        let times = times(&seen, *what);
        assert!(rt; times >= LEAST, "{what:?}: {times}");
    }
    Ok(())
}
