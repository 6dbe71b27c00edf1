//! What comes between preparing and receiving: changes of the policy, the clock, the subscriptions and the templates, and messages
//! of another session.
use crate::aggregates::{WEB, WEB_AT_ONCE};
use crate::cases::{PASS, WITHHOLD};
use crate::flows::{ANOTHER_ID, DESTINATIONS, Random, SOURCES, WITHDRAWAL, flows};
use crate::twins::{
    Known, Twins, advance, edit, hear_mine, hear_other, pull, subscribe, unsubscribe,
};
use mediator_core::{Fault, SubId};
use std::alloc::Global;
use std::process::Abort;

/// Sources are cut.
const NETWORKS: &str =
    "policy 1\nrule for * in * from * to * pass\nrule for * in * from * to * element sourceIPv4Address truncate 24\nrule for * in * from * to * element * keep\n";

/// Without sources and starts.
const NO_SOURCES: &str =
    "policy 1\nrule for * in * from * to * pass\nrule for * in * from * to * element sourceIPv4Address remove\nrule for * in * from * to * element flowStartMilliseconds remove\nrule for * in * from * to * element * keep\n";

/// The first aggregate of the worked cases, for all subscriptions.
const WEB_FOR_ALL: &str =
    "policy 1\naggregate web key destinationTransportPort interval 300 grace 60\nrule for * in * from * to * aggregate web\n";

/// Each subscription is shown something else, by source and destination.
const MIXED: &str =
    "policy 1\naggregate hosts key sourceIPv4Address interval 60 grace 30\naggregate web key destinationTransportPort interval 300 grace 60\nrule for acme in * from 192.0.2.0/25 to * withhold\nrule for bolt in * from * to 192.0.2.0/25 pass\nrule for bolt in * from * to * aggregate hosts\nrule for c3 in * from 192.0.2.0/24 to * aggregate web\nrule for * in * from * to * pass\nrule for acme in * from * to * element destinationTransportPort remove\nrule for * in * from * to * element * keep\n";

const TEXTS: &[&str] = &[
    PASS,
    WITHHOLD,
    NETWORKS,
    NO_SOURCES,
    WEB,
    WEB_AT_ONCE,
    WEB_FOR_ALL,
    MIXED,
    MIXED,
];

const NAMES: &[&str] = &["acme", "bolt", "c3", "d4"];

/// What happened in a step.
#[derive(Clone, Copy, Debug, PartialEq, Eq)]
pub(crate) enum Seen {
    // What alone came between preparing and receiving.
    Nothing,
    Edit,
    Advance,
    Subscribe,
    Unsubscribe,
    Pull,
    /// Messages of the other session that cut no subscription.
    Other,
    /// Such messages that cut one.
    Cut,
    /// The ID 256 came to stand for something else.
    Template,
    /// It came to stand for the same again, or for nothing again.
    SameTemplate,
    /// Another ID was defined.
    AnotherId,
    // What came of a prepared message.
    Kept,
    Stale,
    /// It cut a subscription.
    CutByPrepared,
    /// A record was late.
    Late,
}

fn edited(rt: &impl Abort, random: &mut Random, twins: &mut Twins) -> Result<Seen, Fault> {
    edit(rt, twins, random.pick(TEXTS))?;
    Ok(Seen::Edit)
}

fn advanced(rt: &impl Abort, random: &mut Random, twins: &mut Twins) -> Result<Seen, Fault> {
    twins.clock = twins.clock.saturating_add(random.below(150_000));
    advance(rt, twins)?;
    Ok(Seen::Advance)
}

/// A name may be taken.
fn subscribed(rt: &impl Abort, random: &mut Random, twins: &mut Twins) -> Result<Seen, Fault> {
    match subscribe(rt, twins, random.pick(NAMES)) {
        Ok(sub) => {
            twins.subs.reserve(1)?;
            twins.subs.push_reserved(sub);
            Ok(Seen::Subscribe)
        }
        Err(Fault::AlreadySubscribed { sub: _ }) => Ok(Seen::Nothing),
        Err(fault) => Err(fault),
    }
}

/// One of the live subscriptions, or none.
fn one_of(random: &mut Random, twins: &Twins) -> Option<SubId> {
    twins.subs.get(random.below(4) as usize).copied()
}

fn unsubscribed(rt: &impl Abort, random: &mut Random, twins: &mut Twins) -> Result<Seen, Fault> {
    match one_of(random, twins) {
        Some(sub) => {
            unsubscribe(rt, twins, sub)?;
            twins.subs.retain(|kept| *kept != sub);
            Ok(Seen::Unsubscribe)
        }
        None => Ok(Seen::Nothing),
    }
}

pub(crate) fn pulled(
    rt: &impl Abort,
    random: &mut Random,
    twins: &mut Twins,
) -> Result<Seen, Fault> {
    match one_of(random, twins) {
        Some(sub) => {
            pull(rt, twins, sub)?;
            Ok(Seen::Pull)
        }
        None => Ok(Seen::Nothing),
    }
}

/// The message by which the ID 256 comes to stand for one of three, and for which.
fn definition(random: &mut Random) -> (&'static [u8], Known) {
    match random.below(3) {
        0 => (WITHDRAWAL, Known::Nothing),
        1 => (SOURCES, Known::Sources),
        _ => (DESTINATIONS, Known::Destinations),
    }
}

fn defined(
    rt: &impl Abort,
    alloc: Global,
    random: &mut Random,
    twins: &mut Twins,
) -> Result<Seen, Fault> {
    let before = twins.mine.known;
    let (octets, known) = definition(random);
    hear_mine(rt, alloc, twins, octets)?;
    twins.mine.known = known;
    Ok(if before == known {
        Seen::SameTemplate
    } else {
        Seen::Template
    })
}

fn defined_another(rt: &impl Abort, alloc: Global, twins: &mut Twins) -> Result<Seen, Fault> {
    hear_mine(rt, alloc, twins, ANOTHER_ID)?;
    Ok(Seen::AnotherId)
}

/// The other session's message, of flows.
fn heard(
    rt: &impl Abort,
    alloc: Global,
    random: &mut Random,
    twins: &mut Twins,
) -> Result<Seen, Fault> {
    let message = flows(random, twins.clock);
    let receipt = hear_other(rt, alloc, twins, &message)?;
    Ok(if receipt.cut == 0 {
        Seen::Other
    } else {
        Seen::Cut
    })
}

/// Five messages of the other session, of more flows than may wait.
fn crowded(
    rt: &impl Abort,
    alloc: Global,
    random: &mut Random,
    twins: &mut Twins,
) -> Result<Seen, Fault> {
    let mut crowd = Seen::Other;
    for _ in 0..5 {
        let one = heard(rt, alloc, random, twins)?;
        if one == Seen::Cut {
            crowd = Seen::Cut;
        }
    }
    Ok(crowd)
}

/// One change, and which it was.
pub(crate) fn change(
    rt: &impl Abort,
    alloc: Global,
    random: &mut Random,
    twins: &mut Twins,
) -> Result<Seen, Fault> {
    match random.below(11) {
        0 => edited(rt, random, twins),
        1 => advanced(rt, random, twins),
        2 => subscribed(rt, random, twins),
        3 => subscribed(rt, random, twins),
        4 => unsubscribed(rt, random, twins),
        5 => pulled(rt, random, twins),
        6 => defined(rt, alloc, random, twins),
        7 => defined_another(rt, alloc, twins),
        8 => heard(rt, alloc, random, twins),
        _ => crowded(rt, alloc, random, twins),
    }
}
