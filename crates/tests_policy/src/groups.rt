//! Many groups, which one advance of the clock closes; and many messages that are refused, which leave none.
use ipfix_session::Session;
use mediator_shares::{InForce, Shares};
use mediator_tables::{RunningGroups, Served, SubId, Tally};
use policy_text::Policy;
use std::alloc::{AllocError, Global};
use std::process::Abort;
use std::slice::from_ref;
use std::test::Fail;

const POLICY: &str = "policy 1
aggregate ports key sourceTransportPort interval 60 grace 5
rule for * in * from * to * aggregate ports
";

/// A header and a template of flow start and source port, and the header of a Data Set with 6,250 records.
const BEFORE_RECORDS: &[u8] =
    b"\x00\x0a\xf4\x48\x65\x53\xf1\x00\x00\x00\x00\x00\x00\x00\x00\x07\x00\x02\x00\x10\x01\x00\x00\x02\x00\x98\x00\x08\x00\x07\x00\x02\x01\x00\xf4\x28";

/// A message of 6,250 records that start in this minute, each from a port of its own.
fn message(alloc: Global, minute: u8) -> Result<Vec<u8>, AllocError> {
    let mut octets = Vec::new(alloc);
    octets.extend_from_slice(BEFORE_RECORDS)?;
    let start = u64::from(minute) * 60_000;
    for port in 0..6250_u16 {
        octets.extend_from_slice(&start.to_be_bytes())?;
        octets.extend_from_slice(&port.to_be_bytes())?;
    }
    Ok(octets)
}

/// What the records of a message add to the aggregates of one subscription.
fn shared(alloc: Global, in_force: &mut InForce, message: &[u8]) -> Result<Shares, Fail> {
    let read = Session::new(alloc).apply(message)?;
    if read.records.len() > 6250 {
        return Err(Fail::new("too many records"));
    }
    let served = [Served {
        sub: 1,
        name: "acme",
    }];
    Ok(Shares::of_records(alloc, in_force, 7, &read.records, &served, 0)?)
}

/// Adds what a message adds for one subscription.
fn add(groups: &mut RunningGroups, tally: &Tally) -> Result<(), AllocError> {
    let reserved = groups.reserve(from_ref(tally))?;
    groups.add_reserved(reserved);
    Ok(())
}

/// Adds what a message's records add to the sums.
pub(crate) fn add_all(groups: &mut RunningGroups, found: Shares) -> Result<(), AllocError> {
    for tally in found.tallies {
        add(groups, &tally)?;
    }
    Ok(())
}

#[test]
fn one_advance_closes_a_hundred_thousand_groups(rt: HostRuntime) -> Result<(), Fail> {
    let mut in_force = InForce::since(rt.alloc(), Policy::parse(rt.alloc(), POLICY)?, 0)?;
    let mut groups = RunningGroups::new(rt.alloc());
    for minute in 0..16 {
        let message = message(rt.alloc(), minute)?;
        add_all(&mut groups, shared(rt.alloc(), &mut in_force, &message)?)?;
    }
    assert_eq!(rt; groups.closing(SubId(1), 64_999)?.len(), 0);
    assert_eq!(rt; groups.closing(SubId(1), 965_000)?.len(), 100_000);
    groups.close(905_000);
    assert_eq!(rt; groups.closing(SubId(1), 965_000)?.len(), 6250);
    groups.remove(SubId(1));
    assert_eq!(rt; groups.closing(SubId(1), 965_000)?.len(), 0);
    Ok(())
}

/// Makes ready for what a message adds, and adds nothing.
fn refuse_all(groups: &mut RunningGroups, found: Shares) -> Result<(), AllocError> {
    let _reserved = groups.reserve(&found.tallies)?;
    Ok(())
}

/// Makes ready for what a message of each record of `tally` alone adds, and adds nothing.
fn refuse_each(alloc: Global, groups: &mut RunningGroups, tally: Tally) -> Result<(), AllocError> {
    let Tally { sub, counts } = tally;
    for count in counts {
        let mut alone = Vec::with_capacity(alloc, 1)?;
        alone.push_reserved(count);
        let one = Tally { sub, counts: alone };
        let _reserved = groups.reserve(from_ref(&one))?;
    }
    Ok(())
}

fn refuse_one_by_one(
    alloc: Global,
    groups: &mut RunningGroups,
    found: Shares,
) -> Result<(), AllocError> {
    for tally in found.tallies {
        refuse_each(alloc, groups, tally)?;
    }
    Ok(())
}

#[test]
fn a_hundred_thousand_refused_messages_leave_no_group(rt: HostRuntime) -> Result<(), Fail> {
    let mut in_force = InForce::since(rt.alloc(), Policy::parse(rt.alloc(), POLICY)?, 0)?;
    let mut groups = RunningGroups::new(rt.alloc());
    for minute in 0..16 {
        let message = message(rt.alloc(), minute)?;
        refuse_one_by_one(
            rt.alloc(),
            &mut groups,
            shared(rt.alloc(), &mut in_force, &message)?,
        )?;
    }
    // That of the last one goes with the next.
    assert_eq!(rt; groups.len(SubId(1)), 1);
    groups.release();
    assert_eq!(rt; groups.len(SubId(1)), 0);
    Ok(())
}

#[test]
fn what_was_refused_is_dropped_and_what_was_added_stays(rt: HostRuntime) -> Result<(), Fail> {
    let mut in_force = InForce::since(rt.alloc(), Policy::parse(rt.alloc(), POLICY)?, 0)?;
    let mut groups = RunningGroups::new(rt.alloc());
    let accepted = message(rt.alloc(), 7)?;
    add_all(&mut groups, shared(rt.alloc(), &mut in_force, &accepted)?)?;
    let refused = message(rt.alloc(), 8)?;
    refuse_all(&mut groups, shared(rt.alloc(), &mut in_force, &refused)?)?;
    assert_eq!(rt; groups.len(SubId(1)), 12_500);
    groups.close(0);
    assert_eq!(rt; groups.len(SubId(1)), 6250);
    assert_eq!(rt; groups.closing(SubId(1), 545_000)?.len(), 6250);
    Ok(())
}
