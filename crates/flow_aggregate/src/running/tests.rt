//! What is kept of groups are their sums, and no records: these name all fields by their types, so that nothing else compiles.
use crate::agenda::Agenda;
use crate::group::Group;
use crate::running::Running;
use crate::sums::Sums;
use hash_keys::HashKeys;
use indexmap::IndexMap;
use std::collections::BTreeMap;
use std::process::Abort;
use std::test::Fail;

/// All that is kept.
fn kept(running: &Running) -> (&IndexMap<Group, Sums, HashKeys>, usize, &Agenda) {
    match running {
        Running {
            alloc: _,
            groups,
            counted,
            agenda,
        } => (groups, *counted, agenda),
    }
}

/// All that is kept of when groups close.
fn lists(agenda: &Agenda) -> &BTreeMap<u64, Vec<Group>> {
    match agenda {
        Agenda { alloc: _, by_time } => by_time,
    }
}

/// All that is kept of a group.
fn numbers(sums: Sums) -> (u64, u64, u64) {
    let Sums {
        octets,
        packets,
        flows,
    } = sums;
    (octets, packets, flows)
}

#[test]
fn a_new_one_keeps_no_sums(rt: HostRuntime) -> Result<(), Fail> {
    let running = Running::new(rt.alloc());
    let (groups, counted, agenda) = kept(&running);
    assert!(rt; groups.is_empty());
    assert!(rt; counted == 0);
    assert!(rt; lists(agenda).is_empty());
    assert!(rt; numbers(Sums::none()) == (0, 0, 0));
    Ok(())
}
