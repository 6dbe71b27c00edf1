//! Times that are degraded: worked values, and that a record counts where it started, whatever is shown of its start.
use crate::disclosures::{Case, HTTPS, KEEP, PASS, SIX, Wanted, expect_disclosed};
use crate::groups::add_all;
use crate::tables::read_policy;
use ipfix_session::Session;
use mediator_shares::{InForce, Shares};
use mediator_tables::{RunningGroups, Served, SubId};
use std::alloc::Global;
use std::process::Abort;
use std::test::Fail;

/// The header of a policy whose rules may degrade times.
const TWO: &str = "policy 2\n";

const START_SECONDS: u16 = 150;

const END_SECONDS: u16 = 151;

const START_MILLIS: u16 = 152;

const END_MILLIS: u16 = 153;

const STARTS_300: &[&str] = &[
    PASS,
    "rule for * in * from * to * element flowStartSeconds degrade 300",
    "rule for * in * from * to * element flowStartMilliseconds degrade 300",
    KEEP,
];

const STARTS_A_DAY: &[&str] = &[
    PASS,
    "rule for * in * from * to * element flowStartSeconds degrade 86400",
    "rule for * in * from * to * element flowStartMilliseconds degrade 86400",
    KEEP,
];

const STARTS_1: &[&str] = &[
    PASS,
    "rule for * in * from * to * element flowStartSeconds degrade 1",
    "rule for * in * from * to * element flowStartMilliseconds degrade 1",
    KEEP,
];

const ENDS_300: &[&str] = &[
    PASS,
    "rule for * in * from * to * element flowEndSeconds degrade 300",
    "rule for * in * from * to * element flowEndMilliseconds degrade 300",
    KEEP,
];

const CASES: &[Case] = &[
    // 1700000399 to 1700000100
    Case {
        name: "seconds",
        rules: STARTS_300,
        fields: &[(START_SECONDS, 4, b"\x65\x53\xf2\x8f")],
        scope: 0,
        wanted: Wanted::Passed(&[(START_SECONDS, 4, b"\x65\x53\xf1\x64")], &[]),
    },
    // 4294967295 to 4294944000
    Case {
        name: "seconds: the last, to a day",
        rules: STARTS_A_DAY,
        fields: &[(START_SECONDS, 4, b"\xff\xff\xff\xff")],
        scope: 0,
        wanted: Wanted::Passed(&[(START_SECONDS, 4, b"\xff\xff\xa5\x00")], &[]),
    },
    // 1700000099 to 1699999800, and 1700000100 as it is
    Case {
        name: "seconds: before a multiple, and at it",
        rules: STARTS_300,
        fields: &[
            (START_SECONDS, 4, b"\x65\x53\xf1\x63"),
            (START_SECONDS, 4, b"\x65\x53\xf1\x64"),
        ],
        scope: 0,
        wanted: Wanted::Passed(
            &[
                (START_SECONDS, 4, b"\x65\x53\xf0\x38"),
                (START_SECONDS, 4, b"\x65\x53\xf1\x64"),
            ],
            &[],
        ),
    },
    Case {
        name: "seconds: as they are, to a second",
        rules: STARTS_1,
        fields: &[(START_SECONDS, 4, b"\x65\x53\xf2\x8f")],
        scope: 0,
        wanted: Wanted::Passed(&[(START_SECONDS, 4, b"\x65\x53\xf2\x8f")], &[]),
    },
    // 1700000399999 to 1700000100000
    Case {
        name: "milliseconds",
        rules: STARTS_300,
        fields: &[(START_MILLIS, 8, b"\x00\x00\x01\x8b\xcf\xeb\x82\x7f")],
        scope: 0,
        wanted: Wanted::Passed(
            &[(START_MILLIS, 8, b"\x00\x00\x01\x8b\xcf\xe6\xee\xa0")],
            &[],
        ),
    },
    // 1700000399999 to 1700000399000
    Case {
        name: "milliseconds: to a second",
        rules: STARTS_1,
        fields: &[(START_MILLIS, 8, b"\x00\x00\x01\x8b\xcf\xeb\x82\x7f")],
        scope: 0,
        wanted: Wanted::Passed(
            &[(START_MILLIS, 8, b"\x00\x00\x01\x8b\xcf\xeb\x7e\x98")],
            &[],
        ),
    },
    // 2^64 - 1 to 18446744073657600000
    Case {
        name: "milliseconds: the last, to a day",
        rules: STARTS_A_DAY,
        fields: &[(START_MILLIS, 8, b"\xff\xff\xff\xff\xff\xff\xff\xff")],
        scope: 0,
        wanted: Wanted::Passed(
            &[(START_MILLIS, 8, b"\xff\xff\xff\xff\xfc\xe7\x48\x00")],
            &[],
        ),
    },
    // A field keeps its place, and neighbours stay as they are.
    Case {
        name: "ends among others",
        rules: ENDS_300,
        fields: &[
            SIX,
            (END_SECONDS, 4, b"\x65\x53\xf2\x8f"),
            (START_SECONDS, 4, b"\x65\x53\xf2\x8f"),
            (END_MILLIS, 8, b"\x00\x00\x01\x8b\xcf\xeb\x82\x7f"),
            HTTPS,
        ],
        scope: 0,
        wanted: Wanted::Passed(
            &[
                SIX,
                (END_SECONDS, 4, b"\x65\x53\xf1\x64"),
                (START_SECONDS, 4, b"\x65\x53\xf2\x8f"),
                (END_MILLIS, 8, b"\x00\x00\x01\x8b\xcf\xe6\xee\xa0"),
                HTTPS,
            ],
            &[],
        ),
    },
];

#[test]
fn degraded_times(rt: HostRuntime) -> Result<(), Fail> {
    expect_disclosed(&rt, rt.alloc(), TWO, CASES)
}

/// Starts are degraded to an hour, in which 1700000399 is 1699999200.
const SUMS: &str = "policy 2
aggregate ports key sourceTransportPort interval 60 grace 5
rule for * in * from * to * element flowStartSeconds degrade 3600
rule for * in * from * to * element flowStartMilliseconds degrade 3600
rule for * in * from * to * aggregate ports
";

/// A message with a template of flow start, in milliseconds, and source port, and a record that starts at 1700000399999.
const IN_MILLIS: &[u8] =
    b"\x00\x0a\x00\x2e\x65\x53\xf3\x00\x00\x00\x00\x00\x00\x00\x00\x07\x00\x02\x00\x10\x01\x00\x00\x02\x00\x98\x00\x08\x00\x07\x00\x02\x01\x00\x00\x0e\x00\x00\x01\x8b\xcf\xeb\x82\x7f\x01\xbb";

/// A message with a template of flow start, in seconds, and source port, and a record that starts at 1700000399.
const IN_SECONDS: &[u8] =
    b"\x00\x0a\x00\x2a\x65\x53\xf3\x00\x00\x00\x00\x00\x00\x00\x00\x07\x00\x02\x00\x10\x01\x00\x00\x02\x00\x96\x00\x04\x00\x07\x00\x02\x01\x00\x00\x0a\x65\x53\xf2\x8f\x01\xbb";

/// The sum of the minute that begins at 1700000340000: port 443, the minute's start and end, no octets, no packets and one flow.
const MINUTE: &[u8] =
    b"\x01\xbb\x00\x00\x01\x8b\xcf\xea\x98\x20\x00\x00\x01\x8b\xcf\xeb\x82\x80\x00\x00\x00\x00\x00\x00\x00\x00\x00\x00\x00\x00\x00\x00\x00\x00\x00\x00\x00\x00\x00\x00\x00\x01";

/// What a message's records add to the sums.
fn shared(alloc: Global, message: &[u8]) -> Result<Shares, Fail> {
    let mut in_force = InForce::since(alloc, read_policy(alloc, SUMS)?, 0)?;
    let read = Session::new(alloc).apply(message)?;
    if read.records.len() > 1 {
        return Err(Fail::new("more than one record"));
    }
    let served = [Served {
        sub: 1,
        name: "acme",
    }];
    Ok(Shares::of_records(alloc, &mut in_force, 7, &read.records, &served, 0)?)
}

/// The sums of a message's records that close up to this time, in milliseconds since 1970.
fn closing(alloc: Global, message: &[u8], time: u64) -> Result<Vec<u8>, Fail> {
    let mut groups = RunningGroups::new(alloc);
    add_all(&mut groups, shared(alloc, message)?)?;
    let mut octets = Vec::new(alloc);
    for closed in &groups.closing(SubId(1), time)?.to_vec(alloc)? {
        for (_, value) in closed.entries() {
            octets.extend_from_slice(value)?;
        }
    }
    Ok(octets)
}

fn expect_minute(rt: &impl Abort, alloc: Global, message: &[u8]) -> Result<(), Fail> {
    let before = closing(alloc, message, 1_700_000_404_999)?;
    assert!(rt; before.is_empty());
    let due = closing(alloc, message, 1_700_000_405_000)?;
    assert!(rt; due.as_slice() == MINUTE);
    Ok(())
}

#[test]
fn sums_by_the_start_that_came(rt: HostRuntime) -> Result<(), Fail> {
    expect_minute(&rt, rt.alloc(), IN_MILLIS)?;
    expect_minute(&rt, rt.alloc(), IN_SECONDS)
}
