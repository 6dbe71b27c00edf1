//! Worked cases of disclosure.
use crate::records::{Field, SOURCE_IPV4, SOURCE_PORT, built};
use crate::tables::read_policy;
use flow_anonymize::{Disclosure, Reason, RemovedField, disclose, disclose_by};
use ipfix_template::Record;
use policy_text::Policy;
use rule_table::RuleTable;
use std::alloc::Global;
use std::process::Abort;
use std::sync::Arc;
use std::test::Fail;

const OCTETS: u16 = 1;

const PROTOCOL: u16 = 4;

const INGRESS: u16 = 10;

const EGRESS: u16 = 14;

const NAME: u16 = 82;

/// Where a value brings its own length.
const VARIABLE: u16 = 65535;

const AGGREGATES: &str =
    "aggregate old key vlanId interval 1 grace 0\naggregate web key vlanId interval 1 grace 0\n";

/// The header of a policy.
const ONE: &str = "policy 1\n";

pub(crate) const PASS: &str = "rule for * in * from * to * pass";

pub(crate) const KEEP: &str = "rule for * in * from * to * element * keep";

/// What is to be disclosed to acme.
pub(crate) enum Wanted {
    /// Nothing, by this rule, for this reason.
    Withheld(u32, Reason),
    /// These fields, where these places were removed by these rules.
    Passed(&'static [Field], &'static [RemovedField]),
    /// A part of the aggregate at this place, by this rule.
    Aggregated(u32, usize),
}

/// A policy's rules, a record whose first `scope` fields are scope fields, and what of it is disclosed.
pub(crate) struct Case {
    pub name: &'static str,
    pub rules: &'static [&'static str],
    pub fields: &'static [Field],
    pub scope: u16,
    pub wanted: Wanted,
}

const NEAR: Field = (SOURCE_IPV4, 4, b"\xc0\x00\x02\x01");

const ADDRESS: Field = (SOURCE_IPV4, 4, b"\xc0\x00\x02\x4d");

pub(crate) const SIX: Field = (PROTOCOL, 1, b"\x06");

pub(crate) const HTTPS: Field = (SOURCE_PORT, 2, b"\x01\xbb");

const SHORT_PORT: Field = (SOURCE_PORT, 1, b"\x35");

const FIVE: Field = (INGRESS, 4, b"\x00\x00\x00\x05");

const NINE: Field = (EGRESS, 1, b"\x09");

const ETH0: Field = (NAME, VARIABLE, b"eth0");

const NO_NAME: Field = (NAME, 0, b"");

const CASES: &[Case] = &[
    Case {
        name: "nothing_left: one field",
        rules: &[
            PASS,
            "rule for * in * from * to * element protocolIdentifier remove",
            KEEP,
        ],
        fields: &[NO_NAME, SIX],
        scope: 0,
        wanted: Wanted::Withheld(2, Reason::Empty),
    },
    // Where no rule on fields matches, rule 0 removes.
    Case {
        name: "nothing_left: nothing kept",
        rules: &[PASS],
        fields: &[NO_NAME, SIX],
        scope: 0,
        wanted: Wanted::Withheld(0, Reason::Empty),
    },
    Case {
        name: "scope_lost: options",
        rules: &[
            PASS,
            "rule for * in * from * to * element ingressInterface remove",
            KEEP,
        ],
        fields: &[FIVE, ETH0],
        scope: 1,
        wanted: Wanted::Withheld(2, Reason::ScopeLost),
    },
    Case {
        name: "scope_lost: plain",
        rules: &[
            PASS,
            "rule for * in * from * to * element ingressInterface remove",
            KEEP,
        ],
        fields: &[FIVE, ETH0],
        scope: 0,
        wanted: Wanted::Passed(&[ETH0], &[RemovedField { place: 0, rule: 2 }]),
    },
    // The first removed scope field names the rule, and a lost scope comes before an empty record.
    Case {
        name: "scope_lost: the first removed field, and empty",
        rules: &[
            PASS,
            "rule for * in * from * to * element egressInterface remove",
            "rule for * in * from * to * element ingressInterface remove",
        ],
        fields: &[FIVE, NINE, ETH0],
        scope: 2,
        wanted: Wanted::Withheld(3, Reason::ScopeLost),
    },
    Case {
        name: "options_records: whole",
        rules: &[PASS, KEEP],
        fields: &[FIVE, ETH0],
        scope: 1,
        wanted: Wanted::Passed(&[FIVE, ETH0], &[]),
    },
    Case {
        name: "options_records: removed first",
        rules: &[
            PASS,
            "rule for * in * from * to * element interfaceName remove",
            KEEP,
        ],
        fields: &[FIVE, ETH0],
        scope: 1,
        wanted: Wanted::Passed(&[FIVE], &[RemovedField { place: 1, rule: 2 }]),
    },
    Case {
        name: "truncate_and_remove",
        rules: &[
            PASS,
            "rule for * in * from * to * element sourceIPv4Address truncate 24",
            "rule for * in * from * to * element sourceTransportPort remove",
            KEEP,
        ],
        fields: &[ADDRESS, HTTPS, (OCTETS, 4, b"\x00\x00\x05\xdc")],
        scope: 0,
        wanted: Wanted::Passed(
            &[
                (SOURCE_IPV4, 4, b"\xc0\x00\x02\x00"),
                (OCTETS, 4, b"\x00\x00\x05\xdc"),
            ],
            &[RemovedField { place: 1, rule: 3 }],
        ),
    },
    Case {
        name: "aggregated",
        rules: &[
            "rule for * in * from * to * element * remove",
            "rule for acme in * from * to * aggregate web",
        ],
        fields: &[SIX],
        scope: 0,
        wanted: Wanted::Aggregated(2, 1),
    },
    // Fields of one element are judged alike; a rule on an enterprise's element does not touch them.
    Case {
        name: "fields_of_their_own",
        rules: &[
            PASS,
            "rule for * in * from * to * element e9/7 keep",
            "rule for other in * from * to * element sourceTransportPort keep",
            "rule for acme in 7 from 192.0.2.0/24 to * element sourceIPv4Address truncate 24",
        ],
        fields: &[SHORT_PORT, NEAR, SHORT_PORT, NEAR],
        scope: 0,
        wanted: Wanted::Passed(
            &[
                (SOURCE_IPV4, 4, b"\xc0\x00\x02\x00"),
                (SOURCE_IPV4, 4, b"\xc0\x00\x02\x00"),
            ],
            &[
                RemovedField { place: 0, rule: 0 },
                RemovedField { place: 2, rule: 0 },
            ],
        ),
    },
];

/// A policy of these rules under a header, which may name the aggregates `old` and `web`.
fn policy_of_rules(alloc: Global, header: &str, rules: &[&str]) -> Result<Policy, Fail> {
    let mut lines = String::from_str(alloc, header)?;
    lines.push_str(AGGREGATES)?;
    for rule in rules {
        lines.push_str(rule)?;
        lines.push_str("\n")?;
    }
    read_policy(alloc, lines.as_str())
}

/// Whether two records have the same scope, fields and values.
fn is_record(kept: &Record, due: &Record) -> bool {
    for ((_, value), (_, octets)) in kept.entries().zip(due.entries()) {
        if value != octets {
            return false;
        }
    }
    kept.template() == due.template()
}

/// Whether what is disclosed is what is to be.
fn is_wanted(alloc: Global, case: &Case, found: &Disclosure<Record>) -> Result<bool, Fail> {
    Ok(match (found, &case.wanted) {
        (Disclosure::Passed { kept, removed }, Wanted::Passed(fields, gone)) => {
            let due = built(alloc, fields, case.scope)?;
            is_record(kept, &due) && removed.as_slice() == *gone
        }
        (Disclosure::Withheld { rule, reason }, Wanted::Withheld(by, why)) => {
            rule == by && reason == why
        }
        (Disclosure::Aggregated { rule, definition }, Wanted::Aggregated(by, place)) => {
            rule == by && definition == place
        }
        _ => false,
    })
}

/// Whether a policy discloses what it is to.
fn policy_discloses(
    alloc: Global,
    case: &Case,
    policy: &Policy,
    flow_record: &Record,
) -> Result<bool, Fail> {
    let found = disclose(alloc, policy, "acme", 7, flow_record)?;
    is_wanted(alloc, case, &found)
}

/// Whether a table of its rules does.
fn table_discloses(
    alloc: Global,
    case: &Case,
    policy: &Policy,
    flow_record: &Record,
) -> Result<bool, Fail> {
    let table = RuleTable::build(alloc, policy)?;
    let found = disclose_by(alloc, &table, "acme", 7, flow_record)?;
    is_wanted(alloc, case, &found)
}

/// Whether both do.
fn both_disclose(alloc: Global, header: &str, case: &Case) -> Result<bool, Fail> {
    let policy = policy_of_rules(alloc, header, case.rules)?;
    let flow_record = built(alloc, case.fields, case.scope)?;
    let by_policy = policy_discloses(alloc, case, &policy, &flow_record)?;
    Ok(by_policy && table_discloses(alloc, case, &policy, &flow_record)?)
}

/// What each case wants is disclosed, by a policy with this header.
pub(crate) fn expect_disclosed(
    rt: &impl Abort,
    alloc: Global,
    header: &str,
    cases: &[Case],
) -> Result<(), Fail> {
    for case in cases {
        assert!(rt; both_disclose(alloc, header, case)?, "{}", case.name);
    }
    Ok(())
}

#[test]
fn disclosures(rt: HostRuntime) -> Result<(), Fail> {
    expect_disclosed(&rt, rt.alloc(), ONE, CASES)
}

/// How many hold the template of a record while it is disclosed by these rules.
fn holders(alloc: Global, rules: &[&str]) -> Result<usize, Fail> {
    let policy = policy_of_rules(alloc, ONE, rules)?;
    let flow_record = built(alloc, &[SIX, HTTPS], 0)?;
    let disclosure = disclose(alloc, &policy, "acme", 7, &flow_record)?;
    let count = Arc::strong_count(flow_record.shared_template());
    drop(disclosure);
    Ok(count)
}

const NO_PORT: &str = "rule for * in * from * to * element sourceTransportPort remove";

/// A record that loses no field shares the template of the one that came in.
#[test]
fn shared_template(rt: HostRuntime) -> Result<(), Fail> {
    assert!(rt; holders(rt.alloc(), &[PASS, KEEP, NO_PORT])? == 2);
    assert!(rt; holders(rt.alloc(), &[PASS, NO_PORT, KEEP])? == 1);
    Ok(())
}
