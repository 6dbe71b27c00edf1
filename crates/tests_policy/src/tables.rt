//! What a table of rules decides, and the classes of addresses, by worked rows.
use crate::random::agreed;
use crate::records::{DESTINATION_IPV4, Field, SOURCE_IPV4, SOURCE_IPV6, SOURCE_PORT, built};
use policy_judge::Side;
use policy_text::Policy;
use rule_table::{AddressClasses, RuleTable};
use std::alloc::Global;
use std::process::Abort;
use std::test::Fail;

/// Inside 192.0.2.0/24, which begins and ends before the other two.
const INSIDE: Field = (SOURCE_IPV4, 4, b"\xc0\x00\x02\x4d");

const BEHIND: Field = (SOURCE_IPV4, 4, b"\xcb\x00\x71\x05");

const BEHIND6: Field = (
    SOURCE_IPV6,
    16,
    b"\xff\xff\xff\xff\xff\xff\xff\xff\xff\xff\xff\xff\xff\xff\xff\xff",
);

/// From 192.0.2.77 to 198.51.100.9.
const FLOW: &[Field] = &[
    INSIDE,
    (DESTINATION_IPV4, 4, b"\xc6\x33\x64\x09"),
    (SOURCE_PORT, 2, b"\x01\xbb"),
];

/// From 192.0.2.77 and from 203.0.113.5.
const SOURCES: &[Field] = &[INSIDE, BEHIND];

/// Rules, the fields of a record, and the number of the rule that decides on it: the first one that matches, wherever it stands
/// in the table. Of two sources one inside a prefix is enough to deny, and not to permit.
static DECIDING: [(&str, &[Field], u32); 12] = [
    (
        "rule for * in * from 192.0.2.0/24 to * withhold\nrule for * in * from * to * pass\n",
        FLOW,
        1,
    ),
    (
        "rule for * in * from * to * pass\nrule for acme in 7 from 192.0.2.77/32 to * withhold\n",
        FLOW,
        1,
    ),
    (
        "rule for * in * from 192.0.0.0/16 to * pass\nrule for * in * from 192.0.2.0/24 to * withhold\n",
        FLOW,
        1,
    ),
    (
        "rule for * in * from 192.0.3.0/24 to * pass\nrule for * in * from * to 198.51.100.0/24 pass\n",
        FLOW,
        2,
    ),
    (
        "rule for * in * from * to 192.0.2.0/24 pass\nrule for * in * from 198.51.100.0/24 to * pass\n",
        FLOW,
        0,
    ),
    (
        "rule for bolt in * from 192.0.2.0/24 to * pass\nrule for acme in 8 from * to * pass\nrule for acme in 7 from * to * pass\n",
        FLOW,
        3,
    ),
    (
        "rule for * in * from * to * element * keep\nrule for * in 7 from * to * pass\nrule for acme in * from * to * withhold\n",
        FLOW,
        2,
    ),
    (
        "rule for * in * from ::/0 to * pass\nrule for * in * from 0.0.0.0/0 to 0.0.0.0/0 pass\n",
        FLOW,
        2,
    ),
    ("rule for * in * from 192.0.2.0/24 to * pass\n", SOURCES, 0),
    (
        "rule for * in * from 192.0.2.0/24 to * pass\nrule for * in * from 192.0.2.0/24 to * withhold\n",
        SOURCES,
        2,
    ),
    (
        "rule for * in * from 203.0.113.0/24 to * withhold\nrule for * in * from * to * pass\n",
        SOURCES,
        1,
    ),
    (
        "rule for * in * from 192.0.2.0/24 to * pass\nrule for * in * from 0.0.0.0/0 to * pass\n",
        SOURCES,
        2,
    ),
];

/// A policy of these lines.
pub(crate) fn policy_of(alloc: Global, lines: &str) -> Result<Policy, Fail> {
    let text = format!(in alloc; "policy 1\n{lines}")?;
    read_policy(alloc, text.as_str())
}

/// The policy of a text with its header.
pub(crate) fn read_policy(alloc: Global, text: &str) -> Result<Policy, Fail> {
    match Policy::parse(alloc, text) {
        Ok(policy) => Ok(policy),
        Err(_) => Err(Fail::new("no policy")),
    }
}

/// The rule that decides on a record of these fields; the table and the walk agree on it.
fn deciding(rt: &impl Abort, alloc: Global, rules: &str, fields: &[Field]) -> Result<u32, Fail> {
    let policy = policy_of(alloc, rules)?;
    let flow_record = built(alloc, fields, 0)?;
    let table = RuleTable::build(alloc, &policy)?;
    let (rule, _) = agreed(rt, alloc, &policy, &table, "acme", 7, &flow_record)?;
    Ok(rule)
}

#[test]
fn first_rule_decides(rt: HostRuntime) -> Result<(), Fail> {
    for (rules, fields, due) in &DECIDING {
        let rule = deciding(&rt, rt.alloc(), rules, fields)?;
        assert!(rt; rule == *due, "{rules}");
    }
    Ok(())
}

/// The classes of a policy of one rule with these prefixes.
fn classes_of(alloc: Global, from: &str, to: &str) -> Result<AddressClasses, Fail> {
    let rule = format!(in alloc; "rule for * in * from {from} to {to} pass\n")?;
    let policy = policy_of(alloc, rule.as_str())?;
    Ok(AddressClasses::of_rules(alloc, policy.rules())?)
}

const LOWEST4: Field = (SOURCE_IPV4, 4, b"\0\0\0\0");

const HIGHEST4: Field = (SOURCE_IPV4, 4, b"\xff\xff\xff\xff");

const LOWEST6: Field = (SOURCE_IPV6, 16, b"\0\0\0\0\0\0\0\0\0\0\0\0\0\0\0\0");

const NEXT_TO_HIGHEST6: Field = (
    SOURCE_IPV6,
    16,
    b"\xff\xff\xff\xff\xff\xff\xff\xff\xff\xff\xff\xff\xff\xff\xff\xfe",
);

const FIRST: Field = (SOURCE_IPV4, 4, b"\xc0\x00\x02\x00");

const LAST: Field = (SOURCE_IPV4, 4, b"\xc0\x00\x02\xff");

const AFTER: Field = (SOURCE_IPV4, 4, b"\xc0\x00\x03\x00");

/// A prefix, two addresses, and whether they are of one class: a class ends where a prefix begins or ends.
static PAIRS: [(&str, Field, Field, bool); 9] = [
    (
        "192.0.2.0/24",
        (SOURCE_IPV4, 4, b"\xc0\x00\x01\xff"),
        FIRST,
        false,
    ),
    ("192.0.2.0/24", FIRST, LAST, true),
    ("192.0.2.0/24", LAST, AFTER, false),
    ("192.0.2.0/24", AFTER, HIGHEST4, true),
    ("0.0.0.0/0", LOWEST4, HIGHEST4, true),
    (
        "255.255.255.255/32",
        (SOURCE_IPV4, 4, b"\xff\xff\xff\xfe"),
        HIGHEST4,
        false,
    ),
    ("::/0", LOWEST6, BEHIND6, true),
    (
        "ffff:ffff:ffff:ffff:ffff:ffff:ffff:ffff/128",
        NEXT_TO_HIGHEST6,
        BEHIND6,
        false,
    ),
    ("::/0", LOWEST4, LOWEST6, false),
];

/// The key of a source.
fn key_of(alloc: Global, classes: &AddressClasses, source: Field) -> Result<Option<u64>, Fail> {
    let flow_record = built(alloc, &[source], 0)?;
    Ok(classes.key(Side::Source, &flow_record))
}

/// Whether two sources are of one class, by a rule with this prefix.
fn are_alike(alloc: Global, prefix: &str, one: Field, other: Field) -> Result<bool, Fail> {
    let classes = classes_of(alloc, prefix, "*")?;
    let key = key_of(alloc, &classes, one)?;
    Ok(key.is_some() && key == key_of(alloc, &classes, other)?)
}

#[test]
fn bounds_of_prefixes(rt: HostRuntime) -> Result<(), Fail> {
    for (prefix, one, other, same) in &PAIRS {
        let alike = are_alike(rt.alloc(), prefix, *one, *other)?;
        assert!(rt; alike == *same, "{prefix}");
    }
    Ok(())
}

/// A destination in front of the prefix, and two sources.
const BOTH_SIDES: &[Field] = &[(DESTINATION_IPV4, 4, b"\x0a\x00\x00\x01"), INSIDE, BEHIND];

/// Fields of a record, and the key of a side: each address has its digit, in the order of the fields; four have no key.
static KEYS: [(&[Field], Side, Option<u64>); 6] = [
    (BOTH_SIDES, Side::Source, Some(0x1_0003_0005)),
    (BOTH_SIDES, Side::Destination, Some(0x1_0001)),
    (&[BEHIND, INSIDE], Side::Source, Some(0x1_0005_0003)),
    (&[BEHIND, INSIDE], Side::Destination, Some(1)),
    (
        &[INSIDE, BEHIND6, INSIDE],
        Side::Source,
        Some(0x1_0003_0006_0003),
    ),
    (&[INSIDE, BEHIND, BEHIND6, INSIDE], Side::Source, None),
];

#[test]
fn several_addresses(rt: HostRuntime) -> Result<(), Fail> {
    let alloc = rt.alloc();
    let classes = classes_of(alloc, "*", "192.0.2.0/24")?;
    for (fields, side, due) in &KEYS {
        let key = classes.key(*side, &built(alloc, fields, 0)?);
        assert!(rt; key == *due, "{key:?}");
    }
    Ok(())
}
