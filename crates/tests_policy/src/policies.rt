//! Texts from outside and what they are: the fault of each, or what it prints; and printed texts of faults.
use policy_text::{Fault as PolicyFault, FaultKind, Policy, Version, is_name};
use std::fmt::Write;
use std::test::Fail;

/// Texts and their faults, as an independent reading has them; then the worked bad lines, one after `policy 1`; texts without
/// a header; and what the versions are to times.
static FAULTS: [(&str, usize, FaultKind); 49] = [
    (
        "policy 1\naggregate web key destinationTransportPort interval 300 grace 60\nrule for * in 0 from 2001:db8::/129 to :::/0 element * keep\nrule\tfor\t*\tin\t0\tfrom\t192.0.2.0/24\tto\t*\tpass\nrule for * in 0 from 192.0.2.0/24 to 192.0.2.0/24 element * truncate 49\n",
        3,
        FaultKind::BadPrefix,
    ),
    (
        "policy 1\nrule for a in 0 from 192.0.2.0/24 to 192.0.2.0/24 pass\naggregate web key destinationTransportPort interval  grace 99999999999999999999999\nrule for * in 0 from :/0 to 192.0.2.0/24 aggregate web\n",
        3,
        FaultKind::BadNumber,
    ),
    (
        "policy 1\nrule for * in 4294967295 from 192.0.2.0/24 to 192.0.2.0/24 element * degrade 5\naggregate web key destinationTransportPort interval  grace 1\r\n",
        2,
        FaultKind::UnknownWord,
    ),
    (
        "policy 1 1\nrule for a in 0 from 2001:db8::/1000 to 192.0.2.0/24 pass\naggregate w2 key destinationTransportPort interval 1 grace 0\naggregate  W  key  flowId  interval  1  grace  0\nrule for 9a in 0 from 192.0.2.0/24 to 192.0.2.0/24 aggregate web\n\n",
        1,
        FaultKind::NoHeader,
    ),
    (
        "policy 1\nrule for * in x from 192.0.2.0/24 to 192.0.2.0/24 element interfacename truncate 49\nrule for a in 0 from 192.0.2.0/24 to ::ffff:1.2.3.4/128 pass pass\naggregate web key destinationTransportPort interval 86400 grace x\n",
        2,
        FaultKind::BadNumber,
    ),
    (
        " policy\t1 \naggregate web key destinationTransportPort interval 1 grace 0\naggregate W key destinationTransportPort interval 1 grace 0",
        3,
        FaultKind::BadName,
    ),
    (
        "policy 1\naggregate w3 key destinationTransportPort interval 1 grace 0\naggregate w3 key e300 interval 1 grace 0\n",
        3,
        FaultKind::DoubleAggregate,
    ),
    (
        "policy 1\naggregate web key destinationTransportPort interval 300 grace 60\nrule for a in 0 from 2001:db8::/32 to 10.0.0.00/32 aggregate web\naggregate web key destinationTransportPort interval 300 grace 60\naggregate web key destinationTransportPort interval 300 grace 60\n\n",
        3,
        FaultKind::BadPrefix,
    ),
    (
        "policy 1\naggregate W key destinationTransportPort interval 1 grace 0\nrule for * in 0 from 192.0.2.0/24 to * element e01/1 truncate 49\nrule for * in 0 from 192.0.2.0/24 to 192.0.2.0/24 element e1/2 keep\r\n",
        2,
        FaultKind::BadName,
    ),
    (
        "policy 1\naggregate web key destinationTransportPort interval 300 grace 60\naggregate web key destinationTransportPort interval 300 grace 60\n#",
        3,
        FaultKind::DoubleAggregate,
    ),
    (
        "policy 1\naggregate web key flowId interval x grace 0\r\n",
        2,
        FaultKind::BadKey,
    ),
    (
        "policy 1\nrule for aaaaaaaaaaaaaaaaaaaaaaaaaaaaaaaa in 0 from 192.0.2.0/24 to 192.0.2.0/24 aggregate web\nrule for * in 0 from 192.0.2.0/24 to 1:2:3:4:5:6:7:8::/128 element * keep\n",
        2,
        FaultKind::UnknownAggregate,
    ),
    (
        "policy 1\naggregate web key destinationTransportPort interval 60 grace \naggregate W key destinationTransportPort interval 1 grace 0\nrule for * in 0 from :/0 to 10.0.0.0 aggregate web\naggregate W key destinationTransportPort interval 1 grace 0\r\n",
        2,
        FaultKind::UnknownWord,
    ),
    (
        "policy 1\nrule for * in 0 from * to 192.0.2.0/24 aggregate web\nrule for * in 01 from ::/0 to 10.0.0.0 element * truncate 24\naggregate web key destinationTransportPort interval 300 grace 60\n",
        2,
        FaultKind::UnknownAggregate,
    ),
    (
        "policy 1\naggregate web key e300 interval 1 grace 0\naggregate web key destinationTransportPort interval 300 grace 60\nx\naggregate web key destinationTransportPort interval 86400 grace 86401\naggregate",
        2,
        FaultKind::BadKey,
    ),
    (
        "policy 1\nrule for * in 0 from 192.0.2.0/24 to 192.0.2.0/24 element * truncate 999\naggregate web key destinationTransportPort interval 300 grace 60\nrule for a.b in 01 from 192.0.2.0/24 to 192.0.2.1/24 element * keep\naggregate web key destinationTransportPort interval 0 grace 99999999999999999999999\naggregate web key destinationTransportPort interval 300 grace 60\n\n",
        2,
        FaultKind::BadTruncate,
    ),
    (
        "policy 1\naggregate w2 key destinationTransportPort interval 1 grace 0\nrule for * in 0 from 192.0.2.0/24 to 192.0.2.0/24 element e32 truncate 129\n\n",
        3,
        FaultKind::BadTruncate,
    ),
    (
        " policy\t1 \nrule for * in 0 from 192.0.2.0/24 to 192.0.2.0/24 element * truncate 999\nrule for -a in 7 from 192.0.2.0/24 to 1:2:3:4:5:6:7:8/128 aggregate W\n\n",
        2,
        FaultKind::BadTruncate,
    ),
    (
        "policy 1\nrule for acme in 4294967296 from * to * pass",
        2,
        FaultKind::BadNumber,
    ),
    (
        "policy 1\nrule for acme in * from * to * pass pass",
        2,
        FaultKind::UnknownWord,
    ),
    (
        "policy 1\nrule for acme in * from * to * element e8 keep",
        2,
        FaultKind::BadName,
    ),
    (
        "policy 1\nrule for acme in * from * to * element * truncate 8",
        2,
        FaultKind::BadTruncate,
    ),
    (
        "policy 1\nrule for acme in * from * to * element sourceIPv4Address truncate 33",
        2,
        FaultKind::BadTruncate,
    ),
    (
        "policy 1\nrule for acme in * from * to * element sourceIPv4Address truncate 1000",
        2,
        FaultKind::BadNumber,
    ),
    (
        "policy 1\nrule for acme in * from * to * aggregate web",
        2,
        FaultKind::UnknownAggregate,
    ),
    (
        "policy 1\naggregate a key flowId interval 300 grace 0",
        2,
        FaultKind::BadKey,
    ),
    (
        "policy 1\naggregate a key vlanId,vlanId interval 300 grace 0",
        2,
        FaultKind::BadKey,
    ),
    ("", 1, FaultKind::NoHeader),
    ("policy 3", 1, FaultKind::NoHeader),
    ("policy 3\nrule", 1, FaultKind::NoHeader),
    ("policy 02", 1, FaultKind::NoHeader),
    ("policy 2 2", 1, FaultKind::NoHeader),
    ("policy", 1, FaultKind::NoHeader),
    (
        "policy 1\nrule for a in * from 192.0.2.1/24 to * pass",
        2,
        FaultKind::BadPrefix,
    ),
    ("policy 2\nrule", 2, FaultKind::UnknownWord),
    ("policy 2\npolicy 2", 2, FaultKind::UnknownWord),
    (
        "policy 1\nrule for * in * from * to * element flowStartSeconds degrade 300",
        2,
        FaultKind::UnknownWord,
    ),
    (
        "policy 1\nrule for * in * from * to * element flowId degrade 5",
        2,
        FaultKind::UnknownWord,
    ),
    (
        "policy 2\nrule for * in * from * to * element flowId degrade 5",
        2,
        FaultKind::BadDegrade,
    ),
    (
        "policy 2\nrule for * in * from * to * element * degrade 5",
        2,
        FaultKind::BadDegrade,
    ),
    (
        "policy 2\nrule for * in * from * to * element sourceIPv4Address degrade",
        2,
        FaultKind::BadDegrade,
    ),
    (
        "policy 2\nrule for * in * from * to * element flowStartSeconds degrade",
        2,
        FaultKind::UnknownWord,
    ),
    (
        "policy 2\nrule for * in * from * to * element flowStartSeconds degrade 0",
        2,
        FaultKind::BadNumber,
    ),
    (
        "policy 2\nrule for * in * from * to * element flowEndSeconds degrade 86401",
        2,
        FaultKind::BadNumber,
    ),
    (
        "policy 2\nrule for * in * from * to * element flowEndMilliseconds degrade 05",
        2,
        FaultKind::BadNumber,
    ),
    (
        "policy 2\nrule for * in * from * to * element flowStartMilliseconds degrade 5 5",
        2,
        FaultKind::UnknownWord,
    ),
    (
        "policy 2\nrule for * in * from * to * element flowStartSeconds truncate 8",
        2,
        FaultKind::BadTruncate,
    ),
    (
        "policy 2\nrule for * in * from x to * element * degrade 0",
        2,
        FaultKind::BadPrefix,
    ),
    (
        "policy 2\nrule for * in * from * to * element x degrade 0",
        2,
        FaultKind::BadName,
    ),
];

/// Texts, their versions, how many rules and aggregates they have, and what they print as. But for times, a text of either
/// version is one of the other.
static POLICIES: [(&str, Version, usize, usize, &str); 7] = [
    (
        "\t# a comment\r\n\r\n policy\t1 \r\naggregate web\tkey vlanId,protocolIdentifier interval 300 grace 60\r\n#\nrule for acme in 7 from 2001:DB8::/32 to 192.0.2.0/24 aggregate web\r\nrule for * in * from * to * element sourceIPv4Address truncate 24",
        Version::One,
        2,
        1,
        "policy 1\naggregate web key vlanId,protocolIdentifier interval 300 grace 60\nrule for acme in 7 from 2001:db8:0:0:0:0:0:0/32 to 192.0.2.0/24 aggregate web\nrule for * in * from * to * element sourceIPv4Address truncate 24\n",
    ),
    ("policy 1\n", Version::One, 0, 0, "policy 1\n"),
    ("policy 2", Version::Two, 0, 0, "policy 2\n"),
    (
        "policy 1\naggregate w2 key destinationTransportPort interval 1 grace 0\nrule for * in 7 from 1:2:3:4:5:6:7::/112 to 192.0.2.0/24 element e1/2 keep\n",
        Version::One,
        1,
        1,
        "policy 1\naggregate w2 key destinationTransportPort interval 1 grace 0\nrule for * in 7 from 1:2:3:4:5:6:7:0/112 to 192.0.2.0/24 element e1/2 keep\n",
    ),
    (
        "#\n\tpolicy  2\r\naggregate w2 key destinationTransportPort interval 1 grace 0\nrule for * in 7 from * to * element sourceIPv4Address truncate 24",
        Version::Two,
        1,
        1,
        "policy 2\naggregate w2 key destinationTransportPort interval 1 grace 0\nrule for * in 7 from * to * element sourceIPv4Address truncate 24\n",
    ),
    (
        "policy 2\nrule for * in * from * to * element flowStartSeconds degrade 300\nrule for acme in 7 from * to * element flowEndSeconds\tdegrade 86400",
        Version::Two,
        2,
        0,
        "policy 2\nrule for * in * from * to * element flowStartSeconds degrade 300\nrule for acme in 7 from * to * element flowEndSeconds degrade 86400\n",
    ),
    (
        "policy 2\nrule for * in * from * to * element flowStartMilliseconds degrade 1\nrule for * in * from 192.0.2.0/24 to * element flowEndMilliseconds degrade 300\nrule for * in * from * to * pass\n",
        Version::Two,
        3,
        0,
        "policy 2\nrule for * in * from * to * element flowStartMilliseconds degrade 1\nrule for * in * from 192.0.2.0/24 to * element flowEndMilliseconds degrade 300\nrule for * in * from * to * pass\n",
    ),
];

#[test]
fn faults_from_outside(rt: HostRuntime) {
    for (text, line, kind) in &FAULTS {
        let found = Policy::parse(rt.alloc(), text).err();
        let due = PolicyFault {
            line: *line,
            kind: *kind,
        };
        assert!(rt; found == Some(due), "{found:?} of {text}");
    }
}

#[test]
fn policies(rt: HostRuntime) -> Result<(), Fail> {
    for (text, version, rules, aggregates, printed) in &POLICIES {
        let policy = Policy::parse(rt.alloc(), text)?;
        assert!(rt; policy.version() == *version, "version of {text}");
        assert!(rt; policy.rules().len() == *rules, "rules of {text}");
        assert!(rt;
            policy.aggregates().len() == *aggregates,
            "aggregates of {text}"
        );
        assert_eq!(rt; policy.print(rt.alloc())?.as_str(), *printed);
    }
    Ok(())
}

/// As many aggregates as there may be, and one more line that begins as one.
#[test]
fn most_aggregates(rt: HostRuntime) -> Result<(), Fail> {
    let mut text = String::from_str(rt.alloc(), "policy 1\n")?;
    for place in 0..256u32 {
        write!(text, "aggregate a{place} key vlanId interval 1 grace 0\n")?;
    }
    let policy = Policy::parse(rt.alloc(), text.as_str())?;
    assert!(rt; policy.aggregates().len() == 256);
    text.push_str("aggregate")?;
    let fault = PolicyFault {
        line: 258,
        kind: FaultKind::TooMany,
    };
    let found = Policy::parse(rt.alloc(), text.as_str()).err();
    assert!(rt; found == Some(fault), "{found:?}");
    Ok(())
}

static NAMES: [(&str, bool); 10] = [
    ("a", true),
    ("acme-2_x", true),
    ("abcdefghijklmnopqrstuvwxyz012345", true),
    ("abcdefghijklmnopqrstuvwxyz0123456", false),
    ("", false),
    ("Acme", false),
    ("9a", false),
    ("-a", false),
    ("a.b", false),
    ("*", false),
];

#[test]
fn names(rt: HostRuntime) {
    for (text, want) in &NAMES {
        assert_eq!(rt; is_name(text), *want, "of {text}");
    }
}

static KINDS: [(FaultKind, &str); 12] = [
    (FaultKind::NoHeader, "NoHeader"),
    (FaultKind::UnknownWord, "UnknownWord"),
    (FaultKind::BadName, "BadName"),
    (FaultKind::BadNumber, "BadNumber"),
    (FaultKind::BadPrefix, "BadPrefix"),
    (FaultKind::BadTruncate, "BadTruncate"),
    (FaultKind::UnknownAggregate, "UnknownAggregate"),
    (FaultKind::DoubleAggregate, "DoubleAggregate"),
    (FaultKind::BadKey, "BadKey"),
    (FaultKind::TooMany, "TooMany"),
    (FaultKind::OutOfMemory, "OutOfMemory"),
    (FaultKind::BadDegrade, "BadDegrade"),
];

#[test]
fn texts_of_faults(rt: HostRuntime) -> Result<(), Fail> {
    for (kind, want) in &KINDS {
        let fault = PolicyFault {
            line: 3,
            kind: *kind,
        };
        assert_eq!(rt; format!(in rt.alloc(); "{fault}")?.as_str(), *want);
    }
    Ok(())
}
