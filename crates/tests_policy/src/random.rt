//! Random records under random rules: a table and the walk over all rules agree. There are few prefixes and addresses, so that
//! many meet.
ghost use Rattle.std.specs.Prelude.{◌<◌};

use crate::records::{
    DESTINATION_IPV4, DESTINATION_IPV6, SOURCE_IPV4, SOURCE_IPV6, put_field, record_of,
};
use crate::tables::policy_of;
use ipfix_template::Record;
use policy_judge::{element_verdict, record_verdict};
use policy_text::Policy;
use rule_table::RuleTable;
use std::alloc::{AllocError, Global};
use std::process::Abort;
use std::test::Fail;

/// How many records each policy is asked for.
const RECORDS: usize = 50;

const NAMES: &[&str] = &["acme", "bolt", "c3", "*", "*"];

const DOMAINS: &[&str] = &["0", "1", "*", "*", "*"];

const PREFIXES: &[&str] = &[
    "*",
    "*",
    "*",
    "*",
    "0.0.0.0/0",
    "10.0.0.0/8",
    "10.0.0.0/14",
    "10.8.0.0/14",
    "10.4.4.0/22",
    "10.12.0.0/22",
    "10.0.2.0/24",
    "10.8.6.0/24",
    "10.4.2.0/31",
    "10.12.4.2/31",
    "10.0.2.1/32",
    "10.8.0.3/32",
    "::/0",
    "2001:db8::/32",
    "2001:db8:1::/48",
    "2001:db8:3::/48",
    "2001:db8:0:2::/64",
    "2001:db8:2:1::/64",
    "2001:db8:1:3::2/128",
    "2001:db8:2:2::1/128",
];

const ACTIONS: &[&str] = &[
    "pass",
    "withhold",
    "element * keep",
    "element * remove",
    "element sourceIPv4Address truncate 24",
    "element destinationIPv6Address keep",
];

/// A linear congruential generator (Knuth's MMIX).
#[derive(Drop)]
struct Random {
    state: u64,
}

impl Random {
    /// A number below `n`.
    fn below(&mut self, n: u64) -> u64
        requires { 0 < n }
        ensures { result < n }
    {
        self.state = self
            .state
            .wrapping_mul(6_364_136_223_846_793_005)
            .wrapping_add(1_442_695_040_888_963_407);
        (self.state >> 33) % n
    }

    /// One of the words.
    fn pick(&mut self, words: &[&'static str]) -> &'static str {
        let count = words.len() as u64;
        if count == 0 {
            return "*";
        }
        words
            .get(self.below(count) as usize)
            .copied()
            .unwrap_or("*")
    }

    /// An address of 10.0.0.0/8, of 64 that there are.
    fn address4(&mut self) -> [u8; 4] {
        let (high, middle, low) = (self.below(4), self.below(4), self.below(4));
        [10, (4 * high) as u8, (2 * middle) as u8, low as u8]
    }

    /// An address of 2001:db8::/32, of 64 that there are.
    fn address6(&mut self) -> [u8; 16] {
        let mut address = *b"\x20\x01\x0d\xb8\0\0\0\0\0\0\0\0\0\0\0\0";
        address[5] = self.below(4) as u8;
        address[7] = self.below(4) as u8;
        address[15] = self.below(4) as u8;
        address
    }
}

/// The lines of `count` random rules.
fn random_rules(alloc: Global, random: &mut Random, count: usize) -> Result<String, AllocError> {
    let mut lines = String::new(alloc);
    for _ in 0..count {
        for (word, choices) in [
            ("rule for ", NAMES),
            (" in ", DOMAINS),
            (" from ", PREFIXES),
            (" to ", PREFIXES),
            (" ", ACTIONS),
        ] {
            lines.push_str(word)?;
            lines.push_str(random.pick(choices))?;
        }
        lines.push_str("\n")?;
    }
    Ok(lines)
}

/// A record with a source and a destination, perhaps with one of each of IPv6, and perhaps with one source more.
fn random_record(alloc: Global, random: &mut Random) -> Option<Record> {
    let mut specs = Vec::new(alloc);
    let mut values = Vec::new(alloc);
    for number in [SOURCE_IPV4, DESTINATION_IPV4] {
        let value = random.address4();
        put_field(alloc, number, 4, &value, &mut specs, &mut values)?;
    }
    for number in [SOURCE_IPV6, DESTINATION_IPV6] {
        if random.below(2) == 0 {
            let value = random.address6();
            put_field(alloc, number, 16, &value, &mut specs, &mut values)?;
        }
    }
    if random.below(4) == 0 {
        let value = random.address4();
        put_field(alloc, SOURCE_IPV4, 4, &value, &mut specs, &mut values)?;
    }
    record_of(alloc, specs, values, 0)
}

/// The rule that decides on a record, and how many verdicts named a rule, of the record and of its fields. Each is asked of the
/// table and of the walk.
pub(crate) fn agreed(
    rt: &impl Abort,
    alloc: Global,
    policy: &Policy,
    table: &RuleTable,
    name: &str,
    domain: u32,
    flow_record: &Record,
) -> Result<(u32, usize), AllocError> {
    let candidates = table.candidates(alloc, name, domain, flow_record)?;
    let deciding = candidates.record_verdict();
    assert!(rt; deciding == record_verdict(policy, name, domain, flow_record));
    let mut named = usize::from(deciding.rule != 0);
    for field in 0..flow_record.template().fields.as_slice().len() {
        let verdict = candidates.element_verdict(field);
        assert!(rt; verdict == element_verdict(policy, name, domain, flow_record, field));
        assert!(rt; verdict == table.element_verdict(name, domain, flow_record, field));
        named = named.saturating_add(usize::from(verdict.rule != 0));
    }
    Ok((deciding.rule, named))
}

/// How many verdicts named a rule, of random records under one policy.
fn agreed_of_all(
    rt: &impl Abort,
    alloc: Global,
    random: &mut Random,
    policy: &Policy,
) -> Result<usize, Fail> {
    let table = RuleTable::build(alloc, policy)?;
    let mut named = 0usize;
    for _ in 0..RECORDS {
        let Some(flow_record) = random_record(alloc, random) else {
            return Err(Fail::new("no record"));
        };
        let name = random.pick(&["acme", "bolt", "c3"]);
        let domain = random.below(3) as u32;
        let (_, more) = agreed(rt, alloc, policy, &table, name, domain, &flow_record)?;
        named = named.saturating_add(more);
    }
    Ok(named)
}

#[test]
fn table_agrees_with_the_walk(rt: HostRuntime) -> Result<(), Fail> {
    let mut random = Random { state: 20 };
    let mut named = 0usize;
    for count in [1, 7, 40, 300, 1000, 4096] {
        let rules = random_rules(rt.alloc(), &mut random, count)?;
        let policy = policy_of(rt.alloc(), rules.as_str())?;
        let more = agreed_of_all(&rt, rt.alloc(), &mut random, &policy)?;
        named = named.saturating_add(more);
    }
    assert!(rt; named > 600, "only {named} verdicts named a rule");
    Ok(())
}
