//! A policy's rules with an index, by which those are found that may match a record.
ghost use Rattle.std.specs.Prelude.{◌≡◌, ◌≤◌, ◌<◌, ℕ, List, length, filter, IfOk};
ghost use Rattle.ipfix_template.specs.DataRecord.{DataRecord};
ghost use Rattle.policy_judge.specs.Verdicts.{record_verdict_of, element_verdict_of};
ghost use Rattle.policy_judge.specs.declared.occurrences.Side.TheVariants.{Source, Destination};
ghost use Rattle.rule_table.specs.OfPolicy.{AreOfPolicy};
ghost use Rattle.rule_table.specs.Addresses.{addresses_of};
ghost use Rattle.policy_judge.specs.Occurrences.{sources, destinations};
ghost use Rattle.policy_judge.specs.Match.{is_met, are_inside};
ghost use Rattle.rule_table.specs.Candidates.{AreCandidates, AreApplying, passes};
ghost use Rattle.rule_table.specs.Covering.{covers_by, applies_by};

use crate::addresses::{Address, Shape, addresses_of, shapes_of};
use crate::asked::asked;
use crate::candidates::Candidates;
use crate::copies::copied;
use crate::covering::Sorted;
use crate::index::{entries_of, places_under};
use flow_prefix::Prefix;
use ipfix_template::Record;
use policy_judge::{
    ElementVerdict, RecordVerdict, Side, denies, element_verdict_of, is_for, record_verdict_of,
};
use policy_text::{Policy, Rule};
use std::alloc::{AllocError, Global};
use std::marker::Model;

/// Of at most this many rules all are looked at, and also of rules that are fewer than the marks
/// that would be looked up: that costs less than to find those that may match.
const FEW_RULES: usize = 32;

/// The rules of a policy, with an index by which those are found that may match a record. Contracts see the rules.
pub struct RuleTable {
    rules: Vec<Rule>,
    /// The mark under which each rule stands, and its place, as one number, ascending.
    entries: Vec<u128>,
    /// The shapes of the prefixes of sources, each once.
    sources: Vec<Shape>,
    /// The shapes of the prefixes of destinations, each once.
    destinations: Vec<Shape>,
}

impl Drop for RuleTable {
    // Written out: a derived one is proved anew in each crate that drops such a value.
    fn drop(self) {
        let RuleTable {
            rules: _,
            entries: _,
            sources: _,
            destinations: _,
        } = self;
    }
}

impl Model for RuleTable {
    ghost use Rattle.std.specs.Prelude.{List};
    ghost use Rattle.policy_text.specs.declared.rule.Rule.{Rule};
    ghost use Rattle.rule_table.specs.OfPolicy.{AreOfPolicy};
    ghost use Rattle.rule_table.specs.Index.{IsIndex};

    ghost Value = { List Rule };

    ghost view = { λ t. t.rules.items };

    ghost invariant = { λ t. AreOfPolicy t.rules.items
        × IsIndex t.rules.items t.entries.items t.sources.items t.destinations.items };
}

impl RuleTable {
    /// The table of the rules of `policy`. It holds its own copies of them, in memory from `alloc`.
    ///
    /// # Errors
    /// Want of memory.
    pub fn build(alloc: Global, policy: &Policy) -> Result<RuleTable, AllocError>
        ensures { IfOk result (λ table. table ≡ policy.now.rules) }
    {
        let rules = policy.rules();
        let entries = entries_of(alloc, rules)?;
        let sources = shapes_of(alloc, Side::Source, rules)?;
        let destinations = shapes_of(alloc, Side::Destination, rules)?;
        let rules = copied(alloc, rules)?;
        Ok(RuleTable {
            rules,
            entries,
            sources,
            destinations,
        })
    }

    /// The rules, in the order of the policy, at most 4,096.
    pub fn rules(&self) -> &[Rule]
        ensures value { result.now ≡ self.now }
        ensures sound { AreOfPolicy self.now }
        ensures few { length self.now ≤ 4096 }
    {
        self.rules.as_slice()
    }

    /// The verdict on the record `flow_record` of the Observation Domain `domain`, for the
    /// subscriber called `name`, as `policy_judge` gives it. It looks at one rule after another,
    /// and takes no memory.
    pub fn record_verdict(&self, name: &str, domain: u32, flow_record: &Record) -> RecordVerdict
        ensures { result ≡ record_verdict_of name.now domain flow_record.now self.now }
    {
        record_verdict_of(self.rules(), name, domain, flow_record)
    }

    /// The verdict on the field at the place `field`, counted from 0, of the record `flow_record`
    /// of the Observation Domain `domain`, for the subscriber called `name`, as `policy_judge`
    /// gives it. It is for a program that asks for few fields: the others ask
    /// [`candidates`](RuleTable::candidates). It looks at one rule after another, and takes no
    /// memory.
    pub fn element_verdict(
        &self,
        name: &str,
        domain: u32,
        flow_record: &Record,
        field: usize,
    ) -> ElementVerdict
        requires { field < length flow_record.now.template.fields }
        ensures { result ≡ element_verdict_of name.now domain flow_record.now field self.now }
    {
        element_verdict_of(self.rules(), name, domain, flow_record, field)
    }

    /// The rules that may match the record `flow_record` of the Observation Domain `domain`, for
    /// the subscriber called `name`: few of them, to be asked for the verdicts on the record and on
    /// each of its fields. They are in memory from `alloc`.
    ///
    /// # Errors
    /// Want of memory.
    pub fn candidates<'a>(
        &'a self,
        alloc: Global,
        name: &'a str,
        domain: u32,
        flow_record: &'a Record,
    ) -> Result<Candidates<'a>, AllocError>
        ensures { IfOk result (λ candidates. candidates ≡ record {
          rules = self.now;
          name = name.now;
          domain = domain;
          flow_record = flow_record.now;
        }) }
    {
        let rules = self.rules.as_slice();
        let from = addresses_of(alloc, Side::Source, flow_record)?;
        let to = addresses_of(alloc, Side::Destination, flow_record)?;
        let places = self.places(alloc, name, domain, flow_record, &from, &to)?;
        let from = Sorted::of(alloc, Side::Source, flow_record, &from)?;
        let to = Sorted::of(alloc, Side::Destination, flow_record, &to)?;
        let applying = applying(alloc, rules, &places, name, domain, flow_record, &from, &to)?;
        Candidates::new(alloc, rules, name, domain, flow_record, &applying)
    }

    /// The places of the rules that may match, ascending: of all, where they are few, or fewer than the marks of the record.
    fn places(
        &self,
        alloc: Global,
        name: &str,
        domain: u32,
        flow_record: &Record,
        from: &[Address],
        to: &[Address],
    ) -> Result<Vec<usize>, AllocError>
        requires from { from.now ≡ addresses_of Source flow_record.now }
        requires to { to.now ≡ addresses_of Destination flow_record.now }
        ensures { IfOk result (λ places. AreCandidates (record {
          rules = self.now;
          name = name.now;
          domain = domain;
          flow_record = flow_record.now;
        }) places.items) }
    {
        let rules = self.rules();
        let fields = flow_record.template().fields.len();
        if self.are_few(fields, from.len(), to.len()) {
            return all_places(alloc, rules);
        }
        self.marked_places(alloc, name, domain, flow_record, from, to)
    }

    /// Whether all rules are looked at, since they are few, for a record with this many fields,
    /// sources and destinations.
    fn are_few(&self, fields: usize, from: usize, to: usize) -> bool {
        let from = from.saturating_mul(self.sources.len());
        let to = to.saturating_mul(self.destinations.len());
        let marks = fields.saturating_add(from).saturating_add(to);
        self.rules.len() <= marks.max(FEW_RULES)
    }

    /// The places of the rules that may match, ascending: of those alone that stand under a mark of
    /// the record.
    fn marked_places(
        &self,
        alloc: Global,
        name: &str,
        domain: u32,
        flow_record: &Record,
        from: &[Address],
        to: &[Address],
    ) -> Result<Vec<usize>, AllocError>
        requires from { from.now ≡ addresses_of Source flow_record.now }
        requires to { to.now ≡ addresses_of Destination flow_record.now }
        ensures { IfOk result (λ places. AreCandidates (record {
          rules = self.now;
          name = name.now;
          domain = domain;
          flow_record = flow_record.now;
        }) places.items) }
    {
        let (sources, destinations) = (self.sources.as_slice(), self.destinations.as_slice());
        let octets = name.as_bytes();
        let marks = asked(
            alloc,
            sources,
            destinations,
            octets,
            domain,
            flow_record,
            from,
            to,
        )?;
        places_under(alloc, &self.entries, marks)
    }
}

/// The places of all rules.
fn all_places(alloc: Global, rules: &[Rule]) -> Result<Vec<usize>, AllocError>
    requires { length rules.now ≤ 4096 }
    ensures { IfOk result (λ places. (name : List ℕ) (domain : ℕ) (r : DataRecord) → AreCandidates
        (record { rules = rules.now; name = name; domain = domain; flow_record = r })
        places.items) }
{
    let mut places = Vec::with_capacity(alloc, rules.len())?;
    for place in 0..rules.len() {
        places.push(place)?;
    }
    Ok(places)
}

/// Those of these places at which a rule stands that applies to the record.
fn applying(
    alloc: Global,
    rules: &[Rule],
    places: &[usize],
    name: &str,
    domain: u32,
    flow_record: &Record,
    from: &Sorted<'_>,
    to: &Sorted<'_>,
) -> Result<Vec<usize>, AllocError>
    requires are { AreCandidates (record {
      rules = rules.now;
      name = name.now;
      domain = domain;
      flow_record = flow_record.now;
    }) places.now }
    requires from { from.now ≡ sources flow_record.now }
    requires to { to.now ≡ destinations flow_record.now }
    ensures { IfOk result (λ applying. AreApplying (record {
      rules = rules.now;
      name = name.now;
      domain = domain;
      flow_record = flow_record.now;
    }) applying.items) }
{
    kept(alloc, rules, places, name.as_bytes(), domain, from, to)
}

/// Those of these places, in their order, at which a rule stands that applies to the subscriber,
/// the domain and these addresses.
fn kept(
    alloc: Global,
    rules: &[Rule],
    places: &[usize],
    name: &[u8],
    domain: u32,
    from: &Sorted<'_>,
    to: &Sorted<'_>,
) -> Result<Vec<usize>, AllocError>
    ensures { IfOk result (λ kept. kept.items
        ≡ filter (passes (applies_by name.now domain from.now to.now) rules.now) places.now) }
{
    let mut kept = Vec::new(alloc);
    for place in places {
        if applies_at(rules, *place, name, domain, from, to) {
            kept.push(*place)?;
        }
    }
    Ok(kept)
}

/// Whether the rule at a place applies to the record.
fn applies_at(
    rules: &[Rule],
    place: usize,
    name: &[u8],
    domain: u32,
    from: &Sorted<'_>,
    to: &Sorted<'_>,
) -> bool
    ensures { result ≡ passes (applies_by name.now domain from.now to.now) rules.now place }
{
    match rules.get(place) {
        Some(rule) => is_for(rule, name, domain) && covers_by(rule, from, to),
        None => false,
    }
}

/// Whether these sources and destinations are such as the prefixes need that the rule names.
fn covers_by(rule: &Rule, from: &Sorted<'_>, to: &Sorted<'_>) -> bool
    ensures { result ≡ covers_by from.now to.now rule.now }
{
    let denies = denies(rule.action);
    is_met_by(&rule.from, denies, from) && is_met_by(&rule.to, denies, to)
}

/// Whether addresses are such as a rule needs that names this prefix, if it names one.
fn is_met_by(condition: &Option<Prefix>, denies: bool, addresses: &Sorted<'_>) -> bool
    ensures { result ≡ is_met (are_inside denies addresses.now) condition.now }
{
    match condition {
        Some(prefix) => addresses.are_inside(denies, prefix),
        None => true,
    }
}
