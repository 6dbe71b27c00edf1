//! The rules that apply to a record, of which the first of each kind is kept.
ghost use Rattle.std.specs.Prelude.{◌≡◌, ◌==◌, ℕ, ◌<◌, if◌then◌else◌, Some, None, IfOk, OnOk, length};
ghost use Rattle.std.specs.Option.{option_or};
ghost use Rattle.std.specs.List.{find};
ghost use Rattle.std.specs.Ordering.{nat_cmp};
ghost use Rattle.std.specs.BTreeMap.{get};
ghost use Rattle.ipfix_element.specs.Element.{Element};
ghost use Rattle.policy_judge.specs.Verdicts.{record_verdict_of, element_verdict_of};
ghost use Rattle.rule_table.specs.Candidates.{AreApplying, passes};
ghost use Rattle.rule_table.specs.Firsts.{on_records, on_any, is_on_element, element_key, is_key, earlier};

use ipfix_element::ElementId;
use ipfix_template::Record;
use policy_judge::{
    ElementVerdict, RecordVerdict, element_verdict_at, is_on_records, record_verdict_at,
};
use policy_text::Rule;
use std::alloc::{AllocError, Global};
use std::collections::BTreeMap;
use std::marker::Model;

/// A record of an observation domain, to be judged for a subscriber, with the rules that decide: those that apply to the
/// record were looked up, and the first of each kind is kept.
pub struct Candidates<'a> {
    rules: &'a [Rule],
    name: &'a str,
    domain: u32,
    flow_record: &'a Record,
    /// The place of the first rule on records that applies.
    on_record: Option<usize>,
    /// The place of the first rule on fields of any element that applies.
    on_any: Option<usize>,
    /// For each element that is named, the place of the first rule on its fields that applies.
    on_named: BTreeMap<u64, usize>,
}

impl<'a> Drop for Candidates<'a> {
    // Written out: a derived one is proved anew in each crate that drops such a value.
    fn drop(self) {
        let Candidates {
            rules: _,
            name: _,
            domain: _,
            flow_record: _,
            on_record: _,
            on_any: _,
            on_named: _,
        } = self;
    }
}

impl<'a> Model for Candidates<'a> {
    ghost use Rattle.std.specs.Ordering.{nat_cmp};
    ghost use Rattle.std.specs.BTreeMap.{get};
    ghost use Rattle.rule_table.specs.Candidates.{Judged};
    ghost use Rattle.rule_table.specs.Firsts.{AreFirsts};

    ghost Value = { Judged };

    ghost view = { λ c. record { rules = c.rules.now; name = c.name.now; domain = c.domain; flow_record = c.flow_record.now } };

    ghost invariant = { λ c. AreFirsts (record {
      rules = c.rules.now;
      name = c.name.now;
      domain = c.domain;
      flow_record = c.flow_record.now;
    }) c.on_record c.on_any (get nat_cmp c.on_named) };
}

impl<'a> Candidates<'a> {
    /// The candidates by `places`, those of the rules that apply to the record.
    ///
    /// # Errors
    /// Want of memory.
    pub(crate) fn new(
        alloc: Global,
        rules: &'a [Rule],
        name: &'a str,
        domain: u32,
        flow_record: &'a Record,
        places: &[usize],
    ) -> Result<Candidates<'a>, AllocError>
        requires { AreApplying (record {
          rules = rules.now;
          name = name.now;
          domain = domain;
          flow_record = flow_record.now;
        }) places.now }
        ensures { IfOk result (λ candidates. candidates ≡ record {
          rules = rules.now;
          name = name.now;
          domain = domain;
          flow_record = flow_record.now;
        }) }
    {
        let on_named = firsts_on_elements(alloc, rules, places)?;
        Ok(Candidates {
            rules,
            name,
            domain,
            flow_record,
            on_record: first_on_records(rules, places),
            on_any: first_on_any(rules, places),
            on_named,
        })
    }

    /// The verdict on the record: that of the first matching rule on records, or rule 0, which withholds.
    pub fn record_verdict(&self) -> RecordVerdict
        ensures { result
            ≡ record_verdict_of self.now.name self.now.domain self.now.flow_record self.now.rules }
    {
        record_verdict_at(self.rules, self.on_record)
    }

    /// The verdict on the field at the place `field`, counted from 0: that of the first matching
    /// rule on fields, or rule 0, which removes.
    pub fn element_verdict(&self, field: usize) -> ElementVerdict
        requires { field < length self.now.flow_record.template.fields }
        ensures { result ≡ element_verdict_of
            self.now.name self.now.domain self.now.flow_record field self.now.rules }
    {
        let element = self.flow_record.template().fields.as_slice()[field].element;
        let named = first_on(&self.on_named, element);
        element_verdict_at(self.rules, earlier(self.on_any, named))
    }
}

/// The first of these places at which a rule on records stands.
fn first_on_records(rules: &[Rule], places: &[usize]) -> Option<usize>
    ensures { result ≡ find (passes on_records rules.now) places.now }
{
    places
        .iter()
        .copied()
        .find(|place| has_record_rule(rules, *place))
}

/// Whether a rule on records stands at a place.
fn has_record_rule(rules: &[Rule], place: usize) -> bool
    ensures { result ≡ passes on_records rules.now place }
{
    match rules.get(place) {
        Some(rule) => is_on_records(rule.action),
        None => false,
    }
}

/// The first of these places at which a rule on fields of any element stands.
fn first_on_any(rules: &[Rule], places: &[usize]) -> Option<usize>
    ensures { result ≡ find (passes on_any rules.now) places.now }
{
    places
        .iter()
        .copied()
        .find(|place| has_rule_on_any(rules, *place))
}

/// Whether a rule on fields of any element stands at a place.
fn has_rule_on_any(rules: &[Rule], place: usize) -> bool
    ensures { result ≡ passes on_any rules.now place }
{
    match rules.get(place) {
        Some(rule) => !is_on_records(rule.action) && rule.element.is_none(),
        None => false,
    }
}

/// For each element that rules on fields name, the first of these places at which one of them stands.
fn firsts_on_elements(
    alloc: Global,
    rules: &[Rule],
    places: &[usize],
) -> Result<BTreeMap<u64, usize>, AllocError>
    ensures { IfOk result (λ firsts. (e : Element) → e.number < 32768
        → get nat_cmp firsts (element_key e) ≡ find (passes (is_on_element e) rules.now) places.now) }
{
    let mut firsts = BTreeMap::new(alloc);
    for place in places {
        note_first(&mut firsts, rules, *place)?;
    }
    Ok(firsts)
}

/// Notes the place of a rule on fields that names an element, unless one is noted for that element.
fn note_first(
    firsts: &mut BTreeMap<u64, usize>,
    rules: &[Rule],
    place: usize,
) -> Result<(), AllocError>
    ensures { OnOk result ((e : Element) → e.number < 32768 → get nat_cmp firsts.new (element_key e)
        ≡ option_or (get nat_cmp firsts.old (element_key e))
        (if passes (is_on_element e) rules.now place then Some place else None)) }
{
    match key_at(rules, place) {
        Some(key) => note(firsts, key, place),
        None => Ok(()),
    }
}

/// Notes a place under a key, unless one is noted there.
fn note(firsts: &mut BTreeMap<u64, usize>, key: u64, place: usize) -> Result<(), AllocError>
    ensures { OnOk result ((other : ℕ) → get nat_cmp firsts.new other
        ≡ option_or (get nat_cmp firsts.old other) (if other == key then Some place else None)) }
{
    if !firsts.contains_key(&key) {
        firsts.insert(key, place)?;
    }
    Ok(())
}

/// The key of the element that the rule at a place names, if that is one on fields.
fn key_at(rules: &[Rule], place: usize) -> Option<u64>
    ensures { (e : Element) → e.number < 32768
        → passes (is_on_element e) rules.now place ≡ is_key (element_key e) result }
{
    match rules.get(place) {
        Some(rule) => key_of_rule(rule),
        None => None,
    }
}

/// The key of the element that a rule names, if it is one on fields.
fn key_of_rule(rule: &Rule) -> Option<u64>
    ensures { (e : Element) → e.number < 32768
        → is_on_element e rule.now ≡ is_key (element_key e) result }
{
    if is_on_records(rule.action) {
        return None;
    }
    match rule.element {
        Some(element) => Some(key_of(element)),
        None => None,
    }
}

/// An element as one number.
fn key_of(element: ElementId) -> u64
    ensures value { result ≡ element_key element }
    ensures below { element.number < 32768 }
{
    let number = element.number();
    let pen = match element.pen() {
        Some(pen) => u64::from(pen) + 1,
        None => 0,
    };
    pen * 32768 + u64::from(number)
}

/// The place that is noted for an element.
fn first_on(firsts: &BTreeMap<u64, usize>, element: ElementId) -> Option<usize>
    ensures value { result ≡ get nat_cmp firsts.now (element_key element) }
    ensures below { element.number < 32768 }
{
    firsts.get(&key_of(element)).copied()
}

/// The one of two places that stands before the other.
fn earlier(one: Option<usize>, other: Option<usize>) -> Option<usize>
    ensures { result ≡ earlier one other }
{
    match (one, other) {
        (Some(one), Some(other)) => Some(one.min(other)),
        (Some(one), None) => Some(one),
        (None, other) => other,
    }
}
