//! Plans that are kept for records that come again.
ghost use Rattle.std.specs.Prelude.{◌≡◌, ◌+◌, ◌<◌, ◌≤◌, ◌++◌, [], ℕ, length, Some, None, true, IfOk, OnOk, OnErr};
ghost use Rattle.std.specs.List.{flat_map};
ghost use Rattle.std.specs.Arc.{arc_value};
ghost use Rattle.rule_table.specs.Cuts.{HaveCuts};
ghost use Rattle.flow_anonymize.specs.Outcome.{passed, decision_of};
ghost use Rattle.flow_anonymize.specs.Parts.{record_at, records_between};
ghost use Rattle.flow_anonymize.specs.Classes.{classes_of};
ghost use Rattle.flow_anonymize.specs.Plans.{outcome_for, passed_for, IsSlot};

use crate::by_table::{disclose_by, plan_by};
use crate::disclosure::Disclosure;
use crate::plan_cache::PlanCache;
use crate::record_classes::RecordClasses;
use crate::slot::Slot;
use ipfix_records::{Records, Run};
use ipfix_template::{Record, RecordView, Template};
use rule_table::{AddressClasses, RuleTable};
use std::alloc::{AllocError, Global};
use std::marker::Model;
use std::sync::Arc;

/// What a policy discloses to one subscriber of the records of an observation domain, and what
/// passed since they were taken. What becomes of a record is worked out once for the classes of its
/// addresses, and kept for records of the same template that are alike in them.
pub struct Plans {
    table: Arc<RuleTable>,
    classes: Arc<AddressClasses>,
    name: String,
    domain: u32,
    /// The template of the records that come.
    template: Option<Arc<Template>>,
    cache: PlanCache,
}

impl Drop for Plans {
    // Written out: a derived one is proved anew in each crate that drops such a value.
    fn drop(self) {
        let Plans {
            table: _,
            classes: _,
            name: _,
            domain: _,
            template: _,
            cache: _,
        } = self;
    }
}

impl Model for Plans {
    ghost use Rattle.std.specs.Prelude.{string_bytes};
    ghost use Rattle.std.specs.Option.{option_map};
    ghost use Rattle.std.specs.Arc.{arc_value};
    ghost use Rattle.flow_anonymize.specs.Plans.{PlansOf, ArePlansKept};

    ghost Value = { PlansOf };

    ghost view = { λ p. record { for = record { rules = arc_value p.table; cuts = arc_value p.classes; name = string_bytes p.name; domain = p.domain; template = option_map arc_value p.template }; given = p.cache.given } };

    ghost invariant = { λ p. ArePlansKept (record {
      rules = arc_value p.table;
      cuts = arc_value p.classes;
      name = string_bytes p.name;
      domain = p.domain;
      template = option_map arc_value p.template;
    }) p.cache.slots };
}

impl Plans {
    /// Plans for the records of the Observation Domain `domain` and for the subscriber called
    /// `name`, by the rules of `table` and by `classes`, those that the prefixes of these rules
    /// make. None is made yet. What is kept is in memory from `alloc`.
    ///
    /// # Errors
    /// Want of memory for the name.
    pub fn new(
        alloc: Global,
        table: Arc<RuleTable>,
        classes: Arc<AddressClasses>,
        name: &str,
        domain: u32,
    ) -> Result<Plans, AllocError>
        requires { HaveCuts (arc_value classes) (arc_value table) }
        ensures { IfOk result (λ plans. plans ≡ record {
          for = record {
            rules = arc_value table;
            cuts = arc_value classes;
            name = name.now;
            domain = domain;
            template = None;
          };
          given = [];
        }) }
    {
        // There are no more cuts than a key has room for.
        let _for_proof = classes.cuts();
        let name = String::from_str(alloc, name)?;
        Ok(Plans {
            table,
            classes,
            name,
            domain,
            template: None,
            cache: PlanCache::new(alloc),
        })
    }

    /// The subscriber's name.
    pub fn name(&self) -> &str
        ensures { result.now ≡ self.now.for.name }
    {
        self.name.as_str()
    }

    /// The Observation Domain whose records are judged.
    pub fn domain(&self) -> u32
        ensures { result ≡ self.now.for.domain }
    {
        self.domain
    }

    /// Begins with records of `template`. The plans that are kept are dropped where they are for
    /// another one. What passed stays.
    ///
    /// # Errors
    /// Want of memory, and then nothing has changed.
    pub fn begin(&mut self, template: &Arc<Template>) -> Result<(), AllocError>
        ensures ok { OnOk result (self.new ≡ record {
          for = record self.old.for { template = Some (arc_value template.now) };
          given = self.old.given;
        }) }
        ensures err { OnErr result (self.new ≡ self.old) }
    {
        if self.is_for(template) {
            return Ok(());
        }
        let shared = template.clone()?;
        self.cache.clear();
        self.template = Some(shared);
        Ok(())
    }

    /// Whether records of this template come already.
    fn is_for(&self, template: &Template) -> bool
        ensures { result ≡ true → self.now.for.template ≡ Some template.now }
    {
        match &self.template {
            Some(known) => {
                let known: &Template = known;
                known == template
            }
            None => false,
        }
    }

    /// Judges the records of `run` from the place `from` on that stand before `to`, of which there is one at least, and which
    /// have the template that was begun with. It gives what [`disclose_by`] discloses of each, and says what became of
    /// them, which is the same for all: `classes` are the classes of the addresses of each, as [`RecordClasses::at`] answers
    /// them. A record without classes is judged alone. A plan that is made is in memory from `alloc`.
    ///
    /// # Errors
    /// Want of memory. Then nothing is left of what passed before: the caller begins anew, with the
    /// first record.
    pub fn disclose(
        &mut self,
        alloc: Global,
        classes: Option<RecordClasses>,
        run: &Run,
        from: usize,
        to: usize,
    ) -> Result<Disclosure<()>, AllocError>
        requires template { self.old.for.template ≡ Some run.now.template }
        requires some { from < to }
        requires within { to ≤ length run.now.texts }
        requires classes { (i : ℕ) → from ≤ i → i < to
            → classes ≡ classes_of self.old.for.cuts (record_at run.now i) }
        requires alone { classes ≡ None → to ≡ from + 1 }
        // What passes comes behind the other records, and what is said of the records is so.
        ensures given { OnOk result (self.new.given
            ≡ self.old.given ++ flat_map (passed_for self.old.for) (records_between from to run.now)) }
        ensures decision { (i : ℕ) → from ≤ i → i < to → IfOk result
            (λ d. d ≡ decision_of (outcome_for self.old.for (record_at run.now i))) }
        // The plans are still for that subscriber, by those rules.
        ensures same { self.new.for ≡ self.old.for }
        ensures dropped { OnErr result (self.new.given ≡ []) }
    {
        let decision = self.judge(alloc, classes, run, from, to);
        if decision.is_err() {
            self.cache.drop_records();
        }
        decision
    }

    /// Judges records as [`disclose`](Plans::disclose) does.
    ///
    /// # Errors
    /// Want of memory. Then some of what passed before may be left.
    fn judge(
        &mut self,
        alloc: Global,
        classes: Option<RecordClasses>,
        run: &Run,
        from: usize,
        to: usize,
    ) -> Result<Disclosure<()>, AllocError>
        requires template { self.old.for.template ≡ Some run.now.template }
        requires some { from < to }
        requires within { to ≤ length run.now.texts }
        requires classes { (i : ℕ) → from ≤ i → i < to
            → classes ≡ classes_of self.old.for.cuts (record_at run.now i) }
        requires alone { classes ≡ None → to ≡ from + 1 }
        // What passes comes behind the other records, and what is said of the records is so.
        ensures given { OnOk result (self.new.given
            ≡ self.old.given ++ flat_map (passed_for self.old.for) (records_between from to run.now)) }
        ensures decision { (i : ℕ) → from ≤ i → i < to → IfOk result
            (λ d. d ≡ decision_of (outcome_for self.old.for (record_at run.now i))) }
        ensures same { self.new.for ≡ self.old.for }
    {
        let Some(classes) = classes else {
            return self.disclose_singly(alloc, &run.record(from)?);
        };
        // A run keeps that its records are sound.
        let _for_proof = run.len();
        match self.cache.place_of(classes) {
            Some(place) => self.cache.give(place, run, from, to),
            None => self.disclose_anew(alloc, classes, run, from, to),
        }
    }

    /// Judges records for which no plan is kept, and keeps the plan.
    ///
    /// # Errors
    /// Want of memory. Then some of what passed before may be left.
    fn disclose_anew(
        &mut self,
        alloc: Global,
        classes: RecordClasses,
        run: &Run,
        from: usize,
        to: usize,
    ) -> Result<Disclosure<()>, AllocError>
        requires template { self.old.for.template ≡ Some run.now.template }
        requires some { from < to }
        requires within { to ≤ length run.now.texts }
        requires classes { (i : ℕ) → from ≤ i → i < to
            → Some classes ≡ classes_of self.old.for.cuts (record_at run.now i) }
        // What passes comes behind the other records, and what is said of the records is so.
        ensures given { OnOk result (self.new.given
            ≡ self.old.given ++ flat_map (passed_for self.old.for) (records_between from to run.now)) }
        ensures decision { (i : ℕ) → from ≤ i → i < to → IfOk result
            (λ d. d ≡ decision_of (outcome_for self.old.for (record_at run.now i))) }
        ensures same { self.new.for ≡ self.old.for }
    {
        // A run keeps that its records are sound.
        let _for_proof = run.len();
        let slot = self.planned(alloc, classes, &run.view(from))?;
        let place = self.cache.keep(slot)?;
        self.cache.give(place, run, from, to)
    }

    /// The plan for a record, to be kept.
    ///
    /// # Errors
    /// Want of memory.
    fn planned(
        &self,
        alloc: Global,
        classes: RecordClasses,
        flow_record: &RecordView<'_>,
    ) -> Result<Slot, AllocError>
        requires template { self.now.for.template ≡ Some flow_record.now.template }
        requires classes { Some classes ≡ classes_of self.now.for.cuts flow_record.now }
        ensures { IfOk result (λ slot. (slot.classes ≡ classes) × IsSlot self.now.for slot) }
    {
        // Each rule is one of the grammar, so its prefixes have no bits past their lengths.
        let _for_proof = self.table.rules();
        let single = flow_record.to_record()?;
        let plan = plan_by(alloc, &self.table, self.name.as_str(), self.domain, &single)?;
        Ok(Slot { classes, plan })
    }

    /// Judges a record for which no plan is kept.
    ///
    /// # Errors
    /// Want of memory.
    fn disclose_singly(
        &mut self,
        alloc: Global,
        flow_record: &Record,
    ) -> Result<Disclosure<()>, AllocError>
        ensures given { OnOk result
            (self.new.given ≡ self.old.given ++ passed (outcome_for self.old.for flow_record.now)) }
        ensures decision { IfOk result
            (λ d. d ≡ decision_of (outcome_for self.old.for flow_record.now)) }
        ensures same { self.new.for ≡ self.old.for }
    {
        match disclose_by(
            alloc,
            &self.table,
            self.name.as_str(),
            self.domain,
            flow_record,
        )? {
            Disclosure::Passed { kept, removed } => {
                self.cache.push(kept)?;
                Ok(Disclosure::Passed { kept: (), removed })
            }
            Disclosure::Aggregated { rule, definition } => {
                Ok(Disclosure::Aggregated { rule, definition })
            }
            Disclosure::Withheld { rule, reason } => Ok(Disclosure::Withheld { rule, reason }),
        }
    }

    /// Takes all records that passed, one after another. The plans stay.
    ///
    /// # Errors
    /// Want of memory. Then nothing is left of what passed either.
    pub fn take_records(&mut self) -> Result<Records, AllocError>
        ensures given { IfOk result (λ all. all ≡ self.old.given) }
        ensures taken { self.new ≡ record { for = self.old.for; given = [] } }
    {
        let records = self.cache.take_records();
        if records.is_err() {
            self.cache.drop_records();
        }
        records
    }
}
