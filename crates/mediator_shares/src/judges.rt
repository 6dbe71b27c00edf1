//! What becomes of the records of a message, for each subscription.
ghost use Rattle.std.specs.Prelude.{◌≡◌, ◌<◌, ◌≤◌, ◌+◌, ◌++◌, ◌∷◌, [], ℕ, List, Some, None, true, map, length, slice_get, IsSome, IfOk, IfSome, OnOk};
ghost use Rattle.std.specs.List.{flat_map};
ghost use Rattle.std.specs.Arc.{arc_value};
ghost use Rattle.ipfix_template.specs.DataRecord.{DataRecord};
ghost use Rattle.rule_table.specs.Cuts.{HaveCuts};
ghost use Rattle.flow_anonymize.specs.Outcome.{decision_of};
ghost use Rattle.flow_anonymize.specs.Parts.{record_at, records_between};
ghost use Rattle.flow_anonymize.specs.Classes.{classes_of};
ghost use Rattle.flow_anonymize.specs.Plans.{PlansFor, outcome_for, passed_for};
ghost use Rattle.mediator_tables.specs.SubscriptionTable.{shown};

use crate::deciding::Room;
use flow_anonymize::{Disclosure, Plans, RecordClasses};
use ipfix_records::Run;
use ipfix_template::Template;
use mediator_tables::{Served, Share};
use rule_table::{AddressClasses, AddressPlaces, RecentClasses, RuleTable};
use std::alloc::{AllocError, Global};
use std::marker::Model;
use std::mem;
use std::sync::Arc;

/// What a policy discloses to one subscription, and what that was given since it was last taken.
#[derive(Drop)]
pub(crate) struct Judge {
    /// The number of the subscription.
    sub: u64,
    plans: Plans,
}

/// What a policy discloses of the records of one Observation Domain to several subscriptions, and what each was given
/// since it was last taken. A subscription is named by its place among them, counted from 0.
#[derive(Drop)]
pub(crate) struct Judges {
    table: Arc<RuleTable>,
    /// The classes that the table's prefixes make, and those of the addresses that came last.
    classes: RecentClasses,
    domain: u32,
    /// Where the addresses stand in the records that come.
    places: Option<AddressPlaces>,
    judges: Vec<Judge>,
    /// Room for what is decided of records. It is empty.
    room: Room,
}

impl Model for Judges {
    ghost use Rattle.std.specs.Arc.{arc_value};
    ghost use Rattle.rule_table.specs.Cuts.{HaveCuts};
    ghost use Rattle.mediator_shares.specs.Judges.{Judges, judges_of};

    ghost Value = { Judges };

    ghost view = { λ j. judges_of (arc_value j.table) j.classes j.domain j.places j.judges.items };

    ghost invariant = { λ j. HaveCuts j.classes (arc_value j.table) };
}

impl Judges {
    ghost use Rattle.mediator_shares.specs.Judges.{plans_for, of_template, AreFor, without_records};

    /// Judges by the rules of `table`, with `classes`, which the prefixes of these rules make, for records of the
    /// Observation Domain `domain`; for no subscription yet. What comes to be worked out is in memory from `alloc`.
    pub(crate) fn new(
        alloc: Global,
        table: Arc<RuleTable>,
        classes: Arc<AddressClasses>,
        domain: u32,
    ) -> Judges
        requires { HaveCuts (arc_value classes) (arc_value table) }
        ensures { result ≡ record {
          rules = arc_value table;
          cuts = arc_value classes;
          domain = domain;
          template = None;
          fors = [];
          shares = [];
        } }
    {
        Judges {
            table,
            classes: RecentClasses::new(classes),
            domain,
            places: None,
            judges: Vec::new(alloc),
            room: Room::new(alloc),
        }
    }

    /// Adds a subscription with the number `sub` and the subscriber's `name`, behind the others, with plans in memory
    /// from `alloc`.
    ///
    /// # Errors
    /// Want of memory.
    pub(crate) fn add(&mut self, alloc: Global, sub: u64, name: &str) -> Result<(), AllocError>
        ensures { OnOk result (self.new ≡ record self.old {
          fors = self.old.fors
              ++ plans_for self.old.rules self.old.cuts self.old.domain None name.now ∷ [];
          shares = self.old.shares ++ (sub, []) ∷ [];
        }) }
    {
        let (table, classes) = (self.table.clone()?, self.classes.classes().clone()?);
        let plans = Plans::new(alloc, table, classes, name, self.domain)?;
        self.judges.push(Judge { sub, plans })?;
        Ok(())
    }

    /// Makes ready for records of the template `template`. Where the addresses of such records stand is worked out in
    /// memory from `alloc`, unless the records before were of this template too.
    ///
    /// # Errors
    /// Want of memory.
    pub(crate) fn begin(
        &mut self,
        alloc: Global,
        template: &Arc<Template>,
    ) -> Result<(), AllocError>
        ensures { OnOk result (self.new ≡ record self.old {
          template = Some (arc_value template.now);
          fors = map (of_template (arc_value template.now)) self.old.fors;
        }) }
    {
        if !self.is_for(template) {
            self.places = Some(AddressPlaces::of(alloc, template.clone()?)?);
        }
        begin_each(&mut self.judges, template)
    }

    /// Whether they are ready for records of the template `template`.
    fn is_for(&self, template: &Template) -> bool
        ensures { result ≡ true → self.now.template ≡ Some template.now }
    {
        match &self.places {
            Some(places) => places.template() == template,
            None => false,
        }
    }

    /// The classes of the addresses of the record at `place` in `run`, for whose template they are ready; or `None` where
    /// none stands there.
    pub(crate) fn classes_at(&mut self, run: &Run, place: usize) -> Option<RecordClasses>
        requires { self.old.template ≡ Some run.now.template }
        ensures value { place < length run.now.texts
            → result ≡ classes_of self.old.cuts (record_at run.now place) }
        ensures over { length run.now.texts ≤ place → result ≡ None }
        ensures unchanged { self.new ≡ self.old }
    {
        if place >= run.len() {
            return None;
        }
        match &self.places {
            Some(places) => RecordClasses::at(&mut self.classes, places, &run.view(place)),
            None => unreachable!(),
        }
    }

    /// How far the record at `from` in `run`, of whose addresses `classes` are the classes, and those behind it go on
    /// with the same classes: the place behind the last of them, and the classes of the record there. A record without
    /// classes is taken for different from each other one.
    pub(crate) fn stretch(
        &mut self,
        run: &Run,
        from: usize,
        classes: Option<RecordClasses>,
    ) -> (usize, Option<RecordClasses>)
        requires template { self.old.template ≡ Some run.now.template }
        requires there { from < length run.now.texts }
        requires classes { classes ≡ classes_of self.old.cuts (record_at run.now from) }
        ensures some { from < result.0 }
        ensures within { result.0 ≤ length run.now.texts }
        ensures alike { (i : ℕ) → from ≤ i → i < result.0
            → classes ≡ classes_of self.old.cuts (record_at run.now i) }
        ensures alone { classes ≡ None → result.0 ≡ from + 1 }
        ensures next { result.0 < length run.now.texts
            → result.1 ≡ classes_of self.old.cuts (record_at run.now result.0) }
        ensures unchanged { self.new ≡ self.old }
    {
        // A place behind a record's is a number of this type.
        let _for_proof = run.len();
        // It goes by addresses that lie near one another as far as it can, and then by classes.
        let mut to = match &self.places {
            Some(places) => self.classes.same_until(places, run, from),
            None => unreachable!(),
        };
        let mut next = self.classes_at(run, to);
        'records: while are_same(classes, next) {
            to += 1;
            next = self.classes_at(run, to);
        }
        (to, next)
    }

    /// Judges the records of `run` from the place `from` on that stand before `to`, of which there is one at least, and
    /// of each of which `classes` are the classes, for the subscription at `place`, which there is. It gives the
    /// subscription what passes, in memory from `alloc`, and answers what became of each of the records.
    ///
    /// # Errors
    /// Want of memory.
    pub(crate) fn disclose(
        &mut self,
        alloc: Global,
        place: usize,
        classes: Option<RecordClasses>,
        run: &Run,
        from: usize,
        to: usize,
    ) -> Result<Disclosure<()>, AllocError>
        requires there { place < length self.old.fors }
        requires template { (p : PlansFor) → slice_get self.old.fors place ≡ Some p
            → p.template ≡ Some run.now.template }
        requires cuts { (p : PlansFor) → slice_get self.old.fors place ≡ Some p
            → p.cuts ≡ self.old.cuts }
        requires some { from < to }
        requires within { to ≤ length run.now.texts }
        requires classes { (i : ℕ) → from ≤ i → i < to
            → classes ≡ classes_of self.old.cuts (record_at run.now i) }
        requires alone { classes ≡ None → to ≡ from + 1 }
        // It is told what became of each record, and what passes is given to that subscription alone.
        ensures decision { (p : PlansFor) (i : ℕ) → slice_get self.old.fors place ≡ Some p
            → from ≤ i → i < to
            → IfOk result (λ d. d ≡ decision_of (outcome_for p (record_at run.now i))) }
        ensures given { (p : PlansFor) (before after : List (ℕ × List DataRecord))
            (s : ℕ × List DataRecord) → slice_get self.old.fors place ≡ Some p
            → self.old.shares ≡ before ++ s ∷ after
            → length before ≡ place → OnOk result (self.new.shares ≡ before
            ++ (s.0, s.1 ++ flat_map (passed_for p) (records_between from to run.now)) ∷ after) }
        // What decides stays.
        ensures fors { self.new.fors ≡ self.old.fors }
        ensures template { self.new.template ≡ self.old.template }
        ensures cuts { self.new.cuts ≡ self.old.cuts }
        ensures stay { length self.new.shares ≡ length self.old.shares }
    {
        self.judges[place]
            .plans
            .disclose(alloc, classes, run, from, to)
    }

    /// Lends the room for what is decided of records.
    pub(crate) fn lend_room(&mut self, alloc: Global) -> Room
        ensures { self.new ≡ self.old }
    {
        mem::replace(&mut self.room, Room::new(alloc))
    }

    /// Keeps `room` for what is decided later.
    pub(crate) fn keep_room(&mut self, mut room: Room)
        ensures { self.new ≡ self.old }
    {
        room.clear();
        self.room = room;
    }

    /// For how many subscriptions they judge.
    pub(crate) fn len(&self) -> usize {
        self.judges.len()
    }

    /// Whether a message with these `runs` has no record, or begins with one of the template for which they are ready.
    fn expect(&self, runs: &[Run]) -> bool {
        match runs.first() {
            Some(run) => self.is_for(run.template()),
            None => true,
        }
    }

    /// Whether they judge the records of the Observation Domain `domain`, for the subscriptions `served`: these numbers
    /// and names, in this order.
    pub(crate) fn are_for(&self, domain: u32, served: &[Served<'_>]) -> bool
        ensures { result ≡ true → AreFor self.now domain served.now }
    {
        are_for(&self.judges, domain, served)
    }

    /// Takes what each subscription was given, in their order. The list is in memory from `alloc`.
    ///
    /// # Errors
    /// Want of memory.
    pub(crate) fn take_shares(&mut self, alloc: Global) -> Result<Vec<Share>, AllocError>
        ensures shares { IfOk result (λ shares. map shown shares.items ≡ self.old.shares) }
        ensures taken { OnOk result
            (self.new ≡ record self.old { shares = map without_records self.old.shares }) }
    {
        take_shares(alloc, &mut self.judges)
    }
}

ghost use Rattle.mediator_shares.specs.Judges.{Judges as JudgesOf, AreFor, for_of, share_of_judge, of_template, is_judge_for, whose, without_records};

/// The place in `kept` of the first that judge the records of the Observation Domain `domain` for the subscriptions
/// `served`, and are ready for a message with these `runs`; or `None`.
pub(crate) fn place_for(
    kept: &[Judges],
    domain: u32,
    runs: &[Run],
    served: &[Served<'_>],
) -> Option<usize>
    ensures within { IfSome result (λ place. place < length kept.now) }
    ensures found { IfSome result (λ place. (judges : JudgesOf)
        → slice_get kept.now place ≡ Some judges → AreFor judges domain served.now) }
{
    'kept: for place in 0..kept.len() {
        if kept[place].are_for(domain, served) && kept[place].expect(runs) {
            return Some(place);
        }
    }
    None
}

/// Whether there are classes, and both are the same.
fn are_same(one: Option<RecordClasses>, other: Option<RecordClasses>) -> bool
    ensures same { result ≡ true → other ≡ one }
    ensures some { result ≡ true → IsSome other }
{
    match (one, other) {
        (Some(one), Some(other)) => {
            one.sources == other.sources && one.destinations == other.destinations
        }
        _ => false,
    }
}

/// Makes each of `judges` ready for records of the template `template`.
///
/// # Errors
/// Want of memory.
fn begin_each(judges: &mut Vec<Judge>, template: &Arc<Template>) -> Result<(), AllocError>
    ensures fors { OnOk result (map for_of judges.new.items
        ≡ map (of_template (arc_value template.now)) (map for_of judges.old.items)) }
    ensures shares { OnOk result (map share_of_judge judges.new.items ≡ map share_of_judge judges.old.items) }
{
    'judges: for place in 0..judges.len() {
        judges[place].plans.begin(template)?;
    }
    Ok(())
}

/// Takes what each of `judges` was given, in their order. The list is in memory from `alloc`.
///
/// # Errors
/// Want of memory.
fn take_shares(alloc: Global, judges: &mut Vec<Judge>) -> Result<Vec<Share>, AllocError>
    ensures shares { IfOk result (λ shares.
        map shown shares.items ≡ map share_of_judge judges.old.items) }
    ensures fors { OnOk result (map for_of judges.new.items ≡ map for_of judges.old.items) }
    ensures taken { OnOk result (map share_of_judge judges.new.items
        ≡ map without_records (map share_of_judge judges.old.items)) }
{
    let mut shares = Vec::with_capacity(alloc, judges.len())?;
    'judges: for place in 0..judges.len() {
        let share = judges[place].take_share()?;
        shares.push(share)?;
    }
    Ok(shares)
}

/// Whether `judges` judge the records of the Observation Domain `domain`, for the subscriptions `served`: these numbers
/// and names, in this order.
fn are_for(judges: &[Judge], domain: u32, served: &[Served<'_>]) -> bool
    ensures whose { result ≡ true
        → map whose (map for_of judges.now) ≡ map (λ who. (domain, who.name.now)) served.now }
    ensures subs { result ≡ true
        → map (λ s. s.0) (map share_of_judge judges.now) ≡ map (λ who. who.sub) served.now }
{
    if judges.len() != served.len() {
        return false;
    }
    'judges: for place in 0..judges.len() {
        let who = served[place];
        if !judges[place].is_of(who.sub, domain, who.name) {
            return false;
        }
    }
    true
}

impl Judge {
    /// Whether it judges the records of the Observation Domain `domain`, for the subscription with the number `sub` and
    /// the subscriber's `name`.
    fn is_of(&self, sub: u64, domain: u32, name: &str) -> bool
        ensures { result ≡ is_judge_for sub domain name.now self.now }
    {
        self.sub == sub
            && self.plans.domain() == domain
            && self.plans.name().as_bytes() == name.as_bytes()
    }

    /// Takes what the subscription was given.
    ///
    /// # Errors
    /// Want of memory.
    fn take_share(&mut self) -> Result<Share, AllocError>
        ensures share { IfOk result (λ share. shown share ≡ share_of_judge self.old) }
        ensures plans { OnOk result (for_of self.new ≡ for_of self.old) }
        ensures taken { OnOk result (share_of_judge self.new ≡ without_records (share_of_judge self.old)) }
    {
        let given = self.plans.take_records()?;
        Ok(Share {
            sub: self.sub,
            given,
        })
    }
}
