//! What each subscription is given of one message, what counts in its aggregates, and what the audit notes of it.
ghost use Rattle.std.specs.Prelude.{◌≡◌, ◌++◌, ◌∷◌, ◌≤◌, ◌<◌, ◌+◌, ◌^◌, ℕ, List, [], Some, None, false, length, map, IfOk, OnOk};
ghost use Rattle.std.specs.List.{flat_map, enumerate_from, AllByRecursion};
ghost use Rattle.ipfix_template.specs.DataRecord.{DataRecord};
ghost use Rattle.ipfix_records.specs.Runs.{run_records, records_of_runs};
ghost use Rattle.flow_aggregate.specs.Counts.{Count as OneCount, count_of};
ghost use Rattle.mediator_history.specs.Auditing.{removed_of, told_of};
ghost use Rattle.flow_anonymize.specs.Classes.{classes_of};
ghost use Rattle.flow_anonymize.specs.Parts.{record_at, records_between};
ghost use Rattle.mediator_shares.specs.Adding.{HasAdded, AddsCounts, progress_of, counted_of, audience_of};
ghost use Rattle.mediator_shares.specs.Deciding.{decision_for};
ghost use Rattle.mediator_shares.specs.Alike.{AreLed};
ghost use Rattle.mediator_shares.specs.InForce.{InForce as WhatIsInForce, count_by, timing_by, as_list};
ghost use Rattle.mediator_shares.specs.Judges.{JudgeFor, JudgesAny};
ghost use Rattle.mediator_tables.specs.declared.served.Served.{Served as ServedOf};
ghost use Rattle.mediator_tables.specs.SubscriptionTable.{shown};
ghost use Rattle.mediator_tables.specs.Adding.{tallied};
ghost use Rattle.mediator_shares.specs.Sharing.{blank, counts_by, kept_back_by, shares_of, tallies_of, notes_of, note_of, noted_of_each};
ghost use Rattle.disclosure_audit.specs.Noting.{kept_notes, and_more};
ghost use Rattle.disclosure_audit.specs.declared.entry.What.TheVariants.{Withheld};

use crate::alike::groups_of;
use crate::deciding::{Room, decide, keep_back};
use crate::in_force::InForce;
use crate::judges::Judges;
use disclosure_audit::{Note, Notes, Reason, RemovedFields, What};
use flow_aggregate::{Count, Timing};
use flow_anonymize::{Disclosure, RecordClasses};
use ipfix_records::{Records, Run};
use ipfix_template::RecordView;
use mediator_tables::{Served, Share, Tally};
use std::alloc::{AllocError, Global};
use std::mem;

/// What one message gives to the subscriptions that are served, and what it leaves for the audit.
#[derive(Drop)]
pub struct Shares {
    /// What each subscription is given, in their order.
    pub shares: Vec<Share>,
    /// What is added to the aggregates of each subscription, in their order.
    pub tallies: Vec<Tally>,
    /// What is kept back, or counts, by record and then by subscription.
    pub notes: Notes,
}

impl Shares {
    /// Judges `records`, which are those of one message of the Observation Domain `domain`, at most 2^32, for each of
    /// the subscriptions `served`, by what `in_force` says. At most `most` notes are kept. What is disclosed of the
    /// records is in memory from `alloc`. The policy and the time of `in_force` stay; what is worked out serves later
    /// messages. For subscriptions that no rule tells apart each record is judged once.
    ///
    /// # Errors
    /// Want of memory.
    pub fn of_records(
        alloc: Global,
        in_force: &mut InForce,
        domain: u32,
        records: &Records,
        served: &[Served<'_>],
        most: u64,
    ) -> Result<Shares, AllocError>
        requires few { length records.now ≤ 2 ^ 32 }
        // What the definitions give of these records, for each subscription.
        ensures shares { IfOk result (λ s.
            map shown s.shares.items ≡ shares_of domain in_force.old records.now served.now) }
        ensures tallies { IfOk result (λ s.
            map tallied s.tallies.items ≡ tallies_of domain in_force.old records.now served.now) }
        ensures notes { IfOk result (λ s.
            s.notes ≡ kept_notes most (notes_of domain in_force.old records.now served.now)) }
        // The policy and the clock stay.
        ensures unchanged { in_force.new ≡ in_force.old }
    {
        if served.len() == 1 {
            return Shares::of_led(
                alloc, in_force, domain, records, served, most, served, ALONE, false,
            );
        }
        let groups = groups_of(alloc, in_force, served)?;
        let (leaders, places) = (groups.leaders.as_slice(), groups.places.as_slice());
        let has_led = groups.has_led;
        Shares::of_led(
            alloc, in_force, domain, records, served, most, leaders, places, has_led,
        )
    }

    /// Judges records as [`of_records`](Shares::of_records) does: once for each of `leaders`. Those that lead the
    /// subscriptions `served` stand at `places` among them. Where `has_led` is false, each leads itself.
    ///
    /// # Errors
    /// Want of memory.
    fn of_led<'a>(
        alloc: Global,
        in_force: &mut InForce,
        domain: u32,
        records: &Records,
        served: &[Served<'a>],
        most: u64,
        leaders: &[Served<'a>],
        places: &[usize],
        has_led: bool,
    ) -> Result<Shares, AllocError>
        requires few { length records.now ≤ 2 ^ 32 }
        requires led { AreLed in_force.old.policy.rules leaders.now served.now places.now }
        requires alone { has_led ≡ false → leaders.now ≡ served.now }
        ensures shares { IfOk result (λ s.
            map shown s.shares.items ≡ shares_of domain in_force.old records.now served.now) }
        ensures tallies { IfOk result (λ s.
            map tallied s.tallies.items ≡ tallies_of domain in_force.old records.now served.now) }
        ensures notes { IfOk result (λ s.
            s.notes ≡ kept_notes most (notes_of domain in_force.old records.now served.now)) }
        ensures unchanged { in_force.new ≡ in_force.old }
    {
        let runs = records.runs();
        let mut judges = in_force.judges(alloc, domain, runs, leaders)?;
        let mut sums = Sums::of_none(alloc, served, most, judges.lend_room(alloc))?;
        sums.add_runs(
            alloc,
            in_force,
            &mut judges,
            domain,
            runs,
            leaders,
            places,
            served,
        )?;
        let given = judges.take_shares(alloc)?;
        let Sums {
            tallies,
            notes,
            room,
        } = sums;
        judges.keep_room(room);
        in_force.keep(judges);
        let shares = if has_led {
            spread(alloc, &given, places, served)?
        } else {
            given
        };
        Ok(Shares {
            shares,
            tallies,
            notes,
        })
    }
}

/// Where the leader of one subscription stands: it leads itself.
const ALONE: &[usize] = &[0];

/// The most records side by side that are noted at once. No memory holds as many.
const MOST_AT_ONCE: usize = u32::MAX as usize;

/// What is added to the aggregates of each subscription, in their order, and what is kept back from them.
#[derive(Drop)]
pub(crate) struct Sums {
    tallies: Vec<Tally>,
    notes: Notes,
    room: Room,
}

impl Sums {
    /// That of no record, for each of the subscriptions `served`, with at most `most` notes to be kept, in memory from
    /// `alloc`. What is decided of records is put into `room`.
    ///
    /// # Errors
    /// Want of memory.
    fn of_none(
        alloc: Global,
        served: &[Served<'_>],
        most: u64,
        room: Room,
    ) -> Result<Sums, AllocError>
        ensures tallies { IfOk result (λ s. map tallied s.tallies.items ≡ map blank served.now) }
        ensures notes { IfOk result (λ s. s.notes ≡ kept_notes most []) }
    {
        let mut tallies = Vec::with_capacity(alloc, served.len())?;
        'served: for who in served {
            tallies.push(Tally {
                sub: who.sub,
                counts: Vec::new(alloc),
            })?;
        }
        Ok(Sums {
            tallies,
            notes: Notes::new(alloc, most),
            room,
        })
    }

    /// Judges the records of `runs`, one run after another, for the subscriptions `leaders`: `judges` say what is
    /// disclosed of a record of the Observation Domain `domain`, and are given what passes; `in_force` says where it
    /// counts. What counts and what is noted is added for each of `served`, whose leaders stand at `places`. What is
    /// worked out is in memory from `alloc`.
    ///
    /// # Errors
    /// Want of memory.
    fn add_runs(
        &mut self,
        alloc: Global,
        in_force: &InForce,
        judges: &mut Judges,
        domain: u32,
        runs: &[Run],
        leaders: &[Served<'_>],
        places: &[usize],
        served: &[Served<'_>],
    ) -> Result<(), AllocError>
        requires few { length (records_of_runs runs.now) ≤ 2 ^ 32 }
        requires led { AreLed in_force.now.policy.rules leaders.now served.now places.now }
        requires judges { JudgesAny judges.old in_force.now domain leaders.now }
        requires blank { judges.old.shares ≡ map blank leaders.now }
        requires blank_tallies { map tallied self.old.tallies.items ≡ map blank served.now }
        // All is that of the records of the runs.
        ensures shares { OnOk result (judges.new.shares
            ≡ shares_of domain in_force.now (records_of_runs runs.now) leaders.now) }
        ensures tallies { OnOk result (map tallied self.new.tallies.items
            ≡ tallies_of domain in_force.now (records_of_runs runs.now) served.now) }
        ensures notes { OnOk result (self.new.notes ≡ and_more self.old.notes
            (notes_of domain in_force.now (records_of_runs runs.now) served.now)) }
        // The judges are fit for what comes next.
        ensures judges { OnOk result (JudgesAny judges.new in_force.now domain leaders.now) }
    {
        let mut before = 0;
        'runs: for run in runs {
            self.add_run(
                alloc, in_force, judges, domain, before, run, leaders, places, served,
            )?;
            before += run.len();
        }
        Ok(())
    }

    /// Judges the records of `run`, before which the message has `before` records, as [`add_runs`](Sums::add_runs) does.
    ///
    /// # Errors
    /// Want of memory.
    fn add_run(
        &mut self,
        alloc: Global,
        in_force: &InForce,
        judges: &mut Judges,
        domain: u32,
        before: usize,
        run: &Run,
        leaders: &[Served<'_>],
        places: &[usize],
        served: &[Served<'_>],
    ) -> Result<(), AllocError>
        requires few { before + length run.now.texts ≤ 2 ^ 32 }
        requires led { AreLed in_force.now.policy.rules leaders.now served.now places.now }
        requires judges { JudgesAny judges.old in_force.now domain leaders.now }
        requires each { length judges.old.shares ≡ length leaders.now }
        requires each_tally { length self.old.tallies.items ≡ length served.now }
        // The records of the run stand behind those that were done.
        ensures shares { (done : List DataRecord)
            → judges.old.shares ≡ shares_of domain in_force.now done leaders.now
            → OnOk result (judges.new.shares
            ≡ shares_of domain in_force.now (done ++ run_records run.now) leaders.now) }
        ensures tallies { (done : List DataRecord)
            → map tallied self.old.tallies.items ≡ tallies_of domain in_force.now done served.now
            → OnOk result (map tallied self.new.tallies.items
            ≡ tallies_of domain in_force.now (done ++ run_records run.now) served.now) }
        ensures notes { OnOk result (self.new.notes
            ≡ and_more self.old.notes (flat_map (noted_of_each domain in_force.now served.now)
            (enumerate_from before (run_records run.now)))) }
        // The judges are fit for what comes next, with a place for each subscription.
        ensures judges { OnOk result (JudgesAny judges.new in_force.now domain leaders.now) }
        ensures stay { OnOk result (length judges.new.shares ≡ length leaders.now) }
        ensures stay_tallies { OnOk result (length self.new.tallies.items ≡ length served.now) }
    {
        judges.begin(alloc, run.shared_template())?;
        let mut from = 0;
        let mut classes = judges.classes_at(run, 0);
        'stretches: while from < run.len() {
            let (to, next) = judges.stretch(run, from, classes);
            self.add_stretch(
                alloc, in_force, judges, domain, before, classes, run, from, to, leaders, places,
                served,
            )?;
            from = to;
            classes = next;
        }
        Ok(())
    }

    /// Judges the records of `run` from the place `from` on that stand before `to`, of which there is one at least, and of
    /// each of which `classes` are the classes, as [`add_runs`](Sums::add_runs) does. The message has `before` records
    /// before those of the run.
    ///
    /// # Errors
    /// Want of memory.
    fn add_stretch(
        &mut self,
        alloc: Global,
        in_force: &InForce,
        judges: &mut Judges,
        domain: u32,
        before: usize,
        classes: Option<RecordClasses>,
        run: &Run,
        from: usize,
        to: usize,
        leaders: &[Served<'_>],
        places: &[usize],
        served: &[Served<'_>],
    ) -> Result<(), AllocError>
        requires few { before + length run.now.texts ≤ 2 ^ 32 }
        requires led { AreLed in_force.now.policy.rules leaders.now served.now places.now }
        requires judges { JudgeFor judges.old in_force.now domain
            (Some run.now.template) leaders.now }
        requires each { length judges.old.shares ≡ length leaders.now }
        requires each_tally { length self.old.tallies.items ≡ length served.now }
        requires some { from < to }
        requires within { to ≤ length run.now.texts }
        requires classes { (i : ℕ) → from ≤ i → i < to
            → classes ≡ classes_of judges.old.cuts (record_at run.now i) }
        requires alone { classes ≡ None → to ≡ from + 1 }
        ensures { OnOk result (HasAdded
            (progress_of judges.old self.old.tallies.items self.old.notes)
            (progress_of judges.new self.new.tallies.items self.new.notes)
            (before + from) (records_between from to run.now) run.now.template
            (audience_of domain in_force.now leaders.now served.now)) }
    {
        let mut room = mem::replace(&mut self.room, Room::new(alloc));
        let decided = &mut room.decided;
        decide(
            alloc, in_force, judges, domain, classes, run, from, to, leaders, decided,
        )?;
        self.count_stretch(
            alloc, in_force, domain, before, run, from, to, &mut room, leaders, places, served,
        )?;
        self.room = room;
        Ok(())
    }

    /// Adds what was decided of the records of `run` from the place `from` on that stand before `to`, of which there is
    /// one at least, for each of `served`: `room` has what was decided of each of them for each leader. What is kept back
    /// of all alike is noted once.
    ///
    /// # Errors
    /// Want of memory.
    fn count_stretch(
        &mut self,
        alloc: Global,
        in_force: &InForce,
        domain: u32,
        before: usize,
        run: &Run,
        from: usize,
        to: usize,
        room: &mut Room,
        leaders: &[Served<'_>],
        places: &[usize],
        served: &[Served<'_>],
    ) -> Result<(), AllocError>
        requires few { before + length run.now.texts ≤ 2 ^ 32 }
        requires led { AreLed in_force.now.policy.rules leaders.now served.now places.now }
        requires each_tally { length self.old.tallies.items ≡ length served.now }
        requires some { from < to }
        requires within { to ≤ length run.now.texts }
        requires decided { (i : ℕ) → from ≤ i → i < to → room.old.decided.items
            ≡ map (decision_for domain in_force.now (record_at run.now i)) leaders.now }
        ensures { OnOk result (AddsCounts
            (counted_of self.old.tallies.items self.old.notes)
            (counted_of self.new.tallies.items self.new.notes)
            (before + from) (records_between from to run.now)
            (audience_of domain in_force.now leaders.now served.now)) }
    {
        let (decided, kept) = (&room.decided, &mut room.kept);
        if to - from > MOST_AT_ONCE {
            return self.add_each(
                alloc, in_force, domain, before, run, from, to, decided, leaders, places, served,
            );
        }
        if keep_back(
            in_force, domain, run, from, to, decided, leaders, places, served, kept,
        )? {
            let count = (to - from) as u32;
            let index = (before + from) as u32;
            self.notes.push_stretch(index, count, kept)
        } else {
            self.add_each(
                alloc, in_force, domain, before, run, from, to, decided, leaders, places, served,
            )
        }
    }

    /// Adds the records of `run` from the place `from` on that stand before `to`, one after another, for each of `served`:
    /// `decided` is what was decided of each of them for each leader.
    ///
    /// # Errors
    /// Want of memory.
    fn add_each(
        &mut self,
        alloc: Global,
        in_force: &InForce,
        domain: u32,
        before: usize,
        run: &Run,
        from: usize,
        to: usize,
        decided: &Vec<Disclosure<()>>,
        leaders: &[Served<'_>],
        places: &[usize],
        served: &[Served<'_>],
    ) -> Result<(), AllocError>
        requires few { before + length run.now.texts ≤ 2 ^ 32 }
        requires led { AreLed in_force.now.policy.rules leaders.now served.now places.now }
        requires each_tally { length self.old.tallies.items ≡ length served.now }
        requires some { from < to }
        requires within { to ≤ length run.now.texts }
        requires decided { (i : ℕ) → from ≤ i → i < to → decided.now.items
            ≡ map (decision_for domain in_force.now (record_at run.now i)) leaders.now }
        ensures { OnOk result (AddsCounts
            (counted_of self.old.tallies.items self.old.notes)
            (counted_of self.new.tallies.items self.new.notes)
            (before + from) (records_between from to run.now)
            (audience_of domain in_force.now leaders.now served.now)) }
    {
        'records: for place in from..to {
            let index = (before + place) as u32;
            self.add_record(
                alloc,
                in_force,
                domain,
                index,
                &run.view(place),
                decided,
                leaders,
                places,
                served,
            )?;
        }
        Ok(())
    }

    /// Adds what `decided` says of the record `flow_record`, which stands at `index` in its message, counted from 0, for
    /// each leader, for each of `served`.
    ///
    /// # Errors
    /// Want of memory.
    fn add_record(
        &mut self,
        alloc: Global,
        in_force: &InForce,
        domain: u32,
        index: u32,
        flow_record: &RecordView<'_>,
        decided: &Vec<Disclosure<()>>,
        leaders: &[Served<'_>],
        places: &[usize],
        served: &[Served<'_>],
    ) -> Result<(), AllocError>
        requires led { AreLed in_force.now.policy.rules leaders.now served.now places.now }
        requires each_tally { length self.old.tallies.items ≡ length served.now }
        requires decided { decided.now.items
            ≡ map (decision_for domain in_force.now flow_record.now) leaders.now }
        ensures { OnOk result (AddsCounts
            (counted_of self.old.tallies.items self.old.notes)
            (counted_of self.new.tallies.items self.new.notes)
            index (flow_record.now ∷ [])
            (audience_of domain in_force.now leaders.now served.now)) }
    {
        'served: for (place, who) in served.iter().enumerate() {
            let found = &decided[places[place]];
            self.add(alloc, place, index, who.sub, in_force, flow_record, found)?;
        }
        Ok(())
    }

    /// Adds what became of the record `flow_record`, which stands at `index` in its message, for the subscription with
    /// the number `sub`, at `place` among those served. `found` is what the rules decided, and `in_force` says where
    /// the record counts.
    ///
    /// # Errors
    /// Want of memory.
    fn add(
        &mut self,
        alloc: Global,
        place: usize,
        index: u32,
        sub: u64,
        in_force: &InForce,
        flow_record: &RecordView<'_>,
        found: &Disclosure<()>,
    ) -> Result<(), AllocError>
        requires within { place < length self.old.tallies.items }
        ensures tallies { (before after : List (ℕ × List OneCount)) (s : ℕ × List OneCount)
            → map tallied self.old.tallies.items ≡ before ++ s ∷ after → length before ≡ place
            → OnOk result (map tallied self.new.tallies.items ≡ before ++ (
              s.0,
              s.1 ++ map count_of (counts_by in_force.now.policy.aggregates
                  in_force.now.clock flow_record.now found.now),
            ) ∷ after) }
        ensures stay { OnOk result (length self.new.tallies.items ≡ length self.old.tallies.items) }
        ensures notes { OnOk result (self.new.notes
            ≡ and_more self.old.notes (map (note_of index sub)
            (kept_back_by in_force.now.policy.aggregates in_force.now.clock
            flow_record.now found.now))) }
    {
        match found {
            Disclosure::Passed { kept: _, removed } => self.note_removed(index, sub, removed),
            Disclosure::Aggregated { rule, definition } => {
                let flow_record = flow_record.to_record()?;
                let what = told(*rule, in_force.timing(*definition, &flow_record));
                self.note(index, sub, what)?;
                match in_force.count(alloc, *definition, &flow_record)? {
                    Some(count) => self.tally(place, count),
                    None => Ok(()),
                }
            }
            Disclosure::Withheld { rule, reason } => self.note_withheld(index, sub, *rule, *reason),
        }
    }

    /// Adds `count` to what counts in aggregates of the subscription at `place`.
    ///
    /// # Errors
    /// Want of memory.
    fn tally(&mut self, place: usize, count: Count) -> Result<(), AllocError>
        requires within { place < length self.old.tallies.items }
        ensures tallies { (before after : List (ℕ × List OneCount)) (s : ℕ × List OneCount)
            → map tallied self.old.tallies.items ≡ before ++ s ∷ after
            → length before ≡ place → OnOk result (map tallied self.new.tallies.items
            ≡ before ++ (s.0, s.1 ++ count ∷ []) ∷ after) }
        ensures stay { OnOk result (length self.new.tallies.items ≡ length self.old.tallies.items) }
        ensures notes { self.new.notes ≡ self.old.notes }
    {
        self.tallies[place].counts.push(count)?;
        Ok(())
    }

    /// Notes the fields `removed` that the record at `index` loses for the subscription with the number `sub`, where
    /// there are some.
    ///
    /// # Errors
    /// Want of memory.
    fn note_removed(
        &mut self,
        index: u32,
        sub: u64,
        removed: &RemovedFields,
    ) -> Result<(), AllocError>
        ensures notes { OnOk result (self.new.notes
            ≡ and_more self.old.notes (map (note_of index sub) (removed_of removed.now))) }
        ensures tallies { self.new.tallies ≡ self.old.tallies }
    {
        if removed.is_empty() {
            return Ok(());
        }
        if !self.notes.keeps_next() {
            return self.notes.count_one();
        }
        let fields = removed.clone()?;
        self.note(index, sub, What::Removed { fields })
    }

    /// Notes that the record at `index` is withheld from the subscription with the number `sub`, by the rule with the
    /// number `rule`.
    ///
    /// # Errors
    /// Want of memory.
    fn note_withheld(
        &mut self,
        index: u32,
        sub: u64,
        rule: u32,
        reason: Reason,
    ) -> Result<(), AllocError>
        ensures notes { OnOk result (self.new.notes
            ≡ and_more self.old.notes (note_of index sub (Withheld rule reason) ∷ [])) }
        ensures tallies { self.new.tallies ≡ self.old.tallies }
    {
        if !self.notes.keeps_next() {
            return self.notes.count_one();
        }
        self.note(index, sub, What::Withheld { rule, reason })
    }

    /// Notes that `what` became of the record at `index` for the subscription with the number `sub`.
    ///
    /// # Errors
    /// Want of memory.
    fn note(&mut self, index: u32, sub: u64, what: What) -> Result<(), AllocError>
        ensures notes { OnOk result (self.new.notes
            ≡ and_more self.old.notes (note_of index sub what ∷ [])) }
        ensures tallies { self.new.tallies ≡ self.old.tallies }
    {
        self.notes.push(Note { index, sub, what })
    }
}

/// What each of the subscriptions `served` is given, where `given` is what each leader is, and their leaders stand at
/// `places`. The list is in memory from `alloc`.
///
/// # Errors
/// Want of memory.
fn spread(
    alloc: Global,
    given: &[Share],
    places: &[usize],
    served: &[Served<'_>],
) -> Result<Vec<Share>, AllocError>
    requires each { length places.now ≡ length served.now }
    requires within { AllByRecursion (λ place. place < length given.now) places.now }
    ensures { (domain : ℕ) (f : WhatIsInForce) (records : List DataRecord) (leaders : List ServedOf)
        → map shown given.now ≡ shares_of domain f records leaders
        → AreLed f.policy.rules leaders served.now places.now
        → IfOk result (λ s. map shown s.items ≡ shares_of domain f records served.now) }
{
    let mut shares = Vec::with_capacity(alloc, served.len())?;
    'served: for (place, who) in served.iter().enumerate() {
        let leader = places[place];
        shares.push(shared_with(who.sub, &given[leader])?)?;
    }
    Ok(shares)
}

/// The records of `share`, for the subscription with the number `sub`.
///
/// # Errors
/// Want of memory.
fn shared_with(sub: u64, share: &Share) -> Result<Share, AllocError>
    ensures { IfOk result (λ s. shown s ≡ (sub, share.now.given)) }
{
    Ok(Share {
        sub,
        given: share.given.clone()?,
    })
}

/// What the audit says of a record that the aggregate rule with the number `rule` names, where `timing` is what became
/// of it.
fn told(rule: u32, timing: Timing) -> What
    ensures { result ≡ told_of rule timing }
{
    let reason = match timing {
        Timing::Placed { .. } => return What::Aggregated { rule },
        Timing::NoTime => Reason::NoTime,
        Timing::NoKey => Reason::NoKey,
        Timing::Late => Reason::Late,
    };
    What::Withheld { rule, reason }
}
