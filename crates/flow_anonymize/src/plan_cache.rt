//! Plans that are kept, and what passes by them.
ghost use Rattle.std.specs.Prelude.{◌≡◌, ◌<◌, ◌≤◌, ◌++◌, ◌∷◌, [], ℕ, List, Some, length, slice_get, position, IfOk, IfSome, OnOk, OnErr};
ghost use Rattle.std.specs.List.{flat_map};
ghost use Rattle.flow_anonymize.specs.Outcome.{decision_of};
ghost use Rattle.flow_anonymize.specs.Planning.{planned, IsShowable};
ghost use Rattle.flow_anonymize.specs.Parts.{record_at, records_between};
ghost use Rattle.flow_anonymize.specs.Plans.{has_classes};
ghost use Rattle.flow_anonymize.specs.PlanCache.{IsPut, passed_by};

use crate::disclosure::Disclosure;
use crate::output::Output;
use crate::plan::Plan;
use crate::record_classes::RecordClasses;
use crate::slot::{Slot, is_for};
use ipfix_records::{Records, Run};
use ipfix_template::Record;
use std::alloc::{AllocError, Global};
use std::marker::Model;

/// The most plans that are kept.
const MOST_PLANS: usize = 16;

/// Plans for the records of one template, and the records that passed by these and by others. Contracts see both lists.
#[derive(Drop)]
pub(crate) struct PlanCache {
    slots: Vec<Slot>,
    output: Output,
    /// The place of the plan by which the run is written that is open, if that plan is still kept.
    open_place: Option<usize>,
}

impl Model for PlanCache {
    ghost use Rattle.flow_anonymize.specs.PlanCache.{CacheOf, IsOpen};

    ghost Value = { CacheOf };

    ghost view = { λ s. record { slots = s.slots.items; given = s.output.given } };

    ghost invariant = { λ s. IsOpen s.slots.items s.output.writing s.open_place };
}

impl PlanCache {
    ghost use Rattle.flow_anonymize.specs.declared.slot.Slot.{Slot};

    /// No plan, and no record.
    pub(crate) fn new(alloc: Global) -> PlanCache
        ensures { result ≡ record { slots = []; given = [] } }
    {
        PlanCache {
            slots: Vec::new(alloc),
            output: Output::new(alloc),
            open_place: None,
        }
    }

    /// Drops the plans.
    pub(crate) fn clear(&mut self)
        ensures { self.new ≡ record { slots = []; given = self.old.given } }
    {
        self.slots.clear();
        self.open_place = None;
    }

    /// The place of the plan for records whose addresses have these classes.
    pub(crate) fn place_of(&self, classes: RecordClasses) -> Option<usize>
        ensures place { result ≡ position (has_classes classes) self.now.slots }
        ensures within { IfSome result (λ place. place < length self.now.slots) }
    {
        self.slots.iter().position(|slot| is_for(slot, classes))
    }

    /// Keeps a plan, in the place of another where there are as many as are kept, and answers its place.
    ///
    /// # Errors
    /// Want of memory, and then nothing has changed.
    pub(crate) fn keep(&mut self, slot: Slot) -> Result<usize, AllocError>
        ensures put { IfOk result (λ place. IsPut self.old.slots slot place self.new.slots) }
        ensures given { self.new.given ≡ self.old.given }
        ensures err { OnErr result (self.new ≡ self.old) }
    {
        let count = self.slots.len();
        if count < MOST_PLANS {
            self.slots.push(slot)?;
            return Ok(count);
        }
        let place = (slot.classes.sources ^ slot.classes.destinations) as usize % MOST_PLANS;
        self.open_place = None;
        self.slots[place] = slot;
        Ok(place)
    }

    /// Gives what passes by the plan at a place of the records of `run` from the place `from` on that stand before `to`, and
    /// says what became of each, which is the same for all records of that plan.
    ///
    /// # Errors
    /// Want of memory.
    pub(crate) fn give(
        &mut self,
        place: usize,
        run: &Run,
        from: usize,
        to: usize,
    ) -> Result<Disclosure<()>, AllocError>
        requires there { place < length self.old.slots }
        requires order { from ≤ to }
        requires within { to ≤ length run.now.texts }
        requires showable { (slot : Slot) (i : ℕ) → slice_get self.old.slots place ≡ Some slot
            → from ≤ i → i < to → IsShowable slot.plan (record_at run.now i) }
        ensures slots { self.new.slots ≡ self.old.slots }
        // What passes comes behind the other records, and what is said of the records is so.
        ensures given { (slot : Slot) → slice_get self.old.slots place ≡ Some slot
            → OnOk result (self.new.given
            ≡ self.old.given ++ flat_map (passed_by slot.plan) (records_between from to run.now)) }
        ensures decision { (slot : Slot) (values : List (List ℕ))
            → slice_get self.old.slots place ≡ Some slot
            → IfOk result (λ d. d ≡ decision_of (planned slot.plan values)) }
    {
        let is_open = self.open_place == Some(place);
        let open_before = self.open_place.take();
        let plan = &self.slots[place].plan;
        pass(plan, is_open, run, from, to, &mut self.output)?;
        self.open_place = match plan.template() {
            Some(_) => Some(place),
            None => open_before,
        };
        plan.decision()
    }

    /// Gives a record that passes by no plan that is kept.
    ///
    /// # Errors
    /// Want of memory.
    pub(crate) fn push(&mut self, kept: Record) -> Result<(), AllocError>
        ensures given { OnOk result
            (self.new ≡ record { slots = self.old.slots; given = self.old.given ++ kept ∷ [] }) }
        ensures slots { self.new.slots ≡ self.old.slots }
    {
        self.open_place = None;
        self.output.push(kept)
    }

    /// Takes all records that were given. The plans stay.
    ///
    /// # Errors
    /// Want of memory.
    pub(crate) fn take_records(&mut self) -> Result<Records, AllocError>
        ensures given { IfOk result (λ all. all ≡ self.old.given) }
        ensures taken { OnOk result (self.new ≡ record { slots = self.old.slots; given = [] }) }
        ensures slots { self.new.slots ≡ self.old.slots }
    {
        self.open_place = None;
        self.output.take_records()
    }

    /// Drops all records that were given. The plans stay.
    pub(crate) fn drop_records(&mut self)
        ensures { self.new ≡ record { slots = self.old.slots; given = [] } }
    {
        self.open_place = None;
        self.output.clear();
    }
}

ghost use Rattle.std.specs.Prelude.{true};
ghost use Rattle.flow_anonymize.specs.Planning.{shown_template};
ghost use Rattle.flow_anonymize.specs.PlanCache.{WritesForTemplate};

/// Adds what passes by a plan of the records of `run` from the place `from` on that stand before `to`, to the run that is
/// written by this plan already or to a new one.
///
/// # Errors
/// Want of memory.
fn pass(
    plan: &Plan,
    is_open: bool,
    run: &Run,
    from: usize,
    to: usize,
    output: &mut Output,
) -> Result<(), AllocError>
    requires order { from ≤ to }
    requires within { to ≤ length run.now.texts }
    requires showable { (i : ℕ) → from ≤ i → i < to → IsShowable plan.now (record_at run.now i) }
    requires same { is_open ≡ true → output.old.writing ≡ shown_template plan.now }
    ensures given { OnOk result (output.new.given
        ≡ output.old.given ++ flat_map (passed_by plan.now) (records_between from to run.now)) }
    ensures writing { OnOk result
        (WritesForTemplate (shown_template plan.now) output.old.writing output.new.writing) }
{
    let Some(template) = plan.template() else {
        return Ok(());
    };
    if !is_open {
        output.begin(template.clone()?)?;
    }
    output.add_all(plan, run, from, to)
}
