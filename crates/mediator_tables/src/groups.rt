//! The table of the groups that are still open.
ghost use Rattle.std.specs.Prelude.{◌≡◌, ◌≢◌, ◌≤◌, ◌+◌, ◌++◌, ℕ, false, List, [], length, map, eqb, IfOk, OnErr};
ghost use Rattle.std.specs.List.{AllByRecursion, IsDistinct};
ghost use Rattle.std.specs.Map.{keys_of};
ghost use Rattle.flow_aggregate.specs.Groups.{Sample};
ghost use Rattle.flow_aggregate.specs.Running.{group_places, nothing_held, SumsStand, staying, HeldGroups};
ghost use Rattle.flow_aggregate.specs.Counts.{Count, count_of};
ghost use Rattle.flow_aggregate.specs.Additions.{AreReadyToAdd};
ghost use Rattle.flow_aggregate.specs.Closing.{record_of, closed_by};
ghost use Rattle.mediator_tables.specs.GroupTable.{held_at, groups_at, IsHeldAt, holds_groups};
ghost use Rattle.mediator_tables.specs.Adding.{tallied, reserved_for, IsReadyFor, AllReady, NoneTwice, AreCountable, added_to};

use crate::ids::SubId;
use crate::tally::{Reserved, Tally};
use flow_aggregate::{ClosedAggregate, Running};
use hash_keys::HashKeys;
use indexmap::IndexMap;
use ipfix_records::Records;
use std::alloc::{AllocError, Global};
use std::marker::Model;

/// The groups that are still open, by the numbers of the subscriptions that are to have their records.
///
/// What a message counts is added in two steps: `reserve` finds or makes all places and takes the memory; `add_reserved` then
/// looks nothing up, takes no memory and can't fail.
pub struct RunningGroups {
    alloc: Global,
    // What the groups are hashed with; the numbers of subscriptions are chosen by nobody.
    keys: HashKeys,
    // A subscription without a group keeps its place until the next `reserve` or `close`, so that what was made ready for
    // others finds theirs.
    by_number: IndexMap<u64, Running>,
}

impl Drop for RunningGroups {
    // Written out: a derived one is proved anew in each crate that drops such a value.
    fn drop(self) {
        let RunningGroups {
            alloc: _,
            keys: _,
            by_number: _,
        } = self;
    }
}

impl Model for RunningGroups {
    ghost use Rattle.std.specs.Prelude.{List, ℕ, eqb};
    ghost use Rattle.std.specs.List.{IsDistinct};
    ghost use Rattle.std.specs.Map.{keys_of};
    ghost use Rattle.flow_aggregate.specs.Running.{HeldGroups};

    ghost Value = { List (ℕ × HeldGroups) };

    ghost view = { λ r. r.by_number.entries };

    // No subscription has two group_places.
    ghost invariant = { λ r. IsDistinct eqb (keys_of r.by_number.entries) };
}

impl RunningGroups {
    /// No group. What it comes to keep is taken from `alloc`.
    pub fn new(alloc: Global) -> RunningGroups
        ensures { (q : ℕ) → held_at result q ≡ nothing_held }
    {
        RunningGroups {
            alloc,
            keys: HashKeys::known(),
            by_number: IndexMap::new(alloc),
        }
    }

    /// Hashes the groups of subscriptions that have none yet with `keys`.
    pub fn hash_by(&mut self, keys: HashKeys)
        ensures { self.new ≡ self.old }
    {
        self.keys = keys;
    }

    /// How many groups are kept for the subscription `sub`, with those that were made for what is
    /// yet to be added. There are no more than records that count or are to be added.
    pub fn len(&self, sub: SubId) -> usize
        ensures value { result ≡ length (group_places (held_at self.now sub.0)) }
        ensures few { (counted : List Sample) → SumsStand (groups_at self.now sub.0) counted
            → result ≤ length counted + length (held_at self.now sub.0).ready }
    {
        match self.by_number.get(&sub.0) {
            Some(groups) => groups.len(),
            None => 0,
        }
    }

    /// The numbers of the subscriptions that may have groups. Each stands once; no other has a group.
    ///
    /// # Errors
    /// Want of memory.
    pub fn subs(&self) -> Result<Vec<SubId>, AllocError>
        ensures numbers { IfOk result (λ subs. map (λ s. s.0) subs.items ≡ keys_of self.now) }
        ensures once { IsDistinct eqb (keys_of self.now) }
    {
        let mut subs = Vec::new(self.alloc);
        'numbers: for number in self.by_number.keys() {
            subs.push(SubId(*number))?;
        }
        Ok(subs)
    }

    /// Makes ready for all of `tallies`, what one message adds, where no subscription stands twice.
    /// It finds the places of the groups, and makes those that are wanting. It answers what
    /// [`add_reserved`](RunningGroups::add_reserved) then adds, subscription by subscription. What
    /// was reserved before is so no more.
    ///
    /// # Errors
    /// Want of memory; then nothing is reserved. No sum changes, whatever the answer.
    pub fn reserve(&mut self, tallies: &[Tally]) -> Result<Vec<Reserved>, AllocError>
        ensures unchanged { (q : ℕ) → groups_at self.new q ≡ groups_at self.old q }
        ensures ok { IfOk result (λ reserved. NoneTwice (map tallied tallies.now)
            → AllReady self.new (map reserved_for reserved.items) (map tallied tallies.now)) }
        ensures few { (q : ℕ)
            → length (held_at self.new q).ready ≤ length (added_to q (map tallied tallies.now)) }
        ensures err { OnErr result ((q : ℕ) → (held_at self.new q).ready ≡ []) }
    {
        self.release();
        let reserved = self.reserve_each(tallies);
        if reserved.is_err() {
            self.release();
        }
        reserved
    }

    /// Takes out the groups that were made for what wasn't added. It takes no memory. What was reserved before is so no more.
    pub fn release(&mut self)
        ensures { (q : ℕ)
            → held_at self.new q ≡ record { groups = groups_at self.old q; ready = [] } }
    {
        self.by_number.retain(
            |_sub: &u64, groups: &mut Running| -> bool
                ensures { (result ≡ holds_groups groups.new)
                    × (groups.new ≡ record { groups = groups.old.groups; ready = [] }) }
            {
                groups.release();
                groups.len() > 0
            },
        );
    }

    /// Adds `reserved`, which the last [`reserve`](RunningGroups::reserve) made ready. It looks
    /// nothing up and takes no memory.
    pub fn add_reserved(&mut self, reserved: Vec<Reserved>)
        requires { AreCountable self.old (map reserved_for reserved.items) }
        ensures adds { (tallies : List (ℕ × List Count))
            → AllReady self.old (map reserved_for reserved.items) tallies → NoneTwice tallies
            → (q : ℕ) (before more : List Sample) → SumsStand (groups_at self.old q) before
            → added_to q tallies ≡ map count_of more
            → SumsStand (groups_at self.new q) (before ++ more) }
        // Nothing is ready then for those that were added to, and others are held as before.
        ensures ready { (tallies : List (ℕ × List Count))
            → AllReady self.old (map reserved_for reserved.items) tallies → NoneTwice tallies
            → AllByRecursion (λ t. (held_at self.new t.0).ready ≡ []) tallies }
        ensures others { (tallies : List (ℕ × List Count))
            → AllReady self.old (map reserved_for reserved.items) tallies → NoneTwice tallies
            → (q : ℕ) → AllByRecursion (λ t. t.0 ≢ q) tallies
            → held_at self.new q ≡ held_at self.old q }
    {
        'reserved: for one in reserved {
            self.add_one(one);
        }
    }

    /// The records of the groups of the subscription `sub` that an advance of the clock to `t`, in
    /// milliseconds since 1970, closes, in their order.
    ///
    /// # Errors
    /// Want of memory.
    pub fn closing(&self, sub: SubId, t: u64) -> Result<Records, AllocError>
        ensures { IfOk result (λ records. (counted : List Sample)
            → SumsStand (groups_at self.now sub.0) counted → records ≡ closed_by t counted) }
    {
        match self.by_number.get(&sub.0) {
            Some(groups) => records_of(self.alloc, &groups.closing(t)?),
            None => Ok(Records::new(self.alloc)),
        }
    }

    /// Drops the groups that an advance of the clock to `t`, in milliseconds since 1970, closes. It
    /// takes no memory. What was reserved before is so no more.
    pub fn close(&mut self, t: u64)
        ensures stays { (q : ℕ) (counted : List Sample) → SumsStand (groups_at self.old q) counted
            → SumsStand (groups_at self.new q) (staying t counted) }
        ensures ready { (q : ℕ) → (held_at self.new q).ready ≡ [] }
    {
        self.by_number.retain(
            |_sub: &u64, groups: &mut Running| -> bool
                ensures { (result ≡ holds_groups groups.new)
                    × ((counted : List Sample) → SumsStand groups.old.groups counted
                    → SumsStand groups.new.groups (staying t counted)) × (groups.new.ready ≡ []) }
            {
                groups.close(t);
                groups.len() > 0
            },
        );
    }

    /// Drops the groups of the subscription `sub`. It takes no memory, and what was reserved for
    /// others stays so.
    pub fn remove(&mut self, sub: SubId)
        ensures gone { held_at self.new sub.0 ≡ nothing_held }
        ensures others { (q : ℕ) → q ≢ sub.0 → held_at self.new q ≡ held_at self.old q }
        ensures places { keys_of self.new ≡ keys_of self.old }
    {
        if let Some(groups) = self.by_number.get_mut(&sub.0) {
            *groups = Running::hashed(self.alloc, self.keys);
        }
    }
}

impl RunningGroups {
    /// Makes ready for each of these, where nothing is reserved yet.
    fn reserve_each(&mut self, tallies: &[Tally]) -> Result<Vec<Reserved>, AllocError>
        requires { (q : ℕ) → (held_at self.old q).ready ≡ [] }
        ensures unchanged { (q : ℕ) → groups_at self.new q ≡ groups_at self.old q }
        ensures ok { IfOk result (λ reserved. NoneTwice (map tallied tallies.now)
            → AllReady self.new (map reserved_for reserved.items) (map tallied tallies.now)) }
        ensures few { (q : ℕ)
            → length (held_at self.new q).ready ≤ length (added_to q (map tallied tallies.now)) }
    {
        let mut reserved = Vec::with_capacity(self.alloc, tallies.len())?;
        'tallies: for tally in tallies {
            reserved.push_reserved(self.reserve_one(tally)?);
        }
        Ok(reserved)
    }

    /// Makes ready for what is added to the groups of one subscription. What was reserved for it before is so no more. Where
    /// nothing is added, and it has no place, it gets none.
    fn reserve_one(&mut self, tally: &Tally) -> Result<Reserved, AllocError>
        ensures unchanged { (q : ℕ) → groups_at self.new q ≡ groups_at self.old q }
        // What it adds has its place, and no more groups are made than it has counts.
        ensures ok { IfOk result
            (λ reserved. IsReadyFor self.new (reserved_for reserved) (tallied tally.now)) }
        ensures few { length (held_at self.new tally.now.sub).ready
            ≤ length tally.now.counts.items }
        // What was made ready for other subscriptions stays so.
        ensures others { (q : ℕ) → q ≢ tally.now.sub → held_at self.new q ≡ held_at self.old q }
        ensures places { (place q : ℕ) → IsHeldAt self.old place q → IsHeldAt self.new place q }
    {
        if tally.counts.is_empty() && !self.is_kept(tally.sub) {
            return Ok(Reserved {
                place: 0,
                additions: Vec::new(self.alloc),
            });
        }
        let place = self.place_of(tally.sub)?;
        match self.by_number.get_index_mut(place) {
            Some(groups) => {
                let additions = groups.reserve(&tally.counts)?;
                Ok(Reserved { place, additions })
            }
            None => unreachable!(),
        }
    }

    /// Whether a subscription has a place: one that has none has no group.
    fn is_kept(&self, sub: u64) -> bool
        ensures { result ≡ false → held_at self.now sub ≡ nothing_held }
    {
        match self.by_number.get(&sub) {
            Some(_) => true,
            None => false,
        }
    }

    /// The place of a subscription's groups, which is made where it has none yet.
    fn place_of(&mut self, sub: u64) -> Result<usize, AllocError>
        ensures unchanged { (q : ℕ) → held_at self.new q ≡ held_at self.old q }
        ensures ok { IfOk result (λ place. IsHeldAt self.new place sub) }
        ensures err { OnErr result (held_at self.new sub ≡ nothing_held) }
        ensures places { (place q : ℕ) → IsHeldAt self.old place q → IsHeldAt self.new place q }
    {
        match self.by_number.get_index_of(&sub) {
            Some(place) => Ok(place),
            None => {
                let place = self.by_number.len();
                self.by_number
                    .insert(sub, Running::hashed(self.alloc, self.keys))?;
                Ok(place)
            }
        }
    }

    /// Adds to the groups of the subscription at a place, where anything is added.
    fn add_one(&mut self, reserved: Reserved)
        requires { (sub : ℕ)
            × (counts : List Count) × IsReadyFor self.old (reserved_for reserved) (sub, counts) }
        ensures adds { (sub : ℕ) (before more : List Sample)
            → IsReadyFor self.old (reserved_for reserved) (sub, map count_of more)
            → SumsStand (groups_at self.old sub) before
            → SumsStand (groups_at self.new sub) (before ++ more) }
        // Nothing is ready then for this subscription, and others are held as before.
        ensures ready { (sub : ℕ) (counts : List Count)
            → IsReadyFor self.old (reserved_for reserved) (sub, counts)
            → (held_at self.new sub).ready ≡ [] }
        ensures others { (sub q : ℕ) (counts : List Count)
            → IsReadyFor self.old (reserved_for reserved) (sub, counts)
            → q ≢ sub → held_at self.new q ≡ held_at self.old q }
        ensures places { keys_of self.new ≡ keys_of self.old }
    {
        let Reserved { place, additions } = reserved;
        if additions.is_empty() {
            return;
        }
        if let Some(groups) = self.by_number.get_index_mut(place) {
            groups.add_reserved(additions);
        }
    }
}

/// The records of these groups.
fn records_of(alloc: Global, closed: &[ClosedAggregate]) -> Result<Records, AllocError>
    ensures { IfOk result (λ records. records ≡ map record_of closed.now) }
{
    let mut records = Records::new(alloc);
    for one in closed {
        records.push(alloc, one.record(alloc)?)?;
    }
    Ok(records)
}
