//! Groups that are still open, with their sums.
ghost use Rattle.std.specs.Prelude.{◌≡◌, ◌≤◌, ◌+◌, ◌++◌, ◌∷◌, List, [], length, map, slice_get, false, Some, IfOk, OnErr, OnOk};
ghost use Rattle.flow_aggregate.specs.Groups.{Group as OneGroup, Sample};
ghost use Rattle.flow_aggregate.specs.GroupOrder.{group_cmp};
ghost use Rattle.flow_aggregate.specs.Running.{nothing_held, group_places, SumsStand, staying, due_one, closed_at, closed_among, AreDue};
ghost use Rattle.flow_aggregate.specs.Closing.{record_of, closed_by};
ghost use Rattle.flow_aggregate.specs.Counts.{Count as OneCount, count_of};
ghost use Rattle.flow_aggregate.specs.Additions.{AreReadyToAdd, MakesAtMost, is_group_among};

#[cfg(test)]
mod tests;

use crate::addition::Addition;
use crate::agenda::Agenda;
use crate::closed::ClosedAggregate;
use crate::count::Count;
use crate::group::Group;
use crate::listed;
use crate::sums::Sums;
use hash_keys::HashKeys;
use indexmap::IndexMap;
use std::alloc::{AllocError, Global};
use std::cmp::Ordering;
use std::marker::Model;

/// Groups that are still open. It keeps their sums and no records, so that its size goes with the groups and
/// not with the traffic.
///
/// Records are counted in two steps: `reserve` makes what takes memory and changes no sum; `add_reserved` takes no memory
/// and can't fail. What was reserved and isn't added goes with the next `reserve` or `close`.
pub struct Running {
    alloc: Global,
    // Those from `counted` on were made for what is yet to be added, and have no sums.
    groups: IndexMap<Group, Sums, HashKeys>,
    counted: usize,
    // All of these by the times at which they close, so that those that are due are found without a look at the others.
    agenda: Agenda,
}

impl Drop for Running {
    // Written out: a derived one is proved anew in each crate that drops such a value.
    fn drop(self) {
        let Running {
            alloc: _,
            groups: _,
            counted: _,
            agenda: _,
        } = self;
    }
}

impl Model for Running {
    ghost use Rattle.flow_aggregate.specs.Running.{HeldGroups, held_of};
    ghost use Rattle.flow_aggregate.specs.Agenda.{AreGroupsKept};

    ghost Value = { HeldGroups };

    ghost view = { λ r. held_of r.counted r.groups.entries };

    ghost invariant = { λ r. AreGroupsKept r.counted r.groups.entries r.agenda.by_time.entries };
}

impl Running {
    /// No group. What it comes to keep is taken from `alloc`. Groups are hashed with keys that
    /// everybody knows.
    pub fn new(alloc: Global) -> Running
        ensures { result ≡ nothing_held }
    {
        Running::hashed(alloc, HashKeys::known())
    }

    /// No group. What it comes to keep is taken from `alloc`. The groups to come are hashed with
    /// `keys`, so that no exporter can choose groups that collide where these are secret.
    pub fn hashed(alloc: Global, keys: HashKeys) -> Running
        ensures { result ≡ nothing_held }
    {
        Running {
            alloc,
            groups: IndexMap::with_hasher(alloc, keys),
            counted: 0,
            agenda: Agenda::new(alloc),
        }
    }

    /// How many groups are kept, with those that were made for what is yet to be added. There are no more than records that
    /// count or are to be added.
    pub fn len(&self) -> usize
        ensures value { result ≡ length (group_places self.now) }
        ensures few { (counted : List Sample) → SumsStand self.now.groups counted
            → result ≤ length counted + length self.now.ready }
    {
        self.groups.len()
    }

    /// Makes ready for all of `counts` to be added: finds the places of their groups, and makes
    /// those that are wanting. It answers what [`add_reserved`](Running::add_reserved) then adds,
    /// count by count. What was reserved before is so no more.
    ///
    /// # Errors
    /// Want of memory; then nothing is reserved.
    pub fn reserve(&mut self, counts: &[Count]) -> Result<Vec<Addition>, AllocError>
        ensures unchanged { self.new.groups ≡ self.old.groups }
        ensures ok { IfOk result (λ additions. AreReadyToAdd self.new additions.items counts.now) }
        ensures few { length self.new.ready ≤ length counts.now }
        ensures err { OnErr result (self.new.ready ≡ []) }
    {
        self.release();
        let additions = self.make_ready(counts);
        if additions.is_err() {
            self.release();
        }
        additions
    }

    /// Takes out the groups that were made for what wasn't added. What was reserved before is so no more.
    pub fn release(&mut self)
        ensures { self.new ≡ record { groups = self.old.groups; ready = [] } }
    {
        listed::truncate(&mut self.groups, &mut self.agenda, self.counted);
    }

    /// Adds `additions`, which the last [`reserve`](Running::reserve) made ready. It takes no
    /// memory and looks for no group.
    pub fn add_reserved(&mut self, additions: Vec<Addition>)
        requires { (counts : List OneCount) × AreReadyToAdd self.old additions.items counts }
        ensures adds { (before more : List Sample) → SumsStand self.old.groups before
            → AreReadyToAdd self.old additions.items (map count_of more)
            → SumsStand self.new.groups (before ++ more) }
        ensures ready { self.new.ready ≡ [] }
    {
        self.counted = self.groups.len();
        add_all(&mut self.groups, additions);
    }

    /// Drops the groups that an advance of the clock to `t`, in milliseconds since 1970, closes. It
    /// takes no memory. What was reserved before is so no more.
    pub fn close(&mut self, t: u64)
        ensures stays { (counted : List Sample) → SumsStand self.old.groups counted
            → SumsStand self.new.groups (staying t counted) }
        ensures ready { self.new.ready ≡ [] }
    {
        self.release();
        listed::close(&mut self.groups, &mut self.agenda, t);
        self.counted = self.groups.len();
    }

    /// The groups that an advance of the clock to `t`, in milliseconds since 1970, closes: those
    /// whose interval's end, and the grace behind it, it comes to. They stand in the order of
    /// start, interval, grace, name, key and the key's octets.
    ///
    /// # Errors
    /// Want of memory.
    pub fn closing(&self, t: u64) -> Result<Vec<ClosedAggregate>, AllocError>
        ensures { IfOk result
            (λ closed. (counted : List Sample) → SumsStand self.now.groups counted
            → map record_of closed.items ≡ closed_by t counted) }
    {
        let mut closed = self.due(t)?;
        closed.sort_unstable_by(
            |a: &ClosedAggregate, b: &ClosedAggregate| -> Ordering
                ensures { result ≡ group_cmp a.now.group b.now.group }
            { a.group().cmp(b.group()) },
        );
        Ok(closed)
    }

    /// These groups in some order.
    fn due(&self, t: u64) -> Result<Vec<ClosedAggregate>, AllocError>
        ensures { IfOk result (λ due. AreDue t self.now.groups due.items) }
    {
        if self.agenda.has_many_due(t, self.groups.len()) {
            self.find_due(t)
        } else {
            self.look_up_due(t)
        }
    }

    /// These groups, found among all.
    fn find_due(&self, t: u64) -> Result<Vec<ClosedAggregate>, AllocError>
        ensures { IfOk result (λ due. AreDue t self.now.groups due.items) }
    {
        let mut due = Vec::new(self.alloc);
        for place in 0..self.counted {
            let Some((group, sums)) = self.groups.get_index(place) else {
                unreachable!()
            };
            put_due(t, group, *sums, &mut due)?;
        }
        Ok(due)
    }

    /// These groups, by the times at which they close.
    fn look_up_due(&self, t: u64) -> Result<Vec<ClosedAggregate>, AllocError>
        ensures { IfOk result (λ due. AreDue t self.now.groups due.items) }
    {
        let mut due = Vec::new(self.alloc);
        'times: for (_time, groups) in self.agenda.by_time.range(..=t) {
            self.put_all(groups, &mut due)?;
        }
        Ok(due)
    }

    /// Appends those of these groups in which records count.
    fn put_all(&self, groups: &[Group], due: &mut Vec<ClosedAggregate>) -> Result<(), AllocError>
        ensures { OnOk result
            (due.new.items ≡ due.old.items ++ closed_among self.now.groups groups.now) }
    {
        for group in groups {
            self.put_one(group, due)?;
        }
        Ok(())
    }

    /// Appends the group, if records count in it.
    fn put_one(&self, group: &Group, due: &mut Vec<ClosedAggregate>) -> Result<(), AllocError>
        ensures { OnOk result
            (due.new.items ≡ due.old.items ++ closed_at self.now.groups group.now) }
    {
        if let Some((place, _, sums)) = self.groups.get_full(group) {
            if place < self.counted {
                due.push(ClosedAggregate::new(group.share()?, *sums))?;
            }
        }
        Ok(())
    }

    /// Makes ready for all of these to be added, where nothing is reserved.
    fn make_ready(&mut self, counts: &[Count]) -> Result<Vec<Addition>, AllocError>
        requires { self.old.ready ≡ [] }
        ensures unchanged { self.new.groups ≡ self.old.groups }
        ensures ok { IfOk result (λ additions. AreReadyToAdd self.new additions.items counts.now) }
        ensures few { length self.new.ready ≤ length counts.now }
    {
        let mut additions = Vec::with_capacity(self.alloc, counts.len())?;
        for count in counts {
            let place = self.place_of(&count.group)?;
            additions.push_reserved(Addition {
                place,
                counters: count.counters,
            });
        }
        Ok(additions)
    }

    /// The place of a group, which is made where it is wanting.
    fn place_of(&mut self, group: &Group) -> Result<usize, AllocError>
        ensures unchanged { self.new.groups ≡ self.old.groups }
        ensures place { IfOk result (λ place. slice_get (group_places self.new) place ≡ Some group.now) }
        ensures ready { MakesAtMost group.now self.old.ready self.new.ready }
    {
        match self.groups.get_index_of(group) {
            Some(place) => Ok(place),
            None => self.make(group),
        }
    }

    /// Makes a group that is wanting, and answers its place.
    fn make(&mut self, group: &Group) -> Result<usize, AllocError>
        requires { is_group_among (group_places self.old) group.now ≡ false }
        ensures ok { IfOk result (λ place. (place ≡ length (group_places self.old)) × (self.new
            ≡ record { groups = self.old.groups; ready = self.old.ready ++ group.now ∷ [] })) }
        ensures err { OnErr result (self.new ≡ self.old) }
    {
        let place = self.groups.len();
        listed::insert(&mut self.groups, &mut self.agenda, group)?;
        Ok(place)
    }
}

ghost use Rattle.flow_aggregate.specs.Additions.{with_addition, with_additions};

/// Adds at the places of groups.
fn add_all(groups: &mut IndexMap<Group, Sums, HashKeys>, additions: Vec<Addition>)
    ensures { groups.new.entries ≡ with_additions groups.old.entries additions.items }
{
    for addition in additions {
        add_one(groups, &addition);
    }
}

fn add_one(groups: &mut IndexMap<Group, Sums, HashKeys>, addition: &Addition)
    ensures { groups.new.entries ≡ with_addition groups.old.entries addition.now }
{
    if let Some(sums) = groups.get_index_mut(addition.place) {
        *sums = sums.plus(addition.counters);
    }
}

/// Appends the group, if an advance of the clock to `t` closes it.
fn put_due(
    t: u64,
    group: &Group,
    sums: Sums,
    due: &mut Vec<ClosedAggregate>,
) -> Result<(), AllocError>
    ensures { OnOk result (due.new.items ≡ due.old.items ++ due_one t group.now sums) }
{
    if group.is_due(t) {
        due.push(ClosedAggregate::new(group.share()?, sums))?;
    }
    Ok(())
}
