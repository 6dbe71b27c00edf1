//! The groups that are kept, by the times at which they close.
ghost use Rattle.std.specs.Prelude.{◌≡◌, ◌<◌, [], IfSome, IfNone, OnOk, OnErr, IsTrue, false, slice_get, Some};
ghost use Rattle.std.specs.List.{IsDistinct, list_any};
ghost use Rattle.std.specs.BTreeMap.{btree_map_len};
ghost use Rattle.flow_aggregate.specs.GroupOrder.{same_group};
ghost use Rattle.flow_aggregate.specs.Agenda.{time_of, listed_at, without, ListsTheSame, ListsOneMore, ListsWithout, FirstBy, NoneListedTo, TakesOutDue, ListsNoneTo};

use crate::group::Group;
use std::alloc::{AllocError, Global};
use std::collections::BTreeMap;

/// Where more than one group in `FEW` is due, all groups are looked at, which then takes less time than to look up the
/// groups that are due.
const FEW: usize = 16;

/// The groups that are kept, by the times at which they close, so that those that are due are found without a look at the
/// others. It keeps no sums.
#[derive(Drop)]
pub(crate) struct Agenda {
    pub(crate) alloc: Global,
    /// Each group under the time at which it closes, in milliseconds since 1970. No list is empty.
    pub(crate) by_time: BTreeMap<u64, Vec<Group>>,
}

impl Agenda {
    /// No group. What it comes to keep is taken from `alloc`.
    pub(crate) fn new(alloc: Global) -> Agenda
        ensures { result.by_time.entries ≡ [] }
    {
        Agenda {
            alloc,
            by_time: BTreeMap::new(alloc),
        }
    }

    /// Lists one more group, behind the others of its time.
    ///
    /// # Errors
    /// Want of memory; then the same groups are listed as before.
    pub(crate) fn insert(&mut self, group: Group) -> Result<(), AllocError>
        ensures ok { OnOk result
            (ListsOneMore group self.old.by_time.entries self.new.by_time.entries) }
        ensures err { OnErr result
            (ListsTheSame self.old.by_time.entries self.new.by_time.entries) }
    {
        let time = group.closes_at();
        if let Some(groups) = self.by_time.get_mut(&time) {
            groups.push(group)?;
            return Ok(());
        }
        let mut groups = Vec::with_capacity(self.alloc, 1)?;
        groups.push(group)?;
        self.by_time.insert(time, groups)?;
        Ok(())
    }

    /// Takes a group out of its list, where it is looked for from the end. It takes no memory.
    pub(crate) fn remove(&mut self, group: &Group)
        requires { IsDistinct same_group (listed_at self.old.by_time.entries (time_of group.now)) }
        ensures { ListsWithout group.now self.old.by_time.entries self.new.by_time.entries }
    {
        let time = group.closes_at();
        self.take_out(time, group);
        if self.is_empty_at(time) {
            self.by_time.remove(&time);
        }
    }

    /// Takes a group out of the list of `time`, at which it closes.
    fn take_out(&mut self, time: u64, group: &Group)
        requires time { time ≡ time_of group.now }
        requires once { IsDistinct same_group (listed_at self.old.by_time.entries time) }
        ensures { ListsWithout group.now self.old.by_time.entries self.new.by_time.entries }
    {
        if let Some(groups) = self.by_time.get_mut(&time) {
            take_last(groups, group);
        }
    }

    /// Whether the list of `time` is there, and is empty.
    fn is_empty_at(&self, time: u64) -> bool
        ensures { IsTrue result → listed_at self.now.by_time.entries time ≡ [] }
    {
        match self.by_time.get(&time) {
            Some(groups) => groups.is_empty(),
            None => false,
        }
    }

    /// Takes out all groups of the first time, if that is no later than `t`, in milliseconds since 1970. It takes no memory.
    pub(crate) fn pop_due(&mut self, t: u64) -> Option<Vec<Group>>
        ensures some { IfSome result (λ groups.
            TakesOutDue t groups.items self.old.by_time.entries self.new.by_time.entries) }
        ensures none { IfNone result (NoneListedTo t self.new.by_time.entries) }
        ensures unchanged { IfNone result (self.new.by_time.entries ≡ self.old.by_time.entries) }
        ensures fewer { IfSome result (λ _.
            btree_map_len self.new.by_time < btree_map_len self.old.by_time) }
    {
        if !self.has_due(t) {
            return None;
        }
        match self.by_time.pop_first() {
            Some((_, groups)) => Some(groups),
            None => None,
        }
    }

    /// Whether the first time is no later than `t`.
    fn has_due(&self, t: u64) -> bool
        ensures first { IsTrue result → FirstBy t self.now.by_time.entries }
        ensures none { result ≡ false → NoneListedTo t self.now.by_time.entries }
    {
        match self.by_time.first_key_value() {
            Some((time, _)) => *time <= t,
            None => false,
        }
    }

    /// Takes out all groups that are due at `t`, in milliseconds since 1970. It takes no memory.
    pub(crate) fn drop_due(&mut self, t: u64)
        ensures { ListsNoneTo t self.old.by_time.entries self.new.by_time.entries }
    {
        'times: while let Some(groups) = self.pop_due(t) {
            drop(groups);
        }
    }

    /// Whether more than one in `FEW` of `count` groups is due at `t`, in milliseconds since 1970, so that it is faster
    /// to look at all groups.
    pub(crate) fn has_many_due(&self, t: u64, count: usize) -> bool {
        let mut due = 0usize;
        'times: for (_time, groups) in self.by_time.range(..=t) {
            due = due.saturating_add(groups.len());
        }
        due > count / FEW
    }
}

/// Takes the last such group out of a list.
fn take_last(groups: &mut Vec<Group>, group: &Group)
    requires { IsDistinct same_group groups.old.items }
    ensures { groups.new.items ≡ without group.now groups.old.items }
{
    if let Some(place) = last_place(groups, group) {
        groups.remove(place);
    }
}

/// The last place of a group in a list.
fn last_place(groups: &[Group], group: &Group) -> Option<usize>
    ensures some { IfSome result (λ place. slice_get groups.now place ≡ Some group.now) }
    ensures none { IfNone result (list_any (same_group group.now) groups.now ≡ false) }
{
    for behind in 0..groups.len() {
        let place = groups.len() - 1 - behind;
        let listed = &groups[place];
        if listed == group {
            return Some(place);
        }
    }
    None
}
