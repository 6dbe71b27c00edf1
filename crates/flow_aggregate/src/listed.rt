//! Groups with their sums, and the agenda that lists them: what changes both, and keeps them in step.
ghost use Rattle.std.specs.Prelude.{◌≡◌, ◌++◌, ◌∷◌, [], None, take, OnOk, OnErr, if◌then◌else◌};
ghost use Rattle.std.specs.List.{IsDistinct, list_any};
ghost use Rattle.std.specs.Map.{keys_of};
ghost use Rattle.flow_aggregate.specs.Groups.{Group as OneGroup};
ghost use Rattle.flow_aggregate.specs.GroupOrder.{same_group};
ghost use Rattle.flow_aggregate.specs.Sums.{no_sums};
ghost use Rattle.flow_aggregate.specs.Running.{sums_at, is_due};
ghost use Rattle.flow_aggregate.specs.Agenda.{AreListed, ClosesDue};

use crate::agenda::Agenda;
use crate::group::Group;
use crate::sums::Sums;
use hash_keys::HashKeys;
use indexmap::IndexMap;
use std::alloc::AllocError;

/// Puts a group that is wanting behind the others, without sums.
///
/// # Errors
/// Want of memory; then no group is there that wasn't.
pub(crate) fn insert(
    groups: &mut IndexMap<Group, Sums, HashKeys>,
    agenda: &mut Agenda,
    group: &Group,
) -> Result<(), AllocError>
    requires listed { AreListed groups.old.entries agenda.old.by_time.entries }
    requires wanting { sums_at groups.old.entries group.now ≡ None }
    ensures ok { OnOk result
        (groups.new.entries ≡ groups.old.entries ++ (group.now, no_sums) ∷ []) }
    ensures err { OnErr result (groups.new.entries ≡ groups.old.entries) }
    ensures listed { AreListed groups.new.entries agenda.new.by_time.entries }
{
    let kept = group.share()?;
    let listed = group.share()?;
    groups.reserve(1)?;
    agenda.insert(listed)?;
    match groups.insert(kept, Sums::none()) {
        Ok(_) => Ok(()),
        Err(_) => unreachable!(),
    }
}

/// Keeps the first `count` groups. It takes no memory.
pub(crate) fn truncate(
    groups: &mut IndexMap<Group, Sums, HashKeys>,
    agenda: &mut Agenda,
    count: usize,
)
    requires { AreListed groups.old.entries agenda.old.by_time.entries }
    ensures entries { groups.new.entries ≡ take count groups.old.entries }
    ensures listed { AreListed groups.new.entries agenda.new.by_time.entries }
{
    'groups: while count < groups.len() {
        match groups.pop() {
            Some((group, _)) => agenda.remove(&group),
            None => unreachable!(),
        }
    }
}

/// Drops the groups that are due at `t`, in milliseconds since 1970. It takes no memory.
pub(crate) fn close(groups: &mut IndexMap<Group, Sums, HashKeys>, agenda: &mut Agenda, t: u64)
    requires { AreListed groups.old.entries agenda.old.by_time.entries }
    ensures { ClosesDue t groups.old.entries groups.new.entries agenda.new.by_time.entries }
{
    if agenda.has_many_due(t, groups.len()) {
        close_many(groups, agenda, t);
    } else {
        close_few(groups, agenda, t);
    }
}

/// Drops the groups that are due at `t`, in milliseconds since 1970, by a look at all groups. It takes no memory.
fn close_many(groups: &mut IndexMap<Group, Sums, HashKeys>, agenda: &mut Agenda, t: u64)
    requires { AreListed groups.old.entries agenda.old.by_time.entries }
    ensures { ClosesDue t groups.old.entries groups.new.entries agenda.new.by_time.entries }
{
    groups.retain(
        |group: &Group, sums: &mut Sums| -> bool
            ensures { (result ≡ Rattle.std.specs.Prelude.not (is_due t group.now))
                × (sums.new ≡ sums.old) }
        { !group.is_due(t) },
    );
    agenda.drop_due(t);
}

/// Drops the groups that are due at `t`, in milliseconds since 1970, by a look at those groups alone. It takes no
/// memory.
fn close_few(groups: &mut IndexMap<Group, Sums, HashKeys>, agenda: &mut Agenda, t: u64)
    requires { AreListed groups.old.entries agenda.old.by_time.entries }
    ensures { ClosesDue t groups.old.entries groups.new.entries agenda.new.by_time.entries }
{
    'times: while let Some(due) = agenda.pop_due(t) {
        drop_all(groups, &due);
    }
}

/// Drops these groups.
fn drop_all(groups: &mut IndexMap<Group, Sums, HashKeys>, gone: &[Group])
    requires { IsDistinct same_group (keys_of groups.old.entries) }
    ensures keys { IsDistinct same_group (keys_of groups.new.entries) }
    ensures sums { (g : OneGroup) → sums_at groups.new.entries g
        ≡ (if list_any (same_group g) gone.now then None else sums_at groups.old.entries g) }
{
    for group in gone {
        groups.swap_remove(group);
    }
}
