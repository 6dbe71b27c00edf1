//! What records add to their groups.
ghost use Rattle.std.specs.Prelude.{◌≡◌, IfOk};
ghost use Rattle.flow_aggregate.specs.Groups.{counted_as};
ghost use Rattle.flow_aggregate.specs.Running.{IsPlaced};
ghost use Rattle.flow_aggregate.specs.Counts.{count_of};

use crate::definition::Definition;
use crate::group::Group;
use crate::sums::Sums;
use ipfix_template::Record;
use std::alloc::{AllocError, Global};
use std::marker::Model;

/// What a record adds, and to which group.
pub struct Count {
    /// The group in which the record counts.
    pub(crate) group: Group,
    /// What it adds to the group's sums.
    pub(crate) counters: Sums,
}

impl Drop for Count {
    // Written out: a derived one is proved anew in each crate that drops such a value.
    fn drop(self) {
        let Count {
            group: _,
            counters: _,
        } = self;
    }
}

impl Model for Count {
    ghost use Rattle.flow_aggregate.specs.Counts.{Count};

    ghost Value = { Count };

    ghost view = { λ c. record { group = c.group; counters = c.counters } };
}

impl Count {
    /// What the record `flow_record` adds to the aggregate `definition`, in which
    /// [`judge_time`](crate::judge_time) places it. The group's key is in memory from `alloc`.
    ///
    /// # Errors
    /// Want of memory.
    pub fn of(
        alloc: Global,
        definition: &Definition,
        flow_record: &Record,
    ) -> Result<Count, AllocError>
        requires placed { IsPlaced definition.now flow_record.now }
        ensures { IfOk result (λ c. c ≡ count_of (counted_as definition.now flow_record.now)) }
    {
        Ok(Count {
            group: Group::of(alloc, definition, flow_record)?,
            counters: Sums::of_record(flow_record),
        })
    }
}
