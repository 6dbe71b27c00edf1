//! Sums over intervals: where a record counts in an aggregate, the sums of the records that count together, and the
//! record of a group once no more can count in it (RFC 7015: intervals and their distribution by a flow's start in
//! section 5.1.1, aggregation by key in section 5.2). It knows no policy, no clock and no subscriber.
//!
//! - `timing`: [`judge_time`], and [`Timing`], what it answers.
//! - `running`: [`Running`], the groups that are still open; it adds records and closes groups.
//! - `definition`: [`Definition`], an aggregate's definition, made ready for records to be counted in it. [`AggregateDef`] is
//!   handed on from `policy_text`.
//! - `count`: [`Count`], what a record adds, and to which group.
//! - `addition`: [`Addition`], what a record adds, at the place of its group, once that was made ready.
//! - `agenda`, `listed`: by when the groups are to be closed, and what keeps that in step with the groups.
//! - `closed`, `closed_template`: [`ClosedAggregate`], a closed group with its sums, and its record.
//! - `group`, `group_order`: what groups are, which are one, and their order.
//! - `sums`, `values`: the counters, and the first value of an element in a record.
//!
//! Proved: `judge_time` answers the interval in which a record counts, or the first reason why it counts in none.
//! `Running::reserve` leaves the groups and their sums as they were, and keeps at most a group more for each record that is to
//! be added; `add_reserved`, which can't fail, makes groups that stand for some records stand for these and the records that
//! were reserved for; after a refusal the next `reserve`, or a `close`, drops what was reserved. `closing` answers the groups of
//! those records that the advance comes to, each once, in their order, with the sums of their records, capped at 2^64-1
//! (`closed_by`, which looks at the records that were added and at no group); after `close` they stand for the others.
//! `ClosedAggregate::record` is the record of the group and its sums, each value at full width.
#![tactic(auto)]

mod addition;
mod agenda;
mod closed;
mod closed_template;
mod count;
mod definition;
mod group;
mod group_order;
mod listed;
mod running;
mod sums;
mod timing;
mod values;

pub use addition::Addition;
pub use closed::ClosedAggregate;
pub use count::Count;
pub use definition::Definition;
pub use policy_text::AggregateDef;
pub use running::Running;
pub use timing::{Timing, judge_time};
