//! Three tables of a mediator's state, each by number: the sessions that are open, the groups of records that are still open
//! for each subscription, and the live subscriptions. Which messages are accepted, what they disclose and which
//! subscriptions are cut is decided above it.
//!
//! - `ids`: [`SessionId`] and [`SubId`], by which calls name sessions and subscriptions. Contracts see the number in them.
//!
//! Sessions:
//!
//! - `open_session`: [`OpenSession`], a session with the count of its messages.
//! - `sessions`: [`Sessions`], the table of those that are open.
//!
//! Proved: `open` puts a session under its number that stands for no message (`ok`), and where memory is refused
//! nothing changes (`err`). `close` takes one out. `share` and `make_room` change nothing that a session means, whatever they
//! answer (`unchanged`), and `keep` then takes no memory: the session stands for one message more and counts it
//! (`keeps`). Each leaves the other numbers as they are.
//!
//! Groups, for each subscription by its number:
//!
//! - `groups`: [`RunningGroups`], the table of them.
//! - `tally`: [`Tally`], what a message adds for one subscription, and [`Reserved`], what was made ready for it.
//!
//! Proved: what holds of the groups of one subscription in `flow_aggregate` holds of each here. `reserve` changes no sum and
//! makes ready for all that a message adds; `add_reserved` then adds it, subscription by subscription, and takes no memory.
//! `release` takes out what was reserved and not added. `closing` answers the records of the groups that an advance of the
//! clock closes, and after `close` those that stay are left of every subscription; `remove` drops those of one.
//!
//! Subscriptions, by number and by subscriber's name, with those that are served:
//!
//! - `subscription`: [`Subscription`], a live subscription with its stream.
//! - `subscriptions`: [`Subscriptions`], the table of them.
//! - `served`: [`Served`], one that is served, with its subscriber's name; `share`: [`Share`], what one is given.
//! - `names`: the numbers under the subscribers' names, which are a part of that table.
//!
//! Proved: `get` answers the subscription of a number, and `named` the number that has a name, or that none has it. `served`
//! answers those that are served, in their order, and `lacks_room` whether the limits of one leave no room for what it is
//! given. `reserve` changes nothing that contracts see but the reserved room; `give` hands each subscription its records;
//! `cut`, `insert` and `remove` change one subscription and no other; `pull` answers what the stream of one gives, and changes
//! no other. After want of memory the table is as it was.
#![tactic(auto)]

mod groups;
mod ids;
mod names;
mod open_session;
mod served;
mod sessions;
mod share;
pub mod subscription;
pub mod subscriptions;
mod tally;

pub use groups::RunningGroups;
pub use ids::{SessionId, SubId};
pub use open_session::OpenSession;
pub use served::Served;
pub use sessions::Sessions;
pub use share::Share;
pub use subscription::Subscription;
pub use subscriptions::Subscriptions;
pub use tally::{Reserved, Tally};
