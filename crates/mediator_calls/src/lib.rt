//! The mediator with its calls; and its calls and their answers as values, of which a list of calls is made.
//!
//! - `mediator`: [`Mediator`], with its calls. `finished`: [`Finished`], the journal that stays of a run.
//! - `call`: [`Call`] and [`Reply`].
//! - `limits`: [`Limits`], with the ranges that a mediator allows.
//! - [`SessionId`] and [`SubId`], by which calls name sessions and subscriptions, are those of [`mediator_tables`].
//!
//! Refusals are [`mediator_state::Fault`].
//!
//! Proved of each call, by what contracts see of a mediator (its history, the places of its live subscriptions, how
//! many audit entries were drained, its limits): an accepted call answers what the history says and goes on with just
//! its entry, behind just the cuts that it makes (`ok`); a refused one changes nothing (`unchanged`), and its fault is the
//! first cause that stands (`err`). `journal` is the history (`entries`), and so is what `finish` leaves. Every
//! mediator keeps that what is disclosed can be streamed, that no place or drained count is past its end, that no
//! number of a session or a subscription comes again and that no more is held than its own limits allow (`sound`): its
//! type keeps that its state stands for its journal, and this. `Limits::are_allowed` is true exactly where each limit
//! stands in its range.
#![tactic(auto)]

mod call;
mod finished;
mod limits;
mod mediator;

pub use call::{Call, Reply};
pub use finished::Finished;
pub use limits::Limits;
pub use mediator::Mediator;
pub use mediator_state::{Fault, Receipt, Status};
pub use mediator_tables::{SessionId, SubId};
