//! Whether a journal's history is legal, and what it disclosed: found out from nothing but the history and the definitions.
//!
//! It judges a history as an auditor would who has the file alone: it knows no limit of the mediator that wrote it, and none
//! of its queues.
//!
//! - `verified`: [`verify`], of a whole journal, and [`Verified`], what a legal history disclosed and what its audit names;
//!   `count`: [`SubscriptionCount`], of one subscription.
//! - `verifier`: [`Verifier`], which is fed entry by entry, so that a file is verified as it is read.
//! - `fault`: [`Fault`].
//! - `replay`: what is kept of the entries so far; `exporters`, `subscribers`, `sums` and `noted` are its parts, and `judged` is
//!   what a message or an advance of the clock would do.
#![tactic(auto)]

mod count;
mod exporters;
mod fault;
mod judged;
mod noted;
mod replay;
mod subscribers;
mod sums;
mod verified;
mod verifier;

pub use count::SubscriptionCount;
pub use exporters::Exporters;
pub use fault::Fault;
pub use verified::{Verified, verify};
pub use verifier::Verifier;
