//! Each history that a mediator comes to is legal, by the rules that a verifier goes by: laws, and
//! the verifying of what stays of a run, which fails for want of memory alone.
//!
//! - `laws`: [`runs_are_legal`], [`legal_is_never_bad`].
//! - `finished`: [`verify_finished`].
#![tactic(auto)]

mod finished;
mod laws;

pub use finished::verify_finished;
pub use laws::{legal_is_never_bad, runs_are_legal};
