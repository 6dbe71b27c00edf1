//! What the records of one message give to each subscription, what they add to its aggregates, and what the audit notes of
//! them.
//!
//! - `in_force`: [`InForce`], the policy in force and the time of the clock, with what was worked out for the last messages.
//! - `revision`: a policy, with what is worked out of it once.
//! - `alike`: subscriptions that no rule tells apart.
//! - `judges`: what becomes of records side by side that have the same classes, for each subscription; `deciding`: what is
//!   decided of them, and what is kept back of each alike.
//! - `shares`: [`Shares`], what each subscription is given (a [`Share`](mediator_tables::Share)), what is added to its
//!   aggregates ([`Tally`](mediator_tables::Tally)), and what the audit notes ([`Notes`]).
//! - `terms`: [`Terms`], what decides for all that are served, as it stood; threads judge by it elsewhere.
//! - `workspace`: [`Workspace`], what one such thread judges with; `judgement`: [`Judgement`], what it judged; `counts`: how many
//!   of its records count in aggregates.
//!
//! Proved: `Shares::of_records` gives each subscription, in their order, the records that the policy discloses to its
//! subscriber (`shares`) and what counts in its aggregates by the clock (`tallies`), and notes what is kept back or counts
//! by record and then by subscription (`notes`). What was worked out for a message serves later ones of the same observation
//! domain to the same subscriptions; that it is for them is looked at each time, and none of it shows in these clauses
//! (`unchanged`). `Workspace::judge` gives the same by the terms that it is lent (`judgement`), and `Judgement::shares_by` answers
//! these shares exactly where its terms are those in force (`due`). `Judgement::counts_more_than` adds up what counts for all of
//! them (`exact`).
#![tactic(auto)]

mod alike;
mod counts;
mod deciding;
mod in_force;
mod judgement;
mod judges;
mod revision;
mod shares;
mod terms;
mod workspace;

pub use disclosure_audit::{Note, Notes};
pub use in_force::InForce;
pub use judgement::Judgement;
pub use shares::Shares;
pub use terms::Terms;
pub use workspace::Workspace;
