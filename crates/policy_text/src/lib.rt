//! The policy language of an IPFIX mediator, in two versions: which texts are policies, and which policy
//! each of them is. A policy is an ordered list of rules on records and fields, with the aggregates that
//! rules name. Texts of the second version may also degrade times. It judges no record.
//!
//! - `policy`: [`Policy`], read by `parse` and written by `print`.
//! - `version`: [`Version`], which the header of a text names.
//! - `rule`: [`Rule`] and [`Action`], plain data.
//! - `aggregate`: [`AggregateDef`], whose ranges its type keeps.
//! - `name`: [`Name`] of a subscriber or an aggregate, and the test [`is_name`].
//! - `fault`: [`Fault`] and [`FaultKind`], why a text is no policy.
//! - `laws`: [`print_then_parse`], [`one_policy`] and [`first_fault`], proved over the definitions.
//! - `words`, `classes`, `lines`: how a line is read, word by word.
//!
//! Proved: `Policy::parse` is `Ok` exactly on the texts that spell a policy, with that policy (`found`, `only`), and
//! else answers the text's first fault, its line and kind (`first`, `exact`); want of memory only where the text
//! takes some up to there (`memory`). `is_name` is exact. A `Policy`'s type keeps that each rule and aggregate is one
//! that a line may spell after those before it (`sound`). `print` is a text that spells the policy (`spelled`) and is
//! read as it (`reads_back`). A fault's text is its kind's name (`text_of_kind`). Laws: `print_then_parse`,
//! `one_policy` (no text spells two), and `first_fault`: a text spells a policy or has exactly one first fault. The
//! lines before that one spell a policy so far; in its line the words before the faulty one begin a line that may
//! stand there, and with the faulty one no words do.
#![tactic(auto)]

mod aggregate;
mod classes;
mod fault;
mod laws;
mod lines;
mod name;
mod policy;
mod print;
mod rule;
mod version;
mod words;

pub use aggregate::AggregateDef;
pub use fault::{Fault, FaultKind};
pub use laws::{first_fault, one_policy, print_then_parse};
pub use name::{Name, is_name};
pub use policy::Policy;
pub use rule::{Action, Rule};
pub use version::Version;
