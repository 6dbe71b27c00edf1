//! Tests of writers that leave writing to a thread. Nothing else is here, and no crate stands on it.
//!
//! - `behind`: of `write_behind` and `audit_behind`, on writers that fail or take little at a time. `system`: what they ask of the
//!   system.
#![tactic(auto)]

#[cfg(test)]
mod behind;
#[cfg(test)]
mod system;
