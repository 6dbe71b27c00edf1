//! Tests of messages that are read outside their session. Nothing else is here, and no crate stands on it. A crate with tests is
//! proved twice, so the crates below have none of their own.
//!
//! - `preparing`: of `prepared_message`. `workers`: of `decode_workers`.
#![tactic(auto)]

#[cfg(test)]
mod preparing;
#[cfg(test)]
mod workers;
