//! What hash tables are hashed with whose keys strangers choose.
//!
//! - `keys`: [`HashKeys`].
//!
//! Proved: a table that is hashed with such keys is one by its contracts, whatever the keys are.
//! That strangers can't know them rests on the state that they are made of.
#![tactic(auto)]

mod keys;

pub use keys::HashKeys;
