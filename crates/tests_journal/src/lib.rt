//! Tests of journal files. Nothing else is here, and no crate stands on it.
//!
//! - `files`: files by worked rows, their faults, and devices that fail.
#![tactic(auto)]

#[cfg(test)]
mod files;
