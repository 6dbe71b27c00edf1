//! Lists read from the front, and lists read by what stood before: definitions and their laws alone.
//!
//! - `specs/Octets`: numbers in network byte order.
//! - `specs/Sequence`: items that stand one after another in octets (`read_all` over a `Front`).
//! - `specs/Options`, `specs/Results`: steps that may give nothing, or fail, one after another (`>>=`); what a
//!   function returned against what reading gives, where want of memory says nothing (`GivesBut`).
//! - `specs/Before`: what each entry of a history gives, from the entries before it
//!   (`each_with_before`), and the last value that something had (`last_of`).
//! - [`laws`]: a list with one entry more gives what the list gives, and then what this entry gives after all of it
//!   (`one_entry_more`); the last value is that of the last entry that has one (`last_entry_has_the_last_value`).
//!
//! Proved: the laws, of any lists and steps; `proofs/` has the lemmas of lists, joined texts, options and results
//! that several crates need. There is no other code.
#![tactic(auto)]

pub mod laws;

pub use laws::{last_entry_has_the_last_value, one_entry_more};
