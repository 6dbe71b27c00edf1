//! The octets of IPFIX: numbers in network byte order, values of variable length, and the numbers of the message
//! format (RFC 7011).
//!
//! The crates above read by `be_number` and `read_varlen`, and write values of variable length by `write_varlen`.
//! Numbers of 2 and 4 octets are written, and read by the Framer, with std's `to_be_bytes` and `from_be_bytes`; all of
//! it is proved against the same definitions, those of `sequences`.
//!
//! - [`number`]: `be_number`, `write_be`, and the width `WIDEST`.
//! - [`variable`]: `read_varlen`, `write_varlen`, `LONGEST_VALUE`, and the law `one_value`.
//! - [`message_format`]: version, the longest message, octets of headers, Set IDs, the least template ID and the
//!   other numbers of the format; it is constants alone.
//!
//! Proved: `be_number` and `write_be` are exact (`value`, `ok`). `read_varlen` answers `None` exactly where no length
//! and value stand at the front; else it finds the one value whose text stands there, in either form of a length
//! (`found`, `only`, `exact`, `within`). `write_varlen` writes the shortest form (`ok`). An append that is refused
//! leaves the `Vec` as it was (`err`), and none is refused where the `Vec` has room (`memory`). Law: `one_value`.
#![tactic(auto)]

pub mod message_format;
pub mod number;
pub mod variable;

pub use number::{be_number, write_be};
pub use variable::{one_value, read_varlen, write_varlen};
