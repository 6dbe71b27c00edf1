//! The records of a Data Set: the runs in which they are handed on, and the layout of a template's fields in a record, by
//! which each is measured (RFC 7011, sections 3.3.1, 3.4.3 and 7).
//!
//! It reads no Data Set. A layout says how far the record at the front of some octets goes. Before a run is made, it is
//! known where its records begin and end, and that they are records.
//!
//! - [`run`]: [`Run`], records of one template as the octets of their values, one after another.
//! - [`records`]: [`Records`], records of any templates, one after another, as a list of runs.
//! - [`layout`]: [`Layout`], built of a template once; `measure` is asked for each record.
//! - `gaps`: the octets of fixed length between the fields of variable length, and the walk over them.
//!
//! A record takes the octets of its fields of fixed length, which its template says, and the values of variable length
//! between them. So to measure a record of a template without fields of variable length costs a comparison or two, and
//! else a step for each of these.
//!
//! Proved: a `Run`'s type keeps that its octets are cut at its ends into texts, each of which is kept as a record is: so
//! each record that is cut out of it is sound, and no octet is copied. `Records` stand for the list of their records: a
//! run or a record that is pushed comes behind them, and where it is refused nothing changes. `Layout::measure` answers
//! what [`ipfix_template::measure`] does for the layout's template (`found`, `only`, `exact`).
#![tactic(auto)]

mod gaps;
pub mod layout;
pub mod records;
pub mod run;

pub use layout::Layout;
pub use records::{Records, Runs};
pub use run::{Run, RunTexts};
