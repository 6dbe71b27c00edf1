//! Templates, and the records that they lay out (RFC 7011, sections 3.2 to 3.4).
//!
//! It knows no message and no session: what is refused, split and written here is one template or one
//! record.
//!
//! - [`field`]: `FieldSpec`, one Field Specifier, and `Fields`, a template's list of them.
//! - [`template`]: `Template` with `check` and `shortest`, and `Refused`, why a template is refused.
//! - [`values`]: `split`, which finds a record's values at the front of octets.
//! - [`extent`]: `measure`, which finds how far a record reaches, and no list of its values.
//! - [`spans`]: what the two answer, `Split` with its `Span`s, and `Extent`.
//! - [`data_record`]: `Record`, a template and the octets of values that fit it; `Values`, a list of values; `Entries`,
//!   a record's fields with their values; `RecordView`, a record among octets that others own; `RefusedRecord` and
//!   `NotMade`, what was made no record, and why; `template_octets`, how long a template's record is.
//! - [`encode`]: `encode_template`, `encode_record`, and `encode_values` and `encode_value` for values by themselves.
//! - [`laws`]: what is written is read as what it was, and as nothing else.
//!
//! Proved: `Template::check` names the first reason to refuse a template, exactly; `shortest` is the shortest record.
//! `split` answers `Record` exactly where the front of the octets splits by the fields (`found`, `only`), `Padding`
//! exactly where fewer octets than the shortest record stand there (`padding`), and else `Overrun` (`exact`), with
//! each value's place (`laid`); it needs no memory for `Padding` (`no_memory`). `measure` answers the same without
//! the values, and whether the record's octets are its values in their shortest texts. `encode_template`,
//! `encode_record`, `encode_values` and `encode_value` append the exact octets (`ok`) or nothing (`err`), and are not
//! refused where the `Vec` has room (`memory`). A `Record`'s type keeps that its template passes the check, that its
//! values fit, that each of the two fits one message, and that its octets are its values, each in its shortest text.
//! `Record::try_new` tests just that, and gives back what it refuses, with the reason; `Record::read` makes a record
//! of what `measure` found, and takes no memory for a shortest text. `value`, `values` and `entries` show each value
//! of the record at its field. Laws: `record_splits_back` (what is written for a record splits into its values and
//! into nothing else), `one_split`, `one_template` (what is written for a template determines ID and template).
#![tactic(auto)]

pub mod data_record;
pub mod encode;
mod equality;
pub mod extent;
pub mod field;
pub mod laws;
pub mod spans;
pub mod template;
pub mod values;

pub use data_record::{
    Entries, NotMade, Record, RecordView, RefusedRecord, Values, template_octets,
};
pub use encode::{encode_record, encode_template, encode_value, encode_values};
pub use extent::measure;
pub use field::{FieldSpec, Fields};
pub use laws::{one_split, one_template, record_splits_back};
pub use spans::{Extent, Span, Split};
pub use template::{Refused, Template};
pub use values::split;
