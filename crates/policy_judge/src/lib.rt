//! The judge of an IPFIX mediator: for a subscriber, which rule of a policy decides on a record, and which
//! on each of its fields, and what that rule does. It changes no record, and takes no memory.
//!
//! - `verdict`: [`RecordVerdict`] with [`RecordAction`], [`ElementVerdict`] with [`ElementAction`].
//! - `judge`: [`record_verdict`] and [`element_verdict`]; these verdicts by a policy's rules ([`record_verdict_of`],
//!   [`element_verdict_of`]), and by the place of the first that matches ([`record_verdict_at`], [`element_verdict_at`]).
//! - `rule_match`: [`matches_record`] and [`matches_field`], whether a rule matches; and what they ask of it, one by one
//!   ([`is_on_records`], [`denies`], [`is_for`]).
//! - `laws`: [`others_never_matter`] and [`later_rules_never_matter`], proved over the definitions.
//! - `occurrences`: a record's source and destination addresses, by [`Side`].
//!
//! Proved: `record_verdict` and `element_verdict` answer the number and the action of the first rule of their kind
//! that matches, or rule 0, which withholds or removes. A rule that permits needs, for each prefix that it names, an
//! occurrence and every occurrence inside; one that denies needs some occurrence inside. Laws: `others_never_matter`
//! (rules that name another subscriber), `later_rules_never_matter`.
#![tactic(auto)]

mod judge;
mod laws;
mod occurrences;
mod rule_match;
mod verdict;

pub use judge::{
    element_verdict, element_verdict_at, element_verdict_of, record_verdict, record_verdict_at,
    record_verdict_of,
};
pub use laws::{later_rules_never_matter, others_never_matter};
pub use occurrences::Side;
pub use rule_match::{denies, is_for, is_on_records, matches_field, matches_record};
pub use verdict::{ElementAction, ElementVerdict, RecordAction, RecordVerdict};
