//! What an IPFIX mediator hands on of a record to a subscriber: the record without the fields that
//! a policy removes, with the addresses that it truncates and the times that it degrades, nothing
//! of it, or its count in an aggregate (RFC 6235: truncation, in sections 4.1.1 and 4.2.1,
//! precision degradation, in section 4.3.1, and black-marker anonymization, which removes a field).
//!
//! - `disclosure`: [`Disclosure`], with [`RemovedFields`] and [`Reason`] of the audit.
//! - `transform`: [`disclose`]; `by_table`: [`disclose_by`], by a table of the rules.
//! - `fields`: the verdict on each field, and which fields stay; `plan`: what becomes of all
//!   records for which the verdicts are equal; `steps`, `stretch`, `change`, `values`: what is shown
//!   of a record's octets.
//! - `plans`: [`Plans`], which keeps plans for records that come again, in a `plan_cache` of slots, for
//!   as long as it lives; `output`: the records that pass, as runs; `record_classes`:
//!   [`RecordClasses`].
//! - `laws`: [`only_permitted_passes`], [`passed_is_sound`], [`denied_is_secret`],
//!   [`others_never_matter`], [`later_rules_never_matter`], [`reasons_are_of_rules`] and
//!   [`times_are_degraded`], proved over the definitions.
//!
//! Proved: `disclose` answers exactly the disclosure that the rules define: the kept fields in
//! their order with truncated and degraded values and the scope count, the places and rules of the
//! removed ones, or why nothing passes, a lost scope field before an empty rest, with the rule that
//! is named for it (`exact`). For a record whose verdict isn't pass it takes no memory (`no_memory`).
//! `disclose_by` answers the same, and `Plans::disclose` gives those records (`given`) and says of
//! them what `disclose` says (`decision`). Laws: `only_permitted_passes` (no field stands in what passes
//! that its first rule removes, no bit that it cuts off, and no time that is finer than it
//! permits), `passed_is_sound`, `denied_is_secret` (two records that differ only in what is removed
//! or cut off, or within one step of times, with addresses inside the same prefixes, look alike in
//! all that is disclosed), `others_never_matter`, `later_rules_never_matter`,
//! `reasons_are_of_rules` (the reasons of aggregates withhold nothing here), `times_are_degraded`
//! (what is shown of a time, by the kind of its element).
#![tactic(auto)]

mod by_table;
mod change;
mod disclosure;
mod fields;
mod laws;
mod output;
mod plan;
mod plan_cache;
mod plans;
mod record_classes;
mod slot;
mod steps;
mod stretch;
mod transform;
mod values;

pub use by_table::disclose_by;
pub use disclosure::Disclosure;
pub use disclosure_audit::{Reason, RemovedField, RemovedFields};
pub use laws::{
    denied_is_secret, later_rules_never_matter, only_permitted_passes, others_never_matter,
    passed_is_sound, reasons_are_of_rules, times_are_degraded,
};
pub use plans::Plans;
pub use record_classes::RecordClasses;
pub use transform::disclose;
