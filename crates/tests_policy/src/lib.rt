//! Tests of the crates that policies are read, judged and applied by. Nothing else is here, and no crate stands on it. A crate
//! with tests is proved twice, so the crates below have none of their own.
//!
//! - `records`: records of fields, for the others.
//! - `prefixes`: of `flow_prefix`.
//! - `policies`: of `policy_text`.
//! - `tables`: of `rule_table`, by worked rows. `random`: of its table, against the walk over all rules.
//! - `disclosures`: of `flow_anonymize`. `times`: of that crate too, where times are degraded, and of where such records count.
//! - `audits`: of `disclosure_audit`.
//! - `sharing`: of `mediator_shares`.
//! - `examples`: of the doc comments of `policy_text` and `flow_anonymize`.
//! - `groups`: of the groups of `mediator_tables`. `second_opinion`: on what they add up to, by a plain list of records.
#![tactic(auto)]

#[cfg(test)]
mod audits;
#[cfg(test)]
mod disclosures;
#[cfg(test)]
mod examples;
#[cfg(test)]
mod groups;
#[cfg(test)]
mod policies;
#[cfg(test)]
mod prefixes;
#[cfg(test)]
mod random;
#[cfg(test)]
mod records;
#[cfg(test)]
mod second_opinion;
#[cfg(test)]
mod sharing;
#[cfg(test)]
mod tables;
#[cfg(test)]
mod times;
