//! Tests of the crates that read and write octets: those of IPFIX, and the devices. Nothing else is here, and no crate
//! stands on it. A crate with tests is proved twice, so the crates below have none of their own.
//!
//! - `octets`: of `ipfix_octets`.
//! - `elements`: of `ipfix_element`.
//! - `templates`: of `ipfix_template`.
//! - `messages`: of `ipfix_message`.
//! - `runs`: of `ipfix_records`.
//! - `sessions`: of `ipfix_session`.
//! - `streams`: of `subscriber_stream`.
//! - `devices`: of `octet_io`.
//! - `intake`: of `ipfix_reader`.
//! - `examples`: of the doc comments of `ipfix_message`, `ipfix_session` and `subscriber_stream`.
//! - `records`: templates and records for the others.
#![tactic(auto)]

#[cfg(test)]
mod devices;
#[cfg(test)]
mod elements;
#[cfg(test)]
mod examples;
#[cfg(test)]
mod intake;
#[cfg(test)]
mod messages;
#[cfg(test)]
mod octets;
#[cfg(test)]
mod records;
#[cfg(test)]
mod runs;
#[cfg(test)]
mod sessions;
#[cfg(test)]
mod streams;
#[cfg(test)]
mod templates;
