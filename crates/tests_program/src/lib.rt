//! Tests of the crates right below `ipmd`, of what its process doesn't show. Nothing else is here, and no crate stands on it.
//! What the process shows is tested from outside, in the folder `tests`.
//!
//! - `settings`: of `ipmd_settings`.
//! - `answers`: of `admin_text`, with answers that no server is brought to give.
//! - `offline`: of `mediator_offline`, with reads that are counted, and the names of faults.
//! - `devices`: of `ipmd_commands`, on devices that fail, with `places`, which of them a fault names; `memory`: where memory is
//!   refused.
//! - `verifying`: of `ipmd_verify`, on both; `explaining`: of `ipmd_explain`, where memory is refused.
//! - `journals`: of `event_journal` and `journal_files`, and `histories`: of `history_verify` and `mediator_legal_runs`,
//!   both where memory is refused; `octets`: files of journals.
//! - `examples`: of the doc comments of `mediator_offline` and `history_verify`.
//!
//! What no clause says is shown too: that a call succeeds while there is memory. Where it is refused memory it is made again,
//! and answers as if nothing had happened.
#![tactic(auto)]

#[cfg(test)]
mod answers;
#[cfg(test)]
mod devices;
#[cfg(test)]
mod examples;
#[cfg(test)]
mod explaining;
#[cfg(test)]
mod histories;
#[cfg(test)]
mod journals;
#[cfg(test)]
mod memory;
#[cfg(test)]
mod octets;
#[cfg(test)]
mod offline;
#[cfg(test)]
mod places;
#[cfg(test)]
mod settings;
#[cfg(test)]
mod system;
#[cfg(test)]
mod verifying;
