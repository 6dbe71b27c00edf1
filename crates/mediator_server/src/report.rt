//! The pages that an administrator is told of a run: how it stands, the policy in force, and the commands.

use crate::run_state::RunCounts;
use crate::service::Service;
use event_journal::Entry;
use shared_mediator::{EntryLedger, Fill, KeptEntry, RecordLedger};
use std::alloc::{AllocError, Global};
use std::sync::Wait;

/// The commands, a line each.
const HELP: &str = "\
status: a line for each subscription: SUB NAME QUEUED HANDED live|cut connected|absent|none
status SUB: QUEUED HANDED live|cut
run: how the run stands, a number a line, some with their limit
policy: the policy in force
audit MAX: the oldest audit entries, at most so many (1 to 10000) and 1 MiB of lines; they are then gone from here
edit OCTETS: a new policy, whose text follows in so many octets
subscribe NAME: a new subscription, without a collector
unsubscribe SUB: ends a subscription
advance T: the clock, in milliseconds since 1970
stop: ends the run
help: these lines
";

/// The commands.
///
/// # Errors
/// Want of memory.
pub(crate) fn help_page(alloc: Global) -> Result<Vec<u8>, AllocError> {
    Vec::from_slice(alloc, HELP.as_bytes())
}

/// The text of the policy that is in force behind calls with these receipts, where the run began with another one.
///
/// # Errors
/// Want of memory.
pub(crate) fn policy_page(
    alloc: Global,
    first: &str,
    receipts: &[KeptEntry],
) -> Result<Vec<u8>, AllocError> {
    let mut page = Vec::from_slice(alloc, policy_in_force(first, receipts).as_bytes())?;
    if let Some(last) = page.last() {
        if *last != b'\n' {
            page.push(b'\n')?;
        }
    }
    Ok(page)
}

/// The text of the last edit, or else the first policy.
fn policy_in_force<'t>(first: &'t str, receipts: &'t [KeptEntry]) -> &'t str {
    for receipt in receipts.iter().rev() {
        if let Entry::Edit { text } = &receipt.entry {
            return text.as_str();
        }
    }
    first
}

/// How a run stands: its number and its start, how full its journal and its audit are, who is connected, what came, and the clock.
///
/// # Errors
/// Want of memory.
pub(crate) fn run_page<E: EntryLedger, H: RecordLedger>(
    rt: &impl Wait,
    service: &Service<'_, E, H>,
) -> Result<Vec<u8>, AllocError> {
    let (alloc, plan) = (service.alloc, service.plan);
    let (run, started) = (plan.run, service.started);
    let Fill {
        entries,
        octets,
        audit,
    } = service.shared.fill(rt);
    let limits = &plan.limits;
    let (most_entries, most_octets, most_audit) = (limits.entries, limits.octets, limits.audit);
    let (exporters, connections) = (service.exporters.len(rt), plan.connections);
    let RunCounts {
        messages,
        records,
        gaps,
        refused,
        edits,
        clock,
    } = service.state.counts(rt);
    let fill = format!(in alloc;
        "run {run}\nstarted {started}\nentries {entries} {most_entries}\noctets {octets} {most_octets}\naudit {audit} {most_audit}\n"
    )?;
    let came = format!(in alloc;
        "exporters {exporters} {connections}\nmessages {messages}\nrecords {records}\ngaps {gaps}\nrefused {refused}\nedits {edits}\nclock {clock}\n"
    )?;
    let mut page = Vec::from_slice(alloc, fill.as_bytes())?;
    page.extend_from_slice(came.as_bytes())?;
    Ok(page)
}
