//! Warns where the system lets the program have fewer descriptors than a service may need.

use log::{Log, warn};
use mediator_server::RunPlan;
use std::fs;
use std::rt::Files;

/// What the system allows this process.
const LIMITS: &str = "/proc/self/limits";

/// How many descriptors a service needs beside those of its connections.
const OTHERS: u64 = 20;

/// Warns where the descriptors that the program may have are fewer than the exporters and the collectors of a plan need. The
/// program can't raise that limit. Where nothing says it, nothing is said.
pub(crate) fn warn_of_few<R: Files + AllocGlobal>(rt: &R, noting: &impl Log, plan: &RunPlan) {
    match fs::read_to_string(rt, LIMITS) {
        Ok(limits) => warn_within(noting, limits.as_str(), plan),
        Err(_) => {}
    }
}

/// Warns by `limits`, the text of what the system allows, where the descriptors are too few.
fn warn_within(noting: &impl Log, limits: &str, plan: &RunPlan) {
    let (connections, collectors) = (plan.connections, plan.deliver.len() as u64);
    let needed = connections
        .saturating_add(collectors)
        .saturating_add(OTHERS);
    match open_files(limits) {
        Some(allowed) if allowed < needed => {
            warn!(noting; "{allowed} descriptors are too few for {connections} connections and {collectors} collectors: allow {needed}");
        }
        _ => {}
    }
}

/// How many files may be open, by the text of the limits: the first of the two numbers behind the line's name. None: any number,
/// or it isn't said.
fn open_files(limits: &str) -> Option<u64> {
    for line in limits.lines() {
        if let Some(rest) = line.strip_prefix("Max open files") {
            return rest.split_ascii_whitespace().next()?.parse::<u64>().ok();
        }
    }
    None
}
