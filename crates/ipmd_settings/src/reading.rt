//! Reads settings from a text, and judges the value at each key.
ghost use Rattle.std.specs.Prelude.{◌≡◌, ◌≤◌, IfErr, IfOk};
ghost use Rattle.toml.specs.View.{table_view};
ghost use Rattle.mediator_calls.specs.Limited.{AreAllowed};
ghost use Rattle.ipmd_settings.specs.Asked.{asked_service, pairs};
ghost use Rattle.ipmd_settings.specs.Faults.{IsSettingsFault};
ghost use Rattle.ipmd_settings.specs.Reading.{limits_in, settings_in, settings_of};
ghost use Rattle.ipmd_settings.specs.Results.{GivesSet};
ghost use Rattle.ipmd_settings.specs.Values.{AscendByOctets};

use crate::fault::Fault;
use crate::key::Key;
use crate::settings::Settings;
use crate::values::{
    collectors_at, flag_or_false, number_at, number_or, number_or_none, text_at, text_or_none,
};
use decode_workers::MOST_WORKERS;
use event_journal::{MOST_ENTRIES, MOST_OCTETS};
use ipfix_octets::message_format::{HEADER_OCTETS, LONGEST_MESSAGE};
use mediator_calls::Limits;
use std::alloc::Global;
use subscriber_stream::{MOST_QUEUE, MOST_SHAPES};
use toml::Table;

/// The most octets that a text of settings may have, 64 KiB. It bounds the memory that reading TOML takes, which keeps a map for
/// each table.
pub const LONGEST_TEXT: usize = 65_536;

/// The most connections of exporters that may be accepted.
const MOST_CONNECTIONS: u64 = 1000;

/// The shortest target: a message's header (RFC 7011, section 3.1).
const LEAST_TARGET: u64 = HEADER_OCTETS as u64;

/// The longest target: the longest message (RFC 7011, section 3.1).
const MOST_TARGET: u64 = LONGEST_MESSAGE as u64;

/// The most audit entries that may wait.
const MOST_AUDIT: u64 = disclosure_audit::MOST_ENTRIES as u64;

/// The most reads of a connection.
const MOST_TURNS: u64 = 1_000_000_000;

/// How many runs there are where settings don't say it.
const USUAL_RUNS: u64 = 1;

/// The most runs that may follow each other.
const MOST_RUNS: u64 = 1000;

/// The most seconds that an exporter may send nothing: a day.
const MOST_IDLE: u64 = 86_400;

/// The most seconds until a collector is tried again: an hour.
const MOST_RECONNECT: u64 = 3600;

/// The most milliseconds that a message waits for room: a minute.
const MOST_HOLD: u64 = 60_000;

/// The most seconds that the end of a run waits for collectors: a day.
const MOST_DRAIN: u64 = 86_400;

/// Reads settings from `text`, a TOML document whose keys are those that [`Key`] names. Other keys are ignored. What is read
/// takes memory from `alloc`.
///
/// # Errors
/// `TooLong` where the text has more than [`LONGEST_TEXT`] octets, which takes no memory to say. Else `Toml` where the text is no
/// TOML; `Key` with the first key, in the order of [`Key`], that must be there and isn't, or whose value is of another type or
/// out of its range; or `OutOfMemory`.
pub fn read_settings(alloc: Global, text: &str) -> Result<Settings, Fault>
    // What the text gives, or its first fault.
    ensures exact { GivesSet asked_service result (settings_of text.now) }
    // Which key is at fault: the first that must be there and isn't, or has a value that it may not have. A text that is too long
    // has no other fault, nor want of memory.
    ensures first { IfErr result (λ fault. IsSettingsFault fault text.now) }
    // A mediator takes these limits.
    ensures allowed { IfOk result (λ settings. AreAllowed settings.limits) }
    // The subscribers ascend by their octets, and none stands twice.
    ensures sorted { IfOk result (λ settings. AscendByOctets (pairs settings.collectors)) }
    // A run may be made.
    ensures some_run { IfOk result (λ settings. 1 ≤ settings.runs) }
{
    if text.len() > LONGEST_TEXT {
        return Err(Fault::TooLong);
    }
    let table = toml::table_from_str(alloc, text)?;
    settings_in(alloc, &table)
}

/// The settings that a table gives.
///
/// # Errors
/// Those of [`read_settings`] but for `TooLong` and `Toml`.
#[tactic(auto, unfolding(crate::specs::Reading::settings_in))]
fn settings_in(alloc: Global, table: &Table) -> Result<Settings, Fault>
    ensures exact { GivesSet asked_service result (settings_in (table_view table.now)) }
    ensures allowed { IfOk result (λ settings. AreAllowed settings.limits) }
    ensures sorted { IfOk result (λ settings. AscendByOctets (pairs settings.collectors)) }
    ensures some_run { IfOk result (λ settings. 1 ≤ settings.runs) }
{
    Ok(Settings {
        exporters: text_at(alloc, table, Key::Exporters)?,
        admin: text_at(alloc, table, Key::Admin)?,
        policy: text_at(alloc, table, Key::Policy)?,
        connections: number_at(table, Key::Connections, 1, MOST_CONNECTIONS)? as u32,
        target: number_at(table, Key::Target, LEAST_TARGET, MOST_TARGET)? as u16,
        workers: number_at(table, Key::Workers, 1, MOST_WORKERS)?,
        limits: limits_in(table)?,
        turns: number_at(table, Key::Turns, 1, MOST_TURNS)?,
        collectors: collectors_at(alloc, table)?,
        journal: text_or_none(alloc, table, Key::Journal)?,
        runs: number_or(table, Key::Runs, USUAL_RUNS, 1, MOST_RUNS)?,
        idle: number_or_none(table, Key::Idle, 1, MOST_IDLE)?,
        reconnect: number_or_none(table, Key::Reconnect, 1, MOST_RECONNECT)?,
        hold: number_or_none(table, Key::Hold, 1, MOST_HOLD)?,
        drain: number_or_none(table, Key::Drain, 1, MOST_DRAIN)?,
        endless: flag_or_false(table, Key::Endless)?,
    })
}

/// The five limits of the mediator in a table.
///
/// # Errors
/// `Key` with the first that is missing, of another type or out of its range.
#[tactic(auto, unfolding(crate::specs::Reading::limits_in))]
fn limits_in(table: &Table) -> Result<Limits, Fault>
    ensures exact { result ≡ limits_in (table_view table.now) }
    ensures allowed { IfOk result (λ limits. AreAllowed limits) }
{
    Ok(Limits {
        queue: number_at(table, Key::Queue, 1, u64::from(MOST_QUEUE))? as u32,
        shapes: number_at(table, Key::Shapes, 1, u64::from(MOST_SHAPES))? as u32,
        audit: number_at(table, Key::Audit, 1, MOST_AUDIT)? as u32,
        entries: number_at(table, Key::JournalEntries, 1, MOST_ENTRIES)?,
        octets: number_at(table, Key::JournalOctets, 1, MOST_OCTETS)?,
    })
}
