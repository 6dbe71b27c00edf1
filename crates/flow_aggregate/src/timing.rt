//! In which interval a record counts.
ghost use Rattle.std.specs.Prelude.{◌≡◌, ◌≤◌, ◌*◌, ◌/◌};
ghost use Rattle.flow_aggregate.specs.Placing.{flow_start, has_key, timing_of};

use crate::values::{FLOW_START_MILLISECONDS, FLOW_START_SECONDS, first_number, first_value};
use ipfix_element::ElementId;
use ipfix_octets::message_format::MILLISECONDS;
use ipfix_template::Record;
use policy_text::AggregateDef;

/// Where a record counts in an aggregate, or why it doesn't. Where several reasons stand, the first of this list is
/// named.
#[derive(Clone, Copy, Debug, PartialEq, Eq)]
pub enum Timing {
    /// In the interval that starts here, in milliseconds since 1970.
    Placed { start: u64 },
    /// It doesn't say when its flow started, or says a time of 2^62 milliseconds or more.
    NoTime,
    /// An element of the aggregate's key is missing.
    NoKey,
    /// Its interval was closed.
    Late,
}

/// The first time that is too late to be a start.
const NO_TIME: u64 = 1 << 62;

/// Where the record `flow_record` counts in the aggregate `definition`, once the clock was advanced
/// to `closed_to`, in milliseconds since 1970. It counts in the interval in which its flow started
/// (RFC 7015, section 5.1.1). An interval counts records until the clock comes to its end and the
/// grace behind it.
#[tactic(auto, unfolding(crate::specs::Placing::timing_of))]
pub fn judge_time(definition: &AggregateDef, flow_record: &Record, closed_to: u64) -> Timing
    ensures { result ≡ timing_of definition.now flow_record.now closed_to }
{
    let Some(time) = start_of(flow_record) else {
        return Timing::NoTime;
    };
    if time >= NO_TIME {
        return Timing::NoTime;
    }
    if !has_key(definition.key(), flow_record) {
        return Timing::NoKey;
    }
    let start = interval_start(definition.interval(), time);
    let width = u64::from(definition.interval()) * MILLISECONDS;
    if start + width + u64::from(definition.grace()) * MILLISECONDS <= closed_to {
        Timing::Late
    } else {
        Timing::Placed { start }
    }
}

/// Where the interval that holds this time starts, of intervals of `interval` seconds.
pub(crate) fn interval_start(interval: u32, time: u64) -> u64
    requires { 1 ≤ interval }
    ensures value { result ≡ time / (interval * 1000) * (interval * 1000) }
    ensures within { result ≤ time }
{
    let width = u64::from(interval) * MILLISECONDS;
    time / width * width
}

/// When the record's flow started, in milliseconds since 1970.
#[tactic(auto, unfolding(crate::specs::Placing::flow_start))]
pub(crate) fn start_of(flow_record: &Record) -> Option<u64>
    ensures { result ≡ flow_start flow_record.now }
{
    match first_number(flow_record, FLOW_START_MILLISECONDS) {
        Some(milliseconds) => Some(milliseconds),
        None => {
            let seconds = first_number(flow_record, FLOW_START_SECONDS)?;
            Some(seconds * MILLISECONDS)
        }
    }
}

/// Whether the record has a value of each element of the key.
fn has_key(key: &[ElementId], flow_record: &Record) -> bool
    ensures { result ≡ has_key key.now flow_record.now }
{
    key.iter()
        .all(|element| first_value(flow_record, *element).is_some())
}
