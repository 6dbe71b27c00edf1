//! The sums of a group's counters.
ghost use Rattle.std.specs.Prelude.{◌≡◌, ◌<◌, ◌≤◌, ◌^◌, unwrap_or};
ghost use Rattle.flow_aggregate.specs.Values.{of_iana, first_number, full_width};
ghost use Rattle.flow_aggregate.specs.Sums.{no_sums, counters_of, plus};

use crate::values::{DELTA_FLOW_COUNT, OCTET_DELTA_COUNT, PACKET_DELTA_COUNT, first_number};
use ipfix_template::Record;

/// How much the records of a group count together. Each sum stops at the greatest number of 64 bits.
#[derive(Clone, Copy, Debug, PartialEq, Eq)]
pub(crate) struct Sums {
    /// The octets of the flows.
    pub(crate) octets: u64,
    /// The packets of the flows.
    pub(crate) packets: u64,
    /// How many flows there are.
    pub(crate) flows: u64,
}

impl Sums {
    /// What no record counts.
    pub(crate) fn none() -> Sums
        ensures { result ≡ no_sums }
    {
        Sums {
            octets: 0,
            packets: 0,
            flows: 0,
        }
    }

    /// What one record counts: without octets or packets none, and without flows one.
    #[tactic(auto, unfolding(crate::specs::Sums::counters_of))]
    pub(crate) fn of_record(flow_record: &Record) -> Sums
        ensures { result ≡ counters_of flow_record.now }
    {
        Sums {
            octets: number_or(flow_record, OCTET_DELTA_COUNT, 0),
            packets: number_or(flow_record, PACKET_DELTA_COUNT, 0),
            flows: number_or(flow_record, DELTA_FLOW_COUNT, 1),
        }
    }

    /// Both together.
    pub(crate) fn plus(self, other: Sums) -> Sums
        ensures { result ≡ plus self other }
    {
        Sums {
            octets: self.octets.saturating_add(other.octets),
            packets: self.packets.saturating_add(other.packets),
            flows: self.flows.saturating_add(other.flows),
        }
    }
}

/// The first value of the element, or `default` where there is none.
fn number_or(flow_record: &Record, number: u16, default: u64) -> u64
    requires below { number < 32768 }
    requires wide { full_width (of_iana number) ≡ 8 }
    ensures { result ≡ unwrap_or (first_number (of_iana number) flow_record.now) default }
{
    first_number(flow_record, number).unwrap_or(default)
}
