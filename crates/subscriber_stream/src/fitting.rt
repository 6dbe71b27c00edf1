//! How many parts a message takes.
ghost use Rattle.std.specs.Prelude.{◌≡◌, ◌≤◌, ◌<◌, ◌+◌, ◌^◌, max, take, length, None};
ghost use Rattle.ipfix_octets.specs.MessageFormat.{longest_message, header_octets};
ghost use Rattle.subscriber_stream.specs.Items.{fits, total, longest_body};
ghost use Rattle.subscriber_stream.specs.Waiting.{items_in, AreFilled};

use crate::waiting::{Front, Waiting};
use ipfix_octets::message_format::HEADER_OCTETS;
use std::collections::VecDeque;

/// The longest run of parts from the front whose message is at most `target` octets long, or the first
/// part alone.
pub(crate) fn fitting(queue: &VecDeque<Waiting>, target: u16) -> Front
    requires some { 0 < length queue.now.items }
    requires filled { AreFilled queue.now.items }
    requires few { length (items_in queue.now.items) < 2 ^ 64 }
    requires first { total None (take 1 (items_in queue.now.items)) ≤ longest_body }
    // It says how many parts the message takes, and how many octets that message has.
    ensures parts { result.parts
        ≡ max 1 (fits target None header_octets (items_in queue.now.items)) }
    ensures octets { result.octets
        ≡ header_octets + total None (take result.parts (items_in queue.now.items)) }
    // There are as many parts, and a message can be that long.
    ensures within { result.parts ≤ length (items_in queue.now.items) }
    ensures small { result.octets ≤ longest_message }
{
    let run = whole_run(queue, target);
    if run.parts > 0 {
        return run;
    }
    Front {
        parts: 1,
        octets: HEADER_OCTETS + queue[0].first_octets(),
    }
}

/// The longest run of parts from the front whose message is at most `target` octets long; it may be empty.
fn whole_run(queue: &VecDeque<Waiting>, target: u16) -> Front
    requires filled { AreFilled queue.now.items }
    requires few { length (items_in queue.now.items) < 2 ^ 64 }
    // It says how many parts fit, and how many octets the message of these has.
    ensures parts { result.parts ≡ fits target None header_octets (items_in queue.now.items) }
    ensures octets { result.octets
        ≡ header_octets + total None (take result.parts (items_in queue.now.items)) }
    // There are as many parts, and a message can be that long.
    ensures within { result.parts ≤ length (items_in queue.now.items) }
    ensures small { result.octets ≤ longest_message }
{
    let mut run = Front {
        parts: 0,
        octets: HEADER_OCTETS,
    };
    let mut last = None;
    for place in 0..queue.len() {
        let next = &queue[place];
        let more = next.fitting(target, last, run.octets);
        let parts = run.parts + more.parts;
        run = Front {
            parts,
            octets: more.octets,
        };
        if more.parts < next.len() {
            return run;
        }
        last = next.data_set();
    }
    run
}
