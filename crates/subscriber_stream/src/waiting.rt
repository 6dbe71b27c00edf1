//! What waits in a stream's queue.
ghost use Rattle.std.specs.Prelude.{◌≡◌, ◌+◌, ◌≤◌, ◌<◌, ◌^◌, ◌++◌, length, take, drop, Some, None};
ghost use Rattle.std.specs.VecDeque.{deque_capacity};
ghost use Rattle.subscriber_stream.specs.Items.{joins};
ghost use Rattle.subscriber_stream.specs.Waiting.{new_waiting, rest_of};

use crate::texts::Texts;
use ipfix_octets::message_format::SET_HEADER_OCTETS;
use std::collections::VecDeque;

/// What waits to be handed out. It names its template by the ID alone.
#[derive(Drop)]
pub(crate) enum Waiting {
    /// The template of the ID is to be announced: its record has `octets` octets.
    Announce { id: u16, octets: u16 },
    /// Records of the template of the ID: their octets, as a Data Set brings them.
    Bring { id: u16, texts: Texts },
}

/// Parts at the front of a list of parts, and the octets of the message that ends with them.
#[derive(Clone, Copy)]
pub(crate) struct Front {
    /// How many parts stand at the front.
    pub(crate) parts: usize,
    /// The octets of the message that ends with them.
    pub(crate) octets: usize,
}

impl Waiting {
    ghost use Rattle.ipfix_octets.specs.MessageFormat.{longest_message};
    ghost use Rattle.subscriber_stream.specs.Items.{fits, total};
    ghost use Rattle.subscriber_stream.specs.Waiting.{waiting_items, set_after, IsFilledRun};

    /// How many parts it is: an announcement is one, and so is a record.
    pub(crate) fn len(&self) -> usize
        ensures { result ≡ length (waiting_items self.now) }
    {
        match self {
            Waiting::Announce { .. } => 1,
            Waiting::Bring { texts, .. } => texts.len(),
        }
    }

    /// The ID of the Data Set that is the last of a message after it.
    pub(crate) fn data_set(&self) -> Option<u16>
        ensures { result ≡ set_after self.now }
    {
        match self {
            Waiting::Announce { .. } => None,
            Waiting::Bring { id, .. } => Some(*id),
        }
    }

    /// The octets that its first part adds to a message that ends with no Data Set.
    pub(crate) fn first_octets(&self) -> usize
        requires { IsFilledRun self.now }
        ensures exact { result ≡ total None (take 1 (waiting_items self.now)) }
        ensures few { result < 2 ^ 32 + 4 }
    {
        match self {
            Waiting::Announce { octets, .. } => SET_HEADER_OCTETS + usize::from(*octets),
            Waiting::Bring { texts, .. } => SET_HEADER_OCTETS + texts.octets(1),
        }
    }

    /// How many of its parts fit into a message of at most `target` octets, which has `octets`
    /// octets before them and ends with the Data Set of the ID `last`, or with no Data Set.
    pub(crate) fn fitting(&self, target: u16, last: Option<u16>, octets: usize) -> Front
        requires { octets ≤ longest_message }
        ensures parts { result.parts ≡ fits target last octets (waiting_items self.now) }
        ensures octets { result.octets
            ≡ octets + total last (take result.parts (waiting_items self.now)) }
        ensures small { result.octets ≤ longest_message }
    {
        match self {
            Waiting::Announce { octets: more, .. } => {
                let whole = octets + SET_HEADER_OCTETS + usize::from(*more);
                if whole <= usize::from(target) {
                    Front {
                        parts: 1,
                        octets: whole,
                    }
                } else {
                    Front { parts: 0, octets }
                }
            }
            Waiting::Bring { id, texts } => fitting_records(texts, target, last, *id, octets),
        }
    }
}

ghost use Rattle.std.specs.Prelude.{map, if◌then◌else◌};
ghost use Rattle.ipfix_octets.specs.MessageFormat.{longest_message, set_header_octets};
ghost use Rattle.subscriber_stream.specs.Items.{Brought, fits, total};

/// How many records of this ID fit into a message of at most `target` octets, which has `octets`
/// octets before them and ends with the Data Set of the ID `last`, or with no Data Set.
fn fitting_records(texts: &Texts, target: u16, last: Option<u16>, id: u16, octets: usize) -> Front
    requires { octets ≤ longest_message }
    ensures parts { result.parts ≡ fits target last octets (map (Brought id) texts.now) }
    ensures octets { result.octets
        ≡ octets + total last (take result.parts (map (Brought id) texts.now)) }
    ensures small { result.octets ≤ longest_message }
{
    let opened = octets + head_octets(last, id);
    let target = usize::from(target);
    if opened > target {
        return Front { parts: 0, octets };
    }
    let parts = texts.fitting(target - opened);
    if parts == 0 {
        return Front { parts: 0, octets };
    }
    Front {
        parts,
        octets: opened + texts.octets(parts),
    }
}

/// The octets of the header that a record of this ID needs before it.
fn head_octets(last: Option<u16>, id: u16) -> usize
    ensures { result ≡ (if joins last id then 0 else set_header_octets) }
{
    if joins(last, id) {
        0
    } else {
        SET_HEADER_OCTETS
    }
}

/// Whether a record of this ID joins the last set.
pub(crate) fn joins(last: Option<u16>, id: u16) -> bool
    ensures { result ≡ joins last id }
{
    match last {
        Some(last) => last == id,
        None => false,
    }
}

/// Puts a run into the reserved room of the queue, and the announcement of its template before it where its octets
/// are given.
pub(crate) fn put_waiting(
    queue: &mut VecDeque<Waiting>,
    id: u16,
    announced: Option<u16>,
    texts: Texts,
)
    requires { length queue.old.items + 2 ≤ deque_capacity queue.old }
    ensures items { queue.new.items ≡ queue.old.items ++ new_waiting id announced texts }
    ensures capacity { deque_capacity queue.new ≡ deque_capacity queue.old }
{
    if let Some(octets) = announced {
        queue.push_back_reserved(Waiting::Announce { id, octets });
    }
    queue.push_back_reserved(Waiting::Bring { id, texts });
}

/// Puts what is left of a run back to the front, where the first `count` of its records are handed out.
pub(crate) fn keep_rest(queue: &mut VecDeque<Waiting>, id: u16, texts: Texts, count: usize)
    requires within { count ≤ length texts }
    requires room { length queue.old.items < deque_capacity queue.old }
    ensures items { queue.new.items ≡ rest_of id (drop count texts) ++ queue.old.items }
    ensures capacity { deque_capacity queue.new ≡ deque_capacity queue.old }
{
    if count == texts.len() {
        return;
    }
    let mut rest = texts;
    rest.hand_out(count);
    queue.push_front_reserved(Waiting::Bring { id, texts: rest });
}
