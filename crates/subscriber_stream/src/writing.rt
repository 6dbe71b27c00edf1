//! The octets of a message.
ghost use Rattle.std.specs.Prelude.{◌≡◌, ◌≤◌, ◌<◌, ◌+◌, ◌^◌, ◌%◌, ◌++◌, length, drop, take, IfOk, OnOk, None};
ghost use Rattle.sequences.specs.Octets.{be_octets};
ghost use Rattle.ipfix_octets.specs.MessageFormat.{ipfix_version, longest_message, header_octets, least_template_id};
ghost use Rattle.ipfix_template.specs.declared.data_record.TheConstants.{RECORD_ROOM};
ghost use Rattle.subscriber_stream.specs.Message.{message, set_head, template_set};
ghost use Rattle.subscriber_stream.specs.Items.{AreItemsKept, stream_parts, total, run, set_pieces, longest_body};
ghost use Rattle.subscriber_stream.specs.Waiting.{waiting_items, items_in, IsFilledRun, AreFilled, span};

use crate::composing::Composes;
use crate::message_pieces::MessagePieces;
use crate::shape_table::ShapeTable;
use crate::waiting::{Front, Waiting, joins};
use bytes::Bytes;
use ipfix_octets::message_format::{
    IPFIX_VERSION, LEAST_TEMPLATE_ID, OPTIONS_TEMPLATE_SET, SET_HEADER_OCTETS, TEMPLATE_SET,
};
use ipfix_template::{Template, encode_template};
use std::alloc::{AllocError, Global};
use std::collections::VecDeque;

/// The message of a run of parts, of which the first stand at the front of the queue.
///
/// # Errors
/// Want of memory.
pub(crate) fn message_of(
    alloc: Global,
    shapes: &ShapeTable,
    queue: &VecDeque<Waiting>,
    whole: Front,
    now: u32,
    handed: u64,
) -> Result<Bytes, AllocError>
    requires filled { AreFilled queue.now.items }
    requires kept { AreItemsKept shapes.now.shapes (items_in queue.now.items) }
    // It is known how long the message of these parts is, and a message can be that long.
    requires octets { whole.octets
        ≡ header_octets + total None (take whole.parts (items_in queue.now.items)) }
    requires fits { whole.octets ≤ longest_message }
    ensures { IfOk result (λ m. m ≡ message now handed
        (stream_parts shapes.now.shapes (take whole.parts (items_in queue.now.items)))) }
{
    let mut out = Vec::with_capacity(alloc, whole.octets)?;
    put_message(alloc, shapes, queue, whole, now, handed, &mut out)?;
    Ok(Bytes::from_vec(out)?)
}

/// Of how many runs the octets are shared at most. Where a message has more, each is short, and a list of them would be as
/// long as the message.
const MOST_SHARED: usize = 4;

/// Whether the first `count` parts of the queue are few runs and announcements, so that their octets are shared.
fn are_few_runs(queue: &VecDeque<Waiting>, count: usize) -> bool {
    let mut parts = 0usize;
    for place in 0..queue.len().min(MOST_SHARED) {
        parts = parts.saturating_add(queue[place].len());
    }
    parts >= count
}

/// The message of a run of parts, of which the first stand at the front of the queue, in pieces: the octets of its records
/// are shared with the queue, or it is one piece where its runs are many.
///
/// # Errors
/// Want of memory.
pub(crate) fn pieces_of(
    alloc: Global,
    shapes: &ShapeTable,
    queue: &VecDeque<Waiting>,
    whole: Front,
    now: u32,
    handed: u64,
) -> Result<MessagePieces, AllocError>
    requires filled { AreFilled queue.now.items }
    requires kept { AreItemsKept shapes.now.shapes (items_in queue.now.items) }
    // It is known how long the message of these parts is, and a message can be that long.
    requires octets { whole.octets
        ≡ header_octets + total None (take whole.parts (items_in queue.now.items)) }
    requires fits { whole.octets ≤ longest_message }
    ensures { IfOk result (λ m. m ≡ message now handed
        (stream_parts shapes.now.shapes (take whole.parts (items_in queue.now.items)))) }
{
    if !are_few_runs(queue, whole.parts) {
        let message = message_of(alloc, shapes, queue, whole, now, handed)?;
        return MessagePieces::whole(alloc, message);
    }
    let mut out = MessagePieces::new(alloc);
    put_message(alloc, shapes, queue, whole, now, handed, &mut out)?;
    Ok(out)
}

/// Appends the message of a run of parts, of which the first stand at the front of the queue.
///
/// # Errors
/// Want of memory, and then some of the message may be appended.
pub(crate) fn put_message<C: Composes>(
    alloc: Global,
    shapes: &ShapeTable,
    queue: &VecDeque<Waiting>,
    whole: Front,
    now: u32,
    handed: u64,
    out: &mut C,
) -> Result<(), AllocError>
    requires filled { AreFilled queue.now.items }
    requires kept { AreItemsKept shapes.now.shapes (items_in queue.now.items) }
    // It is known how long the message of these parts is, and a message can be that long.
    requires octets { whole.octets
        ≡ header_octets + total None (take whole.parts (items_in queue.now.items)) }
    requires fits { whole.octets ≤ longest_message }
    ensures { OnOk result (C.composed out.new ≡ C.composed out.old ++ message now handed
        (stream_parts shapes.now.shapes (take whole.parts (items_in queue.now.items)))) }
{
    put_header(whole.octets, now, (handed % (1 << 32)) as u32, out)?;
    put_parts(alloc, shapes, queue, whole.parts, out)?;
    Ok(())
}

/// Appends a message header: version, length, Export Time, Sequence Number and Observation Domain 0
/// (RFC 7011, section 3.1).
fn put_header<C: Composes>(
    octets: usize,
    now: u32,
    sequence: u32,
    out: &mut C,
) -> Result<(), AllocError>
    requires { octets ≤ longest_message }
    ensures { OnOk result (C.composed out.new ≡ C.composed out.old ++ (be_octets 2 ipfix_version
        ++ be_octets 2 octets ++ be_octets 4 now ++ be_octets 4 sequence ++ be_octets 4 0)) }
{
    let [a, b] = IPFIX_VERSION.to_be_bytes();
    let [c, d] = (octets as u16).to_be_bytes();
    let [e, f, g, h] = now.to_be_bytes();
    let [i, j, k, l] = sequence.to_be_bytes();
    out.put_header([a, b, c, d, e, f, g, h, i, j, k, l, 0, 0, 0, 0])
}

/// Appends the sets of the first `count` parts.
fn put_parts<C: Composes>(
    alloc: Global,
    shapes: &ShapeTable,
    queue: &VecDeque<Waiting>,
    count: usize,
    out: &mut C,
) -> Result<(), AllocError>
    requires filled { AreFilled queue.now.items }
    requires kept { AreItemsKept shapes.now.shapes (items_in queue.now.items) }
    requires fits { total None (take count (items_in queue.now.items)) ≤ longest_body }
    ensures { OnOk result (C.composed out.new
        ≡ C.composed out.old ++ set_pieces shapes.now.shapes None (take count (items_in queue.now.items))) }
{
    let mut left = count;
    let mut last = None;
    for place in 0..queue.len() {
        if left == 0 {
            return Ok(());
        }
        let next = &queue[place];
        put_span(alloc, shapes, next, queue, place + 1, left, last, out)?;
        left = left.saturating_sub(next.len());
        last = next.data_set();
    }
    Ok(())
}

/// Appends what an announcement or a run adds to the message that ends with the `left` parts from it on. It
/// stands right before the place.
fn put_span<C: Composes>(
    alloc: Global,
    shapes: &ShapeTable,
    next: &Waiting,
    queue: &VecDeque<Waiting>,
    place: usize,
    left: usize,
    last: Option<u16>,
    out: &mut C,
) -> Result<(), AllocError>
    requires filled { IsFilledRun next.now × AreFilled queue.now.items }
    requires kept { AreItemsKept shapes.now.shapes (waiting_items next.now) }
    // The parts behind the place follow it in the message, and all of it fits.
    requires place { place ≤ length queue.now.items }
    requires some { 0 < left }
    requires fits { total last
        (take left (waiting_items next.now ++ items_in (drop place queue.now.items))) ≤ longest_body }
    ensures { OnOk result (C.composed out.new
        ≡ C.composed out.old ++ span shapes.now.shapes last left next.now (drop place queue.now.items)) }
{
    match next {
        Waiting::Announce { id, octets } => {
            put_announcement(alloc, *id, shape_of(shapes, *id), *octets, out)
        }
        Waiting::Bring { id, texts } => {
            let count = texts.len().min(left);
            if !joins(last, *id) {
                let others = run_octets(queue, place, left - count, *id);
                put_head(*id, texts.octets(count) + others, out)?;
            }
            out.put_texts(texts, count)
        }
    }
}

ghost use Rattle.subscriber_stream.specs.Items.{shape_at};
ghost use Rattle.ipfix_template.specs.Template.{refusal_of, is_options, template_record};

/// The template of an ID.
fn shape_of(shapes: &ShapeTable, id: u16) -> &Template
    requires low { least_template_id ≤ id }
    requires known { id < least_template_id + length shapes.now.shapes }
    ensures { result.now ≡ shape_at shapes.now.shapes id }
{
    shapes.shape(usize::from(id - LEAST_TEMPLATE_ID))
}

/// Appends the set that announces the template under an ID.
fn put_announcement<C: Composes>(
    alloc: Global,
    id: u16,
    shape: &Template,
    octets: u16,
    out: &mut C,
) -> Result<(), AllocError>
    requires accepted { refusal_of id (is_options shape.now) shape.now ≡ None }
    requires few { octets ≤ RECORD_ROOM }
    ensures { OnOk result (C.composed out.new
        ≡ C.composed out.old ++ (set_head (template_set shape.now) octets
        ++ template_record id (is_options shape.now) shape.now)) }
{
    put_head(template_set(shape), usize::from(octets), out)?;
    let mut template = Vec::with_capacity(alloc, usize::from(octets))?;
    encode_template(id, shape, &mut template)?;
    out.put_template(template)
}

/// Appends the header of a set with `octets` octets of content (RFC 7011, section 3.3.2).
#[tactic(auto, unfolding(crate::specs::Message::set_head))]
fn put_head<C: Composes>(id: u16, octets: usize, out: &mut C) -> Result<(), AllocError>
    requires { octets ≤ 65531 }
    ensures { OnOk result (C.composed out.new ≡ C.composed out.old ++ set_head id octets) }
{
    let [a, b] = id.to_be_bytes();
    let [c, d] = ((SET_HEADER_OCTETS + octets) as u16).to_be_bytes();
    out.put_set_header([a, b, c, d])
}

/// The ID of the set that announces the template.
fn template_set(shape: &Template) -> u16
    ensures { result ≡ template_set shape.now }
{
    if shape.is_options() {
        OPTIONS_TEMPLATE_SET
    } else {
        TEMPLATE_SET
    }
}

/// The octets of the records of this ID that stand one after another from a place on, among the `count` parts
/// from there on.
fn run_octets(queue: &VecDeque<Waiting>, place: usize, count: usize, id: u16) -> usize
    requires filled { AreFilled queue.now.items }
    requires place { place ≤ length queue.now.items }
    requires fits { run id (take count (items_in (drop place queue.now.items))) ≤ longest_message }
    ensures { result ≡ run id (take count (items_in (drop place queue.now.items))) }
{
    let mut octets = 0;
    let mut left = count;
    'records: for at in place..queue.len() {
        if left == 0 {
            return octets;
        }
        match &queue[at] {
            Waiting::Announce { .. } => return octets,
            Waiting::Bring { id: other, texts } => {
                if id != *other {
                    return octets;
                }
                let part = texts.len().min(left);
                octets += texts.octets(part);
                left -= part;
            }
        }
    }
    octets
}
