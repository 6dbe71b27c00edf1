//! A run of records waits as the ID of its shape and its octets, and is handed out record by record. The queue's fields
//! are named by their types, so that nothing that keeps records compiles.
use crate::limits::StreamLimits;
use crate::stream::Stream;
use crate::texts::Texts;
use crate::waiting::Waiting;
use bytes::Bytes;
use ipfix_element::ElementId;
use ipfix_octets::message_format::LEAST_TEMPLATE_ID;
use ipfix_records::{Records, RunTexts};
use ipfix_template::{FieldSpec, Fields, Record, Template, Values};
use std::alloc::{AllocError, Global};
use std::collections::VecDeque;
use std::process::Abort;
use std::sync::Arc;
use std::test::Fail;

/// A protocolIdentifier of TCP.
const TCP: &[u8] = b"\x06";

/// A template of one protocolIdentifier.
fn template(alloc: Global) -> Result<Arc<Template>, Fail> {
    let element = ElementId::new(None, 4).ok_or("an element")?;
    let mut specs = Vec::new(alloc);
    specs.push(FieldSpec { element, length: 1 })?;
    let fields = Fields::from_vec(specs)?;
    Ok(Arc::new(alloc, Template { fields, scope: 0 })?)
}

/// A list of one record of that template.
fn records(alloc: Global) -> Result<Records, Fail> {
    let mut values = Vec::new(alloc);
    values.push(Bytes::from_static(TCP))?;
    let mut records = Records::new(alloc);
    match Record::try_new(alloc, template(alloc)?, Values::from_vec(values)) {
        Ok(record) => records.push(alloc, record)?,
        Err(_) => return Err(Fail::new("no record")),
    }
    Ok(records)
}

/// A stream that was given the records.
fn stream_of(alloc: Global, records: Records) -> Result<Stream, AllocError> {
    let mut stream = Stream::new(
        alloc,
        StreamLimits {
            queue: 1,
            shapes: 1,
        },
    );
    stream.reserve(&records)?;
    if records.len() == 1 && stream.room(&records) {
        stream.push_reserved(records);
    }
    Ok(stream)
}

/// What waits.
fn queue_of(stream: &Stream) -> &VecDeque<Waiting> {
    &stream.queue
}

/// The ID and the octets of records that wait.
fn brought(part: Option<&Waiting>) -> Option<(u16, &[u8])> {
    match part {
        Some(Waiting::Bring { id, texts }) => Some((*id, texts.front(texts.len()))),
        Some(Waiting::Announce { id: _, octets: _ }) => None,
        None => None,
    }
}

#[test]
fn a_record_waits_as_its_octets(rt: HostRuntime) -> Result<(), Fail> {
    let stream = stream_of(rt.alloc(), records(rt.alloc())?)?;
    assert!(rt; brought(queue_of(&stream).get(0)).is_none());
    assert!(rt; brought(queue_of(&stream).get(1)) == Some((LEAST_TEMPLATE_ID, TCP)));
    Ok(())
}

/// Three texts of one octet and two, and of none.
fn three_texts(alloc: Global) -> Result<Texts, AllocError> {
    let mut ends = Vec::with_capacity(alloc, 3)?;
    ends.push_reserved(1);
    ends.push_reserved(3);
    ends.push_reserved(3);
    let octets = Bytes::from_static(b"abc");
    let texts = Arc::new(alloc, RunTexts { octets, ends })?;
    Ok(Texts::new(texts))
}

/// The texts after the first `count` of them, one after another.
fn left_after(mut texts: Texts, count: usize) -> Texts {
    if count <= texts.len() {
        texts.hand_out(count);
    }
    texts
}

/// Whether all of them, one after another, are these octets.
fn is_text(texts: &Texts, octets: &[u8]) -> bool {
    texts.front(texts.len()) == octets
}

#[test]
fn texts_fit_up_to_a_room(rt: HostRuntime) -> Result<(), Fail> {
    let texts = three_texts(rt.alloc())?;
    assert!(rt; texts.fitting(0) == 0);
    assert!(rt; texts.fitting(2) == 1);
    assert!(rt; texts.fitting(3) == 3);
    Ok(())
}

#[test]
fn texts_are_handed_out_one_after_another(rt: HostRuntime) -> Result<(), Fail> {
    let texts = three_texts(rt.alloc())?;
    assert!(rt; is_text(&texts, b"abc"));
    let texts = left_after(texts, 1);
    assert!(rt; texts.fitting(1) == 0);
    assert!(rt; is_text(&texts, b"bc"));
    let texts = left_after(texts, 1);
    assert!(rt; texts.len() == 1);
    assert!(rt; is_text(&texts, b""));
    Ok(())
}
