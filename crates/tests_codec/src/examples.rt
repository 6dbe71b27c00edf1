//! The examples of doc comments, line by line as they stand there; `tools/check_examples` compares them. What they assert is worked
//! out by hand from RFC 7011.
use std::test::Fail;

/// A header alone is a message of 16 octets (section 3.1), of which 7 come first and then 9.
#[test]
fn messages_of_a_stream(rt: HostRuntime) -> Result<(), Fail> {
    let alloc = rt.alloc();
    // Example of ipfix_message::Framer::feed.
    use ipfix_message::Framer;

    // A message without sets: a header with the version 10 and the length 16.
    let whole: &[u8] = b"\x00\x0a\x00\x10\x65\x53\xf1\x00\x00\x00\x00\x00\x00\x00\x00\x07";
    let mut framer = Framer::new(alloc);
    let first = framer.feed(b"\x00\x0a\x00\x10\x65\x53\xf1")?;
    assert!(rt; first.is_empty());
    assert!(rt; framer.pending() == 7);
    let second = framer.feed(b"\x00\x00\x00\x00\x00\x00\x00\x00\x07")?;
    assert!(rt; second.len() == 1);
    for message in &second {
        assert!(rt; message.as_slice() == whole);
    }
    // End of the example.
    Ok(())
}

/// The message has 36 octets: its header 16, the Template Set 4 + 4 + 4, and the Data Set 4 + 4. The next one is to have the
/// Sequence Number 0 + 1.
#[test]
fn messages_of_a_session(rt: HostRuntime) -> Result<(), Fail> {
    let alloc = rt.alloc();
    // Example of ipfix_session::Session::apply.
    use ipfix_session::{Gap, Session};

    // Domain 7 defines template 256, of octetDeltaCount in 4 octets, and sends a record of it.
    let message: &[u8] = b"\x00\x0a\x00\x24\x65\x53\xf1\x00\x00\x00\x00\x00\x00\x00\x00\x07\
        \x00\x02\x00\x0c\x01\x00\x00\x01\x00\x01\x00\x04\x01\x00\x00\x08\x00\x00\x05\xdc";
    let mut session = Session::new(alloc);
    let read = session.apply(message)?;
    assert!(rt; read.records.len() == 1);
    assert!(rt; session.template(7, 256).is_some());
    // The next message has the Sequence Number 5.
    let next = session.apply(b"\x00\x0a\x00\x10\x65\x53\xf1\x00\x00\x00\x00\x05\x00\x00\x00\x07")?;
    let gap = Gap {
        expected: 1,
        got: 5,
    };
    assert!(rt; next.gap == Some(gap));
    // End of the example.
    Ok(())
}

/// The subscriber's message has the same sets: IDs of templates begin at 256 (section 3.4.1), and this is the stream's first one. In
/// its header are the Export Time 1700000060, the Sequence Number 0 and domain 0.
#[test]
fn messages_of_a_stream_of_records(rt: HostRuntime) -> Result<(), Fail> {
    let alloc = rt.alloc();
    // Example of subscriber_stream::Stream::pull.
    use ipfix_session::Session;
    use subscriber_stream::{Stream, StreamLimits};

    let message: &[u8] = b"\x00\x0a\x00\x24\x65\x53\xf1\x00\x00\x00\x00\x00\x00\x00\x00\x07\
        \x00\x02\x00\x0c\x01\x00\x00\x01\x00\x01\x00\x04\x01\x00\x00\x08\x00\x00\x05\xdc";
    let read = Session::new(alloc).apply(message)?;
    let limits = StreamLimits {
        queue: 10,
        shapes: 10,
    };
    let mut stream = Stream::new(alloc, limits);
    stream.reserve(&read.records)?;
    assert!(rt; read.records.len() == 1 && stream.room(&read.records));
    stream.push_reserved(read.records);
    let sent = stream.pull(1_700_000_060, 1400)?.expect(&rt, "a message");
    let due: &[u8] = b"\x00\x0a\x00\x24\x65\x53\xf1\x3c\x00\x00\x00\x00\x00\x00\x00\x00\
        \x00\x02\x00\x0c\x01\x00\x00\x01\x00\x01\x00\x04\x01\x00\x00\x08\x00\x00\x05\xdc";
    assert!(rt; sent.as_slice() == due);
    // End of the example.
    Ok(())
}
