//! The examples of doc comments, line by line as they stand there; `tools/check_examples` compares them. What they assert is worked
//! out by hand from RFC 7011 and the rules of a mediator.
use std::test::Fail;

/// The message defines template 256, of octetDeltaCount in 4 octets, and brings a record of it, of which the policy keeps all.
#[test]
fn calls_of_a_mediator(rt: HostRuntime) -> Result<(), Fail> {
    let alloc = rt.alloc();
    // Example of mediator_calls::Mediator.
    use bytes::Bytes;
    use mediator_calls::{Limits, Mediator};

    let limits = Limits {
        queue: 10,
        shapes: 10,
        audit: 10,
        entries: 10,
        octets: 1000,
    };
    let mut mediator = Mediator::new(alloc, limits)?;
    mediator.edit(
        "policy 1\nrule for * in * from * to * pass\nrule for * in * from * to * element * keep\n",
    )?;
    let acme = mediator.subscribe("acme")?;
    let session = mediator.open()?;
    let message: &[u8] = b"\x00\x0a\x00\x24\x65\x53\xf1\x00\x00\x00\x00\x00\x00\x00\x00\x07\
        \x00\x02\x00\x0c\x01\x00\x00\x01\x00\x01\x00\x04\x01\x00\x00\x08\x00\x00\x05\xdc";
    mediator.receive(session, 0, Bytes::copy_from_slice(alloc, message)?)?;
    assert!(rt; mediator.pull(acme, 1_700_000_060, 1400)?.is_some());
    // End of the example.
    Ok(())
}

/// The first session has the number 1. It can be closed once.
#[test]
fn list_of_calls(rt: HostRuntime) -> Result<(), Fail> {
    let alloc = rt.alloc();
    // Example of mediator_core::run.
    use mediator_core::{Call, Fault, Limits, Reply, SessionId, run};

    let limits = Limits {
        queue: 10,
        shapes: 10,
        audit: 10,
        entries: 10,
        octets: 1000,
    };
    let session = SessionId(1);
    let mut calls = Vec::new(alloc);
    calls.push(Call::Open)?;
    calls.push(Call::Close { session })?;
    calls.push(Call::Close { session })?;
    let transcript = run(alloc, limits, calls)?;
    let replies = transcript.replies;
    assert!(rt; replies.len() == 3);
    assert!(rt; matches!(replies.first(), Some(Reply::Opened(SessionId(1)))));
    assert!(rt; matches!(replies.last(), Some(Reply::Refused(Fault::UnknownSession))));
    // End of the example.
    Ok(())
}
