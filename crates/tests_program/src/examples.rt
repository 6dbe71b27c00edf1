//! The examples of doc comments, line by line as they stand there; `tools/check_examples` compares them. What they assert is worked
//! out by hand from RFC 7011, the format of journals and the rules of a mediator.
use std::test::Fail;

/// The message defines template 256, of octetDeltaCount in 4 octets, and brings a record of it, of which the policy keeps all. What is
/// written has the job's Export Time, 1700000060, the Sequence Number 0, domain 0 and the same sets, since a subscriber's first
/// template has the ID 256 too.
#[test]
fn stream_for_one_subscriber(rt: HostRuntime) -> Result<(), Fail> {
    let alloc = rt.alloc();
    // Example of mediator_offline::offline.
    use mediator_offline::{Device, OfflineJob, offline};

    let job = OfflineJob {
        policy: "policy 1\nrule for * in * from * to * pass\nrule for * in * from * to * element * keep\n",
        name: "acme",
        now: 1_700_000_060,
        target: 1400,
        turns: 1000,
        audit: true,
    };
    let input: &[u8] = b"\x00\x0a\x00\x24\x65\x53\xf1\x00\x00\x00\x00\x00\x00\x00\x00\x07\
        \x00\x02\x00\x0c\x01\x00\x00\x01\x00\x01\x00\x04\x01\x00\x00\x08\x00\x00\x05\xdc";
    let mut reader = Device::new(input);
    let mut writer = Device::new(Vec::new(alloc));
    let mut audit = Device::new(Vec::new(alloc));
    let report = offline(alloc, &job, &mut reader, &mut writer, &mut audit)?;
    assert!(rt; report.disclosed == 1);
    let due: &[u8] = b"\x00\x0a\x00\x24\x65\x53\xf1\x3c\x00\x00\x00\x00\x00\x00\x00\x00\
        \x00\x02\x00\x0c\x01\x00\x00\x01\x00\x01\x00\x04\x01\x00\x00\x08\x00\x00\x05\xdc";
    assert!(rt; writer.into_inner().as_slice() == due);
    // End of the example.
    Ok(())
}

/// The first file has four entries: a policy of 9 + 33 + 43 = 85 octets (0x55), a subscription, a session, and its message of 36
/// octets (0x24), whose one record passes.
#[test]
fn history_of_a_file(rt: HostRuntime) -> Result<(), Fail> {
    let alloc = rt.alloc();
    // Example of history_verify::verify.
    use history_verify::{Fault, verify};
    use journal_files::decode;

    let file: &[u8] =
        b"IPMJ\x00\x01\x00\x00\x00\x00\x00\x00\x00\x04\x04\x00\x00\x00\x00\x00\x00\x00\x55policy 1\n\
        rule for * in * from * to * pass\nrule for * in * from * to * element * keep\n\
        \x05\x00\x00\x00\x00\x00\x00\x00\x01\x04acme\x01\x00\x00\x00\x00\x00\x00\x00\x01\
        \x03\x00\x00\x00\x00\x00\x00\x00\x01\x00\x00\x00\x00\x00\x00\x00\x00\x00\x00\x00\x24\
        \x00\x0a\x00\x24\x65\x53\xf1\x00\x00\x00\x00\x00\x00\x00\x00\x07\
        \x00\x02\x00\x0c\x01\x00\x00\x01\x00\x01\x00\x04\x01\x00\x00\x08\x00\x00\x05\xdc";
    let journal = decode(alloc, file)?;
    let verified = verify(alloc, &journal)?;
    assert!(rt; verified.subs.len() == 1);
    assert!(rt; matches!(verified.subs.first(), Some(count) if count.disclosed == 1));
    // A file with one entry: a session ends that never began.
    let file: &[u8] =
        b"IPMJ\x00\x01\x00\x00\x00\x00\x00\x00\x00\x01\x02\x00\x00\x00\x00\x00\x00\x00\x01";
    let journal = decode(alloc, file)?;
    let fault = verify(alloc, &journal).err();
    assert!(rt; fault == Some(Fault::BadHistory { position: 0 }));
    // End of the example.
    Ok(())
}
