//! The examples of doc comments, line by line as they stand there; `tools/check_examples` compares them. What they assert is worked
//! out by hand from the language of policies, RFC 7011 and RFC 6235.
use std::test::Fail;

/// The text has one space between words and no other lines, and its prefix is spelled as it is printed: so it comes out as it went
/// in.
#[test]
fn policy_of_a_text(rt: HostRuntime) -> Result<(), Fail> {
    let alloc = rt.alloc();
    // Example of policy_text::Policy::parse.
    use policy_text::{Fault, FaultKind, Policy};

    let text = "policy 1\n\
        rule for acme in * from 192.0.2.0/24 to * pass\n\
        rule for acme in * from * to * element sourceIPv4Address truncate 24\n";
    let policy = Policy::parse(alloc, text)?;
    assert!(rt; policy.rules().len() == 2);
    assert!(rt; policy.print(alloc)?.as_str() == text);
    // 192.0.2.1 has a bit past the first 24.
    let wrong = "policy 1\nrule for acme in * from 192.0.2.1/24 to * pass\n";
    let found = Policy::parse(alloc, wrong).err();
    let fault = Fault {
        line: 2,
        kind: FaultKind::BadPrefix,
    };
    assert!(rt; found == Some(fault));
    // End of the example.
    Ok(())
}

/// Template 256 is of sourceIPv4Address and octetDeltaCount. Of 192.0.2.77 the first 24 bits are kept (RFC 6235, section 4.1.1). No rule names octetDeltaCount, the field at place 1, so
/// rule 0 removes it.
#[test]
fn disclosure_of_a_record(rt: HostRuntime) -> Result<(), Fail> {
    let alloc = rt.alloc();
    // Example of flow_anonymize::disclose.
    use flow_anonymize::{Disclosure, RemovedField, disclose};
    use ipfix_session::Session;
    use policy_text::Policy;

    let text = "policy 1\n\
        rule for acme in * from * to * pass\n\
        rule for acme in * from * to * element sourceIPv4Address truncate 24\n";
    let policy = Policy::parse(alloc, text)?;
    let message: &[u8] = b"\x00\x0a\x00\x2c\x65\x53\xf1\x00\x00\x00\x00\x00\x00\x00\x00\x07\
        \x00\x02\x00\x10\x01\x00\x00\x02\x00\x08\x00\x04\x00\x01\x00\x04\
        \x01\x00\x00\x0c\xc0\x00\x02\x4d\x00\x00\x05\xdc";
    let read = Session::new(alloc).apply(message)?;
    let records = read.records.to_vec(alloc)?;
    let flow_record = records.first().expect(&rt, "a record");
    let disclosure = disclose(alloc, &policy, "acme", 7, flow_record)?;
    let Disclosure::Passed { kept, removed } = disclosure else {
        panic!(rt; "it doesn't pass")
    };
    assert!(rt; kept.as_octets().as_slice() == b"\xc0\x00\x02\x00".as_slice());
    assert!(rt; removed.as_slice() == [RemovedField { place: 1, rule: 0 }].as_slice());
    // End of the example.
    Ok(())
}
