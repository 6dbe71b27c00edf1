//! Two subscriptions side by side, neither of which sees what the other's rules do.
use disclosure_audit::What;
use ipfix_session::Session;
use mediator_shares::{InForce, Shares, Terms, Workspace};
use mediator_tables::Served;
use policy_text::Policy;
use std::alloc::Global;
use std::process::Abort;
use std::sync::Arc;
use std::test::Fail;

/// A message with a template of source address, source port and octet count, and one record.
const FLOW: &[u8] =
    b"\x00\x0a\x00\x32\x65\x53\xf1\x00\x00\x00\x00\x00\x00\x00\x00\x07\x00\x02\x00\x14\x01\x00\x00\x03\x00\x08\x00\x04\x00\x07\x00\x02\x00\x01\x00\x04\x01\x00\x00\x0e\xc0\x00\x02\x4d\x01\xbb\x00\x00\x05\xdc";

const POLICY: &str = "policy 1
rule for acme in * from * to * pass
rule for acme in * from * to * element sourceTransportPort remove
rule for * in * from * to * element * keep
";

/// What acme and beta are given of `FLOW` by `POLICY`, with at most `most` notes.
fn shared(alloc: Global, most: u64) -> Result<Shares, Fail> {
    shared_by(alloc, POLICY, FLOW, most)
}

/// What acme and beta are given of the message `octets` by the policy `text`, with at most `most` notes.
fn shared_by(alloc: Global, text: &str, octets: &[u8], most: u64) -> Result<Shares, Fail> {
    let policy = Policy::parse(alloc, text)?;
    let read = Session::new(alloc).apply(octets)?;
    let served = [
        Served {
            sub: 1,
            name: "acme",
        },
        Served {
            sub: 2,
            name: "beta",
        },
    ];
    if read.records.len() > 4 {
        return Err(Fail::new("more than four records"));
    }
    let mut in_force = InForce::since(alloc, policy, 0)?;
    Ok(Shares::of_records(alloc, &mut in_force, 7, &read.records, &served, most)?)
}

/// The subscriptions with the number of records that each is given.
fn counts(alloc: Global, found: &Shares) -> Result<Vec<(u64, usize)>, Fail> {
    Ok(
        found
            .shares
            .iter()
            .map(|share| (share.sub, share.given.len()))
            .collect(alloc)?,
    )
}

/// What is noted: index, subscription, and whether a record was withheld.
fn noted(alloc: Global, found: Shares) -> Result<Vec<(u32, u64, bool)>, Fail> {
    Ok(
        found
            .notes
            .into_kept(alloc)?
            .iter()
            .map(|note| {
                (
                    note.index,
                    note.sub,
                    matches!(&note.what, What::Withheld { .. }),
                )
            })
            .collect(alloc)?,
    )
}

#[test]
fn isolation(rt: HostRuntime) -> Result<(), Fail> {
    let found = shared(rt.alloc(), 2)?;
    assert_eq!(rt;
        counts(rt.alloc(), &found)?.as_slice(),
        [(1, 1), (2, 0)].as_slice()
    );
    assert_eq!(rt;
        noted(rt.alloc(), found)?.as_slice(),
        [(0, 1, false), (0, 2, true)].as_slice()
    );
    Ok(())
}

/// At most `most` of the two notes of the message are kept, and both are counted.
#[test]
fn notes_that_are_kept(rt: HostRuntime) -> Result<(), Fail> {
    for most in 0..4_u64 {
        let found = shared(rt.alloc(), most)?;
        assert_eq!(rt; found.notes.count(), 2);
        assert_eq!(rt;
            found.notes.into_kept(rt.alloc())?.len() as u64,
            most.min(2)
        );
    }
    Ok(())
}

/// A message as `FLOW`, with four records: from 192.0.2.1, 192.0.2.2, 198.51.100.1 and 192.0.2.3.
const FLOWS: &[u8] =
    b"\x00\x0a\x00\x50\x65\x53\xf1\x00\x00\x00\x00\x00\x00\x00\x00\x07\x00\x02\x00\x14\x01\x00\x00\x03\x00\x08\x00\x04\x00\x07\x00\x02\x00\x01\x00\x04\x01\x00\x00\x2c\xc0\x00\x02\x01\x01\xbb\x00\x00\x05\xdc\xc0\x00\x02\x02\x01\xbb\x00\x00\x05\xdc\xc6\x33\x64\x01\x01\xbb\x00\x00\x05\xdc\xc0\x00\x02\x03\x01\xbb\x00\x00\x05\xdc";

const INSIDE: &str = "policy 1
rule for acme in * from 192.0.2.0/24 to * pass
rule for acme in * from * to * element sourceTransportPort remove
rule for * in * from * to * element * keep
";

/// What is noted of `FLOWS` by `INSIDE`, by record and then by subscription: acme loses a field of each record, or the one
/// from outside; beta has no rule that passes.
const NOTED: [(u32, u64, bool); 8] = [
    (0, 1, false),
    (0, 2, true),
    (1, 1, false),
    (1, 2, true),
    (2, 1, true),
    (2, 2, true),
    (3, 1, false),
    (3, 2, true),
];

/// Records side by side that lose the same are noted one by one, and the notes end wherever no more are kept.
#[test]
fn records_side_by_side(rt: HostRuntime) -> Result<(), Fail> {
    for most in 0..10_u64 {
        let found = shared_by(rt.alloc(), INSIDE, FLOWS, most)?;
        assert_eq!(rt;
            counts(rt.alloc(), &found)?.as_slice(),
            [(1, 3), (2, 0)].as_slice()
        );
        assert_eq!(rt; found.notes.count(), 8);
        let kept = most.min(8) as usize;
        assert_eq!(rt; noted(rt.alloc(), found)?.as_slice(), &NOTED[..kept]);
    }
    Ok(())
}

/// What is taken of what was judged elsewhere by `POLICY`, with at most two notes. By then the policy `text` is in
/// force, and at most `most` notes may be kept.
fn taken(alloc: Global, text: &str, most: u64) -> Result<Option<Shares>, Fail> {
    let read = Session::new(alloc).apply(FLOW)?;
    let served = [
        Served {
            sub: 1,
            name: "acme",
        },
        Served {
            sub: 2,
            name: "beta",
        },
    ];
    if read.records.len() > 1 {
        return Err(Fail::new("more than one record"));
    }
    let before = InForce::since(alloc, Policy::parse(alloc, POLICY)?, 0)?;
    let terms = Arc::new(alloc, Terms::of(alloc, &before, &served, 2)?)?;
    let judgement = Workspace::new().judge(alloc, &terms, 7, &read.records)?;
    let now = InForce::since(alloc, Policy::parse(alloc, text)?, 0)?;
    Ok(judgement.shares_by(&now, &served, most))
}

#[test]
fn judged_elsewhere(rt: HostRuntime) -> Result<(), Fail> {
    match taken(rt.alloc(), POLICY, 2)? {
        Some(found) => assert_eq!(rt;
            counts(rt.alloc(), &found)?.as_slice(),
            [(1, 1), (2, 0)].as_slice()
        ),
        None => assert!(rt; false, "the same policy"),
    }
    assert!(rt;
        taken(
            rt.alloc(),
            "policy 1\nrule for acme in * from * to * pass\n",
            2
        )?
        .is_none(),
        "another policy"
    );
    assert!(rt;
        taken(rt.alloc(), POLICY, 1)?.is_none(),
        "another limit on notes"
    );
    Ok(())
}
