//! Messages of one piece that workers are asked for: each is handed back as it was prepared, in their order and for itself alone,
//! by whatever number of workers; those that can't be prepared, and those of a piece that was given up, are not.
use bytes::Bytes;
use decode_workers::Workers;
use ipfix_session::Session;
use prepared_message::Snapshot;
use std::alloc::{AllocError, Global};
use std::sync::Wait;
use std::test::Fail;
use std::thread;
use std::thread::Threads;

/// Template 256 of domain 7: sourceIPv4Address, sourceTransportPort and octetDeltaCount in 4 octets (RFC 7011, section 3.4.1).
const TEMPLATE: &[u8] = b"\x00\x0a\x00\x24\x65\x53\xf1\x00\x00\x00\x00\x00\x00\x00\x00\x07\
\x00\x02\x00\x14\x01\x00\x00\x03\x00\x08\x00\x04\x00\x07\x00\x02\x00\x01\x00\x04";

/// One record of it. The last octet differs from message to message.
const DATA: &[u8] = b"\x00\x0a\x00\x1e\x65\x53\xf1\x00\x00\x00\x00\x00\x00\x00\x00\x07\
\x01\x00\x00\x0e\xc0\x00\x02\x4d\x01\xbb\x00\x00\x05\xdc";

/// Its set is two octets longer than what is left of the message.
const CUT_SHORT: &[u8] = b"\x00\x0a\x00\x1c\x65\x53\xf1\x00\x00\x00\x00\x00\x00\x00\x00\x07\
\x01\x00\x00\x0e\xc0\x00\x02\x4d\x01\xbb\x00\x00";

/// Numbers of workers, of which the first and the last stand for the nearest that there may be.
const WORKERS: &[u64] = &[0, 1, 2, 4, 64, u64::MAX];

/// How many messages pieces have.
const LENGTHS: &[usize] = &[0, 1, 2, 3, 50];

/// Which messages of a piece can't be prepared: each tenth is cut short, and the one behind it has a template.
const TURN: usize = 10;

/// A snapshot that has the template.
fn known(alloc: Global) -> Result<Snapshot, Fail> {
    let mut session = Session::new(alloc);
    drop(session.apply(TEMPLATE)?);
    session.share()?;
    Ok(Snapshot::of(&session)?)
}

/// The message at this place of a piece.
fn message(alloc: Global, place: usize) -> Result<Bytes, AllocError> {
    match place % TURN {
        4 => Bytes::copy_from_slice(alloc, CUT_SHORT),
        5 => Bytes::copy_from_slice(alloc, TEMPLATE),
        _ => {
            let mut octets = Vec::new(alloc);
            octets.extend_from_slice(&DATA[..DATA.len() - 1])?;
            octets.push((place % 250) as u8)?;
            Bytes::copy_from_slice(alloc, &octets)
        }
    }
}

/// A piece of `length` messages.
fn piece(alloc: Global, length: usize) -> Result<Vec<Bytes>, AllocError> {
    let mut messages = Vec::new(alloc);
    for place in 0..length {
        messages.push(message(alloc, place)?)?;
    }
    Ok(messages)
}

/// How many messages of a piece are handed back that should be, less those that should not.
fn handed_back<R: Wait>(
    rt: &R,
    workers: &mut Workers,
    alloc: Global,
    length: usize,
) -> Result<usize, AllocError> {
    let mut right = 0usize;
    for place in 0..length {
        let message = message(alloc, place)?;
        let is_due = !matches!(place % TURN, 4 | 5);
        if workers.next(rt, &message).is_some() == is_due {
            right = right.saturating_add(1);
        }
    }
    Ok(right)
}

/// Asks a number of workers for a piece, of which nothing is taken, and for one of this length, and answers how many messages of the
/// second were handed back as they should be.
fn ask<R: Wait + Sync + Threads>(
    rt: &R,
    snapshots: (Snapshot, Snapshot),
    count: u64,
    length: usize,
    alloc: Global,
) -> Result<usize, AllocError> {
    thread::scope(thread::scope_env(), rt, |scope| {
        let mut workers = Workers::new(alloc, count);
        workers.ask(rt, scope, snapshots.0, piece(alloc, TURN)?)?;
        workers.ask(rt, scope, snapshots.1, piece(alloc, length)?)?;
        handed_back(rt, &mut workers, alloc, length)
    })
}

#[test]
fn pieces(rt: HostRuntime) -> Result<(), Fail> {
    let alloc = rt.alloc();
    for count in WORKERS {
        for length in LENGTHS {
            let snapshots = (known(alloc)?, known(alloc)?);
            let right = ask(&rt, snapshots, *count, *length, alloc)?;
            assert!(rt; right == *length, "{count} workers, {length} messages");
        }
    }
    Ok(())
}

/// Whether a message is handed back for another one, and then for itself.
fn mistaken<R: Wait + Sync + Threads>(
    rt: &R,
    snapshot: Snapshot,
    count: u64,
    alloc: Global,
) -> Result<(bool, bool), AllocError> {
    thread::scope(thread::scope_env(), rt, |scope| {
        let mut workers = Workers::new(alloc, count);
        workers.ask(rt, scope, snapshot, piece(alloc, 2)?)?;
        let other = message(alloc, 3)?;
        let mistaken = workers.next(rt, &other).is_some();
        let second = message(alloc, 1)?;
        Ok((mistaken, workers.next(rt, &second).is_some()))
    })
}

#[test]
fn another_message(rt: HostRuntime) -> Result<(), Fail> {
    let alloc = rt.alloc();
    for count in WORKERS {
        let found = mistaken(&rt, known(alloc)?, *count, alloc)?;
        assert!(rt; found == (false, true), "{count} workers");
    }
    Ok(())
}
