//! A journal file of four entries, by hand: each entry's octets as the format has them. A call that is refused memory is made
//! again, and answers as if nothing had happened.
ghost use Rattle.std.specs.Prelude.{◌≡◌, ◌+◌, ◌<◌, IfOk, OnOk};
ghost use Rattle.policy_text.specs.Naming.{is_name};
ghost use Rattle.event_journal.specs.Spelled.{IsSpelled};

use bytes::Bytes;
use event_journal::{Entry, Journal, PolicyText};
use journal_files::{Fault, JournalReader, JournalWriter, decode, encode};
use octet_io::Device;
use policy_text::Name;
use std::alloc::{AllocError, Global};
use std::io::ErrorKind::Interrupted;
use std::process::Abort;
use std::test::Fail;
use test_io::{Narrow, Sparing};

/// A policy by which all passes.
const POLICY: &str =
    "policy 1\nrule for * in * from * to * pass\nrule for * in * from * to * element * keep\n";

/// A message with a template and one record.
const MESSAGE: &[u8] =
    b"\x00\x0a\x00\x32\x65\x53\xf1\x00\x00\x00\x00\x00\x00\x00\x00\x07\x00\x02\x00\x14\x01\x00\x00\x03\x00\x08\x00\x04\x00\x07\x00\x02\x00\x01\x00\x04\x01\x00\x00\x0e\xc0\x00\x02\x4d\x01\xbb\x00\x00\x05\xdc";

/// What stands before four entries.
const HEAD: &[u8] = b"IPMJ\x00\x01\x00\x00\x00\x00\x00\x00\x00\x04";

/// An edit, but for its text.
const EDIT: &[u8] = b"\x04\x00\x00\x00\x00\x00\x00\x00\x55";

const SUBSCRIBE: &[u8] = b"\x05\x00\x00\x00\x00\x00\x00\x00\x01\x04acme";

const OPEN: &[u8] = b"\x01\x00\x00\x00\x00\x00\x00\x00\x01";

/// A message's entry, but for the message.
const FIRST_OF_SESSION: &[u8] =
    b"\x03\x00\x00\x00\x00\x00\x00\x00\x01\x00\x00\x00\x00\x00\x00\x00\x00\x00\x00\x00\x32";

/// The file of an edit, a subscription, a session and its message, in that order: 202 octets.
fn file(alloc: Global) -> Result<Vec<u8>, AllocError> {
    let mut file = Vec::new(alloc);
    for part in [
        HEAD,
        EDIT,
        POLICY.as_bytes(),
        SUBSCRIBE,
        OPEN,
        FIRST_OF_SESSION,
        MESSAGE,
    ] {
        file.extend_from_slice(part)?;
    }
    Ok(file)
}

fn edit(alloc: Global) -> Result<Entry, AllocError>
    ensures { IfOk result (λ e. IsSpelled e) }
{
    Ok(Entry::Edit {
        text: PolicyText::new(alloc, POLICY)?,
    })
}

fn subscribe(alloc: Global) -> Result<Entry, AllocError>
    ensures { IfOk result (λ e. IsSpelled e) }
{
    Ok(Entry::Subscribe {
        sub: 1,
        name: Name::new(alloc, b"acme")?,
    })
}

fn message(alloc: Global) -> Result<Entry, AllocError>
    ensures { IfOk result (λ e. IsSpelled e) }
{
    Ok(Entry::Message {
        session: 1,
        number: 0,
        octets: Bytes::copy_from_slice(alloc, MESSAGE)?,
    })
}

/// The journal of a file.
fn decoded(alloc: Global, octets: &[u8]) -> Result<Journal, Fault> {
    match decode(alloc, octets) {
        Err(Fault::OutOfMemory) => decode(alloc, octets),
        answer => answer,
    }
}

#[test]
fn a_file_of_four_entries_is_read(rt: HostRuntime) -> Result<(), Fail> {
    let file = file(rt.alloc())?;
    assert_eq!(rt; file.len(), 202);
    let journal = decoded(rt.alloc(), file.as_slice())?;
    assert_eq!(rt; journal.len(), 4);
    assert_eq!(rt; journal.octets(), 188);
    assert!(rt; journal.get(0) == Some(&edit(rt.alloc())?));
    assert!(rt; journal.get(1) == Some(&subscribe(rt.alloc())?));
    assert!(rt; journal.get(2) == Some(&Entry::Open { session: 1 }));
    assert!(rt; journal.get(3) == Some(&message(rt.alloc())?));
    Ok(())
}

/// The file of a journal.
fn encoded(alloc: Global, journal: &Journal) -> Result<Vec<u8>, AllocError> {
    match encode(alloc, journal) {
        Ok(file) => Ok(file),
        Err(_) => encode(alloc, journal),
    }
}

#[test]
fn what_was_read_is_written(rt: HostRuntime) -> Result<(), Fail> {
    let file = file(rt.alloc())?;
    let journal = decoded(rt.alloc(), file.as_slice())?;
    assert!(rt; encoded(rt.alloc(), &journal)? == file);
    Ok(())
}

/// Files, and the text of the last edit: a file of no entry, one of an edit and what came after it, and one of a second edit
/// and what came before it.
static EDITS: [(&[u8], Option<&str>); 3] = [
    (b"IPMJ\x00\x01\x00\x00\x00\x00\x00\x00\x00\x00", None),
    (
        b"IPMJ\x00\x01\x00\x00\x00\x00\x00\x00\x00\x02\x04\x00\x00\x00\x00\x00\x00\x00\x01a\x01\x00\x00\x00\x00\x00\x00\x00\x01",
        Some("a"),
    ),
    (
        b"IPMJ\x00\x01\x00\x00\x00\x00\x00\x00\x00\x02\x04\x00\x00\x00\x00\x00\x00\x00\x01a\x04\x00\x00\x00\x00\x00\x00\x00\x01b",
        Some("b"),
    ),
];

/// Whether the last edit of a file's journal has this text.
fn is_last_edit(alloc: Global, octets: &[u8], text: Option<&str>) -> Result<bool, Fault> {
    let journal = decoded(alloc, octets)?;
    Ok(journal.last_edit() == text)
}

#[test]
fn the_last_edit_is_told(rt: HostRuntime) -> Result<(), Fail> {
    for (octets, text) in EDITS.iter() {
        assert!(rt; is_last_edit(rt.alloc(), octets, *text)?);
    }
    Ok(())
}

/// The fault of a file, if it has one.
fn fault_of(alloc: Global, octets: &[u8]) -> Option<Fault> {
    decoded(alloc, octets).err()
}

#[test]
fn each_front_of_it_is_cut_off(rt: HostRuntime) -> Result<(), Fail> {
    let file = file(rt.alloc())?;
    for count in 0..file.len() {
        let front = file.as_slice().get(..count).ok_or("count")?;
        assert!(rt; fault_of(rt.alloc(), front) == Some(Fault::Truncated));
    }
    Ok(())
}

/// Octets that are no journal file, and the fault.
static FAULTS: [(&[u8], Fault); 10] = [
    (b"", Fault::Truncated),
    (b"IPM", Fault::Truncated),
    (
        b"IPMK\x00\x01\x00\x00\x00\x00\x00\x00\x00\x00",
        Fault::BadMagic,
    ),
    (b"IPMK", Fault::BadMagic),
    (b"IPMJ\x00\x02", Fault::BadVersion),
    (
        b"IPMJ\x00\x01\x00\x00\x00\x00\x00\x00\x00\x00\x01",
        Fault::BadEntry,
    ),
    (
        b"IPMJ\x00\x01\x00\x00\x00\x00\x00\x00\x00\x01\x00",
        Fault::BadEntry,
    ),
    (
        b"IPMJ\x00\x01\x00\x00\x00\x00\x00\x00\x00\x01\x09",
        Fault::BadEntry,
    ),
    (
        b"IPMJ\x00\x01\x00\x00\x00\x00\x00\x00\x00\x01\x05\x00\x00\x00\x00\x00\x00\x00\x01\x04Acme",
        Fault::BadEntry,
    ),
    (
        b"IPMJ\x00\x01\x00\x00\x00\x00\x00\x00\x00\x01\x04\x00\x00\x00\x00\x00\x00\x00\x01\xff",
        Fault::BadEntry,
    ),
];

#[test]
fn the_first_fault_is_named(rt: HostRuntime) -> Result<(), Fail> {
    for (octets, fault) in FAULTS.iter() {
        assert!(rt; fault_of(rt.alloc(), octets) == Some(*fault));
    }
    Ok(())
}

/// A device that takes at most `most` octets a call, and fails after `calls` calls.
fn device(alloc: Global, most: usize, calls: usize) -> Result<Device<Narrow>, AllocError> {
    Ok(Device::new(Narrow::new(alloc, 202, most, calls, Interrupted)?))
}

/// Begins a file of four entries.
fn start(alloc: Global, device: &mut Device<Narrow>) -> Result<JournalWriter, Fault>
    ensures { IfOk result (λ writer. writer ≡ 4) }
{
    match JournalWriter::start(alloc, 4, device) {
        Err(Fault::OutOfMemory) => JournalWriter::start(alloc, 4, device),
        answer => answer,
    }
}

/// Writes the next entry.
fn put(writer: &mut JournalWriter, entry: &Entry, device: &mut Device<Narrow>) -> Result<(), Fault>
    requires left { 0 < writer.old }
    requires spelled { IsSpelled entry.now }
    ensures left { OnOk result (writer.new + 1 ≡ writer.old) }
{
    match writer.put(entry, device) {
        Err(Fault::OutOfMemory) => writer.put(entry, device),
        answer => answer,
    }
}

/// Writes four entries, of which the third is a session's begin.
fn write_entries(
    alloc: Global,
    edit: &Entry,
    subscribe: &Entry,
    message: &Entry,
    device: &mut Device<Narrow>,
) -> Result<(), Fault>
    requires edit { IsSpelled edit.now }
    requires subscribe { IsSpelled subscribe.now }
    requires message { IsSpelled message.now }
{
    let mut writer = start(alloc, device)?;
    put(&mut writer, edit, device)?;
    put(&mut writer, subscribe, device)?;
    put(&mut writer, &Entry::Open { session: 1 }, device)?;
    put(&mut writer, message, device)
}

/// Writes the four entries.
fn write_all(alloc: Global, device: &mut Device<Narrow>) -> Result<Result<(), Fault>, AllocError> {
    let edit = edit(alloc)?;
    let subscribe = subscribe(alloc)?;
    let message = message(alloc)?;
    Ok(write_entries(alloc, &edit, &subscribe, &message, device))
}

/// How many octets a call takes, and how many calls take the file: each part is written by itself.
static CALLS: [(usize, usize); 3] = [(1, 202), (7, 31), (202, 5)];

#[test]
fn a_file_is_written_entry_by_entry(rt: HostRuntime) -> Result<(), Fail> {
    let file = file(rt.alloc())?;
    for (most, calls) in CALLS.iter() {
        let mut device = device(rt.alloc(), *most, *calls)?;
        assert!(rt; write_all(rt.alloc(), &mut device)? == Ok(()));
        assert!(rt; device.into_inner().octets == file);
    }
    Ok(())
}

/// Where a part of the file begins: what stands before the entries, and each of them; how many octets a call takes, how many calls
/// come before those of the part, and how many calls it takes. A call that takes nothing is one that fails.
static PARTS: [(usize, usize, usize, usize); 16] = [
    (0, 1, 0, 14),
    (14, 1, 14, 94),
    (108, 1, 108, 14),
    (122, 1, 122, 9),
    (131, 1, 131, 71),
    (0, 7, 0, 2),
    (14, 7, 2, 14),
    (108, 7, 16, 2),
    (122, 7, 18, 2),
    (131, 7, 20, 11),
    (0, 202, 0, 1),
    (14, 202, 1, 1),
    (108, 202, 2, 1),
    (122, 202, 3, 1),
    (131, 202, 4, 1),
    (0, 0, 0, 2),
];

/// That a call fails behind `sent` octets of the part of the file that begins at the octet `begin`. The fault tells
/// `sent`, and nothing is written behind these octets.
fn expect_stopped(
    rt: &impl Abort,
    alloc: Global,
    most: usize,
    calls: usize,
    begin: usize,
    sent: usize,
) -> Result<(), AllocError> {
    let mut device = device(alloc, most, calls)?;
    assert!(rt; write_all(alloc, &mut device)? == Err(Fault::Write { sent }));
    let file = file(alloc)?;
    let front = file.as_slice().get(..begin.saturating_add(sent));
    assert!(rt; Some(device.into_inner().octets.as_slice()) == front);
    Ok(())
}

#[test]
fn a_device_that_fails_says_how_much_it_took(rt: HostRuntime) -> Result<(), Fail> {
    for (begin, most, before, made) in PARTS.iter() {
        for place in 0..*made {
            let calls = before.saturating_add(place);
            let sent = place.saturating_mul(*most);
            expect_stopped(&rt, rt.alloc(), *most, calls, *begin, sent)?;
        }
    }
    Ok(())
}

/// A device that gives at most `most` octets a call, and fails after `calls` calls.
fn source(octets: &[u8], most: usize, calls: usize) -> Device<Sparing<'_>> {
    Device::new(Sparing::new(octets, most, calls, Interrupted))
}

/// Whether a file is read from a source as these entries, and ends behind them. How many of its parts were read is kept: what
/// stands before the entries, and each of them.
fn reads(
    alloc: Global,
    source: &mut Device<Sparing<'_>>,
    due: &[Entry],
    parts: &mut usize,
) -> Result<bool, Fault> {
    let mut reader = JournalReader::start(alloc, source)?;
    *parts = 1;
    if reader.left() != due.len() as u64 {
        return Ok(false);
    }
    for entry in due {
        if reader.next(source)?.as_ref() != Some(entry) {
            return Ok(false);
        }
        *parts = parts.saturating_add(1);
    }
    Ok(reader.next(source)? == None)
}

/// Where each of these parts ends.
static ENDS: [usize; 5] = [14, 108, 122, 131, 202];

/// Whether octets of a file are read by a source up to where it ends or fails: the parts that are whole there, and no other; and
/// whether that is told.
fn is_told(
    alloc: Global,
    octets: &[u8],
    most: usize,
    calls: usize,
    due: &[Entry],
) -> Result<bool, AllocError> {
    let mut source = source(octets, most, calls);
    let mut parts = 0;
    let answer = reads(alloc, &mut source, due, &mut parts);
    if answer == Err(Fault::OutOfMemory) {
        return Err(AllocError);
    }
    let told = if source.has_failed() {
        answer == Err(Fault::Read)
    } else if octets.len() < 202 {
        answer == Err(Fault::Truncated)
    } else {
        answer == Ok(true)
    };
    let read = octets.len().saturating_sub(source.into_inner().rest.len());
    Ok(told && parts == ENDS.iter().filter(|end| **end <= read).count())
}

/// Whether octets of a file are read by a source up to where it ends or fails, and that is told. Where memory was
/// refused, they are read again from their begin: what was read last is lost then.
fn is_told_again(
    alloc: Global,
    octets: &[u8],
    most: usize,
    calls: usize,
    due: &[Entry],
) -> Result<bool, AllocError> {
    match is_told(alloc, octets, most, calls, due) {
        Err(AllocError) => is_told(alloc, octets, most, calls, due),
        answer => answer,
    }
}

/// The entries of the file.
fn entries(alloc: Global) -> Result<[Entry; 4], AllocError> {
    Ok([
        edit(alloc)?,
        subscribe(alloc)?,
        Entry::Open { session: 1 },
        message(alloc)?,
    ])
}

/// By one octet, by seven and by all, each call fails, and the file ends behind each of its octets. It has 202 of them, and one
/// call more meets its end.
#[test]
fn a_source_that_fails_or_ends_is_told(rt: HostRuntime) -> Result<(), Fail> {
    let file = file(rt.alloc())?;
    let due = entries(rt.alloc())?;
    for (most, _) in CALLS.iter() {
        for count in 0..=file.len() {
            let front = file.as_slice().get(..count).ok_or("count")?;
            assert!(rt;
                is_told_again(rt.alloc(), front, *most, 1000, due.as_slice())?,
                "{count}"
            );
            assert!(rt;
                is_told_again(rt.alloc(), file.as_slice(), *most, count, due.as_slice())?,
                "{count}"
            );
        }
    }
    Ok(())
}
