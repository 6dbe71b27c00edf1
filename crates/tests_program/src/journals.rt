//! A journal's file: read, kept and written. Each call is made once, and again where it was refused memory.
use crate::octets::RUN;
use event_journal::{Entry, Journal};
use journal_files::{Fault, JournalReader, decode, encode, write_journal};
use octet_io::Device;
use std::alloc::{AllocError, Global};
use std::process::Abort;
use std::test::Fail;

/// The octets of the file's entries, which are all but its first 14: 94, 14, 14, 9, 71, 9 and 71.
const OCTETS: u64 = 282;

/// Room for the file.
const ROOM: usize = 512;

/// The text of its edit.
const TEXT: &str =
    "policy 1\nrule for * in * from * to * pass\nrule for * in * from * to * element * keep\n";

/// The journal of the file.
pub(crate) fn journal(alloc: Global) -> Result<Journal, Fault> {
    match decode(alloc, RUN) {
        Err(Fault::OutOfMemory) => decode(alloc, RUN),
        answer => answer,
    }
}

/// Whether a journal has the file's seven entries, by their number, their octets and some of them.
fn has_entries(journal: &Journal) -> bool {
    journal.len() == 7
        && journal.octets() == OCTETS
        && journal.get(3) == Some(&Entry::Open { session: 1 })
        && journal.get(5) == Some(&Entry::Cut { sub: 1 })
        && journal.get(7) == None
        && journal.last_edit() == Some(TEXT)
}

#[test]
fn decoded(rt: HostRuntime) -> Result<(), Fail> {
    let journal = journal(rt.alloc())?;
    assert!(rt; has_entries(&journal));
    Ok(())
}

/// The file of a journal.
fn file_of(alloc: Global, journal: &Journal) -> Result<Vec<u8>, AllocError> {
    match encode(alloc, journal) {
        Ok(file) => Ok(file),
        Err(_) => encode(alloc, journal),
    }
}

#[test]
fn encoded(rt: HostRuntime) -> Result<(), Fail> {
    let journal = journal(rt.alloc())?;
    let file = file_of(rt.alloc(), &journal)?;
    assert!(rt; file.as_slice() == RUN);
    Ok(())
}

/// What writing a file answered, and the octets that it wrote.
#[derive(Drop)]
struct Written {
    answer: Result<(), Fault>,
    octets: Vec<u8>,
}

/// Writes the file of a journal, to a writer with room for all.
fn write_once(alloc: Global, journal: &Journal) -> Result<Written, AllocError> {
    let mut output = Device::new(Vec::with_capacity(alloc, ROOM)?);
    let answer = write_journal(alloc, journal, &mut output);
    Ok(Written {
        answer,
        octets: output.into_inner(),
    })
}

/// Whether the whole file was written.
fn is_whole(file: &Written) -> bool {
    file.answer == Ok(()) && file.octets.as_slice() == RUN
}

/// Whether memory was refused, and a front of the file was written.
fn is_front(file: &Written) -> bool {
    file.answer == Err(Fault::OutOfMemory) && RUN.starts_with(file.octets.as_slice())
}

/// Whether the file is written, to a second writer where memory was refused over the first.
fn writes(alloc: Global, journal: &Journal) -> Result<bool, AllocError> {
    let file = write_once(alloc, journal)?;
    Ok(is_whole(&file) || is_front(&file) && is_whole(&write_once(alloc, journal)?))
}

#[test]
fn written_to_a_sink(rt: HostRuntime) -> Result<(), Fail> {
    let journal = journal(rt.alloc())?;
    assert!(rt; writes(rt.alloc(), &journal)?);
    Ok(())
}

/// Whether the file is read from a source, entry by entry, as this journal.
fn reads(alloc: Global, journal: &Journal) -> Result<bool, Fault> {
    let mut source = Device::new(RUN);
    let mut reader = JournalReader::start(alloc, &mut source)?;
    for position in 0..7 {
        let entry = reader.next(&mut source)?;
        if entry.as_ref() != journal.get(position) {
            return Ok(false);
        }
    }
    Ok(reader.next(&mut source)? == None)
}

/// Whether the file is read from a source, entry by entry, as this journal. Where memory was refused, it is read again
/// from its begin: what was read last is lost then.
fn reads_again(alloc: Global, journal: &Journal) -> Result<bool, Fault> {
    match reads(alloc, journal) {
        Err(Fault::OutOfMemory) => reads(alloc, journal),
        answer => answer,
    }
}

#[test]
fn read_from_a_source(rt: HostRuntime) -> Result<(), Fail> {
    let journal = journal(rt.alloc())?;
    assert!(rt; reads_again(rt.alloc(), &journal)? && has_entries(&journal));
    Ok(())
}
