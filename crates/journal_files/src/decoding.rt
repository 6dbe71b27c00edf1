//! Reading a journal file that is whole in memory.
ghost use Rattle.std.specs.Prelude.{◌≡◌, ◌∷◌, ◌++◌, [], List, true, false, length, IfOk};
ghost use Rattle.event_journal.specs.declared.entry.Entry.{Entry};
ghost use Rattle.event_journal.specs.declared.limits.TheConstants.{MOST_ENTRIES, MOST_OCTETS};
ghost use Rattle.event_journal.specs.Spelled.{IsSpelled};
ghost use Rattle.event_journal.specs.Sizes.{history_octets};
ghost use Rattle.journal_files.specs.Format.{file_octets};
ghost use Rattle.journal_files.specs.Reading.{GivesRead, entries_behind, file_of, is_past, pushed_of};
ghost use Rattle.journal_files.specs.Laws.{IsFile};

use crate::entry::{read_entry, read_head};
use crate::fault::Fault;
use event_journal::{Entry, Journal, MOST_ENTRIES, MOST_OCTETS};
use std::alloc::Global;
use std::slice::from_ref;

/// The journal that the file `octets` says, with the greatest limits that a journal may have. Its entries, and the
/// copies of their messages, texts and names, are in memory from `alloc`.
///
/// # Errors
/// The first fault of the file from its front, as [`Fault`] names them; or want of memory, which says nothing of
/// the file.
pub fn decode(alloc: Global, octets: &[u8]) -> Result<Journal, Fault>
    ensures exact { GivesRead (λ j. j.entries) result (file_of octets.now) }
    ensures limits { IfOk result (λ j.
        j.limits ≡ record { entries = MOST_ENTRIES; octets = MOST_OCTETS }) }
    // The octets are those by which the journal is written, so there is no other file of it.
    ensures same { IfOk result (λ j. octets.now ≡ file_octets j.entries) }
    // The file of a history is read, unless memory runs out.
    ensures only { (h : List Entry) → IsFile h → octets.now ≡ file_octets h
        → GivesRead (λ j. j.entries) result (Ok h) }
{
    read_file(alloc, octets)
}

/// The journal that the file `octets` says, in memory from `alloc`, as the definition of reading computes it.
///
/// # Errors
/// The first fault of the file from its front; or want of memory.
#[tactic(auto, unfolding(crate::specs::Reading::file_of))]
fn read_file(alloc: Global, octets: &[u8]) -> Result<Journal, Fault>
    ensures exact { GivesRead (λ j. j.entries) result (file_of octets.now) }
    ensures limits { IfOk result (λ j.
        j.limits ≡ record { entries = MOST_ENTRIES; octets = MOST_OCTETS }) }
{
    let (count, rest) = read_head(octets)?;
    let mut journal = Journal::new(alloc, MOST_ENTRIES, MOST_OCTETS);
    put_entries(alloc, count, rest, &mut journal)?;
    Ok(journal)
}

/// Puts `count` entries behind those of `journal`, with their parts in memory from `alloc`. They are all that `octets`
/// has.
///
/// # Errors
/// The first fault of `octets`: an entry is cut off, is none, or is past the journal's limits, or something stands
/// behind the last entry; or want of memory. The entries before it stay in the journal.
fn put_entries(alloc: Global, count: u64, octets: &[u8], journal: &mut Journal) -> Result<(), Fault>
    requires limits { journal.old.limits ≡ record { entries = MOST_ENTRIES; octets = MOST_OCTETS } }
    ensures read { GivesRead (λ _. journal.new.entries) result
        (entries_behind journal.old.entries count octets.now) }
    ensures limits { journal.new.limits ≡ journal.old.limits }
{
    let mut rest = octets;
    let mut left = count;
    'entries: while left > 0 {
        let (entry, after) = read_entry(alloc, rest)?;
        put_entry(entry, journal)?;
        rest = after;
        left -= 1;
    }
    if rest.is_empty() {
        Ok(())
    } else {
        Err(Fault::BadEntry)
    }
}

/// Puts `entry` behind those of `journal`.
///
/// # Errors
/// `BadEntry` where the entry is past the journal's limits, or want of memory; then the journal is as it was.
fn put_entry(entry: Entry, journal: &mut Journal) -> Result<(), Fault>
    requires limits { journal.old.limits ≡ record { entries = MOST_ENTRIES; octets = MOST_OCTETS } }
    requires spelled { IsSpelled entry }
    ensures pushed { GivesRead (λ _. journal.new.entries) result (pushed_of journal.old.entries entry) }
    ensures limits { journal.new.limits ≡ journal.old.limits }
{
    if !journal.room(from_ref(&entry)) {
        return Err(Fault::BadEntry);
    }
    journal.reserve(1)?;
    journal.push_reserved(entry);
    Ok(())
}

ghost use Rattle.std.specs.Prelude.{Ok};
