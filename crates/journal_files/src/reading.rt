//! Reading a journal file from a source, entry by entry.
ghost use Rattle.std.specs.Prelude.{◌≡◌, ◌+◌, ◌<◌, ◌^◌, OnOk, IfOk, IfErr, MatchOption};
ghost use Rattle.std.specs.Io.KnownBytes.{Consumes};
ghost use Rattle.journal_files.specs.Format.{head_octets};
ghost use Rattle.journal_files.specs.Reading.{head_of};
ghost use Rattle.journal_files.specs.Streaming.{StopsReadingFile, TakesEntry, EndsFile, entry_step};

use crate::entry::{read_entry, read_head};
use crate::fault::Fault;
use crate::gathering::{fill, gather};
use event_journal::{Entry, MOST_ENTRIES, MOST_OCTETS};
use octet_io::Source;
use std::alloc::Global;
use std::marker::Model;

/// The octets before the first entry.
const HEAD: usize = 14;

/// Reads a file from a source, an entry at a time. It keeps room for the octets of one entry, and reads none past them.
/// Contracts see how many entries are left, and the number and the octets of those before.
#[derive(Drop)]
pub struct JournalReader {
    alloc: Global,
    left: u64,
    count: u64,
    octets: u64,
    /// The octets of the entry that is being read.
    held: Vec<u8>,
    /// What one read gives.
    piece: Vec<u8>,
}

impl Model for JournalReader {
    ghost use Rattle.std.specs.Prelude.{◌≤◌};
    ghost use Rattle.event_journal.specs.declared.limits.TheConstants.{MOST_ENTRIES, MOST_OCTETS};
    ghost use Rattle.journal_files.specs.Streaming.{FilePlace};

    ghost Value = { FilePlace };

    ghost view = { λ r. record { left = r.left; count = r.count; octets = r.octets } };

    ghost invariant = { λ r. (r.count ≤ MOST_ENTRIES) × (r.octets ≤ MOST_OCTETS) };
}

impl JournalReader {
    /// Begins to read a file from `source`: reads its head, which has 14 octets, and none past it. The reader takes
    /// memory from `alloc`.
    ///
    /// # Errors
    /// The source failed; the head has a fault, which is the file's first; or want of memory. At a failed source, and
    /// at want of memory, octets may have been read that are lost.
    pub fn start<R: Source>(alloc: Global, source: &mut R) -> Result<JournalReader, Fault>
        ensures ok { IfOk result (λ r. (r.count ≡ 0) × (r.octets ≡ 0)
            × Consumes (R.remaining source.old) (R.remaining source.new) (head_octets r.left)) }
        ensures few { IfOk result (λ r. r.left < 2 ^ 64) }
        ensures stays { OnOk result (R.has_failed source.new ≡ R.has_failed source.old) }
        ensures err { IfErr result (λ e.
            StopsReadingFile e head_of (R.remaining source.old) (R.remaining source.new)
            (R.has_failed source.old) (R.has_failed source.new)) }
    {
        let mut piece = Vec::new(alloc);
        let mut held = Vec::new(alloc);
        fill(source, HEAD, &mut piece, &mut held)?;
        let (left, _) = read_head(held.as_slice())?;
        Ok(JournalReader {
            alloc,
            left,
            count: 0,
            octets: 0,
            held,
            piece,
        })
    }

    /// How many entries are left to read, of those that the file announces.
    pub fn left(&self) -> u64
        ensures { result ≡ self.now.left }
    {
        self.left
    }

    /// Reads the next entry from `source`, by exactly its own octets, or answers `None` where the file ends behind its
    /// last entry. `source` is the one that [`start`](JournalReader::start) had.
    ///
    /// # Errors
    /// The source failed; the file has a fault there, which is its first; or want of memory. At a failed source, and at
    /// want of memory, octets may have been read that are lost. So nothing can be read after any of these.
    pub fn next<R: Source>(&mut self, source: &mut R) -> Result<Option<Entry>, Fault>
        ensures ok { IfOk result (λ found. MatchOption found
            (EndsFile self.old (R.remaining source.old) (R.remaining source.new) self.new) (λ entry.
            TakesEntry self.old (R.remaining source.old) (R.remaining source.new) entry self.new)) }
        ensures stays { OnOk result (R.has_failed source.new ≡ R.has_failed source.old) }
        ensures err { IfErr result (λ e.
            StopsReadingFile e (entry_step self.old) (R.remaining source.old) (R.remaining source.new)
            (R.has_failed source.old) (R.has_failed source.new)) }
    {
        self.held.clear();
        if self.left == 0 {
            if fill(source, 1, &mut self.piece, &mut self.held)? {
                return Err(Fault::BadEntry);
            }
            return Ok(None);
        }
        gather(source, &mut self.piece, &mut self.held)?;
        let entry = entry_in(self.alloc, self.count, self.octets, self.held.as_slice())?;
        self.left -= 1;
        self.count += 1;
        self.octets += entry.octets();
        Ok(Some(entry))
    }
}

ghost use Rattle.std.specs.Prelude.{◌≤◌};
ghost use Rattle.event_journal.specs.declared.limits.TheConstants.{MOST_ENTRIES, MOST_OCTETS};
ghost use Rattle.journal_files.specs.Reading.{is_past};
ghost use Rattle.journal_files.specs.Streaming.{IsEntryIn, FailsIn};

/// The entry at the front of `held`, which stands behind `count` entries of `octets` octets. Its parts are copied to
/// memory from `alloc`.
///
/// # Errors
/// `BadEntry` or `Truncated` where there is none, `BadEntry` where it is past the greatest limits of a journal; or want
/// of memory.
fn entry_in(alloc: Global, count: u64, octets: u64, held: &[u8]) -> Result<Entry, Fault>
    requires few { count ≤ MOST_ENTRIES }
    requires small { octets ≤ MOST_OCTETS }
    ensures ok { IfOk result (λ entry. IsEntryIn count octets held.now entry) }
    ensures err { IfErr result (λ fault. FailsIn fault count octets held.now) }
{
    let (entry, _) = read_entry(alloc, held)?;
    if is_past(count, octets, &entry) {
        return Err(Fault::BadEntry);
    }
    Ok(entry)
}

/// Whether `entry` is past the greatest limits of a journal, where it stands behind `count` entries of `octets` octets.
fn is_past(count: u64, octets: u64, entry: &Entry) -> bool
    requires few { count ≤ MOST_ENTRIES }
    requires small { octets ≤ MOST_OCTETS }
    ensures { result ≡ is_past count octets entry.now }
{
    count + 1 > MOST_ENTRIES || octets + entry.octets() > MOST_OCTETS
}
