//! Writing a journal file to a sink, entry by entry.
ghost use Rattle.std.specs.Prelude.{◌≡◌, ◌+◌, ◌<◌, OnOk, OnErr, IfOk, IfErr};
ghost use Rattle.std.specs.Io.KnownBytes.{Appends};
ghost use Rattle.event_journal.specs.Spelled.{IsSpelled};
ghost use Rattle.journal_files.specs.Faults.{IsWritingFault};
ghost use Rattle.journal_files.specs.Format.{head_octets, octets_of, file_octets};
ghost use Rattle.journal_files.specs.Writing.{Stops, WritesSome};

use crate::encoding::{put_entry, put_head};
use crate::fault::Fault;
use event_journal::{Entry, Journal};
use octet_io::{Sink, write_all};
use std::alloc::Global;
use std::marker::Model;

/// Writes a file to a sink, an entry at a time. It keeps room for the octets of one entry. Contracts see how many
/// entries are left to write.
#[derive(Drop)]
pub struct JournalWriter {
    left: u64,
    /// The octets of the entry that is being written.
    entry: Vec<u8>,
}

impl Model for JournalWriter {
    ghost use Rattle.std.specs.Prelude.{ℕ};

    ghost Value = { ℕ };

    ghost view = { λ w. w.left };
}

impl JournalWriter {
    /// Begins to write to `sink` a file that will have `entries` entries: writes its head, which has 14 octets. The
    /// writer takes memory from `alloc`.
    ///
    /// # Errors
    /// [`Fault::Write`] where the sink failed: a front of the head was written. [`Fault::OutOfMemory`] at
    /// want of memory: nothing was written.
    pub fn start<S: Sink>(alloc: Global, entries: u64, sink: &mut S) -> Result<JournalWriter, Fault>
        ensures ok { IfOk result (λ w. w ≡ entries) }
        ensures written { OnOk result (Appends (S.contents sink.old) (S.contents sink.new)
            (head_octets entries)) }
        ensures stays { OnOk result (S.has_failed sink.new ≡ S.has_failed sink.old) }
        ensures err { IfErr result (λ e. Stops e (S.contents sink.old) (S.contents sink.new)
            (head_octets entries) (S.has_failed sink.old) (S.has_failed sink.new)) }
    {
        let mut entry = Vec::new(alloc);
        put_head(entries, &mut entry)?;
        send(entry.as_slice(), sink)?;
        Ok(JournalWriter {
            left: entries,
            entry,
        })
    }

    /// How many entries are left to write, of those that the head announced.
    pub fn left(&self) -> u64
        ensures { result ≡ self.now }
    {
        self.left
    }

    /// Writes `entry` to `sink`, behind what was written. The caller has seen to it that an entry is left to write and
    /// that a journal file can spell this one; `sink` is the one that [`start`](JournalWriter::start) had.
    ///
    /// # Errors
    /// [`Fault::Write`] where the sink failed: a front of the entry was written, and the file is broken.
    /// [`Fault::OutOfMemory`] at want of memory: nothing was written, and the entry may be written again. In both
    /// cases as many entries are left as before.
    pub fn put<S: Sink>(&mut self, entry: &Entry, sink: &mut S) -> Result<(), Fault>
        requires left { 0 < self.old }
        requires spelled { IsSpelled entry.now }
        // One entry less is left to write, or as many as before.
        ensures left { OnOk result (self.new + 1 ≡ self.old) }
        ensures unchanged { OnErr result (self.new ≡ self.old) }
        // The octets of the entry are written, or it is told how many of them are.
        ensures written { OnOk result (Appends (S.contents sink.old) (S.contents sink.new)
            (octets_of entry.now)) }
        ensures stays { OnOk result (S.has_failed sink.new ≡ S.has_failed sink.old) }
        ensures err { IfErr result (λ e. Stops e (S.contents sink.old) (S.contents sink.new)
            (octets_of entry.now) (S.has_failed sink.old) (S.has_failed sink.new)) }
    {
        self.entry.clear();
        put_entry(entry, &mut self.entry)?;
        send(self.entry.as_slice(), sink)?;
        self.left -= 1;
        Ok(())
    }
}

/// Writes the file of `journal` to `sink`, an entry at a time. It takes memory from `alloc` for the octets of one
/// entry.
///
/// # Errors
/// [`Fault::Write`] where the sink failed, or [`Fault::OutOfMemory`] at want of memory. In both cases a front
/// of the file was written; `sent` counts the octets of the head or entry at which it stopped, and not of the file.
pub fn write_journal<S: Sink>(alloc: Global, journal: &Journal, sink: &mut S) -> Result<(), Fault>
    ensures written { OnOk result (Appends (S.contents sink.old) (S.contents sink.new)
        (file_octets journal.now.entries)) }
    ensures stays { OnOk result (S.has_failed sink.new ≡ S.has_failed sink.old) }
    ensures err { OnErr result (WritesSome (S.contents sink.old) (S.contents sink.new)
        (file_octets journal.now.entries)) }
    ensures fault { IfErr result IsWritingFault }
{
    let mut writer = JournalWriter::start(alloc, journal.len(), sink)?;
    let mut position = 0;
    'entries: while let Some(entry) = journal.get(position) {
        writer.put(entry, sink)?;
        position += 1;
    }
    Ok(())
}

/// Writes all of `octets` to `sink`.
///
/// # Errors
/// The sink failed, and a front of the octets was written.
fn send<S: Sink>(octets: &[u8], sink: &mut S) -> Result<(), Fault>
    ensures written { OnOk result (Appends (S.contents sink.old) (S.contents sink.new) octets.now) }
    ensures stays { OnOk result (S.has_failed sink.new ≡ S.has_failed sink.old) }
    ensures err { IfErr result (λ e. Stops e (S.contents sink.old) (S.contents sink.new) octets.now
        (S.has_failed sink.old) (S.has_failed sink.new)) }
{
    match write_all(sink, octets) {
        Ok(()) => Ok(()),
        Err(stopped) => Err(Fault::Write { sent: stopped.sent }),
    }
}
