//! Reads the history of a journal's file, entry by entry, and verifies it.
ghost use Rattle.std.specs.Prelude.{◌≡◌, List, ℕ, Option, IfOk, IfErr, OnOk};
ghost use Rattle.event_journal.specs.declared.entry.Entry.{Entry as OneEntry};
ghost use Rattle.history_verify.specs.Answers.{NamesFirstOfAny};
ghost use Rattle.ipmd_commands.specs.Status.{read_fault_of};
ghost use Rattle.ipmd_verify.specs.Found.{IsFoundIn, RefusesFile, SaysOn};
ghost use Rattle.ipmd_verify.specs.Reading.{IsReadTo};
ghost use Rattle.ipmd_verify.specs.Faults.{verify_fault_of};

use crate::progress::Progress;
use event_journal::Entry;
use history_verify::{Fault as VerifyFault, Verified, Verifier};
use ipmd_commands::Fault as ProgramFault;
use journal_files::{Fault, JournalReader};
use octet_io::Source;
use std::alloc::Global;

/// Reads a journal's file, and verifies its history as it comes. The audit's entries are kept where they are wanted; else memory
/// doesn't grow with the file.
///
/// # Errors
/// In this order: `Device` where the source fails, and `Journal`, the file's first fault; `History`, the first entry that may
/// not stand where it does; `OutOfMemory`.
pub(crate) fn read_history<S: Source, P: Progress>(
    alloc: Global,
    audit: bool,
    source: &mut S,
    progress: &mut P,
) -> Result<Verified, ProgramFault>
    ensures ok { IfOk result (IsFoundIn audit (S.remaining source.old)) }
    ensures err { IfErr result (λ e. RefusesFile e (S.remaining source.old)) }
{
    let mut reader = JournalReader::start(alloc, source)?;
    let all = reader.left();
    let mut verifier = Verifier::new(alloc, audit)?;
    'entries: loop {
        match reader.next(source)? {
            Some(entry) => match feed(&mut verifier, entry) {
                Ok(()) => {}
                Err(fault) => return Err(refusal(&mut reader, source, fault)),
            },
            None => break,
        }
        progress.tell(all.saturating_sub(reader.left()), all);
    }
    match verifier.finish() {
        Ok(verified) => Ok(verified),
        Err(fault) => Err(fault_of(fault)),
    }
}

/// Why a file is refused whose history a verifier has refused for `fault`: a fault of the file itself goes before. `reader` has
/// read the file up to the entry that was refused; it reads what is left of it from `source`.
pub fn refusal<S: Source>(
    reader: &mut JournalReader,
    source: &mut S,
    fault: VerifyFault,
) -> ProgramFault
    ensures { (given : Option (List ℕ)) (h : List OneEntry)
        → IsReadTo given (S.remaining source.old) reader.old h → NamesFirstOfAny fault h
        → RefusesFile result given }
{
    match fault {
        VerifyFault::OutOfMemory => ProgramFault::OutOfMemory,
        VerifyFault::BadHistory { position } => match read_rest(reader, source) {
            Ok(()) => ProgramFault::History(position),
            Err(why) => ProgramFault::from(why),
        },
    }
}

/// Reads the entries that are left.
fn read_rest<S: Source>(reader: &mut JournalReader, source: &mut S) -> Result<(), Fault>
    ensures ok { OnOk result ((given : Option (List ℕ)) (h : List OneEntry)
        → IsReadTo given (S.remaining source.old) reader.old h → SaysOn given h) }
    ensures err { IfErr result (λ e. (given : Option (List ℕ)) (h : List OneEntry)
        → IsReadTo given (S.remaining source.old) reader.old h
        → RefusesFile (read_fault_of e) given) }
{
    'entries: loop {
        match reader.next(source)? {
            Some(entry) => drop(entry),
            None => return Ok(()),
        }
    }
}

ghost use Rattle.std.specs.Prelude.{◌++◌, ◌∷◌, []};
ghost use Rattle.history_verify.specs.Standing.{IsFed, IsFedShort, keeps_audit};

/// Feeds a verifier the history's next entry, and lets that go.
///
/// # Errors
/// Those of `Verifier::feed`.
fn feed(verifier: &mut Verifier, entry: Entry) -> Result<(), VerifyFault>
    requires short { IsFedShort verifier.old }
    ensures ok { OnOk result ((h : List OneEntry) → IsFed verifier.old h
        → IsFed verifier.new (h ++ entry ∷ [])) }
    ensures err { IfErr result (λ e. (h : List OneEntry) → IsFed verifier.old h
        → NamesFirstOfAny e (h ++ entry ∷ [])) }
    ensures kept { keeps_audit verifier.new ≡ keeps_audit verifier.old }
{
    verifier.feed(&entry)
}

/// The program's name for a verifier's `fault`.
pub fn fault_of(fault: VerifyFault) -> ProgramFault
    ensures { result ≡ verify_fault_of fault }
{
    match fault {
        VerifyFault::BadHistory { position } => ProgramFault::History(position),
        VerifyFault::OutOfMemory => ProgramFault::OutOfMemory,
    }
}
