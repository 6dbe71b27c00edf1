//! Reads the history of a journal's file, entry by entry; verifies and explains it as it comes.
ghost use Rattle.std.specs.Prelude.{◌≡◌, ◌≤◌, List, length, string_bytes, IfOk, IfErr, OnOk};
ghost use Rattle.octet_io.specs.Device.{device_inner};
ghost use Rattle.event_journal.specs.declared.entry.Entry.{Entry as OneEntry};
ghost use Rattle.event_journal.specs.declared.limits.TheConstants.{MOST_ENTRIES};
ghost use Rattle.history_verify.specs.Answers.{NamesFirstOfAny};
ghost use Rattle.history_verify.specs.Legal.{IsLegal};
ghost use Rattle.history_verify.specs.Standing.{IsFed, IsFedShort};
ghost use Rattle.ipmd_explain.specs.Standing.{Tracks};
ghost use Rattle.ipmd_explain.specs.Answers.{Explains, StopsExplaining};
ghost use Rattle.ipmd_explain.specs.Reading.{IsLacking, IsTakenBy, NamesEnd};
ghost use Rattle.ipmd_explain.specs.Explaining.{absent_of};
ghost use Rattle.std.specs.Prelude.{None, ◌++◌, ◌∷◌, []};

use crate::explainer::Explainer;
use crate::question::Question;
use event_journal::Entry;
use history_verify::{Fault as VerifyFault, Verifier};
use ipmd_commands::{Fault as ProgramFault, put_text};
use ipmd_verify::{Progress, fault_of, refusal};
use journal_files::JournalReader;
use octet_io::{Device, Source};
use std::alloc::Global;
use std::io::Write;

/// Reads a journal's file, verifies its history as it comes, and writes what explains it.
///
/// # Errors
/// In this order: `Device`, which isn't known, where the source fails, and `Journal`, the file's first fault; `History`, the first
/// entry that may not stand where it does; `Absent`, what was asked for and isn't there. Beside these `Device`, of the output,
/// where that fails, and `OutOfMemory`. A front of what was due may have been written at each.
pub(crate) fn explain_source<S: Source, O: Write, P: Progress>(
    alloc: Global,
    question: Question,
    source: &mut S,
    output: &mut Device<O>,
    progress: &mut P,
) -> Result<(), ProgramFault>
    ensures ok { OnOk result (Explains question (S.remaining source.old)
        (O.contents (device_inner output.old)) (O.contents (device_inner output.new))) }
    ensures err { IfErr result (λ e. StopsExplaining question e (S.remaining source.old)
        (O.contents (device_inner output.old)) (O.contents (device_inner output.new))) }
{
    let mut reader = JournalReader::start(alloc, source)?;
    let all = reader.left();
    let mut verifier = Verifier::new(alloc, false)?;
    let mut explainer = Explainer::new(alloc, question)?;
    'entries: loop {
        match reader.next(source)? {
            Some(entry) => match take(&mut verifier, &mut explainer, entry) {
                Ok(text) => put_text(output, text.as_str())?,
                Err(fault) => return Err(refusal(&mut reader, source, fault)),
            },
            None => break,
        }
        progress.tell(all.saturating_sub(reader.left()), all);
    }
    end(verifier, &explainer)
}

/// What a whole history is refused for.
///
/// # Errors
/// `History` where it ends in cuts, which nothing bears out; `Absent`, what was asked for and isn't there; `OutOfMemory`.
fn end(verifier: Verifier, explainer: &Explainer) -> Result<(), ProgramFault>
    requires short { IsFedShort verifier }
    ensures legal { OnOk result ((h : List OneEntry) → IsFed verifier h → IsLegal h) }
    ensures there { OnOk result ((h : List OneEntry) → Tracks explainer.now h
        → absent_of explainer.now.question h ≡ None) }
    ensures err { IfErr result (λ e. (h : List OneEntry) → IsFed verifier h → Tracks explainer.now h
        → NamesEnd explainer.now.question e h) }
{
    match verifier.finish() {
        Ok(_verified) => see_asked(explainer),
        Err(fault) => Err(fault_of(fault)),
    }
}

/// Nothing where all is there that was asked for.
///
/// # Errors
/// `Absent`, what isn't.
fn see_asked(explainer: &Explainer) -> Result<(), ProgramFault>
    ensures there { OnOk result ((h : List OneEntry) → Tracks explainer.now h
        → absent_of explainer.now.question h ≡ None) }
    ensures err { IfErr result (λ e. (h : List OneEntry) → Tracks explainer.now h
        → IsLacking explainer.now.question e h) }
{
    match explainer.absent() {
        Some(absent) => Err(ProgramFault::Absent(absent)),
        None => Ok(()),
    }
}

/// Takes the history's next entry, and answers what is said of it.
///
/// # Errors
/// Those of `Verifier::feed`.
fn take(
    verifier: &mut Verifier,
    explainer: &mut Explainer,
    entry: Entry,
) -> Result<String, VerifyFault>
    requires short { IsFedShort verifier.old }
    ensures ok { IfOk result (λ text. (h : List OneEntry) → IsFed verifier.old h
        → Tracks explainer.old h → length h ≤ MOST_ENTRIES
        → IsTakenBy verifier.new explainer.old explainer.new h entry (string_bytes text)) }
    ensures err { IfErr result (λ e. (h : List OneEntry) → IsFed verifier.old h
        → NamesFirstOfAny e (h ++ entry ∷ [])) }
{
    verifier.feed(&entry)?;
    Ok(explainer.take(&entry)?)
}
