//! A verifier, which is fed entry by entry, so that a file is verified as it is read.
ghost use Rattle.std.specs.Prelude.{◌≡◌, ◌∷◌, ◌++◌, ◌+◌, ◌<◌, [], ℕ, List, length, Option, Some, None, IfSome, IfOk, IfErr, OnOk, OnErr};
ghost use Rattle.event_journal.specs.declared.entry.Entry.{Entry as OneEntry};
ghost use Rattle.event_journal.specs.declared.entry.Entry.TheVariants.{Message, Advance, Cut};
ghost use Rattle.history_verify.specs.declared.fault.Fault.TheVariants.{OutOfMemory};

use crate::fault::Fault;
use crate::replay::Replay;
use crate::verified::Verified;
use bytes::Bytes;
use event_journal::Entry;
use std::alloc::{AllocError, Global};

/// Verifies a history as it comes, entry by entry. It keeps what the history means so far, the count of what was
/// disclosed to each subscription and the audit's entries where they are wanted, but none of the history's. Contracts
/// say by `IsFed` of which histories.
///
/// A cut is named at its own position where what follows doesn't bear it out. So it waits for the first entry behind it
/// that is no cut.
#[derive(Drop)]
pub struct Verifier {
    replay: Replay,
    /// How many cuts stand behind those that wait in `replay`, of which the first may not stand there. It is the bad one, if those
    /// before it are borne out.
    behind: u64,
}

impl Verifier {
    ghost use Rattle.history_verify.specs.Answers.{IsVerified, NamesFirst, NamesFirstOfAny};
    ghost use Rattle.history_verify.specs.Standing.{keeps_audit};
    ghost use Rattle.history_verify.specs.Standing.{IsFed, IsFedShort, NamesWaiting, NamesUnborne};

    /// A verifier before any entry, in memory from `alloc`. The audit's entries are kept where `audit` says so; else
    /// memory doesn't grow with them.
    ///
    /// # Errors
    /// Want of memory.
    pub fn new(alloc: Global, audit: bool) -> Result<Verifier, AllocError>
        ensures fed { IfOk result (λ v. IsFed v []) }
        ensures wanted { IfOk result (λ v. keeps_audit v ≡ audit) }
    {
        Ok(Verifier {
            replay: Replay::new(alloc, audit)?,
            behind: 0,
        })
    }

    /// How many entries it was fed.
    pub fn fed(&self) -> u64
        requires short { IsFedShort self.now }
        ensures { (h : List OneEntry) → IsFed self.now h → result ≡ length h }
    {
        self.replay.position() + self.behind
    }

    /// Takes `entry` as the next one of the history.
    ///
    /// # Errors
    /// [`Fault::BadHistory`] with the position of the first entry that may not stand where it does: this one, or
    /// a cut that waits; or [`Fault::OutOfMemory`]. Nothing has changed then.
    pub fn feed(&mut self, entry: &Entry) -> Result<(), Fault>
        requires short { IsFedShort self.old }
        // The entry is taken, or it is told which entry may not stand where it does.
        ensures ok { OnOk result ((h : List OneEntry) → IsFed self.old h
            → IsFed self.new (h ++ entry.now ∷ [])) }
        ensures err { IfErr result (λ e. (h : List OneEntry) → IsFed self.old h
            → NamesFirstOfAny e (h ++ entry.now ∷ [])) }
        // A refused entry changes nothing. Whether the audit is kept stays in any case.
        ensures unchanged { OnErr result ((h : List OneEntry) → IsFed self.old h
            → IsFed self.new h) }
        ensures wanted { keeps_audit self.new ≡ keeps_audit self.old }
    {
        match entry {
            Entry::Cut { sub } => self.cut(*sub),
            Entry::Message {
                session,
                number,
                octets,
            } => self.message(*session, *number, octets),
            Entry::Advance { t } => self.advance(*t),
            Entry::Open { session } => {
                self.none_wait()?;
                self.replay.open(*session)
            }
            Entry::Close { session } => {
                self.none_wait()?;
                self.replay.close(*session)
            }
            Entry::Edit { text } => {
                self.none_wait()?;
                self.replay.edit(text.as_str())
            }
            Entry::Subscribe { sub, name } => {
                self.none_wait()?;
                self.replay.subscribe(*sub, name)
            }
            Entry::Unsubscribe { sub } => {
                self.none_wait()?;
                self.replay.unsubscribe(*sub)
            }
        }
    }

    /// Ends the history, and answers what it disclosed, and what its audit names, where that is wanted.
    ///
    /// # Errors
    /// [`Fault::BadHistory`] with the position of the first cut that waits, where the history ends in cuts:
    /// nothing bears it out.
    pub fn finish(self) -> Result<Verified, Fault>
        requires short { IsFedShort self }
        ensures ok { IfOk result (λ v. (h : List OneEntry) → IsFed self h
            → IsVerified (keeps_audit self) h v) }
        ensures err { IfErr result (λ e. (h : List OneEntry) → IsFed self h → NamesFirst e h) }
    {
        self.none_wait()?;
        let Verifier { replay, behind: _ } = self;
        Ok(replay.into_verified())
    }

    /// Looks whether no cut waits, for an entry that bears out none.
    ///
    /// # Errors
    /// `BadHistory` with the position of the first cut that waits.
    fn none_wait(&self) -> Result<(), Fault>
        requires short { IsFedShort self.now }
        ensures waiting { OnOk result (self.now.replay.waiting.items ≡ []) }
        ensures behind { OnOk result (self.now.behind ≡ 0) }
        ensures err { IfErr result (λ e. NamesWaiting e self.now) }
    {
        if self.replay.waiting() > 0 || self.behind > 0 {
            return Err(Fault::BadHistory {
                position: self.replay.first_waiting(),
            });
        }
        Ok(())
    }

    /// Takes a cut of the subscription with the number `sub` as the next entry.
    ///
    /// # Errors
    /// Want of memory, and then nothing has changed.
    fn cut(&mut self, sub: u64) -> Result<(), Fault>
        requires short { IsFedShort self.old }
        // The cut is taken, and waits for what bears it out.
        ensures ok { OnOk result ((h : List OneEntry) → IsFed self.old h
            → IsFed self.new (h ++ Cut sub ∷ [])) }
        ensures err { IfErr result (λ e. e ≡ OutOfMemory) }
        // Want of memory changes nothing. Whether the audit is kept stays in any case.
        ensures unchanged { OnErr result ((h : List OneEntry) → IsFed self.old h
            → IsFed self.new h) }
        ensures wanted { keeps_audit self.new ≡ keeps_audit self.old }
    {
        if self.behind > 0 || !self.replay.may_cut(sub) {
            self.behind += 1;
            return Ok(());
        }
        self.replay.cut(sub)?;
        Ok(())
    }

    /// Takes the message `octets` of the session with the number `session`, which is to have had `number` messages, as
    /// the next entry.
    ///
    /// # Errors
    /// `BadHistory` with the position of the first entry that may not stand where it does; or want of memory. Nothing
    /// has changed then.
    fn message(&mut self, session: u64, number: u64, octets: &Bytes) -> Result<(), Fault>
        requires short { IsFedShort self.old }
        // The entry is taken, or it is told which entry may not stand where it does.
        ensures ok { OnOk result ((h : List OneEntry) → IsFed self.old h
            → IsFed self.new (h ++ Message session number octets.now ∷ [])) }
        ensures err { IfErr result (λ e. (h : List OneEntry) → IsFed self.old h
            → NamesFirstOfAny e (h ++ Message session number octets.now ∷ [])) }
        // A refused entry changes nothing. Whether the audit is kept stays in any case.
        ensures unchanged { OnErr result ((h : List OneEntry) → IsFed self.old h
            → IsFed self.new h) }
        ensures wanted { keeps_audit self.new ≡ keeps_audit self.old }
    {
        let reading = self.replay.read(session, number, octets)?;
        let unborne = self.replay.unborne_by(&reading)?;
        self.borne_out(unborne)?;
        let judged = self.replay.judge(&reading)?;
        self.replay.message(session, reading, judged)?;
        Ok(())
    }

    /// Takes an advance of the clock to `t` as the next entry.
    ///
    /// # Errors
    /// `BadHistory` with the position of the first entry that may not stand where it does; or want of memory. Nothing
    /// has changed then.
    fn advance(&mut self, t: u64) -> Result<(), Fault>
        requires short { IsFedShort self.old }
        // The entry is taken, or it is told which entry may not stand where it does.
        ensures ok { OnOk result ((h : List OneEntry) → IsFed self.old h
            → IsFed self.new (h ++ Advance t ∷ [])) }
        ensures err { IfErr result (λ e. (h : List OneEntry) → IsFed self.old h
            → NamesFirstOfAny e (h ++ Advance t ∷ [])) }
        // A refused entry changes nothing. Whether the audit is kept stays in any case.
        ensures unchanged { OnErr result ((h : List OneEntry) → IsFed self.old h
            → IsFed self.new h) }
        ensures wanted { keeps_audit self.new ≡ keeps_audit self.old }
    {
        if !self.replay.may_advance(t) {
            return Err(self.replay.bad());
        }
        let unborne = self.replay.unborne_at(t)?;
        self.borne_out(unborne)?;
        self.replay.advance(t)?;
        Ok(())
    }

    /// Looks whether each cut that waits is borne out, and may stand where it does. `unborne` is the place among them
    /// of the first that is not borne out, if there is one.
    ///
    /// # Errors
    /// `BadHistory` with the position of that one, or of the cut behind those that wait which may not stand where it
    /// does.
    fn borne_out(&self, unborne: Option<usize>) -> Result<(), Fault>
        requires short { IsFedShort self.now }
        requires within { IfSome unborne (λ place. place < length self.now.replay.waiting.items) }
        // Answered Ok, all cuts that wait are borne out, and none stands behind them that may not.
        ensures none { OnOk result (unborne ≡ None) }
        ensures behind { OnOk result (self.now.behind ≡ 0) }
        // Else the first bad one is named.
        ensures err { IfErr result (λ e. NamesUnborne e self.now unborne) }
    {
        match unborne {
            Some(place) => Err(Fault::BadHistory {
                position: self.replay.first_waiting() + place as u64,
            }),
            None => {
                if self.behind > 0 {
                    return Err(Fault::BadHistory {
                        position: self.replay.position(),
                    });
                }
                Ok(())
            }
        }
    }
}
