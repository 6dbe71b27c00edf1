//! What is kept of the entries of a history so far, and what each entry changes of it.
ghost use Rattle.std.specs.Prelude.{◌≡◌, ◌≢◌, ◌∷◌, ◌++◌, ◌+◌, ◌<◌, ◌≤◌, ◌↔◌, [], ℕ, List, length, map, true, ◌^◌, IsTrue, IfOk, IfErr, IfSome, IfNone, OnOk, OnErr};
ghost use Rattle.event_journal.specs.declared.entry.Entry.{Entry};
ghost use Rattle.event_journal.specs.declared.entry.Entry.TheVariants.{Open, Close, Message, Edit, Subscribe, Unsubscribe, Advance, Cut};
ghost use Rattle.history_verify.specs.Standing.{Repeats, StandsShort, IsSameReplay, HasTaken, TakesNext, RefusesEntry, RefusesNext, MayCut};

use crate::exporters::Exporters;
use crate::fault::Fault;
use crate::judged::{Judged, first_empty, stamped};
use crate::noted::Noted;
use crate::subscribers::Subscribers;
use crate::sums::Sums;
use crate::verified::Verified;
use bytes::Bytes;
use disclosure_audit::{AuditEntry, What};
use ipfix_session::{Fault as ReadError, Reading};
use mediator_shares::{InForce, Shares};
use policy_text::{FaultKind, Name, Policy};
use std::alloc::{AllocError, Global};

/// What is kept of a history: what decides of its next entry, and what it disclosed. Contracts say by `Repeats` of which
/// histories it is.
///
/// Behind the last entry that is no cut stand the cuts that wait: each is to be borne out by the next entry that is no
/// cut, which would have given its subscription something. All of a waiting cut is done already, but that the groups of
/// its subscription are kept.
#[derive(Drop)]
pub(crate) struct Replay {
    alloc: Global,
    /// How many entries there were.
    position: u64,
    /// The policy in force, and the time of the clock.
    in_force: InForce,
    exporters: Exporters,
    subscribers: Subscribers,
    sums: Sums,
    audit: Noted,
    /// The numbers of the subscriptions whose cuts wait.
    waiting: Vec<u64>,
}

impl Replay {
    /// What is kept before any entry, in memory from `alloc`. The audit's entries are kept where `audit` says so.
    ///
    /// # Errors
    /// Want of memory.
    pub(crate) fn new(alloc: Global, audit: bool) -> Result<Replay, AllocError>
        ensures stands { IfOk result (λ r. Repeats r []) }
        ensures wanted { IfOk result (λ r. r.audit.wanted ≡ audit) }
    {
        Ok(Replay {
            alloc,
            position: 0,
            in_force: InForce::nothing(alloc)?,
            exporters: Exporters::new(alloc),
            subscribers: Subscribers::new(alloc),
            sums: Sums::new(alloc),
            audit: Noted::new(alloc, audit),
            waiting: Vec::new(alloc),
        })
    }

    /// How many entries there were: the position of the next one.
    pub(crate) fn position(&self) -> u64
        ensures { result ≡ self.now.position }
    {
        self.position
    }

    /// How many cuts wait.
    pub(crate) fn waiting(&self) -> u64
        ensures { result ≡ length self.now.waiting.items }
    {
        self.waiting.len() as u64
    }

    /// The position of the first cut that waits, or that of the next entry where none does.
    pub(crate) fn first_waiting(&self) -> u64
        requires short { StandsShort self.now }
        ensures { result + length self.now.waiting.items ≡ self.now.position }
    {
        self.position - self.waiting()
    }

    /// The fault where the next entry is no cut, and none that may stand there: the first cut that waits isn't borne
    /// out by it, and where none waits it is itself the first bad one.
    pub(crate) fn bad(&self) -> Fault
        requires short { StandsShort self.now }
        ensures { (entry : Entry) (h : List Entry) → Repeats self.now h → (IsAccepted h entry → ⊥)
            → RefusesEntry result self.now h entry }
    {
        Fault::BadHistory {
            position: self.first_waiting(),
        }
    }

    /// Takes the beginning of the session with the number `session`, where no cut waits.
    ///
    /// # Errors
    /// `BadHistory` where that isn't the number of the next session; or want of memory. Nothing has changed then.
    pub(crate) fn open(&mut self, session: u64) -> Result<(), Fault>
        requires short { StandsShort self.old }
        // The entry is taken, or it is told which entry may not stand where it does.
        ensures ok { OnOk result (TakesNext self.old (Open session) self.new) }
        ensures err { IfErr result (λ e. RefusesNext e self.old (Open session)) }
        // A refused entry changes nothing. Whether the audit is kept stays in any case.
        ensures unchanged { OnErr result (IsSameReplay self.old self.new) }
        ensures wanted { self.new.audit.wanted ≡ self.old.audit.wanted }
    {
        if !self.exporters.is_next(session) {
            return Err(self.bad());
        }
        self.exporters.open(session)?;
        self.position += 1;
        Ok(())
    }

    /// Takes the end of the session with the number `session`, where no cut waits.
    ///
    /// # Errors
    /// `BadHistory` where it isn't open. Nothing has changed then.
    pub(crate) fn close(&mut self, session: u64) -> Result<(), Fault>
        requires short { StandsShort self.old }
        // The entry is taken, or it is told which entry may not stand where it does.
        ensures ok { OnOk result (TakesNext self.old (Close session) self.new) }
        ensures err { IfErr result (λ e. RefusesNext e self.old (Close session)) }
        // A refused entry changes nothing. Whether the audit is kept stays in any case.
        ensures unchanged { OnErr result (IsSameReplay self.old self.new) }
        ensures wanted { self.new.audit.wanted ≡ self.old.audit.wanted }
    {
        if !self.exporters.is_open(session) {
            return Err(self.bad());
        }
        self.exporters.close(session);
        self.position += 1;
        Ok(())
    }

    /// Takes the policy that `text` spells, which comes into force, where no cut waits.
    ///
    /// # Errors
    /// `BadHistory` where the text spells no policy; or want of memory. Nothing has changed then.
    pub(crate) fn edit(&mut self, text: &str) -> Result<(), Fault>
        requires short { StandsShort self.old }
        // The entry is taken, or it is told which entry may not stand where it does.
        ensures ok { OnOk result (TakesNext self.old (Edit text.now) self.new) }
        ensures err { IfErr result (λ e. RefusesNext e self.old (Edit text.now)) }
        // A refused entry changes nothing. Whether the audit is kept stays in any case.
        ensures unchanged { OnErr result (IsSameReplay self.old self.new) }
        ensures wanted { self.new.audit.wanted ≡ self.old.audit.wanted }
    {
        let policy = self.read_policy(text)?;
        self.in_force = InForce::since(self.alloc, policy, self.in_force.clock())?;
        self.position += 1;
        Ok(())
    }

    /// The policy that `text` spells.
    ///
    /// # Errors
    /// `BadHistory` where it spells none; or want of memory.
    fn read_policy(&self, text: &str) -> Result<Policy, Fault>
        requires short { StandsShort self.now }
        ensures ok { IfOk result (λ policy. policy_of text.now ≡ Ok policy) }
        ensures err { IfErr result (λ e. RefusesNext e self.now (Edit text.now)) }
    {
        match Policy::parse(self.alloc, text) {
            Ok(policy) => Ok(policy),
            Err(fault) => {
                if fault.kind == FaultKind::OutOfMemory {
                    return Err(Fault::OutOfMemory);
                }
                Err(self.bad())
            }
        }
    }

    /// Takes the beginning of the subscription with the number `sub`, for a subscriber of this `name`, where no cut
    /// waits.
    ///
    /// # Errors
    /// `BadHistory` where that isn't the number of the next subscription, or a live one has the name; or want of
    /// memory. Nothing has changed then.
    pub(crate) fn subscribe(&mut self, sub: u64, name: &Name) -> Result<(), Fault>
        requires short { StandsShort self.old }
        // The entry is taken, or it is told which entry may not stand where it does.
        ensures ok { OnOk result (TakesNext self.old (Subscribe sub name.now) self.new) }
        ensures err { IfErr result (λ e. RefusesNext e self.old (Subscribe sub name.now)) }
        // A refused entry changes nothing. Whether the audit is kept stays in any case.
        ensures unchanged { OnErr result (IsSameReplay self.old self.new) }
        ensures wanted { self.new.audit.wanted ≡ self.old.audit.wanted }
    {
        if !self.subscribers.is_next(sub) || self.subscribers.is_taken(name.as_str()) {
            return Err(self.bad());
        }
        self.subscribers.begin(sub, name)?;
        self.position += 1;
        Ok(())
    }

    /// Takes the end of the subscription with the number `sub`, where no cut waits.
    ///
    /// # Errors
    /// `BadHistory` where it isn't live. Nothing has changed then.
    pub(crate) fn unsubscribe(&mut self, sub: u64) -> Result<(), Fault>
        requires short { StandsShort self.old }
        // The entry is taken, or it is told which entry may not stand where it does.
        ensures ok { OnOk result (TakesNext self.old (Unsubscribe sub) self.new) }
        ensures err { IfErr result (λ e. RefusesNext e self.old (Unsubscribe sub)) }
        // A refused entry changes nothing. Whether the audit is kept stays in any case.
        ensures unchanged { OnErr result (IsSameReplay self.old self.new) }
        ensures wanted { self.new.audit.wanted ≡ self.old.audit.wanted }
    {
        if !self.subscribers.is_live(sub) {
            return Err(self.bad());
        }
        self.subscribers.end(sub);
        self.sums.remove_one(sub);
        self.position += 1;
        Ok(())
    }

    /// Whether a cut of the subscription with the number `sub` may stand next, if what follows bears it out: it is
    /// served, and its number is behind those of the cuts that wait.
    pub(crate) fn may_cut(&self, sub: u64) -> bool
        ensures { (h : List Entry) → Repeats self.now h → IsTrue result ↔ MayCut h sub }
    {
        let last = self.waiting.last().copied();
        last.unwrap_or(0) < sub && self.subscribers.is_served(sub)
    }

    /// Takes a cut of the subscription with the number `sub`, which then waits.
    ///
    /// # Errors
    /// Want of memory, and then nothing has changed.
    pub(crate) fn cut(&mut self, sub: u64) -> Result<(), AllocError>
        requires short { StandsShort self.old }
        ensures ok { OnOk result ((h : List Entry) → Repeats self.old h → MayCut h sub
            → Repeats self.new (h ++ Cut sub ∷ [])) }
        ensures unchanged { OnErr result (IsSameReplay self.old self.new) }
        ensures wanted { self.new.audit.wanted ≡ self.old.audit.wanted }
    {
        self.waiting.reserve(1)?;
        self.audit.reserve(1)?;
        self.waiting.push_reserved(sub);
        self.audit.push(AuditEntry {
            position: self.position,
            index: 0,
            sub,
            what: What::Cut,
        });
        self.subscribers.cut(sub);
        self.position += 1;
        Ok(())
    }

    /// What the history disclosed, and what its audit names, where no cut waits.
    pub(crate) fn into_verified(self) -> Verified
        ensures { (h : List Entry) → Repeats self h → self.waiting.items ≡ []
            → IsVerified self.audit.wanted h result }
    {
        let Replay {
            alloc: _,
            position: _,
            in_force: _,
            exporters: _,
            subscribers,
            sums: _,
            audit,
            waiting: _,
        } = self;
        Verified {
            subs: subscribers.into_counts(),
            audit: audit.into_entries(),
        }
    }
}

ghost use Rattle.std.specs.Prelude.{Ok};
ghost use Rattle.policy_text.specs.Parsing.{policy_of};
ghost use Rattle.history_verify.specs.Legal.{IsAccepted};
ghost use Rattle.history_verify.specs.Answers.{IsVerified};

impl Replay {
    ghost use Rattle.mediator_history.specs.Disclosed.{given_at};
    ghost use Rattle.ipfix_session.specs.ReadAhead.{IsReadingOf};
    ghost use Rattle.mediator_tables.specs.SubscriptionTable.{shown};
    ghost use Rattle.mediator_tables.specs.Adding.{tallied};
    ghost use Rattle.std.specs.List.{AllByRecursion};
    ghost use Rattle.history_verify.specs.Standing.{StandsOver, IsReadOf, IsFirstOr};
    ghost use Rattle.history_verify.specs.Sharing.{IsJudgedEntry};

    /// What is read of the message `octets`, as the next one of the session with the number `session`, which is to have
    /// had `number` messages.
    ///
    /// # Errors
    /// `BadHistory` where the session isn't open, or had another number of messages, or the octets are no message that
    /// it can have; or want of memory.
    pub(crate) fn read(&self, session: u64, number: u64, octets: &Bytes) -> Result<Reading, Fault>
        requires short { StandsShort self.now }
        ensures ok { IfOk result (λ reading. (h : List Entry) → Repeats self.now h
            → IsReadOf h session number octets.now reading) }
        ensures few { IfOk result (λ reading. length reading.meaning.records ≤ 2 ^ 32) }
        ensures err { IfErr result (λ e.
            RefusesNext e self.now (Message session number octets.now)) }
    {
        let Some(open) = self.exporters.in_turn(session, number) else {
            return Err(self.bad());
        };
        octets_for_proof(octets);
        match open.session.read(octets) {
            Ok(reading) => Ok(reading),
            Err(ReadError::OutOfMemory) => Err(Fault::OutOfMemory),
            Err(ReadError::Malformed(_)) => Err(self.bad()),
            Err(ReadError::RecordOverrun) => Err(self.bad()),
        }
    }

    /// The place among the cuts that wait of the first one to whose subscription the message of which `reading` was
    /// read would give nothing, were it not cut; or `None` where the message bears out all of them.
    ///
    /// # Errors
    /// Want of memory.
    pub(crate) fn unborne_by(&mut self, reading: &Reading) -> Result<Option<usize>, AllocError>
        requires short { StandsShort self.old }
        requires few { length reading.now.meaning.records ≤ 2 ^ 32 }
        // Nothing changes.
        ensures unchanged { self.new ≡ self.old }
        // The place is that of the first such cut, by the definitions.
        ensures within { IfOk result (λ place. IfSome place
            (λ n. n < length self.old.waiting.items)) }
        ensures first { IfOk result (λ place.
            (settled h : List Entry) (session number : ℕ) (octets : List ℕ)
            → StandsOver self.old settled h → IsReadOf h session number octets reading.now
            → IsFirstOr (λ sub. given_at sub settled (Message session number octets))
            self.old.waiting.items place) }
    {
        let (domain, records) = (reading.header().domain, reading.records());
        let cut = self.subscribers.those(&self.waiting)?;
        let shares = Shares::of_records(self.alloc, &mut self.in_force, domain, records, &cut, 0)?;
        Ok(first_empty(&shares.shares))
    }

    /// What the message of which `reading` was read gives to those that are served, what counts for them, and what the
    /// audit names, where that is wanted.
    ///
    /// # Errors
    /// Want of memory.
    pub(crate) fn judge(&mut self, reading: &Reading) -> Result<Judged, AllocError>
        requires few { length reading.now.meaning.records ≤ 2 ^ 32 }
        ensures unchanged { self.new ≡ self.old }
        ensures judged { IfOk result (λ j. (h : List Entry) (session number : ℕ) (octets : List ℕ)
            → Repeats self.old h → IsReadOf h session number octets reading.now
            → IsJudgedEntry self.new.audit.wanted h (Message session number octets) j) }
    {
        let (domain, records) = (reading.header().domain, reading.records());
        let served = self.subscribers.served_if(!records.is_empty())?;
        let most = self.audit.most();
        let in_force = &mut self.in_force;
        let shares = Shares::of_records(self.alloc, in_force, domain, records, &served, most)?;
        let notes = shares.notes.into_kept(self.alloc)?;
        Ok(Judged {
            shares: shares.shares,
            tallies: shares.tallies,
            entries: stamped(self.alloc, notes, self.position)?,
        })
    }

    /// Takes the message of the session with the number `session` of which `reading` was read and that was `judged`. It
    /// bears out the cuts that wait.
    ///
    /// # Errors
    /// Want of memory, and then nothing has changed.
    pub(crate) fn message(
        &mut self,
        session: u64,
        reading: Reading,
        judged: Judged,
    ) -> Result<(), AllocError>
        requires short { StandsShort self.old }
        requires few { length reading.meaning.records ≤ 2 ^ 32 }
        requires planned { (settled h : List Entry) × (number : ℕ) × (octets : List ℕ)
            × StandsOver self.old settled h × IsReadOf h session number octets reading
            × IsJudgedEntry self.old.audit.wanted h (Message session number octets) judged }
        // The entry is taken, where it bears out the cuts that wait.
        ensures ok { OnOk result ((settled h : List Entry) (number : ℕ) (octets : List ℕ)
            → StandsOver self.old settled h → IsReadOf h session number octets reading
            → AllByRecursion (λ sub. given_at sub settled (Message session number octets) ≢ [])
            self.old.waiting.items
            → IsJudgedEntry self.old.audit.wanted h (Message session number octets) judged
            → HasTaken self.new h (Message session number octets)) }
        // Want of memory changes nothing. Whether the audit is kept stays in any case.
        ensures unchanged { OnErr result (IsSameReplay self.old self.new) }
        ensures wanted { self.new.audit.wanted ≡ self.old.audit.wanted }
    {
        let Judged {
            shares,
            tallies,
            entries,
        } = judged;
        self.audit.reserve(entries.len())?;
        self.exporters.make_room(session, &reading)?;
        let reserved = self.sums.reserve(&tallies)?;
        self.exporters.keep(session, reading);
        self.subscribers.give(&shares);
        self.sums.remove(&self.waiting);
        self.waiting.clear();
        self.position += 1;
        self.sums.add(reserved);
        self.audit.append(entries);
        Ok(())
    }
}

impl Replay {
    ghost use Rattle.mediator_history.specs.Disclosed.{given_at};
    ghost use Rattle.std.specs.List.{AllByRecursion};
    ghost use Rattle.history_verify.specs.Standing.{StandsOver, IsFirstOr};

    /// Whether the clock may be moved to `t`, in milliseconds since 1970: it isn't later already.
    pub(crate) fn may_advance(&self, t: u64) -> bool
        ensures { (h : List Entry) → Repeats self.now h → IsTrue result ↔ IsAccepted h (Advance t) }
    {
        self.in_force.clock() <= t
    }

    /// The place among the cuts that wait of the first one to whose subscription an advance of the clock to `t` would
    /// give nothing, were it not cut; or `None` where the advance bears out all of them.
    ///
    /// # Errors
    /// Want of memory.
    pub(crate) fn unborne_at(&self, t: u64) -> Result<Option<usize>, AllocError>
        ensures within { IfOk result (λ place. IfSome place
            (λ n. n < length self.now.waiting.items)) }
        ensures first { IfOk result (λ place.
            (settled h : List Entry) → StandsOver self.now settled h
            → IsFirstOr (λ sub. given_at sub settled (Advance t)) self.now.waiting.items place) }
    {
        'waiting: for (place, sub) in self.waiting.iter().enumerate() {
            let share = self.sums.closing_of(*sub, t)?;
            if share.given.is_empty() {
                return Ok(Some(place));
            }
        }
        Ok(None)
    }

    /// Takes an advance of the clock to `t`, in milliseconds since 1970, which is not before the time of the clock. It
    /// bears out the cuts that wait.
    ///
    /// # Errors
    /// Want of memory, and then nothing has changed.
    pub(crate) fn advance(&mut self, t: u64) -> Result<(), AllocError>
        requires short { StandsShort self.old }
        requires accepted { (h : List Entry) → Repeats self.old h → IsAccepted h (Advance t) }
        // The entry is taken, where it bears out the cuts that wait.
        ensures ok { OnOk result ((settled h : List Entry) → StandsOver self.old settled h
            → IsAccepted h (Advance t)
            → AllByRecursion (λ sub. given_at sub settled (Advance t) ≢ []) self.old.waiting.items
            → HasTaken self.new h (Advance t)) }
        // Want of memory changes nothing. Whether the audit is kept stays in any case.
        ensures unchanged { OnErr result (IsSameReplay self.old self.new) }
        ensures wanted { self.new.audit.wanted ≡ self.old.audit.wanted }
    {
        let shares = self.sums.closing(t)?;
        self.subscribers.give_served(&shares);
        self.sums.remove(&self.waiting);
        self.waiting.clear();
        self.position += 1;
        self.sums.close(t);
        self.in_force.advance(t);
        Ok(())
    }
}

ghost use Rattle.sequences.specs.Octets.{AreOctets};

/// Tells proofs that the octets of `message` are less than 256, by their type. It does nothing.
fn octets_for_proof(message: &[u8])
    ensures { AreOctets message.now }
{}
