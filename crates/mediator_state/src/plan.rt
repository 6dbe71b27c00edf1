//! What a message would do, found out before anything is changed.
ghost use Rattle.std.specs.Prelude.{◌≡◌, ◌≤◌, ◌<◌, ◌+◌, ◌^◌, ◌++◌, ◌∷◌, [], ℕ, List, length, map, not, true, filter, IfOk, IfErr, IfSome, OnOk};
ghost use Rattle.sequences.specs.Octets.{AreOctets};
ghost use Rattle.ipfix_session.specs.Meaning.{domain_of};
ghost use Rattle.mediator_shares.specs.InForce.{InForce as Force};
ghost use Rattle.ipfix_template.specs.DataRecord.{DataRecord};
ghost use Rattle.event_journal.specs.declared.limits.TheConstants.{MOST_ENTRIES};
ghost use Rattle.event_journal.specs.declared.entry.Entry.{Entry};
ghost use Rattle.mediator_tables.specs.SubscriptionTable.{shown};
ghost use Rattle.mediator_tables.specs.Adding.{tallied};
ghost use Rattle.mediator_shares.specs.Sharing.{shares_of, tallies_of, notes_of};
ghost use Rattle.disclosure_audit.specs.Noting.{kept_notes};
ghost use Rattle.mediator_shares.specs.Judgements.{IsJudgementOf};
ghost use Rattle.std.specs.List.{AllByRecursion};
ghost use Rattle.mediator_state.specs.Planning.{AreStreamed};

use crate::engine::Engine;
use crate::fault::Fault;
use bytes::Bytes;
use disclosure_audit::{AuditQueue, Notes};
use ipfix_records::Records;
use ipfix_session::Reading;
use mediator_shares::{InForce, Judgement, Shares};
use mediator_tables::{OpenSession, Served, SessionId, Share, Subscriptions, Tally};
use prepared_message::Prepared;
use std::alloc::{AllocError, Global};
use stream_meaning::records_for_proof;

/// What a message would do.
#[derive(Drop)]
pub(crate) struct MessagePlan {
    /// The number of its session.
    pub(crate) session: SessionId,
    /// What it means, and what it changes of its session.
    pub(crate) reading: Reading,
    /// The numbers of the subscriptions that it cuts, ascending.
    pub(crate) cuts: Vec<u64>,
    /// What it gives to those that are still served then.
    pub(crate) shares: Vec<Share>,
    /// What it adds to their aggregates.
    pub(crate) tallies: Vec<Tally>,
    /// The position in the history that it would have, behind the cuts.
    pub(crate) position: u64,
    /// What the audit names of it, as much of it as the audit is to keep.
    pub(crate) notes: Notes,
}

impl<Q: AuditQueue + Drop> Engine<Q> {
    ghost use Rattle.mediator_state.specs.Standing.{Stands};
    ghost use Rattle.mediator_state.specs.Planning.{IsPlan, IsNextReading, RefusesMessage, RefusesPrepared, IsInTurn, RefusesTurn, IsJudgedFor};

    /// Reads `message` as the next one of the session with the number `session`, and keeps nothing of it. `number` is
    /// to be how many messages the session had.
    ///
    /// # Errors
    /// [`Fault::UnknownSession`], [`Fault::OutOfTurn`] or [`Fault::Malformed`], the first that stands; or
    /// [`Fault::OutOfMemory`].
    pub(crate) fn read(
        &self,
        session: SessionId,
        number: u64,
        message: &Bytes,
    ) -> Result<Reading, Fault>
        ensures ok { IfOk result (λ reading. (h : List Entry) → Stands self.now h
            → IsNextReading h session.0 number message.now reading) }
        ensures err { IfErr result (λ e. (h : List Entry) → Stands self.now h
            → RefusesMessage e h session.0 number message.now) }
    {
        let open = self.in_turn(session, number)?;
        Ok(open.session.read(message)?)
    }

    /// What is read of `prepared`, a message that was prepared elsewhere, as the next one of the session with the
    /// number `session`. `number` is to be how many messages the session had.
    ///
    /// # Errors
    /// [`Fault::UnknownSession`], [`Fault::OutOfTurn`], or [`Fault::Stale`] where it was prepared by other templates
    /// than the session's, the first that stands; or [`Fault::OutOfMemory`].
    pub(crate) fn read_prepared(
        &self,
        session: SessionId,
        number: u64,
        prepared: &Prepared,
    ) -> Result<Reading, Fault>
        ensures ok { IfOk result (λ reading. (h : List Entry) → Stands self.now h
            → IsNextReading h session.0 number prepared.now.message reading) }
        ensures domain { IfOk result (λ reading.
            reading.meaning.header.domain ≡ domain_of prepared.now.message) }
        ensures records { IfOk result (λ reading.
            reading.meaning.records ≡ prepared.now.contents.records) }
        ensures err { IfErr result (λ e. (h : List Entry) → Stands self.now h
            → RefusesPrepared e h session.0 number prepared.now) }
    {
        let open = self.in_turn(session, number)?;
        match prepared.reading_in(&open.session)? {
            Some(reading) => Ok(reading),
            None => Err(Fault::Stale),
        }
    }

    /// What a message of the session with the number `session` would do as the next entry behind a history of
    /// `position` entries, with the cuts before it. `reading` is what was read of it. `judgement`, what was judged of
    /// its records elsewhere, is taken where its terms still hold.
    ///
    /// # Errors
    /// Want of memory.
    pub(crate) fn plan(
        &mut self,
        position: u64,
        session: SessionId,
        reading: Reading,
        judgement: Option<Judgement>,
    ) -> Result<MessagePlan, AllocError>
        requires few { length reading.meaning.records ≤ 2 ^ 32 }
        requires short { position ≤ MOST_ENTRIES }
        requires judgement { IfSome judgement
            (IsJudgementOf reading.meaning.header.domain reading.meaning.records) }
        // What the message would do, by the definitions.
        ensures ok { IfOk result (λ p. (h : List Entry) (number : ℕ) (octets : List ℕ)
            → Stands self.old h → length h ≡ position
            → IsNextReading h session.0 number octets reading → IsPlan self.old h number octets p) }
        ensures session { IfOk result (λ p. p.session.0 ≡ session.0) }
        // Nothing changes.
        ensures unchanged { self.new ≡ self.old }
    {
        let judged = self.judge(position, &reading, judgement)?;
        Ok(MessagePlan {
            session,
            reading,
            cuts: judged.cuts,
            shares: judged.shares,
            tallies: judged.tallies,
            position: judged.position,
            notes: judged.notes,
        })
    }

    /// The open session with the number `session`, where `number` is how many messages it had.
    ///
    /// # Errors
    /// [`Fault::UnknownSession`] or [`Fault::OutOfTurn`].
    fn in_turn(&self, session: SessionId, number: u64) -> Result<&OpenSession, Fault>
        ensures ok { IfOk result (λ o. IsInTurn self.now session.0 number o.now) }
        ensures err { IfErr result (λ e. (h : List Entry) → Stands self.now h
            → RefusesTurn e h session.0 number) }
    {
        let Some(open) = self.sessions.get(session) else {
            return Err(Fault::UnknownSession);
        };
        if open.accepted != number {
            return Err(Fault::OutOfTurn {
                expected: open.accepted,
            });
        }
        Ok(open)
    }

    /// Judges what `reading` has of a message for each subscription that is served, behind a history of `position`
    /// entries. `judgement`, what was judged of its records elsewhere, is taken where its terms still hold.
    ///
    /// # Errors
    /// Want of memory.
    fn judge(
        &mut self,
        position: u64,
        reading: &Reading,
        judgement: Option<Judgement>,
    ) -> Result<Judged, AllocError>
        requires few { length reading.now.meaning.records ≤ 2 ^ 32 }
        requires short { position ≤ MOST_ENTRIES }
        requires judgement { IfSome judgement
            (IsJudgementOf reading.now.meaning.header.domain reading.now.meaning.records) }
        // What the message would do for each that is served, by the definitions.
        ensures judged { IfOk result (λ j. (h : List Entry) → Stands self.old h
            → length h ≡ position → IsJudgedFor self.old h reading.now.meaning j) }
        // Nothing changes.
        ensures unchanged { self.new ≡ self.old }
    {
        let domain = reading.header().domain;
        let records = reading.records();
        let served = self.subscriptions.served()?;
        let most = u64::from(self.audit.most_notes());
        let in_force = &mut self.in_force;
        let all = shares_of_all(
            self.alloc, in_force, domain, records, judgement, &served, most,
        )?;
        let split = split_by_room(self.alloc, &self.subscriptions, &served, &all.shares)?;
        let (cuts, left) = (&split.cuts, &split.left);
        let left = share_left(self.alloc, in_force, domain, records, all, cuts, left, most)?;
        Ok(judged_at(position, split.cuts, left))
    }
}

/// Whom a message cuts, and what it gives, counts and keeps back then, behind the cuts.
#[derive(Drop)]
pub(crate) struct Judged {
    pub(crate) cuts: Vec<u64>,
    pub(crate) shares: Vec<Share>,
    pub(crate) tallies: Vec<Tally>,
    pub(crate) position: u64,
    pub(crate) notes: Notes,
}

/// The subscriptions that a message cuts, and those that are left.
#[derive(Drop)]
struct Split<'a> {
    cuts: Vec<u64>,
    left: Vec<Served<'a>>,
}

ghost use Rattle.mediator_tables.specs.SubscriptionTable.{told, lacks_room_at};
ghost use Rattle.mediator_state.specs.Planning.{lacks, has};

/// What `records`, which are those of a message of the Observation Domain `domain`, give to all subscriptions `served`,
/// by what `in_force` says, with at most `most` notes kept. `judgement`, what was judged of them elsewhere, is taken
/// where its terms still hold; else they are judged here, in memory from `alloc`.
///
/// # Errors
/// Want of memory.
fn shares_of_all(
    alloc: Global,
    in_force: &mut InForce,
    domain: u32,
    records: &Records,
    judgement: Option<Judgement>,
    served: &[Served<'_>],
    most: u64,
) -> Result<Shares, AllocError>
    requires few { length records.now ≤ 2 ^ 32 }
    requires judgement { IfSome judgement (IsJudgementOf domain records.now) }
    // What the definitions give of these records, for each subscription.
    ensures shares { IfOk result (λ s.
        map shown s.shares.items ≡ shares_of domain in_force.old records.now served.now) }
    ensures tallies { IfOk result (λ s.
        map tallied s.tallies.items ≡ tallies_of domain in_force.old records.now served.now) }
    ensures notes { IfOk result (λ s.
        s.notes ≡ kept_notes most (notes_of domain in_force.old records.now served.now)) }
    // The policy and the clock stay.
    ensures unchanged { in_force.new ≡ in_force.old }
{
    if let Some(judgement) = judgement {
        if let Some(shares) = judgement.shares_by(in_force, served, most) {
            return Ok(shares);
        }
    }
    Shares::of_records(alloc, in_force, domain, records, served, most)
}

/// What is judged of a message: `left` is what it gives to those that are left, and `cuts` are those before it, of
/// which the first stands at `position`.
fn judged_at(position: u64, cuts: Vec<u64>, left: Shares) -> Judged
    requires short { position ≤ MOST_ENTRIES }
    // All is handed on, with the position behind the cuts.
    ensures cuts { result.cuts.items ≡ cuts.items }
    ensures shares { result.shares.items ≡ left.shares.items }
    ensures tallies { result.tallies.items ≡ left.tallies.items }
    ensures position { result.position ≡ position + length cuts.items }
    ensures notes { result.notes ≡ left.notes }
    // Each record may be streamed, by its type.
    ensures streamable { AllByRecursion AreStreamed (map shown result.shares.items) }
{
    shares_for_proof(&left.shares);
    let behind = position + cuts.len() as u64;
    Judged {
        cuts,
        shares: left.shares,
        tallies: left.tallies,
        position: behind,
        notes: left.notes,
    }
}

/// Parts those `served` into those that are cut, since their limits in `subscriptions` leave no room for their part of
/// `shares`, and those that are left. `shares` has one for each of those served, in their order. The lists are in
/// memory from `alloc`.
///
/// # Errors
/// Want of memory.
fn split_by_room<'a>(
    alloc: Global,
    subscriptions: &Subscriptions,
    served: &[Served<'a>],
    shares: &[Share],
) -> Result<Split<'a>, AllocError>
    requires each { length shares.now ≡ length served.now }
    ensures cuts { (domain : ℕ) (f : Force) (records : List DataRecord)
        → map shown shares.now ≡ shares_of domain f records served.now
        → IfOk result (λ s. s.cuts.items
        ≡ map (λ w. w.sub) (filter (lacks subscriptions.now domain f records) served.now)) }
    ensures left { (domain : ℕ) (f : Force) (records : List DataRecord)
        → map shown shares.now ≡ shares_of domain f records served.now
        → IfOk result (λ s. s.left.items
        ≡ filter (has subscriptions.now domain f records) served.now) }
{
    let mut cuts = Vec::new(alloc);
    let mut left = Vec::new(alloc);
    'served: for (place, who) in served.iter().enumerate() {
        if subscriptions.lacks_room(&shares[place]) {
            cuts.push(who.sub)?;
        } else {
            left.push(*who)?;
        }
    }
    Ok(Split { cuts, left })
}

/// What `records`, which are those of a message of the Observation Domain `domain`, give to the subscriptions `left`,
/// by what `in_force` says, with at most `most` notes kept. That is `all`, what they give to all that are served, where
/// `cuts` has none; else they are judged once more, in memory from `alloc`.
///
/// # Errors
/// Want of memory.
fn share_left(
    alloc: Global,
    in_force: &mut InForce,
    domain: u32,
    records: &Records,
    all: Shares,
    cuts: &[u64],
    left: &[Served<'_>],
    most: u64,
) -> Result<Shares, AllocError>
    requires few { length records.now ≤ 2 ^ 32 }
    requires shares { cuts.now ≡ []
        → map shown all.shares.items ≡ shares_of domain in_force.old records.now left.now }
    requires tallies { cuts.now ≡ []
        → map tallied all.tallies.items ≡ tallies_of domain in_force.old records.now left.now }
    requires notes { cuts.now ≡ []
        → all.notes ≡ kept_notes most (notes_of domain in_force.old records.now left.now) }
    // What the definitions give of these records, for each subscription.
    ensures shares { IfOk result (λ s.
        map shown s.shares.items ≡ shares_of domain in_force.old records.now left.now) }
    ensures tallies { IfOk result (λ s.
        map tallied s.tallies.items ≡ tallies_of domain in_force.old records.now left.now) }
    ensures notes { IfOk result (λ s.
        s.notes ≡ kept_notes most (notes_of domain in_force.old records.now left.now)) }
    // The policy and the clock stay.
    ensures unchanged { in_force.new ≡ in_force.old }
{
    if cuts.is_empty() {
        return Ok(all);
    }
    Shares::of_records(alloc, in_force, domain, records, left, most)
}

/// Tells proofs that the octets of `message` are less than 256, by their type. It does nothing.
pub(crate) fn octets_for_proof(message: &[u8])
    ensures { AreOctets message.now }
{}

/// Tells proofs that each record of `shares` may be streamed, by its type. It changes nothing.
pub(crate) fn shares_for_proof(shares: &[Share])
    ensures { AllByRecursion AreStreamed (map shown shares.now) }
{
    'shares: for share in shares {
        records_for_proof(&share.given);
    }
}
