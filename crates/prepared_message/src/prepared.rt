//! A message that was read against a snapshot of its session's templates, to be taken in later.
ghost use Rattle.std.specs.Prelude.{◌≡◌, ◌≤◌, ◌^◌, ◌↔◌, ℕ, List, ◌∷◌, Ok, IsTrue, IfOk, IfSome, IfNone, OnSome, OnErr, length};
ghost use Rattle.ipfix_session.specs.Answers.{as_contents, as_meaning};
ghost use Rattle.ipfix_session.specs.Meaning.{domain_of, meaning_of};
ghost use Rattle.ipfix_session.specs.ReadAhead.{IsReadingOf};
ghost use Rattle.ipfix_session.specs.Standing.{StandsFor, Knows};
ghost use Rattle.prepared_message.specs.Faults.{GivesPrepared, prepared_from};
ghost use Rattle.prepared_message.specs.Preparation.{AgreesWith, IsPrepared, AreRecordsJudged};
ghost use Rattle.mediator_shares.specs.Judgements.{IsJudgementOf};
ghost use Rattle.prepared_message.specs.Uses.{TablesAgree};

use crate::fault::Fault;
use crate::found::{Found, read_by};
use crate::snapshot::Snapshot;
use crate::used::{Used, are_in_force};
use bytes::Bytes;
use ipfix_message::Header;
use ipfix_records::Records;
use ipfix_session::{Contents, Read, Reading, Session};
use mediator_shares::{Judgement, Workspace};
use mediator_tables::Share;
use std::alloc::{AllocError, Global};
use std::marker::Model;

/// A message without a set of templates that was read against a snapshot, with the templates that it used. Its type keeps
/// that it holds what was read wherever these templates are in force. Contracts see the message, its contents and the
/// templates used, and say by `AgreesWith` after which messages these are in force. What was judged of its records shows in
/// none of its answers.
pub struct Prepared {
    message: Bytes,
    header: Header,
    contents: Contents,
    /// How many records there are.
    count: u32,
    uses: Vec<Used>,
    pub(crate) judgement: Option<Judgement>,
}

impl Drop for Prepared {
    // Written out: a derived one is proved anew in each crate that drops such a value.
    fn drop(self) {
        let Prepared {
            message: _,
            header: _,
            contents: _,
            count: _,
            uses: _,
            judgement: _,
        } = self;
    }
}

impl Model for Prepared {
    ghost use Rattle.prepared_message.specs.Preparation.{Preparation};

    ghost Value = { Preparation };

    ghost use Rattle.std.specs.Prelude.{◌≡◌, map, length};
    ghost use Rattle.ipfix_message.specs.Reading.{header_of};
    ghost use Rattle.ipfix_session.specs.Answers.{as_contents};
    ghost use Rattle.prepared_message.specs.Seen.{used_pair};
    ghost use Rattle.prepared_message.specs.Preparation.{IsPreparedWith, AreRecordsJudged};

    ghost view = { λ p. record { message = p.message; contents = as_contents p.contents; used = map used_pair p.uses.items } };

    ghost invariant = { λ p. IsPreparedWith (record {
      message = p.message;
      contents = as_contents p.contents;
      used = map used_pair p.uses.items;
    }) p.header p.count
        × AreRecordsJudged p.header (as_contents p.contents) p.judgement };
}

impl Prepared {
    /// Reads `message` by the templates of `snapshot`. The values of its records are cut from the message, and not
    /// copied. Where the snapshot has terms, the records are judged on them too, which shows in no other answer.
    ///
    /// # Errors
    /// [`Fault::HasTemplates`] where the octets are a message with a set of the ID 2 or 3;
    /// [`Fault::Malformed`] where they are no message, or a data record goes past its set; or
    /// [`Fault::OutOfMemory`].
    pub fn prepare(snapshot: &Snapshot, message: Bytes) -> Result<Prepared, Fault>
        // The answer is what the message holds after the messages that the snapshot stands for, or which fault it has.
        ensures gives { (older : List (List ℕ)) → Knows snapshot.now older
            → GivesPrepared (λ p. p.contents) result (prepared_from older message) }
        ensures whole { IfOk result (λ p. p.message ≡ message) }
        // It agrees with a session exactly where that has the snapshot's templates for the Set IDs that the message uses.
        ensures used { IfOk result (λ p. (older : List (List ℕ)) → AgreesWith older p
            ↔ TablesAgree snapshot.now older message) }
        ensures prepared { IfOk result IsPrepared }
    {
        Prepared::prepare_in(snapshot, message, &mut Workspace::new())
    }

    /// Prepares `message` against `snapshot`, as [`prepare`](Prepared::prepare) does, with what the thread's
    /// `workspace` has worked out for the messages that it judged before.
    ///
    /// # Errors
    /// Those of [`prepare`](Prepared::prepare).
    pub fn prepare_in(
        snapshot: &Snapshot,
        message: Bytes,
        workspace: &mut Workspace,
    ) -> Result<Prepared, Fault>
        ensures gives { (older : List (List ℕ)) → Knows snapshot.now older
            → GivesPrepared (λ p. p.contents) result (prepared_from older message) }
        ensures whole { IfOk result (λ p. p.message ≡ message) }
        ensures used { IfOk result (λ p. (older : List (List ℕ)) → AgreesWith older p
            ↔ TablesAgree snapshot.now older message) }
        ensures prepared { IfOk result IsPrepared }
    {
        let Found {
            header,
            contents,
            uses,
        } = read_by(&snapshot.templates, &message)?;
        let count = contents.records.len();
        let alloc = snapshot.templates.allocator();
        let judgement = judged(alloc, snapshot, workspace, &header, &contents)?;
        Ok(Prepared {
            message,
            header,
            contents,
            count: count as u32,
            uses,
            judgement,
        })
    }

    /// The octets of the message.
    pub fn message(&self) -> &Bytes
        ensures value { result.now ≡ self.now.message }
        ensures prepared { IsPrepared self.now }
    {
        &self.message
    }

    /// The octets of the message, without what was read.
    pub fn into_message(self) -> Bytes
        ensures { result ≡ self.message }
    {
        let Prepared {
            message,
            header: _,
            contents: _,
            count: _,
            uses: _,
            judgement: _,
        } = self;
        message
    }

    /// What the records would give to each subscription on the snapshot's terms, in their order; nothing where they
    /// were not judged, and after [`take_judgement`](Prepared::take_judgement).
    pub fn shares(&self) -> &[Share] {
        match &self.judgement {
            Some(judgement) => judgement.shares(),
            None => &[],
        }
    }

    /// Takes what was judged of the records on the snapshot's terms, or answers `None` where nothing was judged or it
    /// was taken before. It takes no memory.
    pub fn take_judgement(&mut self) -> Option<Judgement>
        ensures judgement { IfSome result
            (IsJudgementOf (domain_of self.old.message) self.old.contents.records) }
        ensures unchanged { self.new ≡ self.old }
    {
        self.judgement.take()
    }

    /// Takes the message in as the next one of `session`, and answers what it means, as [`Session::apply`] does for the
    /// same octets.
    ///
    /// `None` says that it is stale, and can be prepared anew: an ID of the message has another template in the session
    /// than in the snapshot, or only one of them has one. Nothing has changed then.
    ///
    /// # Errors
    /// Want of memory, and then nothing has changed.
    pub fn apply_to(&self, session: &mut Session) -> Result<Option<Read>, AllocError>
        ensures means { (older : List (List ℕ)) → StandsFor session.old older
            → IfOk result (λ answer. IfSome answer
            (λ r. meaning_of older self.now.message ≡ Ok (as_meaning r))) }
        ensures stands { (older : List (List ℕ)) → StandsFor session.old older
            → IfOk result (λ answer. OnSome answer
            (StandsFor session.new (self.now.message ∷ older))) }
        ensures stale { (older : List (List ℕ)) → StandsFor session.old older
            → IfOk result (λ answer. IfNone answer (AgreesWith older self.now → ⊥)) }
        ensures none { IfOk result (λ answer. IfNone answer
            (session.new.standing ≡ session.old.standing)) }
        ensures err { OnErr result (session.new.standing ≡ session.old.standing) }
    {
        match self.records_in(session)? {
            Some(records) => {
                let skips = self.contents.skips;
                let gap = session.note(&self.header, self.count, skips.unknown != 0)?;
                Ok(Some(Read {
                    header: self.header,
                    records,
                    skips,
                    gap,
                }))
            }
            None => Ok(None),
        }
    }

    /// What was read of the message, as the next one of `session`: what [`Session::read`] gives for the same octets, to
    /// be handed to [`make_room`](Session::make_room) and [`keep`](Session::keep).
    ///
    /// `None` says that it is stale, and can be prepared anew: an ID of the message has another template in the session
    /// than in the snapshot, or only one of them has one.
    ///
    /// # Errors
    /// Want of memory.
    pub fn reading_in(&self, session: &Session) -> Result<Option<Reading>, AllocError>
        ensures reading { (older : List (List ℕ)) → StandsFor session.now older
            → IfOk result (λ answer. IfSome answer (IsReadingOf older self.now.message)) }
        ensures domain { IfOk result (λ answer. IfSome answer
            (λ r. r.meaning.header.domain ≡ domain_of self.now.message)) }
        ensures records { IfOk result (λ answer. IfSome answer
            (λ r. r.meaning.records ≡ self.now.contents.records)) }
        ensures stale { (older : List (List ℕ)) → StandsFor session.now older
            → IfOk result (λ answer. IfNone answer (AgreesWith older self.now → ⊥)) }
    {
        match self.records_in(session)? {
            Some(records) => Ok(Some(session.reading_of(
                self.header,
                records,
                self.contents.skips,
            ))),
            None => Ok(None),
        }
    }

    /// The records of the message, where `session` has the templates that the message used, and else `None`. No octet of
    /// them is copied.
    ///
    /// # Errors
    /// Want of memory.
    fn records_in(&self, session: &Session) -> Result<Option<Records>, AllocError>
        ensures records { IfOk result (λ answer. IfSome answer
            (λ r. r ≡ self.now.contents.records)) }
        ensures agrees { (older : List (List ℕ)) → StandsFor session.now older
            → IfOk result (λ answer. OnSome answer (AgreesWith older self.now)) }
        ensures stale { (older : List (List ℕ)) → StandsFor session.now older
            → IfOk result (λ answer. IfNone answer (AgreesWith older self.now → ⊥)) }
    {
        if !self.agrees_with(session) {
            return Ok(None);
        }
        Ok(Some(self.contents.records.clone()?))
    }

    /// Whether each ID of a Data Set of the message has in `session` the template that it had in the snapshot, or none
    /// where it had none.
    pub fn agrees_with(&self, session: &Session) -> bool
        ensures agrees { (older : List (List ℕ)) → StandsFor session.now older
            → IsTrue result ↔ AgreesWith older self.now }
        ensures prepared { IsPrepared self.now }
    {
        are_in_force(&self.uses, self.header.domain, session)
    }
}

/// What is judged of the records in `contents`, at most 2^32, of the message with this `header`, on the terms of
/// `snapshot`, with what `workspace` has worked out before; or `None` where the snapshot has no terms. What is
/// disclosed is in memory from `alloc`.
///
/// # Errors
/// Want of memory.
fn judged(
    alloc: Global,
    snapshot: &Snapshot,
    workspace: &mut Workspace,
    header: &Header,
    contents: &Contents,
) -> Result<Option<Judgement>, AllocError>
    requires few { length contents.now.records ≤ 2 ^ 32 }
    ensures { IfOk result (AreRecordsJudged header.now (as_contents contents.now)) }
{
    match &snapshot.terms {
        Some(terms) => {
            let records = &contents.records;
            Ok(Some(workspace.judge(alloc, terms, header.domain, records)?))
        }
        None => Ok(None),
    }
}
