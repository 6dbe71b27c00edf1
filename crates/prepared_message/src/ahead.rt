//! What is judged ahead of the lock of a message that its session reads itself.
ghost use Rattle.std.specs.Prelude.{◌≡◌, true, IfOk, IfSome, IsTrue};
ghost use Rattle.mediator_shares.specs.Judgements.{IsJudgementOf};
ghost use Rattle.prepared_message.specs.Holding.{IsAheadOf};

use crate::fault::Fault;
use crate::snapshot::Snapshot;
use bytes::Bytes;
use ipfix_message::{items, read_header};
use ipfix_records::{Records, Run};
use ipfix_template::Template;
use mediator_shares::{Judgement, Workspace};
use mediator_tables::Share;
use std::marker::Model;

/// What was judged of the records that a message holds by a snapshot, whatever sets it has. Its type keeps that this is
/// what these records give by the snapshot's terms; whether the session finds the same records in the message is asked
/// later. Contracts see the Observation Domain and the records.
pub struct JudgedAhead {
    domain: u32,
    records: Records,
    pub(crate) judgement: Judgement,
}

impl Drop for JudgedAhead {
    // Written out: a derived one is proved anew in each crate that drops such a value.
    fn drop(self) {
        let JudgedAhead {
            domain: _,
            records: _,
            judgement: _,
        } = self;
    }
}

impl Model for JudgedAhead {
    ghost use Rattle.prepared_message.specs.Ahead.{OfRecords};
    ghost use Rattle.mediator_shares.specs.Judgements.{IsJudgementOf};

    ghost Value = { OfRecords };

    ghost view = { λ a. record { domain = a.domain; records = a.records } };

    ghost invariant = { λ a. IsJudgementOf a.domain a.records a.judgement };
}

impl JudgedAhead {
    /// Reads `message` by the templates of `snapshot`, and those that the message brings, and judges its records on the
    /// snapshot's terms, with what `workspace` has worked out for messages before. It answers `None` where the snapshot
    /// has no terms, or where there are more records than the message has octets. The session is not asked, and nothing
    /// of it changes.
    ///
    /// # Errors
    /// [`Fault::Malformed`] where the octets are no message, or a data record goes past its set by these
    /// templates; or [`Fault::OutOfMemory`].
    pub fn of(
        snapshot: &Snapshot,
        message: &Bytes,
        workspace: &mut Workspace,
    ) -> Result<Option<JudgedAhead>, Fault>
        ensures { IfOk result (λ found. IfSome found (IsAheadOf message.now)) }
    {
        let Some(terms) = &snapshot.terms else {
            return Ok(None);
        };
        let octets: &[u8] = message;
        let domain = read_header(octets)?.domain;
        let alloc = snapshot.templates.allocator();
        let said = items(alloc, octets)?;
        let records = snapshot.templates.read(message, said)?.records;
        if records.len() > octets.len() {
            return Ok(None);
        }
        let judgement = workspace.judge(alloc, terms, domain, &records)?;
        Ok(Some(JudgedAhead {
            domain,
            records,
            judgement,
        }))
    }

    /// What the records would give to each subscription on the snapshot's terms, in their order.
    pub fn shares(&self) -> &[Share] {
        self.judgement.shares()
    }

    /// The judgement, where it is of `records` and of the Observation Domain `domain`; else `None`. It compares all
    /// octets of the records, and takes no memory.
    pub fn judgement_of(self, domain: u32, records: &Records) -> Option<Judgement>
        ensures { IfSome result (IsJudgementOf domain records.now) }
    {
        let JudgedAhead {
            domain: own_domain,
            records: own_records,
            judgement,
        } = self;
        if own_domain == domain && are_same(&own_records, records) {
            Some(judgement)
        } else {
            None
        }
    }
}

/// Whether `some` and `others` are the same records, kept as the same runs.
fn are_same(some: &Records, others: &Records) -> bool
    ensures { IsTrue result → some.now ≡ others.now }
{
    let (some, others) = (some.runs(), others.runs());
    if some.len() != others.len() {
        return false;
    }
    'runs: for place in 0..some.len() {
        if !is_same(&some[place], &others[place]) {
            return false;
        }
    }
    true
}

/// Whether `run` and `other` have the same template and the same texts of records.
fn is_same(run: &Run, other: &Run) -> bool
    ensures { IsTrue result → run.now ≡ other.now }
{
    if run.len() != other.len() || !have_same_template(run, other) {
        return false;
    }
    'texts: for index in 0..run.len() {
        if run.text(index) != other.text(index) {
            return false;
        }
    }
    true
}

/// Whether the records of `run` and of `other` have the same template.
fn have_same_template(run: &Run, other: &Run) -> bool
    ensures { result ≡ true → run.now.template ≡ other.now.template }
{
    let template: &Template = run.template();
    template == other.template()
}
