//! Two mediators that get the same calls, but that one gets messages as they were prepared and the other one their octets: each
//! call is answered alike.
use crate::retried;
use crate::worked::text_of;
use disclosure_audit::{AuditEntry, Reason, What};
use event_journal::Journal;
use mediator_core::{Fault, Limits, Mediator, Receipt, SessionId, SubId};
use prepared_message::Prepared;
use std::alloc::{AllocError, Global};
use std::process::Abort;
use std::test::Fail;

/// Few records may wait, so that a subscription that isn't pulled is cut soon.
const LIMITS: Limits = Limits {
    queue: 9,
    shapes: 1000,
    audit: 10_000,
    entries: 1_000_000,
    octets: 1_000_000_000,
};

/// What the ID 256 stands for in a session.
#[derive(Clone, Copy, Debug, PartialEq, Eq)]
pub(crate) enum Known {
    Nothing,
    Sources,
    Destinations,
}

/// A session, its next message's number, and what its ID 256 stands for.
#[derive(Clone, Copy, Debug)]
pub(crate) struct Exporter {
    pub(crate) session: SessionId,
    pub(crate) number: u64,
    pub(crate) known: Known,
}

/// The first twin gets messages as they were prepared. All that is known of one is so of the other.
#[derive(Drop)]
pub(crate) struct Twins {
    first: Mediator,
    second: Mediator,
    /// The session that messages are prepared for.
    pub(crate) mine: Exporter,
    pub(crate) other: Exporter,
    /// The live subscriptions.
    pub(crate) subs: Vec<SubId>,
    /// The clock, in milliseconds since 1970.
    pub(crate) clock: u64,
}

fn opened(rt: &impl Abort, first: &mut Mediator, second: &mut Mediator) -> Result<Exporter, Fault> {
    let session = retried::open(first)?;
    let same = retried::open(second)? == session;
    assert!(rt; same, "a session");
    Ok(Exporter {
        session,
        number: 0,
        known: Known::Nothing,
    })
}

/// A list with room for a subscription of each name, which is made again where memory is refused.
fn no_subs(alloc: Global) -> Result<Vec<SubId>, AllocError> {
    match Vec::with_capacity(alloc, 4) {
        Ok(subs) => Ok(subs),
        Err(_) => Vec::with_capacity(alloc, 4),
    }
}

/// Twins with two sessions.
pub(crate) fn begun(rt: &impl Abort, alloc: Global, clock: u64) -> Result<Twins, Fail> {
    let mut first = retried::begin(alloc, LIMITS)?;
    let mut second = retried::begin(alloc, LIMITS)?;
    let mine = opened(rt, &mut first, &mut second)?;
    let other = opened(rt, &mut first, &mut second)?;
    Ok(Twins {
        first,
        second,
        mine,
        other,
        subs: no_subs(alloc)?,
        clock,
    })
}

/// The other session becomes the one that messages are prepared for.
pub(crate) fn swap(twins: &mut Twins) {
    let mine = twins.mine;
    twins.mine = twins.other;
    twins.other = mine;
}

pub(crate) fn edit(rt: &impl Abort, twins: &mut Twins, text: &str) -> Result<u64, Fault> {
    let answer = retried::edit(&mut twins.first, text);
    let same = retried::edit(&mut twins.second, text) == answer;
    assert!(rt; same, "an edit");
    answer
}

pub(crate) fn subscribe(rt: &impl Abort, twins: &mut Twins, name: &str) -> Result<SubId, Fault> {
    let answer = retried::subscribe(&mut twins.first, name);
    let same = retried::subscribe(&mut twins.second, name) == answer;
    assert!(rt; same, "the begin of a subscription");
    answer
}

pub(crate) fn unsubscribe(rt: &impl Abort, twins: &mut Twins, sub: SubId) -> Result<(), Fault> {
    let answer = retried::unsubscribe(&mut twins.first, sub);
    let same = retried::unsubscribe(&mut twins.second, sub) == answer;
    assert!(rt; same, "the end of a subscription");
    answer
}

pub(crate) fn advance(rt: &impl Abort, twins: &mut Twins) -> Result<(), Fault> {
    let answer = retried::advance(&mut twins.first, twins.clock);
    let same = retried::advance(&mut twins.second, twins.clock) == answer;
    assert!(rt; same, "an advance of the clock");
    answer
}

/// Pulls a message, and answers whether there was one.
pub(crate) fn pull(rt: &impl Abort, twins: &mut Twins, sub: SubId) -> Result<bool, Fault> {
    let message = retried::pull(&mut twins.first, sub)?;
    let same = retried::pull(&mut twins.second, sub)? == message;
    assert!(rt; same, "a pull");
    Ok(message.is_some())
}

/// Both get the octets of a session's next message.
fn hear(
    rt: &impl Abort,
    alloc: Global,
    twins: &mut Twins,
    exporter: &Exporter,
    octets: &[u8],
) -> Result<Receipt, Fault> {
    let (session, number) = (exporter.session, exporter.number);
    let answer = retried::receive(alloc, &mut twins.first, session, number, octets);
    let same = retried::receive(alloc, &mut twins.second, session, number, octets) == answer;
    assert!(rt; same, "a message");
    answer
}

/// Both get the octets of the next message of the session that messages are prepared for.
pub(crate) fn hear_mine(
    rt: &impl Abort,
    alloc: Global,
    twins: &mut Twins,
    octets: &[u8],
) -> Result<Receipt, Fault> {
    let mine = twins.mine;
    let receipt = hear(rt, alloc, twins, &mine, octets)?;
    twins.mine.number = mine.number.saturating_add(1);
    Ok(receipt)
}

/// Both get the octets of the other session's next message.
pub(crate) fn hear_other(
    rt: &impl Abort,
    alloc: Global,
    twins: &mut Twins,
    octets: &[u8],
) -> Result<Receipt, Fault> {
    let other = twins.other;
    let receipt = hear(rt, alloc, twins, &other, octets)?;
    twins.other.number = other.number.saturating_add(1);
    Ok(receipt)
}

/// Two messages, prepared by the first twin's templates as they stand.
pub(crate) fn prepared(
    alloc: Global,
    twins: &mut Twins,
    early: &[u8],
    later: &[u8],
) -> Result<(Prepared, Prepared), Fail> {
    let snapshot = retried::snapshot(&mut twins.first, twins.mine.session)?;
    let early = retried::prepare(alloc, &snapshot, early)?;
    let later = retried::prepare(alloc, &snapshot, later)?;
    Ok((early, later))
}

/// What a mediator answers to a prepared message, and whether it was stale: then it gets the octets.
fn taken(
    alloc: Global,
    mediator: &mut Mediator,
    mine: &Exporter,
    message: Prepared,
) -> Result<(Receipt, bool), Fault> {
    match retried::receive_prepared(mediator, mine.session, mine.number, message) {
        Ok(receipt) => Ok((receipt, false)),
        Err((Fault::Stale, back)) => {
            let octets = back.into_message();
            let receipt = retried::receive(alloc, mediator, mine.session, mine.number, &octets)?;
            Ok((receipt, true))
        }
        Err((fault, _back)) => Err(fault),
    }
}

/// The first twin gets a message as it was prepared, and the second one its octets. Answers the receipt, and whether the message
/// was stale: that is so just where the ID 256 stands for something else than when it was prepared.
pub(crate) fn take(
    rt: &impl Abort,
    alloc: Global,
    twins: &mut Twins,
    message: Prepared,
    known: Known,
) -> Result<(Receipt, bool), Fault> {
    let mine = twins.mine;
    let (session, number) = (mine.session, mine.number);
    let plain = retried::receive(alloc, &mut twins.second, session, number, message.message())?;
    let (receipt, stale) = taken(alloc, &mut twins.first, &mine, message)?;
    assert!(rt; receipt == plain, "a prepared message");
    assert!(rt; stale == (known != mine.known), "what is stale");
    twins.mine.number = number.saturating_add(1);
    Ok((receipt, stale))
}

/// That both tell the same of each live subscription.
pub(crate) fn expect_statuses(rt: &impl Abort, twins: &Twins) {
    for sub in &twins.subs {
        let same = twins.first.status(*sub) == twins.second.status(*sub);
        assert!(rt; same, "a status");
    }
}

fn are_alike(alloc: Global, entry: &AuditEntry, other: &AuditEntry) -> Result<bool, AllocError> {
    Ok(text_of(alloc, entry)?.as_str() == text_of(alloc, other)?.as_str())
}

fn is_late(entry: &AuditEntry) -> bool {
    match &entry.what {
        What::Withheld { rule: _, reason } => *reason == Reason::Late,
        _ => false,
    }
}

/// That both audits hold the same. Answers whether a record came too late.
pub(crate) fn expect_audit(
    rt: &impl Abort,
    alloc: Global,
    twins: &mut Twins,
) -> Result<bool, AllocError> {
    let entries = retried::drain_audit(&mut twins.first)?;
    let others = retried::drain_audit(&mut twins.second)?;
    assert!(rt; entries.len() == others.len(), "the length of the audit");
    let mut late = false;
    for (entry, other) in entries.iter().zip(&others) {
        let same = are_alike(alloc, entry, other)?;
        assert!(rt; same, "an audit entry");
        late |= is_late(entry);
    }
    Ok(late)
}

fn expect_entries(rt: &impl Abort, first: &Journal, second: &Journal) {
    assert!(rt; first.len() == second.len(), "the length of the journal");
    for position in 0..first.len() {
        let same = first.get(position) == second.get(position);
        assert!(rt; same, "a journal's entry");
    }
}

/// That both journals hold the same.
pub(crate) fn expect_journals(rt: &impl Abort, twins: &Twins) {
    expect_entries(rt, twins.first.journal(), twins.second.journal());
}
