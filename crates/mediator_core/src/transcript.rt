//! A run: calls in a row on a new mediator, with the reply to each.
ghost use Rattle.std.specs.Prelude.{IfOk, IfErr};
ghost use Rattle.mediator_calls.specs.Limited.{RefusesLimits};
ghost use Rattle.mediator_calls.specs.declared.call.Call.TheVariants as asked;
ghost use Rattle.mediator_core.specs.Runs.{Answers};
ghost use Rattle.mediator_core.specs.Headline.{IsRunOf, HistoryIsTheCalls, HandedIsDisclosed, HandedIsFront, DrainedIsAudited, AnsweredIsFromDisclosed};

use bytes::Bytes;
use mediator_calls::{Call, Limits, Mediator, Reply, SessionId, SubId};
use mediator_state::Fault;
use std::alloc::Global;

/// What a run leaves.
#[derive(Drop)]
pub struct Transcript {
    /// The replies, one to each call, in their order.
    pub replies: Vec<Reply>,
    /// The mediator as it is after the last call.
    pub mediator: Mediator,
}

/// Makes `call` on `mediator`, and answers its reply. A refusal, also for want of memory, is a reply.
fn answer(mediator: &mut Mediator, call: Call) -> Reply
    ensures { Answers mediator.old call result mediator.new }
{
    match call {
        Call::Open => match mediator.open() {
            Ok(session) => Reply::Opened(session),
            Err(fault) => Reply::Refused(fault),
        },
        Call::Close { session } => match mediator.close(session) {
            Ok(()) => Reply::Closed,
            Err(fault) => Reply::Refused(fault),
        },
        Call::Receive {
            session,
            number,
            message,
        } => answer_receive(mediator, session, number, message),
        Call::Edit { text } => match mediator.edit(text.as_str()) {
            Ok(revision) => Reply::Edited(revision),
            Err(fault) => Reply::Refused(fault),
        },
        Call::Subscribe { name } => match mediator.subscribe(name.as_str()) {
            Ok(sub) => Reply::Subscribed(sub),
            Err(fault) => Reply::Refused(fault),
        },
        Call::Unsubscribe { sub } => match mediator.unsubscribe(sub) {
            Ok(()) => Reply::Unsubscribed,
            Err(fault) => Reply::Refused(fault),
        },
        Call::Advance { t } => match mediator.advance(t) {
            Ok(()) => Reply::Advanced,
            Err(fault) => Reply::Refused(fault),
        },
        Call::Pull { sub, now, target } => answer_pull(mediator, sub, now, target),
        Call::Status { sub } => match mediator.status(sub) {
            Ok(status) => Reply::Stands(status),
            Err(_) => Reply::Refused(Fault::UnknownSub),
        },
        Call::DrainAudit { most } => match mediator.drain_audit(most) {
            Ok(entries) => Reply::Drained(entries),
            Err(_) => Reply::Refused(Fault::OutOfMemory),
        },
    }
}

/// Receives the message with this `number` of a session, counted from 0.
fn answer_receive(mediator: &mut Mediator, session: SessionId, number: u64, message: Bytes) -> Reply
    ensures { Answers mediator.old (asked.Receive session number message) result mediator.new }
{
    match mediator.receive(session, number, message) {
        Ok(receipt) => Reply::Received(receipt),
        Err(fault) => Reply::Refused(fault),
    }
}

/// Pulls a message of at most `target` octets, with the Export Time `now`, for a subscription.
fn answer_pull(mediator: &mut Mediator, sub: SubId, now: u32, target: u16) -> Reply
    ensures { Answers mediator.old (asked.Pull sub now target) result mediator.new }
{
    match mediator.pull(sub, now, target) {
        Ok(answer) => Reply::Pulled(answer),
        Err(fault) => Reply::Refused(fault),
    }
}

/// Makes `calls` on a new mediator with these `limits`, one after another, and answers the reply to each. All of it is
/// in memory from `alloc`. Want of memory in a call is the reply to that call; room for the list of replies is made
/// before the first call.
///
/// # Errors
/// [`Fault::BadLimits`] where a limit is out of its range; or [`Fault::OutOfMemory`], before the first call. No call was
/// made then.
///
/// # Examples
///
/// A session is opened, and closed twice. The second time is refused, and that is a reply too:
///
/// ```rust
/// use mediator_core::{Call, Fault, Limits, Reply, SessionId, run};
///
/// let limits = Limits {
///     queue: 10,
///     shapes: 10,
///     audit: 10,
///     entries: 10,
///     octets: 1000,
/// };
/// let session = SessionId(1);
/// let mut calls = Vec::new(alloc);
/// calls.push(Call::Open)?;
/// calls.push(Call::Close { session })?;
/// calls.push(Call::Close { session })?;
/// let transcript = run(alloc, limits, calls)?;
/// let replies = transcript.replies;
/// assert!(rt; replies.len() == 3);
/// assert!(rt; matches!(replies.first(), Some(Reply::Opened(SessionId(1)))));
/// assert!(rt; matches!(replies.last(), Some(Reply::Refused(Fault::UnknownSession))));
/// ```
pub fn run(alloc: Global, limits: Limits, calls: Vec<Call>) -> Result<Transcript, Fault>
    // Each reply is that of its call, and the history has the entries of those that were accepted.
    ensures steps { IfOk result (IsRunOf limits calls.items) }
    ensures history { IfOk result (HistoryIsTheCalls calls.items) }
    // What was handed out and drained is what the history discloses and names.
    ensures disclosed { IfOk result (HandedIsDisclosed calls.items) }
    ensures front { IfOk result (HandedIsFront calls.items) }
    ensures audited { IfOk result (DrainedIsAudited calls.items) }
    ensures secret { IfOk result (AnsweredIsFromDisclosed limits calls.items) }
    // A run that is not begun had a limit out of its range, or no memory.
    ensures err { IfErr result (λ e. RefusesLimits e limits) }
{
    let mut mediator = Mediator::new(alloc, limits)?;
    let mut replies = Vec::with_capacity(alloc, calls.len())?;
    'calls: for call in calls {
        let reply = answer(&mut mediator, call);
        replies.push_reserved(reply);
    }
    let _for_proof = mediator.journal();
    Ok(Transcript { replies, mediator })
}
