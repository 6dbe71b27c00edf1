//! A journal, replayed by one thread: each subscriber gets from it what it got from the threads.
use crate::crowd::TARGET;
use crate::octets::{NOW, limits};
use crate::sharing::Taken;
use event_journal::{Entry, Journal};
use mediator_core::{Mediator, SessionId, SubId};
use std::alloc::{AllocError, Global};
use std::process::Abort;

/// Makes the calls of a journal again on a new mediator, and that each subscription's messages are what it took. One that was cut
/// gets no more there than what it was disclosed by then; so it ends here, where all that has come to it is pulled.
pub(crate) fn replay(
    rt: &impl Abort,
    alloc: Global,
    journal: &Journal,
    taken: &[Taken],
) -> Result<(), AllocError> {
    let Ok(mut again) = Mediator::new(alloc, limits(1_000_000, 100, 1_000_000)) else {
        return Err(AllocError);
    };
    for position in 0..journal.len() {
        if let Some(entry) = journal.get(position) {
            assert!(rt; play(rt, &mut again, entry, taken)?, "entry {position}");
        }
    }
    for one in taken {
        if again.status(one.sub).is_ok() {
            expect_messages(rt, &mut again, one);
        }
    }
    Ok(())
}

/// Makes an entry's call, and whether it was accepted with the same number.
fn play(
    rt: &impl Abort,
    again: &mut Mediator,
    entry: &Entry,
    taken: &[Taken],
) -> Result<bool, AllocError> {
    Ok(match entry {
        Entry::Open { session } => again.open() == Ok(SessionId(*session)),
        Entry::Close { session } => again.close(SessionId(*session)) == Ok(()),
        Entry::Message {
            session,
            number,
            octets,
        } => again
            .receive(SessionId(*session), *number, octets.clone()?)
            .is_ok(),
        Entry::Edit { text } => again.edit(text.as_str()).is_ok(),
        Entry::Subscribe { sub, name } => again.subscribe(name.as_str()) == Ok(SubId(*sub)),
        Entry::Unsubscribe { sub } => end(rt, again, SubId(*sub), taken),
        Entry::Advance { t } => again.advance(*t) == Ok(()),
        Entry::Cut { sub } => end(rt, again, SubId(*sub), taken),
    })
}

/// Ends a subscription that hasn't ended yet, where all that it is disclosed was pulled.
fn end(rt: &impl Abort, again: &mut Mediator, sub: SubId, taken: &[Taken]) -> bool {
    if again.status(sub).is_err() {
        return true;
    }
    for one in taken {
        if one.sub == sub {
            expect_messages(rt, again, one);
        }
    }
    again.unsubscribe(sub) == Ok(())
}

/// That a subscription's messages are just those that were taken.
fn expect_messages(rt: &impl Abort, again: &mut Mediator, taken: &Taken) {
    let sub = taken.sub;
    for message in &taken.messages {
        match again.pull(sub, NOW, TARGET) {
            Ok(Some(due)) => {
                assert!(rt;
                    message.as_slice() == due.as_slice(),
                    "subscription {}",
                    sub.0
                );
            }
            _ => panic!(rt; "subscription {} got too much", sub.0),
        }
    }
    match again.pull(sub, NOW, TARGET) {
        Ok(None) => {}
        _ => panic!(rt; "subscription {} got too little", sub.0),
    }
}
