//! The call, or the limits, that a line asks for.
ghost use Rattle.std.specs.Prelude.{◌≡◌, ◌≤◌, IfOk, IfSome};
ghost use Rattle.std.specs.Option.{option_map};
ghost use Rattle.std.specs.Result.{result_ok};
ghost use Rattle.hex.specs.Hex.{decode_of};
ghost use Rattle.replay_text.specs.Sayings.{saying};
ghost use Rattle.replay_text.specs.declared.verb.Verb.TheVariants as Verb;
ghost use Rattle.replay_text.specs.Lines.{call_of, call_by, receive_behind, edit_behind, pull_behind, limits_on_line, limits_behind};

use crate::line_ends::with_line_ends;
use crate::verb::{Verb, verb_of};
use crate::words::Words;
use bytes::Bytes;
use hex::FromHexError;
use mediator_calls::{Call, Limits, SessionId, SubId};
use numerals::is_word;
use std::alloc::{AllocError, Global};

/// The greatest number of a session, a message or a subscription, and the latest time of the clock.
const U64: u64 = u64::MAX;
/// The greatest Export Time, and the most audit entries that may be asked for.
const U32: u64 = 4_294_967_295;
/// The greatest target.
const U16: u64 = u16::MAX as u64;

/// The call that a line asks for, if it asks for one.
#[tactic(auto, unfolding(crate::specs::Lines::call_of))]
pub(crate) fn read_call(alloc: Global, line: &str) -> Result<Option<Call>, AllocError>
    ensures { IfOk result (λ call. option_map saying call ≡ call_of line.now) }
{
    let mut words = Words::new(line);
    let Some(word) = words.word() else {
        return Ok(None);
    };
    let Some(verb) = verb_of(word) else {
        return Ok(None);
    };
    read_by(alloc, verb, &mut words)
}

/// The call that this word names, with what stands behind it.
#[tactic(auto, unfolding(crate::specs::Lines::call_by))]
fn read_by(alloc: Global, verb: Verb, words: &mut Words<'_>) -> Result<Option<Call>, AllocError>
    ensures { IfOk result (λ call. option_map saying call ≡ call_by verb words.old) }
{
    match verb {
        Verb::Open => Ok(read_open(words)),
        Verb::Close => Ok(read_close(words)),
        Verb::Receive => read_receive(alloc, words),
        Verb::Edit => read_edit(alloc, words),
        Verb::Subscribe => read_subscribe(alloc, words),
        Verb::Unsubscribe => Ok(read_unsubscribe(words)),
        Verb::Advance => Ok(read_advance(words)),
        Verb::Pull => Ok(read_pull(words)),
        Verb::Status => Ok(read_status(words)),
        Verb::Audit => Ok(read_audit(words)),
    }
}

/// Behind `open`: nothing.
#[tactic(auto, unfolding(crate::specs::Lines::call_by))]
fn read_open(words: &mut Words<'_>) -> Option<Call>
    ensures { option_map saying result ≡ call_by Verb.Open words.old }
{
    words.end()?;
    Some(Call::Open)
}

/// Behind `close`: the session.
#[tactic(auto, unfolding(crate::specs::Lines::call_by))]
fn read_close(words: &mut Words<'_>) -> Option<Call>
    ensures { option_map saying result ≡ call_by Verb.Close words.old }
{
    let session = words.last_number(U64)?;
    Some(Call::Close {
        session: SessionId(session),
    })
}

/// Behind `receive`: the session, the message's number, and its octets in hexadecimal.
#[tactic(auto, unfolding(crate::specs::Lines::receive_behind))]
fn read_receive(alloc: Global, words: &mut Words<'_>) -> Result<Option<Call>, AllocError>
    ensures { IfOk result (λ call. option_map saying call ≡ receive_behind words.old) }
{
    let Some(session) = words.number(U64) else {
        return Ok(None);
    };
    let Some(number) = words.number(U64) else {
        return Ok(None);
    };
    let Some(digits) = words.last_word() else {
        return Ok(None);
    };
    let Some(message) = read_octets(alloc, digits)? else {
        return Ok(None);
    };
    Ok(Some(Call::Receive {
        session: SessionId(session),
        number,
        message,
    }))
}

/// The octets that these digits spell, if they spell some.
fn read_octets(alloc: Global, digits: &str) -> Result<Option<Bytes>, AllocError>
    ensures { IfOk result (λ octets. octets ≡ result_ok (decode_of digits.now)) }
{
    match hex::decode(alloc, digits) {
        Ok(octets) => Ok(Some(Bytes::from_vec(octets)?)),
        Err(FromHexError::OutOfMemory) => Err(AllocError),
        Err(_) => Ok(None),
    }
}

/// Behind `edit`: the policy, to the end of the line.
#[tactic(auto, unfolding(crate::specs::Lines::edit_behind))]
fn read_edit(alloc: Global, words: &mut Words<'_>) -> Result<Option<Call>, AllocError>
    ensures { IfOk result (λ call. option_map saying call ≡ edit_behind words.old) }
{
    let Some(text) = words.rest() else {
        return Ok(None);
    };
    let text = with_line_ends(alloc, text)?;
    Ok(Some(Call::Edit { text }))
}

/// Behind `subscribe`: the name, which may be empty.
#[tactic(auto, unfolding(crate::specs::Lines::call_by))]
fn read_subscribe(alloc: Global, words: &mut Words<'_>) -> Result<Option<Call>, AllocError>
    ensures { IfOk result (λ call. option_map saying call ≡ call_by Verb.Subscribe words.old) }
{
    let Some(name) = words.last_word() else {
        return Ok(None);
    };
    let name = String::from_str(alloc, name)?;
    Ok(Some(Call::Subscribe { name }))
}

/// Behind `unsubscribe`: the subscription.
#[tactic(auto, unfolding(crate::specs::Lines::call_by))]
fn read_unsubscribe(words: &mut Words<'_>) -> Option<Call>
    ensures { option_map saying result ≡ call_by Verb.Unsubscribe words.old }
{
    let sub = words.last_number(U64)?;
    Some(Call::Unsubscribe { sub: SubId(sub) })
}

/// Behind `advance`: the time, in milliseconds since 1970.
#[tactic(auto, unfolding(crate::specs::Lines::call_by))]
fn read_advance(words: &mut Words<'_>) -> Option<Call>
    ensures { option_map saying result ≡ call_by Verb.Advance words.old }
{
    let t = words.last_number(U64)?;
    Some(Call::Advance { t })
}

/// Behind `pull`: the subscription, the Export Time and the target.
#[tactic(auto, unfolding(crate::specs::Lines::pull_behind))]
fn read_pull(words: &mut Words<'_>) -> Option<Call>
    ensures { option_map saying result ≡ pull_behind words.old }
{
    let sub = words.number(U64)?;
    let now = words.number(U32)?;
    let target = words.last_number(U16)?;
    Some(Call::Pull {
        sub: SubId(sub),
        now: now as u32,
        target: target as u16,
    })
}

/// Behind `status`: the subscription.
#[tactic(auto, unfolding(crate::specs::Lines::call_by))]
fn read_status(words: &mut Words<'_>) -> Option<Call>
    ensures { option_map saying result ≡ call_by Verb.Status words.old }
{
    let sub = words.last_number(U64)?;
    Some(Call::Status { sub: SubId(sub) })
}

/// Behind `audit`: the most entries that are handed out.
#[tactic(auto, unfolding(crate::specs::Lines::call_by))]
fn read_audit(words: &mut Words<'_>) -> Option<Call>
    ensures { option_map saying result ≡ call_by Verb.Audit words.old }
{
    let most = words.last_number(U32)?;
    Some(Call::DrainAudit { most: most as u32 })
}

/// The limits that a line sets, if it sets some.
#[tactic(auto, unfolding(crate::specs::Lines::limits_on_line))]
pub(crate) fn read_limits(line: &str) -> Option<Limits>
    ensures { result ≡ limits_on_line line.now }
{
    let mut words = Words::new(line);
    let word = words.word()?;
    if is_word(word.as_bytes(), b"limits") {
        limits_behind(&mut words)
    } else {
        None
    }
}

/// Behind `limits`: five numbers, in the order of [`Limits`].
#[tactic(auto, unfolding(crate::specs::Lines::limits_behind))]
fn limits_behind(words: &mut Words<'_>) -> Option<Limits>
    ensures { result ≡ limits_behind words.old }
{
    let queue = words.number(U32)?;
    let shapes = words.number(U32)?;
    let audit = words.number(U32)?;
    let entries = words.number(U64)?;
    let octets = words.last_number(U64)?;
    Some(Limits {
        queue: queue as u32,
        shapes: shapes as u32,
        audit: audit as u32,
        entries,
        octets,
    })
}
