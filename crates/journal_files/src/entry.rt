//! Reading the head of a file, or an entry, at the front of octets.
ghost use Rattle.std.specs.Prelude.{◌≡◌, ◌++◌, ◌≤◌, ◌<◌, ◌^◌, length, true, false, IfOk, MatchResult};
ghost use Rattle.std.specs.Str.{is_utf8};
ghost use Rattle.policy_text.specs.Naming.{is_name};
ghost use Rattle.event_journal.specs.Spelled.{IsSpelled};
ghost use Rattle.journal_files.specs.Reading.{GivesRead, front_of, front_number, past_number, head_of, numbered_entry, message_of, edit_of, subscribe_of, entry_by, entry_of};
ghost use Rattle.journal_files.specs.Format.{magic, version, head_octets, octets_of};
ghost use Rattle.journal_files.specs.Seen.{entry_seen, number_seen, octets_seen};
ghost use Rattle.journal_files.specs.declared.fault.Fault.TheVariants.{BadMagic, BadVersion, BadEntry};

use crate::fault::Fault;
use crate::format::{
    ADVANCE, CLOSE, CUT, EDIT, MAGIC, MESSAGE, OPEN, SUBSCRIBE, UNSUBSCRIBE, VERSION,
};
use bytes::Bytes;
use event_journal::{Entry, PolicyText};
use ipfix_octets::be_number;
use policy_text::{Name, is_name};
use std::alloc::Global;
use std::str::from_utf8;

/// The first `count` of `octets`, and those after them; `Truncated` where there are fewer.
#[tactic(auto, unfolding(crate::specs::Reading::front_of))]
fn front(count: u64, octets: &[u8]) -> Result<(&[u8], &[u8]), Fault>
    ensures read { GivesRead octets_seen result (front_of count octets.now) }
    ensures long { IfOk result (λ f. length f.0.now ≡ count) }
{
    if (octets.len() as u64) < count {
        return Err(Fault::Truncated);
    }
    Ok(octets.split_at(count as usize))
}

/// The number in the first `width` of `octets`, in network byte order, and the octets after it; `Truncated` where there
/// are fewer.
#[tactic(auto, unfolding(crate::specs::Reading::front_number))]
fn number(width: u64, octets: &[u8]) -> Result<(u64, &[u8]), Fault>
    requires some { 1 ≤ width }
    requires few { width ≤ 8 }
    ensures read { GivesRead number_seen result (front_number width octets.now) }
    ensures below { IfOk result (λ f. f.0 < 256 ^ width) }
{
    let (digits, rest) = front(width, octets)?;
    Ok((be_number(digits), rest))
}

/// How many entries the file at the front of `octets` announces, and the octets after its head.
///
/// # Errors
/// The first fault of the head: the file is cut off in it, or begins with another magic number or version.
pub(crate) fn read_head(octets: &[u8]) -> Result<(u64, &[u8]), Fault>
    ensures read { GivesRead number_seen result (head_of octets.now) }
    ensures written { IfOk result (λ f. octets.now ≡ head_octets f.0 ++ f.1.now) }
{
    first_head(octets)
}

/// How many entries the file at the front of `octets` announces, and the octets after its head, as the definition of
/// reading computes them.
#[tactic(auto, unfolding(crate::specs::Reading::head_of, crate::specs::Reading::past_number))]
fn first_head(octets: &[u8]) -> Result<(u64, &[u8]), Fault>
    ensures { GivesRead number_seen result (head_of octets.now) }
{
    let (found, rest) = number(4, octets)?;
    if found != u64::from(MAGIC) {
        return Err(Fault::BadMagic);
    }
    let (found, rest) = number(2, rest)?;
    if found != u64::from(VERSION) {
        return Err(Fault::BadVersion);
    }
    number(8, rest)
}

/// The entry at the front of `octets`, and the octets after it. What the entry has of a message, a text or a name is
/// copied to memory from `alloc`.
///
/// # Errors
/// The octets are cut off in the entry (`Truncated`) or have none at their front (`BadEntry`); or want of memory.
pub(crate) fn read_entry(alloc: Global, octets: &[u8]) -> Result<(Entry, &[u8]), Fault>
    ensures read { GivesRead entry_seen result (entry_of octets.now) }
    ensures spelled { IfOk result (λ f. IsSpelled f.0) }
    ensures written { IfOk result (λ f. octets.now ≡ octets_of f.0 ++ f.1.now) }
{
    first_entry(alloc, octets)
}

/// The entry at the front of `octets`, in memory from `alloc`, and the octets after it, as the definition of reading
/// computes them.
#[tactic(auto, unfolding(crate::specs::Reading::entry_of))]
fn first_entry(alloc: Global, octets: &[u8]) -> Result<(Entry, &[u8]), Fault>
    ensures read { GivesRead entry_seen result (entry_of octets.now) }
    ensures spelled { IfOk result (λ f. IsSpelled f.0) }
{
    let (kind, rest) = number(1, octets)?;
    read_by(alloc, kind as u8, rest)
}

/// The entry of this `kind` whose numbers are at the front of `octets`, and the octets after it.
#[tactic(auto, unfolding(crate::specs::Reading::entry_by, crate::specs::Reading::numbered_entry))]
fn read_by(alloc: Global, kind: u8, octets: &[u8]) -> Result<(Entry, &[u8]), Fault>
    ensures read { GivesRead entry_seen result (entry_by kind octets.now) }
    ensures spelled { IfOk result (λ f. IsSpelled f.0) }
{
    match kind {
        OPEN => {
            let (session, rest) = number(8, octets)?;
            Ok((Entry::Open { session }, rest))
        }
        CLOSE => {
            let (session, rest) = number(8, octets)?;
            Ok((Entry::Close { session }, rest))
        }
        MESSAGE => read_message(alloc, octets),
        EDIT => read_edit(alloc, octets),
        SUBSCRIBE => read_subscribe(alloc, octets),
        UNSUBSCRIBE => {
            let (sub, rest) = number(8, octets)?;
            Ok((Entry::Unsubscribe { sub }, rest))
        }
        ADVANCE => {
            let (t, rest) = number(8, octets)?;
            Ok((Entry::Advance { t }, rest))
        }
        CUT => {
            let (sub, rest) = number(8, octets)?;
            Ok((Entry::Cut { sub }, rest))
        }
        _ => Err(Fault::BadEntry),
    }
}

/// The entry of a message, whose octets after its kind are at the front of `octets`, and the octets after it.
#[tactic(auto, unfolding(crate::specs::Reading::message_of))]
fn read_message(alloc: Global, octets: &[u8]) -> Result<(Entry, &[u8]), Fault>
    ensures read { GivesRead entry_seen result (message_of octets.now) }
    ensures spelled { IfOk result (λ f. IsSpelled f.0) }
{
    let (session, rest) = number(8, octets)?;
    let (place, rest) = number(8, rest)?;
    let (len, rest) = number(4, rest)?;
    let (message, rest) = front(len, rest)?;
    let entry = Entry::Message {
        session,
        number: place,
        octets: Bytes::copy_from_slice(alloc, message)?,
    };
    Ok((entry, rest))
}

/// The entry of an edit, whose octets after its kind are at the front of `octets`, and the octets after it.
#[tactic(auto, unfolding(crate::specs::Reading::edit_of))]
fn read_edit(alloc: Global, octets: &[u8]) -> Result<(Entry, &[u8]), Fault>
    ensures read { GivesRead entry_seen result (edit_of octets.now) }
    ensures spelled { IfOk result (λ f. IsSpelled f.0) }
{
    let (len, rest) = number(8, octets)?;
    let (text, rest) = front(len, rest)?;
    let text = PolicyText::new(alloc, text_in(text)?)?;
    Ok((Entry::Edit { text }, rest))
}

/// The text that `octets` are.
///
/// # Errors
/// `BadEntry` where they are not UTF-8.
#[tactic(auto, using(crate::proofs::TextLaws::is_text, crate::proofs::TextLaws::is_no_text))]
fn text_in(octets: &[u8]) -> Result<&str, Fault>
    ensures { MatchResult result (λ text. (text.now ≡ octets.now) × (is_utf8 octets.now ≡ true))
        (λ e. (e ≡ BadEntry) × (is_utf8 octets.now ≡ false)) }
{
    match from_utf8(octets) {
        Ok(text) => Ok(text),
        Err(_) => Err(Fault::BadEntry),
    }
}

/// Whether `octets` are a name that a subscriber may have.
#[tactic(auto, using(crate::proofs::TextLaws::is_no_name))]
fn is_name_in(octets: &[u8]) -> bool
    ensures { result ≡ is_name octets.now }
{
    match from_utf8(octets) {
        Ok(text) => is_name(text),
        Err(_) => false,
    }
}

/// The entry of a subscription's beginning, whose octets after its kind are at the front of `octets`, and the octets
/// after it.
#[tactic(auto, unfolding(crate::specs::Reading::subscribe_of))]
fn read_subscribe(alloc: Global, octets: &[u8]) -> Result<(Entry, &[u8]), Fault>
    ensures read { GivesRead entry_seen result (subscribe_of octets.now) }
    ensures spelled { IfOk result (λ f. IsSpelled f.0) }
{
    let (sub, rest) = number(8, octets)?;
    let (len, rest) = number(1, rest)?;
    let (name, rest) = front(len, rest)?;
    if !is_name_in(name) {
        return Err(Fault::BadEntry);
    }
    let name = Name::new(alloc, name)?;
    Ok((Entry::Subscribe { sub, name }, rest))
}
