//! The classes of words that a line may have at its places: names, numbers, elements, prefixes,
//! keys.
ghost use Rattle.std.specs.Prelude.{◌≡◌, ◌≤◌, ◌==◌, length, IfOk, OnOk, IfErr, true, false};
ghost use Rattle.std.specs.List.{list_any};
ghost use Rattle.std.specs.Str.{bytes_eq};
ghost use Rattle.policy_text.specs.Policies.{IsKeyLength};
ghost use Rattle.policy_text.specs.Results.{Gives, is_memory};
ghost use Rattle.policy_text.specs.Naming.{is_name};
ghost use Rattle.policy_text.specs.Memory.{is_new_name};
ghost use Rattle.policy_text.specs.Elements.{element_of};
ghost use Rattle.policy_text.specs.Classes.{star, name, number, element, prefix, or_star, is_key_kind, width_at, is_time_kind, is_time_at, with_key, add_piece, add_pieces, key_of, place_of, aggregate_place, new_name, interval, bits_within};
ghost use Rattle.ipfix_element.specs.Kinds.{kind_of};

use crate::aggregate::AggregateDef;
use crate::fault::FaultKind;
use crate::name::{Name, is_name_word};
use flow_prefix::{Prefix, cut_at};
use ipfix_element::{ElementId, Kind, by_name, kind_of};
use numerals::{is_word, read_number};
use std::alloc::Global;
use std::str::from_utf8;

/// The greatest number of an observation domain.
const GREATEST_DOMAIN: u32 = u32::MAX;
/// A day: the longest interval, the longest grace, and the most that times are degraded to.
const MOST_SECONDS: u32 = 86_400;
/// The greatest number of three digits.
const THREE_DIGITS: u32 = 999;

/// The most elements that a key may have.
const MOST_KEY_ELEMENTS: usize = 16;

fn is_star(word: &[u8]) -> bool
    ensures { result ≡ bytes_eq word.now star }
{
    is_word(word, b"*")
}

#[tactic(auto, unfolding(crate::specs::Classes::name))]
fn read_name(alloc: Global, word: &[u8]) -> Result<Name, FaultKind>
    ensures value { Gives (λ n. n) result (name word.now) }
    ensures memory { IfErr result (λ kind. is_memory kind ≡ true → is_name word.now ≡ true) }
{
    if !is_name_word(word) {
        return Err(FaultKind::BadName);
    }
    Ok(Name::new(alloc, word)?)
}

#[tactic(auto, unfolding(crate::specs::Classes::number))]
fn read_up_to(word: &[u8], most: u32) -> Result<u32, FaultKind>
    ensures value { Gives (λ n. n) result (number most word.now) }
    ensures bound { IfOk result (λ n. n ≤ most) }
    ensures no_memory { IfErr result (λ kind. is_memory kind ≡ false) }
{
    match read_number(word, most) {
        Some(number) => Ok(number),
        None => Err(FaultKind::BadNumber),
    }
}

/// A subscriber's name, or `*`.
#[tactic(auto, unfolding(crate::specs::Classes::or_star))]
pub(crate) fn read_who(alloc: Global, word: &[u8]) -> Result<Option<Name>, FaultKind>
    ensures value { Gives (λ who. who) result (or_star name word.now) }
    ensures memory { IfErr result (λ kind. is_memory kind ≡ true → is_name word.now ≡ true) }
{
    if is_star(word) {
        return Ok(None);
    }
    let name = read_name(alloc, word)?;
    Ok(Some(name))
}

/// An observation domain, or `*`.
#[tactic(auto, unfolding(crate::specs::Classes::or_star))]
pub(crate) fn read_domain(word: &[u8]) -> Result<Option<u32>, FaultKind>
    ensures value { Gives (λ domain. domain) result (or_star (number 4294967295) word.now) }
    ensures no_memory { IfErr result (λ kind. is_memory kind ≡ false) }
{
    if is_star(word) {
        return Ok(None);
    }
    let domain = read_up_to(word, GREATEST_DOMAIN)?;
    Ok(Some(domain))
}

#[tactic(auto, unfolding(crate::specs::Classes::prefix))]
fn read_prefix(word: &[u8]) -> Result<Prefix, FaultKind>
    ensures value { Gives (λ p. p) result (prefix word.now) }
    ensures no_memory { IfErr result (λ kind. is_memory kind ≡ false) }
{
    match Prefix::parse_ascii(word) {
        Ok(prefix) => Ok(prefix),
        Err(_) => Err(FaultKind::BadPrefix),
    }
}

/// A prefix, or `*`.
#[tactic(auto, unfolding(crate::specs::Classes::or_star))]
pub(crate) fn read_prefix_or_star(word: &[u8]) -> Result<Option<Prefix>, FaultKind>
    ensures value { Gives (λ p. p) result (or_star prefix word.now) }
    ensures no_memory { IfErr result (λ kind. is_memory kind ≡ false) }
{
    if is_star(word) {
        return Ok(None);
    }
    let prefix = read_prefix(word)?;
    Ok(Some(prefix))
}

/// The element whose name the word is.
fn find_element(word: &[u8]) -> Option<ElementId>
    ensures { result ≡ element_of word.now }
{
    match from_utf8(word) {
        Ok(text) => by_name(text),
        Err(_) => None,
    }
}

#[tactic(auto, unfolding(crate::specs::Classes::element))]
fn read_element(word: &[u8]) -> Result<ElementId, FaultKind>
    ensures value { Gives (λ e. e) result (element word.now) }
    ensures no_memory { IfErr result (λ kind. is_memory kind ≡ false) }
{
    match find_element(word) {
        Some(element) => Ok(element),
        None => Err(FaultKind::BadName),
    }
}

/// An element's name, or `*`.
#[tactic(auto, unfolding(crate::specs::Classes::or_star))]
pub(crate) fn read_element_or_star(word: &[u8]) -> Result<Option<ElementId>, FaultKind>
    ensures value { Gives (λ e. e) result (or_star element word.now) }
    ensures no_memory { IfErr result (λ kind. is_memory kind ≡ false) }
{
    if is_star(word) {
        return Ok(None);
    }
    let element = read_element(word)?;
    Ok(Some(element))
}

/// The bits of a named element that `truncate` may keep.
#[tactic(auto, unfolding(crate::specs::Classes::width_at))]
pub(crate) fn width_at(element: &Option<ElementId>) -> Option<u32>
    ensures { result ≡ width_at element.now }
{
    let Some(element) = element else {
        return None;
    };
    match kind_of(*element) {
        Kind::Ipv4 => Some(32),
        Kind::Ipv6 => Some(128),
        Kind::Mac => Some(48),
        Kind::U8
        | Kind::U16
        | Kind::U32
        | Kind::U64
        | Kind::Seconds
        | Kind::Millis
        | Kind::Text
        | Kind::Octets => None,
    }
}

/// Whether the values of a named element are times.
#[tactic(auto, unfolding(crate::specs::Classes::is_time_at))]
pub(crate) fn is_time_at(element: &Option<ElementId>) -> bool
    ensures { result ≡ is_time_at element.now }
{
    match element {
        Some(element) => is_time_kind(kind_of(*element)),
        None => false,
    }
}

fn is_time_kind(kind: Kind) -> bool
    ensures { result ≡ is_time_kind kind }
{
    match kind {
        Kind::Seconds | Kind::Millis => true,
        Kind::U8
        | Kind::U16
        | Kind::U32
        | Kind::U64
        | Kind::Ipv4
        | Kind::Ipv6
        | Kind::Mac
        | Kind::Text
        | Kind::Octets => false,
    }
}

fn is_key_kind(kind: Kind) -> bool
    ensures { result ≡ is_key_kind kind }
{
    match kind {
        Kind::U8 | Kind::U16 | Kind::U32 | Kind::Ipv4 | Kind::Ipv6 | Kind::Mac => true,
        Kind::U64 | Kind::Seconds | Kind::Millis | Kind::Text | Kind::Octets => false,
    }
}

/// The aggregate of this name that stands before.
pub(crate) fn place_of(aggregates: &[AggregateDef], word: &[u8]) -> Option<usize>
    ensures { result ≡ place_of aggregates.now word.now }
{
    aggregates
        .iter()
        .position(|aggregate| aggregate.name().as_bytes() == word)
}

/// The place of an aggregate that a line before defines.
#[tactic(auto, unfolding(crate::specs::Classes::aggregate_place))]
pub(crate) fn read_place(aggregates: &[AggregateDef], word: &[u8]) -> Result<usize, FaultKind>
    ensures value { Gives (λ place. place) result (aggregate_place aggregates.now word.now) }
    ensures no_memory { IfErr result (λ kind. is_memory kind ≡ false) }
{
    if !is_name_word(word) {
        return Err(FaultKind::BadName);
    }
    match place_of(aggregates, word) {
        Some(place) => Ok(place),
        None => Err(FaultKind::UnknownAggregate),
    }
}

/// The name of an aggregate that no line before defines.
#[tactic(auto, unfolding(crate::specs::Classes::new_name, crate::specs::Memory::is_new_name))]
pub(crate) fn read_new_name(
    alloc: Global,
    aggregates: &[AggregateDef],
    word: &[u8],
) -> Result<Name, FaultKind>
    ensures value { Gives (λ n. n) result (new_name aggregates.now word.now) }
    ensures unused { IfOk result (λ _. is_new_name aggregates.now word.now ≡ true) }
    ensures memory { IfErr result (λ kind. is_memory kind ≡ true
        → is_new_name aggregates.now word.now ≡ true) }
{
    if !is_name_word(word) {
        return Err(FaultKind::BadName);
    }
    if place_of(aggregates, word).is_some() {
        return Err(FaultKind::DoubleAggregate);
    }
    Ok(Name::new(alloc, word)?)
}

/// The length of an interval, or of what times are degraded to: 1 to 86400 seconds.
#[tactic(auto, unfolding(crate::specs::Classes::interval))]
pub(crate) fn read_interval(word: &[u8]) -> Result<u32, FaultKind>
    ensures value { Gives (λ n. n) result (interval word.now) }
    ensures bound { IfOk result (λ n. (1 ≤ n) × (n ≤ 86400)) }
    ensures no_memory { IfErr result (λ kind. is_memory kind ≡ false) }
{
    let seconds = read_up_to(word, MOST_SECONDS)?;
    if seconds < 1 {
        return Err(FaultKind::BadNumber);
    }
    Ok(seconds)
}

/// A grace: 0 to 86400 seconds.
pub(crate) fn read_grace(word: &[u8]) -> Result<u32, FaultKind>
    ensures value { Gives (λ n. n) result (number 86400 word.now) }
    ensures bound { IfOk result (λ n. n ≤ 86400) }
    ensures no_memory { IfErr result (λ kind. is_memory kind ≡ false) }
{
    read_up_to(word, MOST_SECONDS)
}

/// The bits that are kept of this width.
#[tactic(auto, unfolding(crate::specs::Classes::bits_within))]
pub(crate) fn read_bits(width: u32, word: &[u8]) -> Result<usize, FaultKind>
    ensures value { Gives (λ n. n) result (bits_within width word.now) }
    ensures no_memory { IfErr result (λ kind. is_memory kind ≡ false) }
{
    let bits = read_up_to(word, THREE_DIGITS)?;
    if bits > width {
        return Err(FaultKind::BadTruncate);
    }
    Ok(bits as usize)
}

/// The elements of a key: names with commas between, the first faulty piece from the left.
pub(crate) fn read_key(alloc: Global, word: &[u8]) -> Result<Vec<ElementId>, FaultKind>
    ensures value { Gives (λ key. key.items) result (key_of word.now) }
    ensures bound { IfOk result (λ key. IsKeyLength (length key.items)) }
{
    let mut key = Vec::new(alloc);
    let mut rest = word;
    'pieces: while let Some((piece, after)) = cut_at(rest, b',') {
        add_piece(&mut key, piece)?;
        rest = after;
    }
    add_piece(&mut key, rest)?;
    Ok(key)
}

/// One piece of a key more.
#[tactic(auto, unfolding(crate::specs::Classes::add_piece))]
fn add_piece(key: &mut Vec<ElementId>, piece: &[u8]) -> Result<(), FaultKind>
    ensures value { Gives (λ _. key.new.items) result (add_piece key.old.items piece.now) }
    ensures bound { OnOk result (IsKeyLength (length key.new.items)) }
{
    let element = read_element(piece)?;
    add_element(key, element)
}

/// One element of a key more, which must be new, of a kind for keys, and at most the sixteenth.
#[tactic(auto, unfolding(crate::specs::Classes::with_key))]
fn add_element(key: &mut Vec<ElementId>, element: ElementId) -> Result<(), FaultKind>
    ensures value { Gives (λ _. key.new.items) result (with_key key.old.items element) }
    ensures bound { OnOk result (IsKeyLength (length key.new.items)) }
{
    if !is_key_kind(kind_of(element)) {
        return Err(FaultKind::BadKey);
    }
    if has_number(key, element.number()) || key.len() >= MOST_KEY_ELEMENTS {
        return Err(FaultKind::BadKey);
    }
    key.push(element)?;
    Ok(())
}

fn has_number(key: &[ElementId], number: u16) -> bool
    ensures { result ≡ list_any (λ k. k.number == number) key.now }
{
    key.iter().any(|k| k.number() == number)
}
