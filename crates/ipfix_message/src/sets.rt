//! The sets of a message, and all that it says.
ghost use Rattle.std.specs.Prelude.{◌≡◌, ◌<◌, ◌≤◌, length, List, Ok, Err, IsOk, IfOk, IfErr};
ghost use Rattle.ipfix_octets.specs.MessageFormat.{header_octets};
ghost use Rattle.ipfix_template.specs.Sequence.{read_all, with_front};
ghost use Rattle.ipfix_message.specs.declared.item.Item.{Item};
ghost use Rattle.ipfix_message.specs.declared.header.Header.{Header};
ghost use Rattle.ipfix_message.specs.Grammar.{IsMessage};
ghost use Rattle.ipfix_message.specs.Reading.{GivesDecoded, template_front, set_items, set_front, read_header, items_of};
ghost use Rattle.ipfix_message.specs.Shows.{AddsFront};

use crate::fault::Fault;
use crate::header::read_header;
use crate::item::Item;
use crate::octets::u16_at;
use crate::templates::first_record;
use ipfix_octets::message_format::{
    HEADER_OCTETS, LEAST_TEMPLATE_ID, OPTIONS_TEMPLATE_SET, SET_HEADER_OCTETS, TEMPLATE_SET,
};
use std::alloc::Global;

/// What a message says, in the order of its octets (RFC 7011, sections 3.3, 3.4 and 8.1). `octets`
/// are all octets of the message. The list is in memory from `alloc`.
///
/// # Errors
/// The first fault in reading order, or `OutOfMemory` for want of memory. A fault of the header is
/// always named, since it takes no memory.
pub fn items(alloc: Global, octets: &[u8]) -> Result<Vec<Item>, Fault>
    // What is read is a message of the grammar.
    ensures found { IfOk result (λ v. (h : Header) × IsMessage octets.now h v.items) }
    // What is a message of the grammar is read, unless memory runs out.
    ensures only { (h : Header) (said : List Item) → IsMessage octets.now h said
        → GivesDecoded (λ v. v.items) result (Ok said) }
    // Which fault it is.
    ensures exact { GivesDecoded (λ v. v.items) result (items_of octets.now) }
    // A fault of the header, and a message without sets, are answered without memory.
    ensures header { IfErr (read_header octets.now) (λ e. result ≡ Err e) }
    ensures bare { IfOk (read_header octets.now) (λ _. length octets.now ≡ header_octets
        → IsOk result) }
{
    read_items(alloc, octets)
}

#[tactic(auto, unfolding(crate::specs::Reading::items_of))]
fn read_items(alloc: Global, octets: &[u8]) -> Result<Vec<Item>, Fault>
    ensures exact { GivesDecoded (λ v. v.items) result (items_of octets.now) }
    ensures header { IfErr (read_header octets.now) (λ e. result ≡ Err e) }
    ensures bare { IfOk (read_header octets.now) (λ _. length octets.now ≡ header_octets
        → IsOk result) }
{
    read_header(octets)?;
    let mut items = Vec::new(alloc);
    put_sets(
        alloc,
        octets.len(),
        octets.split_at(HEADER_OCTETS).1,
        &mut items,
    )?;
    Ok(items)
}

/// Adds what the sets say that are left of a message of `total` octets.
fn put_sets(alloc: Global, total: usize, octets: &[u8], items: &mut Vec<Item>) -> Result<(), Fault>
    requires { length octets.now ≤ total }
    ensures read { GivesDecoded (λ _. items.new.items) result
        (with_front items.old.items (read_all (set_front total) octets.now)) }
    ensures bare { length octets.now ≡ 0 → IsOk result }
{
    let mut rest = octets;
    'sets: while !rest.is_empty() {
        rest = put_set(alloc, total, rest, items)?;
    }
    Ok(())
}

/// Adds what the set at the front says, and gives the octets after it.
#[tactic(auto, unfolding(crate::specs::Reading::set_front))]
fn put_set<'a>(
    alloc: Global,
    total: usize,
    octets: &'a [u8],
    items: &mut Vec<Item>,
) -> Result<&'a [u8], Fault>
    requires some { 0 < length octets.now }
    requires within { length octets.now ≤ total }
    ensures adds { AddsFront items.old.items items.new.items result (set_front total octets.now) }
    ensures shorter { IfOk result (λ rest. length rest.now < length octets.now) }
{
    if octets.len() < SET_HEADER_OCTETS {
        return Err(Fault::BadSetLength);
    }
    let id = u16_at(octets, 0);
    let len = usize::from(u16_at(octets, 2));
    if len < SET_HEADER_OCTETS || octets.len() < len {
        return Err(Fault::BadSetLength);
    }
    let place = total - octets.len() + SET_HEADER_OCTETS;
    put_content(alloc, id, place, &octets[SET_HEADER_OCTETS..len], items)?;
    Ok(octets.split_at(len).1)
}

/// Adds what the content of a set says, which stands at this place of the message.
#[tactic(auto, unfolding(crate::specs::Reading::set_items))]
fn put_content(
    alloc: Global,
    id: u16,
    place: usize,
    content: &[u8],
    items: &mut Vec<Item>,
) -> Result<(), Fault>
    ensures { GivesDecoded (λ _. items.new.items) result
        (with_front items.old.items (set_items id place content.now)) }
{
    if id == TEMPLATE_SET {
        return put_templates(alloc, false, content, items);
    }
    if id == OPTIONS_TEMPLATE_SET {
        return put_templates(alloc, true, content, items);
    }
    if id < LEAST_TEMPLATE_ID {
        items.push(Item::Skipped { set: id })?;
        return Ok(());
    }
    items.push(Item::DataSet {
        id,
        start: place,
        len: content.len(),
    })?;
    Ok(())
}

/// Adds what the records of a set of templates say.
fn put_templates(
    alloc: Global,
    options: bool,
    content: &[u8],
    items: &mut Vec<Item>,
) -> Result<(), Fault>
    ensures { GivesDecoded (λ _. items.new.items) result
        (with_front items.old.items (read_all (template_front options) content.now)) }
{
    let mut rest = content;
    'records: while let Some((item, after)) = first_record(alloc, options, rest)? {
        items.push(item)?;
        rest = after;
    }
    Ok(())
}
