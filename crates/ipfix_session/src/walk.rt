//! The items of a message, one after another.
ghost use Rattle.std.specs.Prelude.{◌≡◌, ◌+◌, ◌-◌, ◌≤◌, ◌<◌, ◌^◌, ◌++◌, ℕ, List, ◌∷◌, length, take, drop, reverse, IfOk, OnOk, None, Some, IsTrue, if◌then◌else◌, ◌==◌};
ghost use Rattle.ipfix_octets.specs.MessageFormat.{longest_message, header_octets, set_header_octets};
ghost use Rattle.ipfix_message.specs.declared.item.Item.{Item};
ghost use Rattle.ipfix_session.specs.Contents.{set_contents, item_contents, contents_after};
ghost use Rattle.ipfix_session.specs.Keeping.{Keeps, AreInForce, MayStandIn, StandIn};
ghost use Rattle.ipfix_session.specs.Answers.{GivesMeant};
ghost use Rattle.ipfix_session.specs.Walking.{contents_in, AddsContents, SkipsAtMost};
ghost use Rattle.ipfix_session.specs.Changing.{after};

use crate::changes::Changes;
use crate::data_set::read_set;
use crate::fault::Fault;
use crate::read::Skips;
use crate::table::Table;
use bytes::Bytes;
use ipfix_message::Item;
use ipfix_records::Records;
use std::alloc::{AllocError, Global};

/// What was read of a message so far.
#[derive(Drop)]
pub(crate) struct Walk {
    /// What the message changes of the domain's templates.
    pub(crate) changes: Changes,
    pub(crate) records: Records,
    pub(crate) skips: Skips,
}

/// Reads the items of a message over the templates of its domain, which stay as they are. The values of its records are
/// cut from the message, and not copied.
///
/// # Errors
/// RecordOverrun where a data record goes past its set, or want of memory.
pub(crate) fn walk_items(
    alloc: Global,
    base: &Table,
    message: &Bytes,
    said: Vec<Item>,
) -> Result<Walk, Fault>
    requires few { length message.now ≤ longest_message }
    requires stand { StandIn (length message.now) said.items }
    ensures reads { (older : List Item) → Keeps base.now.templates older
        → GivesMeant contents_in result (contents_after older message.now said.items) }
    ensures keeps { (older : List Item) → Keeps base.now.templates older
        → IfOk result
        (λ w. AreInForce (after w.changes base.now.templates) (reverse said.items ++ older)) }
{
    let total = said.len();
    let mut state = Walk {
        changes: Changes::new(alloc),
        records: Records::new(alloc),
        skips: Skips {
            unknown: 0,
            reserved: 0,
            refused: 0,
        },
    };
    let mut rest = said.into_iter();
    'items: while let Some(item) = rest.next() {
        read_item(alloc, base, message, item, &mut state)?;
    }
    Ok(state)
}

/// Reads one more item of a message.
fn read_item(
    alloc: Global,
    base: &Table,
    message: &Bytes,
    item: Item,
    state: &mut Walk,
) -> Result<(), Fault>
    requires few { length message.now ≤ longest_message }
    requires stands { MayStandIn (length message.now) item }
    requires room { SkipsAtMost state.old.skips (2 ^ 64 - 2) }
    // The item adds what it holds after those that were read, and changes the templates so.
    ensures reads { (done : List Item)
        → AreInForce (after state.old.changes base.now.templates) done
        → AddsContents (contents_in state.old) (contents_in state.new)
        (item_contents done message.now item) result }
    ensures keeps { (done : List Item)
        → AreInForce (after state.old.changes base.now.templates) done
        → OnOk result (AreInForce (after state.new.changes base.now.templates) (item ∷ done)) }
    // Each item is counted once at most.
    ensures counts { (n : ℕ) → SkipsAtMost state.old.skips n
        → OnOk result (SkipsAtMost state.new.skips (n + 1)) }
{
    match item {
        Item::DataSet { id, start, len } => {
            read_data_set(alloc, base, message, id, start, len, state)
        }
        Item::Skipped { .. } => {
            state.skips.reserved += 1;
            Ok(())
        }
        Item::Refused { id, .. } => {
            state.skips.refused += 1;
            state.changes.withdraw(base, id)?;
            Ok(())
        }
        Item::Withdraw { id } => {
            state.changes.withdraw(base, id)?;
            Ok(())
        }
        Item::WithdrawAll { options } => {
            state.changes.withdraw_all(options);
            Ok(())
        }
        Item::Define { id, template } => {
            state.changes.define(base, id, template)?;
            Ok(())
        }
    }
}

/// Reads a Data Set whose content stands at this place of the message, by the template in force; without
/// one it is skipped.
fn read_data_set(
    alloc: Global,
    base: &Table,
    message: &Bytes,
    id: u16,
    start: usize,
    len: usize,
    state: &mut Walk,
) -> Result<(), Fault>
    requires few { length message.now ≤ longest_message }
    requires stands { (header_octets + set_header_octets ≤ start)
        × (start + len ≤ length message.now) }
    requires room { SkipsAtMost state.old.skips (2 ^ 64 - 2) }
    // The set adds what it holds by the template in force, and changes no template.
    ensures reads { AddsContents (contents_in state.old) (contents_in state.new)
        (set_contents (after state.old.changes base.now.templates id)
        (take len (drop start message.now))) result }
    ensures changes { state.new.changes ≡ state.old.changes }
    // Each set is counted once at most.
    ensures counts { (n : ℕ) → SkipsAtMost state.old.skips n
        → OnOk result (SkipsAtMost state.new.skips (n + 1)) }
{
    let Some(template) = state.changes.get(base, id) else {
        state.skips.unknown += 1;
        return Ok(());
    };
    let content = content_of(message, start, len)?;
    read_set(alloc, template, &content, &mut state.records)
}

/// The `len` octets that stand at the place `start` of the message, cut from it.
fn content_of(message: &Bytes, start: usize, len: usize) -> Result<Bytes, AllocError>
    requires within { start + len ≤ length message.now }
    requires few { length message.now ≤ longest_message }
    ensures { IfOk result (λ content. content ≡ take len (drop start message.now)) }
{
    message.slice(start..start + len)
}
