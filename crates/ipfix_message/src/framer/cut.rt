//! Takes octets that are whole messages, as messages, out of the list that holds them.
ghost use Rattle.std.specs.Prelude.{◌≡◌, ◌≤◌, [], length, take, drop, vec_capacity, IfOk, OnOk, OnErr};
ghost use Rattle.ipfix_message.specs.Fronts.{AreCut};

use crate::framer::scan::{Front, front_of};
use bytes::Bytes;
use std::alloc::{AllocError, Global};
use std::mem;

/// Takes the first `whole` octets of `held`, which are whole messages, and answers these messages,
/// in their order. They share one block, which is less than twice as large as they are. `more` is
/// how many octets may come next.
///
/// # Errors
/// Want of memory. Nothing was taken then.
pub fn take_messages(
    held: &mut Vec<u8>,
    whole: usize,
    more: usize,
) -> Result<Vec<Bytes>, AllocError>
    requires { whole ≤ length held.old.items }
    ensures ok { IfOk result (λ out. AreCut (take whole held.old.items) out.items) }
    ensures rest { OnOk result (held.new.items ≡ drop whole held.old.items) }
    ensures err { OnErr result (held.new.items ≡ held.old.items) }
{
    // Messages may be kept for long, and so they don't keep a list that is twice as large.
    if whole > held.capacity() / 2 {
        return hand_over(held, whole, more);
    }
    let alloc = *held.allocator();
    let messages = cut_messages(alloc, Bytes::copy_from_slice(alloc, &held[..whole])?)?;
    drop_front(held, whole);
    Ok(messages)
}

/// Does what [`take_messages`] says by making the list itself the block: no octet of a message is
/// copied. Those behind the messages go into a new list, which has room for `more` behind them, and
/// for as many as this one holds.
///
/// # Errors
/// Want of memory. Nothing was taken then.
fn hand_over(held: &mut Vec<u8>, whole: usize, more: usize) -> Result<Vec<Bytes>, AllocError>
    requires { whole ≤ length held.old.items }
    ensures ok { IfOk result (λ out. AreCut (take whole held.old.items) out.items) }
    ensures rest { OnOk result (held.new.items ≡ drop whole held.old.items) }
    ensures err { OnErr result (held.new.items ≡ held.old.items) }
{
    let alloc = *held.allocator();
    let room = held.len().max((held.len() - whole).saturating_add(more));
    let next = Vec::with_capacity(alloc, room)?;
    let block = match Bytes::from_vec(mem::replace(held, next)) {
        Ok(block) => block,
        Err(refused) => {
            *held = refused.value;
            return Err(AllocError);
        }
    };
    match first_messages(alloc, &block, whole) {
        Ok(messages) => {
            put_back(held, &block.as_slice()[whole..]);
            Ok(messages)
        }
        Err(e) => {
            put_back(held, block.as_slice());
            Err(e)
        }
    }
}

/// Puts `octets` into `held`, which is empty and has room for them.
fn put_back(held: &mut Vec<u8>, octets: &[u8])
    requires { (held.old.items ≡ []) × (length octets.now ≤ vec_capacity held.old) }
    ensures { held.new.items ≡ octets.now }
{
    if held.extend_from_slice(octets).is_err() {
        unreachable!()
    }
}

/// The messages of the first `whole` octets of `block`, which are whole messages.
///
/// # Errors
/// Want of memory.
fn first_messages(alloc: Global, block: &Bytes, whole: usize) -> Result<Vec<Bytes>, AllocError>
    requires { whole ≤ length block.now }
    ensures { IfOk result (λ out. AreCut (take whole block.now) out.items) }
{
    cut_messages(alloc, block.slice(0..whole)?)
}

/// The messages of `octets`, which are whole messages, in their order. They share its block. Where
/// there is no octet, no memory is taken from `alloc`.
///
/// # Errors
/// Want of memory.
fn cut_messages(alloc: Global, mut octets: Bytes) -> Result<Vec<Bytes>, AllocError>
    ensures { IfOk result (λ out. AreCut octets out.items) }
{
    let mut messages = Vec::new(alloc);
    'messages: while let Front::Whole(length) = front_of(octets.as_slice()) {
        messages.push(octets.split_to(length)?)?;
    }
    Ok(messages)
}

/// Moves the octets from `count` on to the front. It touches none where there is nothing to take away, so
/// that small pieces of a long message cost no more than themselves.
fn drop_front(octets: &mut Vec<u8>, count: usize)
    requires { count ≤ length octets.old.items }
    ensures { octets.new.items ≡ drop count octets.old.items }
{
    if count > 0 {
        let left = octets.len() - count;
        octets.copy_within(count.., 0);
        octets.truncate(left);
    }
}
