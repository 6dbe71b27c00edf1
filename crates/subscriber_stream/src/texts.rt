//! Texts of records that wait.
ghost use Rattle.std.specs.Prelude.{◌≡◌, ◌≤◌, ◌<◌, ◌+◌, ◌-◌, ◌^◌, ◌∷◌, length, take, drop, slice_index, IfOk};
ghost use Rattle.std.specs.Arc.{arc_value};
ghost use Rattle.std.specs.List.{concat};
ghost use Rattle.ipfix_records.specs.Pieces.{pieces, AreEnds};

#[cfg(test)]
mod tests;

use bytes::Bytes;
use ipfix_records::RunTexts;
use std::alloc::AllocError;
use std::marker::Model;
use std::sync::Arc;

/// The texts of records of one template that wait to be handed out, one after another. Contracts see the list of them.
#[derive(Drop)]
pub(crate) struct Texts {
    /// All texts, also those that were handed out. Other streams may share them.
    texts: Arc<RunTexts>,
    /// How many were handed out.
    handed: usize,
    /// Where the last of these ends.
    start: u32,
}

impl Model for Texts {
    ghost use Rattle.std.specs.Prelude.{◌≤◌, ℕ, List, length, drop};
    ghost use Rattle.std.specs.Arc.{arc_value};
    ghost use Rattle.ipfix_records.specs.Pieces.{pieces, AreEnds};

    ghost Value = { List (List ℕ) };

    ghost view = { λ t. pieces (arc_value t.texts).octets t.start (drop t.handed (arc_value t.texts).ends.items) };

    ghost invariant = { λ t. AreEnds t.start (drop t.handed (arc_value t.texts).ends.items)
        (length (arc_value t.texts).octets) × (t.handed ≤ length (arc_value t.texts).ends.items) };
}

impl Texts {
    ghost use Rattle.subscriber_stream.specs.Texts.{fitting_texts};

    /// The texts that end at these places of the octets.
    pub(crate) fn new(texts: Arc<RunTexts>) -> Texts
        requires { AreEnds 0 (arc_value texts).ends.items (length (arc_value texts).octets) }
        ensures { result ≡ pieces (arc_value texts).octets 0 (arc_value texts).ends.items }
    {
        Texts {
            texts,
            handed: 0,
            start: 0,
        }
    }

    /// How many there are.
    pub(crate) fn len(&self) -> usize
        ensures { result ≡ length self.now }
    {
        self.texts.ends.len() - self.handed
    }

    /// The octets of the first `count` of them.
    pub(crate) fn octets(&self, count: usize) -> usize
        requires { count ≤ length self.now }
        ensures exact { result ≡ length (concat (take count self.now)) }
        ensures few { result < 2 ^ 32 }
    {
        (end_of(&self.texts.ends, self.handed, self.start, count) - self.start) as usize
    }

    /// The first `count` of them, one after another.
    pub(crate) fn front(&self, count: usize) -> &[u8]
        requires { count ≤ length self.now }
        ensures { result.now ≡ concat (take count self.now) }
    {
        let end = end_of(&self.texts.ends, self.handed, self.start, count);
        between(&self.texts.octets, self.start, end)
    }

    /// The first `count` of them, one after another, as one owner more of these octets.
    ///
    /// # Errors
    /// Their owners can't be counted.
    pub(crate) fn shared_front(&self, count: usize) -> Result<Bytes, AllocError>
        requires { count ≤ length self.now }
        ensures { IfOk result (λ octets. octets ≡ concat (take count self.now)) }
    {
        let end = end_of(&self.texts.ends, self.handed, self.start, count);
        self.texts.octets.slice(self.start as usize..end as usize)
    }

    /// How many from the front have at most `room` octets together.
    pub(crate) fn fitting(&self, room: usize) -> usize
        ensures { result ≡ fitting_texts room self.now }
    {
        let most = self.len();
        let all = self.octets(most);
        if all <= room {
            return most;
        }
        for count in 0..most {
            if self.octets(count + 1) > room {
                return count;
            }
        }
        most
    }

    /// Hands out the first `count` of them.
    pub(crate) fn hand_out(&mut self, count: usize)
        requires { count ≤ length self.old }
        ensures { self.new ≡ drop count self.old }
    {
        self.start = end_of(&self.texts.ends, self.handed, self.start, count);
        self.handed += count;
    }
}

/// Where the first `count` texts end behind those that were handed out, of which the last ends at `start`.
fn end_of(ends: &[u32], handed: usize, start: u32, count: usize) -> u32
    requires { handed + count ≤ length ends.now }
    ensures { result ≡ slice_index (start ∷ drop handed ends.now) count }
{
    if count == 0 {
        start
    } else {
        ends[handed + count - 1]
    }
}

/// The octets from one place to another.
fn between(octets: &[u8], start: u32, end: u32) -> &[u8]
    requires order { start ≤ end }
    requires within { end ≤ length octets.now }
    ensures { result.now ≡ take (end - start) (drop start octets.now) }
{
    &octets[start as usize..end as usize]
}
