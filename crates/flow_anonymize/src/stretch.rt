//! Octets in a row, and what is shown of them.
ghost use Rattle.std.specs.Prelude.{◌≡◌, ◌≤◌, ◌+◌, ◌++◌, length, take, drop, true, false, [], ◌∷◌, IfSome, OnOk, OnErr};
ghost use Rattle.flow_anonymize.specs.Stretches.{stretch, zeroed, stretch_shown, behind_of, shown_in, put_in, IsJoined};

use std::alloc::AllocError;

/// Octets in a row: the first of them are shown as they stand, those behind as 0, and the last are left out.
#[derive(Clone, Copy, Debug)]
pub(crate) struct Stretch {
    /// How many are shown as they stand.
    pub shown: usize,
    /// In place of how many octets 0 are shown.
    pub zeros: usize,
    /// How many are left out.
    pub skipped: usize,
}

impl Stretch {
    /// That of `shown` octets as they stand, `zeros` in place of which 0 is shown, and `skipped` that are left out.
    pub(crate) fn of(shown: usize, zeros: usize, skipped: usize) -> Stretch
        ensures { result ≡ stretch shown zeros skipped }
    {
        Stretch {
            shown,
            zeros,
            skipped,
        }
    }

    /// Whether nothing is shown of its octets.
    pub(crate) fn shows_none(self) -> bool
        ensures shown { result ≡ true → self.shown ≡ 0 }
        ensures zeros { result ≡ true → self.zeros ≡ 0 }
    {
        self.shown == 0 && self.zeros == 0
    }

    /// Whether it is of no octets.
    pub(crate) fn is_empty(self) -> bool
        ensures { result ≡ true → self ≡ stretch 0 0 0 }
    {
        self.shows_none() && self.skipped == 0
    }

    /// One stretch in place of this one and the next, where one shows what they show.
    pub(crate) fn joined(self, next: Stretch) -> Option<Stretch>
        ensures { IfSome result (λ both. IsJoined both self next) }
    {
        if self.zeros == 0 && self.skipped == 0 {
            let shown = self.shown.checked_add(next.shown)?;
            return Some(Stretch::of(shown, next.zeros, next.skipped));
        }
        if self.skipped == 0 && next.shown == 0 {
            let zeros = self.zeros.checked_add(next.zeros)?;
            return Some(Stretch::of(self.shown, zeros, next.skipped));
        }
        if next.shown == 0 && next.zeros == 0 {
            let skipped = self.skipped.checked_add(next.skipped)?;
            return Some(Stretch::of(self.shown, self.zeros, skipped));
        }
        None
    }
}

/// Appends what stretches show of octets.
///
/// # Errors
/// Want of memory, and then nothing is appended.
pub(crate) fn put_stretches(
    stretches: &[Stretch],
    octets: &[u8],
    text: &mut Vec<u8>,
) -> Result<(), AllocError>
    ensures ok { OnOk result (text.new.items ≡ text.old.items ++ shown_in stretches.now octets.now) }
    ensures err { OnErr result (text.new.items ≡ text.old.items) }
{
    let held = text.len();
    text.extend_from_slice(octets)?;
    // Most plans have one stretch or two.
    let shown = match stretches {
        [only] => close_one(*only, octets, held, text),
        [first, second] => close_two(*first, *second, octets, held, text),
        _ => close_up(stretches, octets, held, text),
    };
    text.truncate(held + shown);
    Ok(())
}

/// Of octets that a text ends with, from `held` on, leaves what stretches show, and answers how many octets that are. Behind
/// these the text has octets that are not meant.
fn close_up(stretches: &[Stretch], octets: &[u8], held: usize, text: &mut Vec<u8>) -> usize
    requires within { held ≤ length text.old.items }
    requires there { drop held text.old.items ≡ octets.now }
    ensures shown { take (held + result) text.new.items
        ≡ take held text.old.items ++ shown_in stretches.now octets.now }
    ensures within { held + result ≤ length text.new.items }
{
    let mut put = 0;
    let mut rest = octets;
    for stretch in stretches {
        // It is read once, before the text is written.
        let stretch = *stretch;
        let left = behind(stretch, rest);
        // What stands before the first octets that are left out is where it is due.
        let moved = put + rest.len() < octets.len();
        put += put_stretch(stretch, rest, moved, held + put, text);
        rest = left;
    }
    put
}

/// [`close_up`] of a single stretch, without a loop.
fn close_one(only: Stretch, octets: &[u8], held: usize, text: &mut Vec<u8>) -> usize
    requires within { held ≤ length text.old.items }
    requires there { drop held text.old.items ≡ octets.now }
    ensures shown { take (held + result) text.new.items
        ≡ take held text.old.items ++ shown_in (only ∷ []) octets.now }
    ensures within { held + result ≤ length text.new.items }
{
    put_stretch(only, octets, false, held, text)
}

/// [`close_up`] of two stretches, without a loop.
fn close_two(
    first: Stretch,
    second: Stretch,
    octets: &[u8],
    held: usize,
    text: &mut Vec<u8>,
) -> usize
    requires within { held ≤ length text.old.items }
    requires there { drop held text.old.items ≡ octets.now }
    ensures shown { take (held + result) text.new.items
        ≡ take held text.old.items ++ shown_in (first ∷ second ∷ []) octets.now }
    ensures within { held + result ≤ length text.new.items }
{
    let rest = behind(first, octets);
    let front = put_stretch(first, octets, false, held, text);
    front + put_stretch(second, rest, true, held + front, text)
}

/// Puts what a stretch shows of octets in place of those of a text from a place on, and answers how many octets that are. The
/// octets stand there already, unless they were moved.
fn put_stretch(
    stretch: Stretch,
    octets: &[u8],
    moved: bool,
    place: usize,
    text: &mut Vec<u8>,
) -> usize
    requires room { place + length octets.now ≤ length text.old.items }
    requires there { moved ≡ false
        → take (length octets.now) (drop place text.old.items) ≡ octets.now }
    ensures text { text.new.items ≡ put_in place (stretch_shown stretch octets.now) text.old.items }
    ensures count { result ≡ length (stretch_shown stretch octets.now) }
{
    let (here, behind) = split(octets, stretch.shown);
    if moved {
        put_at(here, place, text);
    }
    let (hidden, _) = split(behind, stretch.zeros);
    clear_at(hidden.len(), place + here.len(), text);
    here.len() + hidden.len()
}

/// Puts octets in place of those of a text from a place on.
fn put_at(octets: &[u8], place: usize, text: &mut Vec<u8>)
    requires { place + length octets.now ≤ length text.old.items }
    ensures { text.new.items ≡ put_in place octets.now text.old.items }
{
    text[place..place + octets.len()].copy_from_slice(octets);
}

/// Sets `count` octets of a text to 0, from a place on.
fn clear_at(count: usize, place: usize, text: &mut Vec<u8>)
    requires { place + count ≤ length text.old.items }
    ensures { text.new.items ≡ put_in place (zeroed count) text.old.items }
{
    text[place..place + count].fill(0);
}

/// The octets behind those of a stretch.
pub(crate) fn behind(stretch: Stretch, octets: &[u8]) -> &[u8]
    ensures { result.now ≡ behind_of stretch octets.now }
{
    let (_, behind) = split(octets, stretch.shown);
    let (_, behind) = split(behind, stretch.zeros);
    let (_, behind) = split(behind, stretch.skipped);
    behind
}

/// The first `count` octets, or all where there are fewer, and those behind them.
pub(crate) fn split(octets: &[u8], count: usize) -> (&[u8], &[u8])
    ensures front { result.0.now ≡ take count octets.now }
    ensures back { result.1.now ≡ drop count octets.now }
{
    octets.split_at(count.min(octets.len()))
}
