//! Texts that are cut in two where an octet stands.
ghost use Rattle.std.specs.Prelude.{◌≡◌, ◌==◌, ◌<◌, length, position, IfSome};
ghost use Rattle.std.specs.Option.{option_map};
ghost use Rattle.flow_prefix.specs.Reading.{cut_at, at_double};

/// What stands in `text` before its first octet `byte`, and what stands behind it. `None` where it
/// has no such octet.
#[tactic(auto, unfolding(crate::specs::Reading::cut_at))]
pub fn cut_at(text: &[u8], byte: u8) -> Option<(&[u8], &[u8])>
    ensures { option_map (λ sides. (sides.0.now, sides.1.now)) result ≡ cut_at byte text.now }
{
    let at = place_of(text, byte)?;
    Some((&text[..at], &text[at + 1..]))
}

fn place_of(text: &[u8], byte: u8) -> Option<usize>
    ensures value { result ≡ position (λ c. c == byte) text.now }
    ensures within { IfSome result (λ at. at < length text.now) }
{
    text.iter().position(|c| *c == byte)
}

/// What stands before the first `::`, and what stands behind it. `None` where there is none.
pub(crate) fn cut_at_double(text: &[u8]) -> Option<(&[u8], &[u8])>
    ensures { option_map (λ sides. (sides.0.now, sides.1.now)) result ≡ at_double text.now }
{
    for at in 1..text.len() {
        if text[at - 1] == b':' && text[at] == b':' {
            return Some((&text[..at - 1], &text[at + 1..]));
        }
    }
    None
}
