//! The words that name calls.
ghost use Rattle.std.specs.Prelude.{◌≡◌};
ghost use Rattle.replay_text.specs.Lines.{verb_of};

use numerals::is_word;

/// Which call a line asks for.
#[derive(Clone, Copy, Debug)]
pub(crate) enum Verb {
    Open,
    Close,
    Receive,
    Edit,
    Subscribe,
    Unsubscribe,
    Advance,
    Pull,
    Status,
    Audit,
}

/// The call that a word names.
#[tactic(auto, unfolding(crate::specs::Lines::verb_of))]
pub(crate) fn verb_of(word: &str) -> Option<Verb>
    ensures { result ≡ verb_of word.now }
{
    let word = word.as_bytes();
    if is_word(word, b"open") {
        Some(Verb::Open)
    } else if is_word(word, b"close") {
        Some(Verb::Close)
    } else if is_word(word, b"receive") {
        Some(Verb::Receive)
    } else if is_word(word, b"edit") {
        Some(Verb::Edit)
    } else if is_word(word, b"subscribe") {
        Some(Verb::Subscribe)
    } else if is_word(word, b"unsubscribe") {
        Some(Verb::Unsubscribe)
    } else if is_word(word, b"advance") {
        Some(Verb::Advance)
    } else if is_word(word, b"pull") {
        Some(Verb::Pull)
    } else if is_word(word, b"status") {
        Some(Verb::Status)
    } else if is_word(word, b"audit") {
        Some(Verb::Audit)
    } else {
        None
    }
}
