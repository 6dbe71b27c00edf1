//! The words of a line, read from the left.
ghost use Rattle.std.specs.Prelude.{◌≡◌, ◌≢◌, ◌≤◌, ◌<◌, ℕ, true, false, Some, None, IfSome, slice_index};
ghost use Rattle.std.specs.Option.{option_map};
ghost use Rattle.numerals.specs.Numerals.{number_of, has_leading_zero};
ghost use Rattle.flow_prefix.specs.Reading.{cut_at};
ghost use Rattle.replay_text.specs.Words.{next_word, next_number, last_number, last_word, end_of_line};

use std::marker::Model;

/// What is left of a line. Contracts see the text behind the last space that was read, or that the line has ended.
#[derive(Drop)]
pub(crate) struct Words<'a> {
    rest: Option<&'a str>,
}

impl<'a> Model for Words<'a> {
    ghost use Rattle.std.specs.Option.{option_map};
    ghost use Rattle.replay_text.specs.Words.{Left};

    ghost Value = { Left };

    ghost view = { λ w. option_map (λ text. text.now) w.rest };
}

impl<'a> Words<'a> {
    /// A whole line.
    pub(crate) fn new(line: &'a str) -> Words<'a>
        ensures { result ≡ Some line.now }
    {
        Words { rest: Some(line) }
    }

    /// All that is left, where the line hasn't ended.
    pub(crate) fn rest(&mut self) -> Option<&'a str>
        ensures { option_map (λ text. text.now) result ≡ self.old }
    {
        self.rest
    }

    /// The next word.
    #[tactic(auto, unfolding(crate::specs::Words::next_word))]
    pub(crate) fn word(&mut self) -> Option<&'a str>
        ensures { option_map (λ word. (word.now, self.new)) result ≡ next_word self.old }
    {
        let rest = self.rest?;
        match cut_at(rest, ' ') {
            Some((word, after)) => {
                self.rest = Some(after);
                Some(word)
            }
            None => {
                self.rest = None;
                Some(rest)
            }
        }
    }

    /// The next word as a number from 0 to `most`.
    #[tactic(auto, unfolding(crate::specs::Words::next_number))]
    pub(crate) fn number(&mut self, most: u64) -> Option<u64>
        ensures value { option_map (λ n. (n, self.new)) result ≡ next_number most self.old }
        ensures bound { IfSome result (λ n. n ≤ most) }
    {
        let word = self.word()?;
        read_number(word, most)
    }

    /// That the line has ended.
    #[tactic(auto, unfolding(crate::specs::Words::end_of_line))]
    pub(crate) fn end(&mut self) -> Option<()>
        ensures { result ≡ end_of_line self.old }
    {
        match self.rest {
            Some(_) => None,
            None => Some(()),
        }
    }

    /// The one word that is left as a number from 0 to `most`.
    #[tactic(auto, unfolding(crate::specs::Words::last_number))]
    pub(crate) fn last_number(&mut self, most: u64) -> Option<u64>
        ensures value { result ≡ last_number most self.old }
        ensures bound { IfSome result (λ n. n ≤ most) }
    {
        let number = self.number(most)?;
        self.end()?;
        Some(number)
    }

    /// The one word that is left, or an empty one where the line has ended.
    #[tactic(auto, unfolding(crate::specs::Words::last_word))]
    pub(crate) fn last_word(&mut self) -> Option<&'a str>
        ensures { option_map (λ word. word.now) result ≡ last_word self.old }
    {
        if self.rest.is_none() {
            return Some("");
        }
        let word = self.word()?;
        self.end()?;
        Some(word)
    }
}

/// What stands before the first `separator`, and what stands behind it; `None` where there is none.
pub(crate) fn cut_at(text: &str, separator: char) -> Option<(&str, &str)>
    requires ascii { separator < 128 }
    ensures { option_map (λ sides. (sides.0.now, sides.1.now)) result ≡ cut_at separator text.now }
{
    text.split_once(separator)
}

/// The number that `word` writes, decimal and without leading zeros. `None` where it writes none, or one above `most`. The word
/// may be of any length.
pub fn read_number(word: &str, most: u64) -> Option<u64>
    ensures value { result ≡ number_of most word.now }
    ensures bound { IfSome result (λ n. n ≤ most) }
{
    if !is_plain(word.as_bytes()) {
        return None;
    }
    let number = word.parse::<u64>().ok()?;
    if number <= most { Some(number) } else { None }
}

/// Whether a word that parses is a number as it is printed: it begins neither with a plus nor with a zero before others.
#[tactic(auto, using(crate::proofs::NumberLaws::no_number_after_plus, crate::proofs::NumberLaws::no_number_after_zero))]
fn is_plain(word: &[u8]) -> bool
    ensures plain { result ≡ true → (has_leading_zero word.now ≡ false)
        × (slice_index word.now 0 ≢ 43) }
    ensures other { result ≡ false → (most : ℕ) → number_of most word.now ≡ None }
{
    match word {
        [b'+', ..] => false,
        [b'0', _, ..] => false,
        _ => true,
    }
}
