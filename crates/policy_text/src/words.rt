//! The words of a line, one behind_word another.
ghost use Rattle.std.specs.Prelude.{◌≡◌, ◌∷◌, List, ℕ, ◌<◌, ◌≤◌, length, Ok, IfSome, position, not, IfErr, false};
ghost use Rattle.std.specs.Option.{option_map};
ghost use Rattle.policy_text.specs.Words.{words_of, first_of, is_blank};
ghost use Rattle.policy_text.specs.Results.{Gives, is_memory};
ghost use Rattle.policy_text.specs.Lines.{next_of, behind_word, end_of_words};

use crate::fault::FaultKind;
use numerals::is_word;
use std::marker::Model;

/// The words of a line that were not read yet.
#[derive(Drop)]
pub(crate) struct Words<'a> {
    rest: &'a [u8],
}

impl<'a> Model for Words<'a> {
    ghost use Rattle.std.specs.Prelude.{List, ℕ};
    ghost use Rattle.policy_text.specs.Words.{words_of};

    ghost Value = { List (List ℕ) };

    ghost view = { λ w. words_of w.rest.now };
}

impl<'a> Words<'a> {
    /// The words of a line.
    pub(crate) fn new(line: &'a [u8]) -> Words<'a>
        ensures { result ≡ words_of line.now }
    {
        Words { rest: line }
    }

    /// The next word, or `None` where no word is left.
    pub(crate) fn take(&mut self) -> Option<&'a [u8]>
        ensures { first_of self.old ≡ option_map (λ word. (word.now, self.new)) result }
    {
        let (word, rest) = first_word(self.rest)?;
        self.rest = rest;
        Some(word)
    }

    /// The next word; a line that ends early has none.
    #[tactic(auto, unfolding(crate::specs::Lines::next_of))]
    pub(crate) fn word(&mut self) -> Result<&'a [u8], FaultKind>
        ensures value { Gives (λ word. (word.now, self.new)) result (next_of self.old) }
        ensures no_memory { IfErr result (λ kind. is_memory kind ≡ false) }
    {
        match self.take() {
            Some(word) => Ok(word),
            None => Err(FaultKind::UnknownWord),
        }
    }

    /// That the next word is this one.
    #[tactic(auto, unfolding(crate::specs::Lines::behind_word))]
    pub(crate) fn keyword(&mut self, keyword: &[u8]) -> Result<(), FaultKind>
        ensures value { Gives (λ _. self.new) result (behind_word keyword.now self.old) }
        ensures no_memory { IfErr result (λ kind. is_memory kind ≡ false) }
    {
        let word = self.word()?;
        if is_word(word, keyword) {
            Ok(())
        } else {
            Err(FaultKind::UnknownWord)
        }
    }

    /// That no word is left.
    #[tactic(auto, unfolding(crate::specs::Lines::end_of_words))]
    pub(crate) fn end(&mut self) -> Result<(), FaultKind>
        ensures value { Gives (λ _. tt) result (end_of_words self.old) }
        ensures no_memory { IfErr result (λ kind. is_memory kind ≡ false) }
    {
        match self.take() {
            Some(_) => Err(FaultKind::UnknownWord),
            None => Ok(()),
        }
    }
}

/// The first word of a line, and what stands behind it.
pub(crate) fn first_word(line: &[u8]) -> Option<(&[u8], &[u8])>
    ensures { first_of (words_of line.now) ≡ option_map (λ x. (x.0.now, words_of x.1.now)) result }
{
    let start = first_of_word(line)?;
    let line = &line[start..];
    match first_blank(line) {
        Some(end) => Some((&line[..end], &line[end..])),
        None => Some((line, &line[line.len()..])),
    }
}

fn first_of_word(line: &[u8]) -> Option<usize>
    ensures value { result ≡ position (λ c. not (is_blank c)) line.now }
    ensures within { IfSome result (λ at. at < length line.now) }
{
    line.iter().position(|c| !is_blank(*c))
}

fn first_blank(line: &[u8]) -> Option<usize>
    ensures value { result ≡ position is_blank line.now }
    ensures within { IfSome result (λ at. at < length line.now) }
{
    line.iter().position(|c| is_blank(*c))
}

fn is_blank(c: u8) -> bool
    ensures { result ≡ is_blank c }
{
    c == b' ' || c == b'\t' || c == b'\r'
}
