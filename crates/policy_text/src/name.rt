//! Names of subscribers and of aggregates.
ghost use Rattle.std.specs.Prelude.{◌≡◌, true, length, IfOk, nat_eq};
ghost use Rattle.std.specs.List.{list_all};
ghost use Rattle.std.specs.Cmp.Lexicographic.{pointwise, nat_list_eq_equiv};
ghost use Rattle.std.specs.Cmp.{partial_equiv_from_equiv};
ghost use Rattle.policy_text.specs.Naming.{is_name, is_name_octet};

use std::alloc::{AllocError, Global};
use std::marker::Model;
use std::str::from_utf8;

/// The most octets of a name.
const LONGEST_NAME: usize = 32;

/// Whether `text` is a name: 1 to 32 of `a` to `z`, `0` to `9`, `-` and `_`, the first of them a
/// letter.
#[tactic(auto, unfolding(crate::specs::Naming::is_name))]
pub fn is_name(text: &str) -> bool
    ensures { result ≡ is_name text.now }
{
    is_name_word(text.as_bytes())
}

/// Whether the word is a name, as [`is_name`] says it of a text.
#[tactic(auto, unfolding(crate::specs::Naming::is_name))]
pub(crate) fn is_name_word(word: &[u8]) -> bool
    ensures { result ≡ is_name word.now }
{
    match word.first() {
        Some(first) => {
            first.is_ascii_lowercase() && are_name_octets(word) && word.len() <= LONGEST_NAME
        }
        None => false,
    }
}

fn are_name_octets(word: &[u8]) -> bool
    ensures { result ≡ list_all is_name_octet word.now }
{
    word.iter().all(|c| c.is_ascii_lowercase() || c.is_ascii_digit() || *c == b'-' || *c == b'_')
}

/// The name of a subscriber or of an aggregate: a word that [`is_name`] accepts.
#[derive(Debug, Drop)]
pub struct Name {
    octets: Vec<u8>,
}

impl Model for Name {
    ghost use Rattle.std.specs.Prelude.{◌≡◌, true, List, ℕ};
    ghost use Rattle.policy_text.specs.Naming.{is_name};

    ghost Value = { List ℕ };

    ghost view = { λ n. n.octets.items };

    ghost invariant = { λ n. is_name n.octets.items ≡ true };
}

impl Name {
    /// The name that `word` is, of which it is known that it is one. It is copied into memory from
    /// `alloc`.
    ///
    /// # Errors
    /// Want of memory for the copy.
    pub fn new(alloc: Global, word: &[u8]) -> Result<Name, AllocError>
        requires { is_name word.now ≡ true }
        ensures { IfOk result (λ name. name ≡ word.now) }
    {
        Ok(Name {
            octets: Vec::from_slice(alloc, word)?,
        })
    }

    /// The name as a text.
    pub fn as_str(&self) -> &str
        ensures { result.now ≡ self.now }
    {
        match from_utf8(self.octets.as_slice()) {
            Ok(text) => text,
            Err(_) => unreachable!(),
        }
    }

    /// The octets of the name, all ASCII.
    pub fn as_bytes(&self) -> &[u8]
        ensures value { result.now ≡ self.now }
        ensures name { is_name self.now ≡ true }
    {
        self.octets.as_slice()
    }
}

impl PartialEq for Name {
    ghost eq = { pointwise nat_eq };

    ghost laws = { partial_equiv_from_equiv nat_list_eq_equiv };

    fn eq(&self, other: &Name) -> bool {
        self.octets.as_slice() == other.octets.as_slice()
    }
}

impl Eq for Name {
    ghost laws = { nat_list_eq_equiv };
}
