//! The text of an edit, as its journal keeps it.
ghost use Rattle.std.specs.Prelude.{◌≡◌, IfOk, string_bytes, nat_eq};
ghost use Rattle.std.specs.Cmp.Lexicographic.{pointwise, nat_list_eq_equiv};
ghost use Rattle.std.specs.Cmp.{partial_equiv_from_equiv};

use std::alloc::{AllocError, Global};
use std::marker::Model;

/// A policy's text, as it was handed in. Contracts see its octets.
#[derive(Debug, Drop)]
pub struct PolicyText {
    text: String,
}

impl Model for PolicyText {
    ghost use Rattle.std.specs.Prelude.{List, ℕ, string_bytes};

    ghost Value = { List ℕ };

    ghost view = { λ t. string_bytes t.text };
}

impl PolicyText {
    /// A copy of `text`, in memory from `alloc`.
    ///
    /// # Errors
    /// Want of memory for the copy.
    pub fn new(alloc: Global, text: &str) -> Result<PolicyText, AllocError>
        ensures { IfOk result (λ copy. copy ≡ text.now) }
    {
        let text = String::from_str(alloc, text)?;
        Ok(PolicyText { text })
    }

    /// A policy's text which is `text` itself. It takes no memory.
    pub fn from_string(text: String) -> PolicyText
        ensures { result ≡ string_bytes text }
    {
        PolicyText { text }
    }

    /// The text, as it was handed in.
    pub fn as_str(&self) -> &str
        ensures { result.now ≡ self.now }
    {
        self.text.as_str()
    }
}

impl PartialEq for PolicyText {
    ghost eq = { pointwise nat_eq };

    ghost laws = { partial_equiv_from_equiv nat_list_eq_equiv };

    fn eq(&self, other: &PolicyText) -> bool {
        self.as_str().as_bytes() == other.as_str().as_bytes()
    }
}

impl Eq for PolicyText {
    ghost laws = { nat_list_eq_equiv };
}
