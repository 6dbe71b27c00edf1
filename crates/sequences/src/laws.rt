//! Laws of what is read by what stood before.
ghost use Rattle.std.specs.Prelude.{◌≡◌, ◌↔◌, ◌∷◌, ◌++◌, [], List, Option};
ghost use Rattle.sequences.specs.Before.{each_with_before, last_of, IsLastOr};

/// Two rules of `each_with_before`: a list without entries gives nothing, and a list with one entry
/// more gives what the list gave, and behind it what the new entry gives after all the others.
pub fn one_entry_more<A, B>()
    ensures start { (f : List A → A → List B) → each_with_before f [] ≡ [] }
    ensures more { (f : List A → A → List B) (h : List A) (e : A)
        → each_with_before f (h ++ e ∷ []) ≡ each_with_before f h ++ f h e }
{}

/// The last value on a list is that of the last entry that has one. It is the start where no entry
/// has a value, and no other value is the last one.
pub fn last_entry_has_the_last_value<A, B>()
    ensures { (f : A → Option B) (start : B) (entries : List A) (value : B)
        → (last_of f start entries ≡ value) ↔ IsLastOr f start entries value }
{}
