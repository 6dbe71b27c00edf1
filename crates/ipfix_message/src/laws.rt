//! The grammar of messages and their reading are one: laws over the definitions alone.
ghost use Rattle.std.specs.Prelude.{◌≡◌, ℕ, List, Ok};
ghost use Rattle.ipfix_message.specs.declared.header.Header.{Header};
ghost use Rattle.ipfix_message.specs.declared.item.Item.{Item};
ghost use Rattle.ipfix_message.specs.Grammar.{IsMessage};
ghost use Rattle.ipfix_message.specs.Reading.{read_header, items_of};

/// What is read as a message is one of the grammar, and what is a message of the grammar is read as that,
/// header and items.
pub fn grammar_is_read()
    ensures found { (octets : List ℕ) (said : List Item) → items_of octets ≡ Ok said
        → (h : Header) × IsMessage octets h said }
    ensures only { (octets : List ℕ) (h : Header) (said : List Item) → IsMessage octets h said
        → (items_of octets ≡ Ok said) × (read_header octets ≡ Ok h) }
{}

/// Octets are at most one message: two readings of them by the grammar are equal.
pub fn one_message()
    ensures { (octets : List ℕ) (g h : Header) (first second : List Item) → IsMessage octets g first
        → IsMessage octets h second → (g ≡ h) × (first ≡ second) }
{}
