//! The word behind the name of a command.
ghost use Rattle.std.specs.Prelude.{◌≡◌, ◌≤◌, ◌==◌, not, IfSome};
ghost use Rattle.std.specs.List.{list_all};
ghost use Rattle.numerals.specs.Numerals.{number_of};
ghost use Rattle.admin_text.specs.Reading.{is_one_word};

use std::str::from_utf8;

/// The number that the argument writes, decimal and without leading zeros. `None` where it writes none, or more than `most`.
pub(crate) fn read_number(argument: &[u8], most: u64) -> Option<u64>
    ensures value { result ≡ number_of most argument.now }
    ensures bound { IfSome result (λ n. n ≤ most) }
{
    match from_utf8(argument) {
        Ok(word) => replay_text::read_number(word, most),
        // Digits are ASCII.
        Err(_) => None,
    }
}

/// Whether `argument` is one word: some octets, none of them a space.
pub(crate) fn is_one_word(argument: &[u8]) -> bool
    ensures { result ≡ is_one_word argument.now }
{
    !argument.is_empty() && has_no_space(argument)
}

/// Whether none of the octets is a space.
fn has_no_space(octets: &[u8]) -> bool
    ensures { result ≡ list_all (λ c. not (c == 32)) octets.now }
{
    octets.iter().all(|octet| *octet != b' ')
}
