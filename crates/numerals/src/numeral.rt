//! Numbers that words of digits write.
ghost use Rattle.std.specs.Prelude.{◌≡◌, ℕ, ◌≤◌, Some, IfSome};
ghost use Rattle.numerals.specs.Numerals.{digits_number, number_of, IsNumber};

const DECIMAL: u32 = 10;

/// The number that `word`, of any length, writes in digits of `radix`, from 2 to 36. A digit above
/// 9 is a letter, in either case. `None` where the word is empty, has another character, or writes
/// more than `most`.
pub fn read_digits(word: &[u8], radix: u32, most: u32) -> Option<u32>
    requires low { 2 ≤ radix }
    requires high { radix ≤ 36 }
    ensures { result ≡ digits_number radix most word.now }
{
    if word.is_empty() {
        return None;
    }
    let mut value = 0u64;
    for byte in word {
        let digit = char::from(*byte).to_digit(radix)?;
        value = value * u64::from(radix) + u64::from(digit);
        if value > u64::from(most) {
            return None;
        }
    }
    Some(value as u32)
}

/// The number that `word`, of any length, writes in decimal digits without leading zeros. `None`
/// where it writes none, or more than `most`.
pub fn read_number(word: &[u8], most: u32) -> Option<u32>
    ensures exact { result ≡ number_of most word.now }
    ensures found { IfSome result (λ n. IsNumber most word.now n) }
    ensures only { (n : ℕ) → IsNumber most word.now n → result ≡ Some n }
{
    number(word, most)
}

#[tactic(auto, unfolding(crate::specs::Numerals::number_of))]
fn number(word: &[u8], most: u32) -> Option<u32>
    ensures { result ≡ number_of most word.now }
{
    if word.len() > 1 && word[0] == b'0' {
        return None;
    }
    read_digits(word, DECIMAL, most)
}
