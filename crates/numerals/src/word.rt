//! Words that are compared as octets.
ghost use Rattle.std.specs.Prelude.{◌≡◌};
ghost use Rattle.std.specs.Str.{bytes_eq};

/// Whether `word` is `keyword`, octet for octet.
pub fn is_word(word: &[u8], keyword: &[u8]) -> bool
    ensures { result ≡ bytes_eq word.now keyword.now }
{
    word == keyword
}
