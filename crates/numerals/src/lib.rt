//! Words that are numbers: digits of any radix, and decimal numbers in their one form, without leading
//! zeros. A word may be of any length, and its number is bounded by the caller. Reading takes no memory.
//! Beside these, whether a word is a keyword.
//!
//! - `numeral`: [`read_number`] and [`read_digits`].
//! - `word`: [`is_word`], whether a word is a keyword.
//!
//! Proved: `read_number` finds a number exactly where the word is that number as it is printed, up to the caller's
//! bound (`found`, `only`, `exact`); `read_digits` is the value of digits in any radix from 2 to 36, exactly.
#![tactic(auto)]

mod numeral;
mod word;

pub use numeral::{read_digits, read_number};
pub use word::is_word;
