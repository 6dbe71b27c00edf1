//! The numbers in the names of journals' files.
ghost use Rattle.std.specs.Prelude.{◌≡◌, ◌<◌, ◌^◌, ℕ, Some};
ghost use Rattle.ipmd_run_journals.specs.Numbering.{file_name, IsAbove};

use numerals::{is_word, read_number};

/// The number with which the files of runs go on in a folder whose names are `names`: 1, or one more than the greatest that there
/// is. `base` is the last name of the path under which journals are kept: the file of run K has the name `BASE.K`. A number is
/// below 2^32, without leading zeros.
pub fn next_number(names: &[Vec<u8>], base: &[u8]) -> u64
    ensures above { IsAbove base.now names.now result }
{
    let mut next = 1u64;
    'names: for name in names {
        if let Some(number) = number_of(name.as_slice(), base) {
            next = next.max(u64::from(number) + 1);
        }
    }
    next
}

/// The number of the run whose file has this name.
fn number_of(name: &[u8], base: &[u8]) -> Option<u32>
    ensures only { (n : ℕ) → n < 2 ^ 32 → name.now ≡ file_name base.now n → result ≡ Some n }
{
    let dot = base.len();
    if dot < name.len() && is_word(&name[..dot], base) && name[dot] == b'.' {
        read_number(&name[dot + 1..], u32::MAX)
    } else {
        None
    }
}
