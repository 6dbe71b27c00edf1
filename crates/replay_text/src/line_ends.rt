//! A policy that is written in one line, with semicolons for its line ends.
ghost use Rattle.std.specs.Prelude.{◌≡◌, IfOk, string_bytes};
ghost use Rattle.replay_text.specs.LineEnds.{with_line_ends};

use std::alloc::{AllocError, Global};

/// The text `text` with a line feed for each semicolon. It takes memory from `alloc`.
///
/// # Errors
/// Want of memory.
pub fn with_line_ends(alloc: Global, text: &str) -> Result<String, AllocError>
    ensures { IfOk result (λ lines. string_bytes lines ≡ with_line_ends text.now) }
{
    text.chars()
        .map(|c| if c == ';' { '\n' } else { c })
        .collect(alloc)
}
