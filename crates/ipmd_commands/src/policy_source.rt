//! The text of a policy, from the file or the words that give it.
ghost use Rattle.std.specs.Prelude.{IfOk, IfErr, string_bytes};
ghost use Rattle.ipmd_commands.specs.Runs.{IsSourceFault, IsSourceText};

use crate::fault::Fault;
use crate::files::read_text;
use ipmd_command_line::PolicySource;
use replay_text::with_line_ends;
use std::rt::Files;

/// The text of the policy that `source` gives: that of a file, which `rt` reads, or words in which each `;` stands for a line
/// end.
///
/// # Errors
/// `Device`, of the file, where it can't be opened or read, or isn't UTF-8; or `OutOfMemory`.
pub fn policy_text_of<R: Files + AllocGlobal>(
    rt: &R,
    source: PolicySource<'_>,
) -> Result<String, Fault>
    ensures text { IfOk result (λ text. IsSourceText source.entry (string_bytes text)) }
    ensures err { IfErr result (IsSourceFault source.entry) }
{
    match source {
        PolicySource::File(path) => read_text(rt, path),
        PolicySource::Text(text) => Ok(with_line_ends(rt.alloc(), text)?),
    }
}
