//! Does what `ipmd check-policy` is asked for.

ghost use Rattle.std.specs.Prelude.{◌≡◌, IfErr, IfOk, OnOk, string_bytes};
ghost use Rattle.octet_io.specs.Device.{device_inner};
ghost use Rattle.ipmd_commands.specs.Runs.{CountsPolicy, RefusesToCount, policy_summary};

use crate::fault::Fault;
use crate::output::write_text;
use crate::policy_source::policy_text_of;
use ipmd_command_line::PolicySource;
use octet_io::Device;
use policy_text::Policy;
use std::alloc::{AllocError, Global};
use std::io::Write;
use std::rt::Files;

/// Reads the policy of `source`, and writes how many rules and aggregates it has to `output`, as a line. `rt` reads the policy's
/// file and gives memory.
///
/// # Errors
/// That of the policy's source; `Policy` where its text is none; `Device`, of the output, where that fails; or `OutOfMemory`.
/// Only where the output fails a front of the line may have been written.
#[tactic(auto, using(crate::proofs::Lines::kept))]
pub fn check_policy<R: Files + AllocGlobal, O: Write>(
    rt: &R,
    source: PolicySource<'_>,
    output: &mut Device<O>,
) -> Result<(), Fault>
    ensures ok { OnOk result (CountsPolicy source.entry
        (O.contents (device_inner output.old)) (O.contents (device_inner output.new))) }
    ensures err { IfErr result (λ e. RefusesToCount source.entry e
        (O.contents (device_inner output.old)) (O.contents (device_inner output.new))) }
{
    let text = policy_text_of(rt, source)?;
    let policy = Policy::parse(rt.alloc(), text.as_str())?;
    let counts = count_line(rt.alloc(), &policy)?;
    write_text(output, counts.as_str())
}

/// How many rules and aggregates a policy has, as a line.
fn count_line(alloc: Global, policy: &Policy) -> Result<String, AllocError>
    ensures { IfOk result (λ line. string_bytes line ≡ policy_summary policy.now) }
{
    let rules = policy.rules().len();
    let aggregates = policy.aggregates().len();
    format!(in alloc; "rules {rules} aggregates {aggregates}\n")
}
