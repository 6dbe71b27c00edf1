//! Verifying what stays of a run, which can fail for want of memory alone.
ghost use Rattle.std.specs.Prelude.{true, IfOk};
ghost use Rattle.history_verify.specs.Legal.{IsLegal};
ghost use Rattle.history_verify.specs.Answers.{IsVerified};

use history_verify::{Fault as VerifyFault, Verified, verify};
use mediator_calls::Finished;
use std::alloc::{AllocError, Global};

/// Verifies what stays of a run, `finished`, whose history is legal by [`runs_are_legal`](crate::runs_are_legal). It
/// answers how many records were disclosed to each subscription, and what the audit names, in memory from `alloc`.
///
/// # Errors
/// Want of memory, and nothing else.
pub fn verify_finished(alloc: Global, finished: &Finished) -> Result<Verified, AllocError>
    requires legal { IsLegal finished.now.journal.entries }
    ensures { IfOk result (IsVerified true finished.now.journal.entries) }
{
    match verify(alloc, &finished.journal) {
        Ok(verified) => Ok(verified),
        Err(VerifyFault::OutOfMemory) => Err(AllocError),
        Err(VerifyFault::BadHistory { .. }) => unreachable!(),
    }
}
