//! Makes the runs of a server, which follow each other, and keeps their journals.

ghost use Rattle.std.specs.Prelude.{◌≡◌, ℕ, List, [], IfErr, IfOk, OnOk, string_bytes};
ghost use Rattle.std.specs.Io.KnownBytes.{Appends};
ghost use Rattle.mediator_calls.specs.Limited.{AreAllowed};
ghost use Rattle.mediator_server.specs.Listening.{IsServed};
ghost use Rattle.octet_io.specs.Device.{device_inner};
ghost use Rattle.ipmd_settings.specs.Asked.{AskedService};
ghost use Rattle.ipmd_run_journals.specs.Keeping.{IsSomeFileFault};
ghost use Rattle.ipmd.specs.Serving.{IsAskedFor, IsBeginFault, IsListenFault, IsMadeOf, IsPlanOf, MakesRun, RefusesToTell, ServesRuns, StopsRun, StopsServingRuns, is_followed, policy_after, run_of, run_line};

use crate::serve::Service;
use crate::system::System;
use event_journal::Journal;
use hash_keys::HashKeys;
use ipmd_commands::{Fault as ProgramFault, Place, write_text};
use ipmd_run_journals::{first_free, keep_run};
use log::{Log, info};
use mediator_calls::{Limits, Mediator};
use mediator_server::{Ended, Fault as ListenFault, RunPlan, listen};
use octet_io::Device;
use std::alloc::{AllocError, Global};
use std::hash::RandomState;
use std::io::{self, Write};
use std::net::{Net, TcpListener, TcpStream};
use std::random::RandomSource;
use std::rt::Files;
use std::sync::Wait;
use std::thread::Threads;
use std::time::Clock;

/// Where the journals of runs are kept.
#[derive(Drop)]
struct Keeping {
    /// The path under which they are kept, where they are.
    path: Option<String>,
    /// The number of the next run's file.
    next: u64,
}

/// Makes a run, and another one where its journal was full and nobody stopped it, as often as is allowed; and writes the line of
/// each.
///
/// # Errors
/// `Device` for the journals' folder, or for want of random numbers; then of a run the refusals of `listen`; `Device` where the
/// output fails, and, behind the run's line, where its journal can't be kept; `OutOfMemory`.
#[tactic(auto, using(ipmd_commands::proofs::Lines::kept))]
pub(crate) fn serve_runs<
    R: System,
    N: Net<Listener = TcpListener, Stream = TcpStream> + Threads + Wait + Clock + Log + Sync,
    O: Write,
>(rt: &R, noting: &N, service: Service, output: &mut Device<O>) -> Result<(), ProgramFault>
    requires asked { IsAskedFor service }
    ensures ok { OnOk result (ServesRuns
        (O.contents (device_inner output.old)) (O.contents (device_inner output.new))) }
    ensures err { IfErr result (λ e. StopsServingRuns e
        (O.contents (device_inner output.old)) (O.contents (device_inner output.new))) }
{
    let Service {
        mut plan,
        limits,
        journal,
        runs,
    } = service;
    let mut keeping = keeping_of(rt, journal, runs)?;
    let keys = secret_keys(rt)?;
    let mut run = 1;
    'runs: loop {
        let number = plan.run;
        info!(noting; "run {number}");
        if !serve_run(rt, noting, limits, keys, &mut plan, &mut keeping, output)? {
            return Ok(());
        }
        if run >= runs {
            return Ok(());
        }
        run += 1;
    }
}

/// Makes a run by a plan, keeps its journal, and writes its line. Answers whether another run is to follow; then the plan begins
/// with the policy that was last in force.
///
/// # Errors
/// Those of [`serve_runs`] for a run.
#[tactic(auto, using(ipmd_commands::proofs::Lines::kept, crate::proofs::Running::told_all))]
fn serve_run<
    R: Files + AllocGlobal,
    N: Net<Listener = TcpListener, Stream = TcpStream> + Threads + Wait + Clock + Log + Sync,
    O: Write,
>(
    rt: &R,
    noting: &N,
    limits: Limits,
    keys: HashKeys,
    plan: &mut RunPlan,
    keeping: &mut Keeping,
    output: &mut Device<O>,
) -> Result<bool, ProgramFault>
    requires allowed { AreAllowed limits }
    ensures made { IfOk result (λ more. MakesRun more plan.old plan.new
        (O.contents (device_inner output.old)) (O.contents (device_inner output.new))) }
    ensures err { IfErr result (λ e. StopsRun e plan.old
        (O.contents (device_inner output.old)) (O.contents (device_inner output.new))) }
{
    let ended = make_run(noting, rt.alloc(), plan, limits, keys)?;
    let more = is_followed(&ended);
    let journal = end_run(rt, noting, keeping, ended, output)?;
    if more {
        renew_policy(rt.alloc(), plan, &journal)?;
    }
    Ok(more)
}

/// Whether another run follows one that ended so: its journal was full, and nobody stopped it.
fn is_followed(ended: &Ended) -> bool
    ensures { result ≡ is_followed (run_of ended.now) }
{
    ended.closed.full && !ended.stopped
}

/// Keys of hash tables that no stranger knows.
///
/// # Errors
/// `Device` where the system has no random numbers.
#[tactic(auto, using(crate::proofs::Running::no_numbers))]
fn secret_keys<R: RandomSource>(rt: &R) -> Result<HashKeys, ProgramFault>
    ensures err { IfErr result IsBeginFault }
{
    match RandomState::new(rt) {
        Ok(state) => Ok(HashKeys::secret(&state)),
        Err(why) => Err(ProgramFault::at(Place::RandomNumbers, why)),
    }
}

/// Where the journals of `runs` runs are kept, under `path`. Where several may follow each other, their numbers go on behind
/// those of the folder's files.
///
/// # Errors
/// `Device`, of the folder, where it can't be read; or `OutOfMemory`.
#[tactic(auto, using(crate::proofs::Running::folder_begins))]
fn keeping_of<R: Files + AllocGlobal>(
    rt: &R,
    path: Option<String>,
    runs: u64,
) -> Result<Keeping, ProgramFault>
    ensures err { IfErr result IsBeginFault }
{
    let free = match &path {
        Some(path) => first_free(rt, path.as_str())?,
        None => 1,
    };
    let next = if runs > 1 { free } else { 1 };
    Ok(Keeping { path, next })
}

/// Makes a run by a plan, on a new mediator.
///
/// # Errors
/// Those of `listen`; `OutOfMemory`.
fn make_run<
    N: Net<Listener = TcpListener, Stream = TcpStream> + Threads + Wait + Clock + Log + Sync,
>(
    noting: &N,
    alloc: Global,
    plan: &RunPlan,
    limits: Limits,
    keys: HashKeys,
) -> Result<Ended, ProgramFault>
    requires allowed { AreAllowed limits }
    ensures served { IfOk result (λ ended. IsServed plan.now
        [] ended.closed.mediator.history ended.closed.accepted ended.closed.handed) }
    ensures err { IfErr result IsListenFault }
{
    let mut mediator = Mediator::new(alloc, limits)?;
    mediator.hash_by(keys);
    match listen(noting, alloc, plan, mediator) {
        Ok(ended) => Ok(ended),
        Err(fault) => Err(fault_of(fault)),
    }
}

/// What the program makes of a server's fault.
fn fault_of(fault: ListenFault) -> ProgramFault
    ensures { IsMadeOf fault result }
{
    match fault {
        ListenFault::Bind => ProgramFault::Device(None),
        ListenFault::Connect { .. } => ProgramFault::Device(None),
        ListenFault::NoThread => {
            ProgramFault::failed(Place::Threads, io::Error::other("the system refuses one"))
        }
        ListenFault::Mediator(why) => ProgramFault::from(why),
        ListenFault::Close(_) => ProgramFault::Close,
    }
}

/// Keeps a run's journal, writes the run's line, and answers the journal. The line is written also where the journal can't be
/// kept.
///
/// # Errors
/// `Device` where the output fails or the journal can't be kept; `OutOfMemory`.
#[tactic(auto, using(ipmd_commands::proofs::Lines::kept, crate::proofs::Running::told_some, crate::proofs::Running::told_all))]
fn end_run<R: Files + AllocGlobal, O: Write>(
    rt: &R,
    noting: &impl Log,
    keeping: &mut Keeping,
    ended: Ended,
    output: &mut Device<O>,
) -> Result<Journal, ProgramFault>
    ensures told { OnOk result (Appends
        (O.contents (device_inner output.old)) (O.contents (device_inner output.new))
        (run_line (run_of ended))) }
    ensures journal { IfOk result (λ journal. journal.entries ≡ ended.closed.mediator.history) }
    ensures err { IfErr result (λ e. RefusesToTell e (run_of ended)
        (O.contents (device_inner output.old)) (O.contents (device_inner output.new))) }
{
    let line = line_of(rt.alloc(), &ended)?;
    let Ended { closed, stopped: _ } = ended;
    let journal = closed.mediator.finish().journal;
    let kept = keep(rt, noting, keeping, &journal);
    write_text(output, line.as_str())?;
    kept?;
    Ok(journal)
}

/// Keeps a run's journal, where journals are kept.
///
/// # Errors
/// `Device`, `OutOfMemory`.
#[tactic(auto, using(crate::proofs::Running::kept_somewhere))]
fn keep<R: Files + AllocGlobal>(
    rt: &R,
    noting: &impl Log,
    keeping: &mut Keeping,
    journal: &Journal,
) -> Result<(), ProgramFault>
    ensures err { IfErr result IsSomeFileFault }
{
    if let Some(path) = &keeping.path {
        let name = keep_run(rt, path.as_str(), keeping.next, journal)?;
        info!(noting; "journal {name} written");
        keeping.next = keeping.next.saturating_add(1);
    }
    Ok(())
}

/// Has a plan be that of the next run, which begins with the policy that was last in force: the text of the journal's last edit.
///
/// # Errors
/// `OutOfMemory`.
fn renew_policy(alloc: Global, plan: &mut RunPlan, journal: &Journal) -> Result<(), AllocError>
    ensures { OnOk result ((asked : AskedService) (policy : List ℕ) → IsPlanOf asked policy plan.old
        → IsPlanOf asked (policy_after policy journal.now.entries) plan.new) }
{
    if let Some(text) = journal.last_edit() {
        plan.policy = String::from_str(alloc, text)?;
    }
    plan.run = plan.run.saturating_add(1);
    Ok(())
}

/// How many messages were accepted, and how many records were handed out, as a line.
fn line_of(alloc: Global, ended: &Ended) -> Result<String, AllocError>
    ensures { IfOk result (λ line. string_bytes line ≡ run_line (run_of ended.now)) }
{
    let accepted = ended.closed.accepted;
    let handed = ended.closed.handed;
    format!(in alloc; "accepted {accepted} handed {handed}\n")
}
