//! Does what `ipmd serve` is asked for.

ghost use Rattle.std.specs.Prelude.{IfErr, IfOk, OnOk, string_bytes};
ghost use Rattle.octet_io.specs.Device.{device_inner};
ghost use Rattle.ipmd_settings.specs.Asked.{asked_service};
ghost use Rattle.ipmd.specs.Serving.{FailsToServe, IsAskedFor, IsServiceOf, RefusesToPrepare, ServesRuns};

use crate::descriptors::warn_of_few;
use crate::notes::Notes;
use crate::noting::Noting;
use crate::runs::serve_runs;
use crate::system::System;
use ipmd_commands::{Fault as ProgramFault, read_text};
use ipmd_settings::{Settings, read_settings};
use log::Log;
use mediator_calls::Limits;
use mediator_server::RunPlan;
use octet_io::Device;
use std::env::{self, Env};
use std::io::Write;
use std::net::{Net, TcpListener, TcpStream};
use std::os::fd::RawFd;
use std::rt::Files;

/// What is to be served.
#[derive(Drop)]
pub(crate) struct Service {
    /// How the next run is to serve.
    pub(crate) plan: RunPlan,
    /// The limits of each run's mediator.
    pub(crate) limits: Limits,
    /// The path under which the runs' journals are kept, where they are.
    pub(crate) journal: Option<String>,
    /// How many runs may follow each other.
    pub(crate) runs: u64,
}

/// Serves exporters and collectors as the settings in the file whose path is `path` say, and writes to `output` what was accepted
/// and handed out when all of them have ended: a run. Where its journal was full and nobody stopped it, another run begins with
/// the policy that was last in force, as often as the settings allow. Each run's journal is kept, where the settings have a path
/// for it. `errors`, whose descriptor is `descriptor`, gets the notes of the runs, but for those that would wait there. All that
/// is asked of the system goes through `rt`.
///
/// # Errors
/// In this order: `Device` where the settings' file can't be read or isn't UTF-8, `Settings`, and `Device` for the policy's file
/// and the journals' folder, each with its path; then of a run the refusals of `listen`: `Policy` or `Mediator` where the mediator
/// refuses the policy or a subscriber, `Device` where an address can't be listened on or connected to or a thread is refused,
/// `Close`; `Device` where the output fails, and, behind the run's line, where its journal can't be kept; `OutOfMemory`.
#[tactic(auto, using(ipmd_commands::proofs::Lines::kept))]
pub(crate) fn serve<
    R: System + Net<Listener = TcpListener, Stream = TcpStream>,
    O: Write,
    E: Write + Send,
>(
    rt: &R,
    path: &str,
    output: &mut Device<O>,
    errors: &mut Device<E>,
    descriptor: RawFd,
) -> Result<(), ProgramFault>
    ensures ok { OnOk result (ServesRuns
        (O.contents (device_inner output.old)) (O.contents (device_inner output.new))) }
    ensures err { IfErr result (λ e. FailsToServe path.now e
        (O.contents (device_inner output.old)) (O.contents (device_inner output.new))
        errors.old errors.new) }
{
    let service = prepare(rt, path)?;
    let notes = Notes::over(rt, errors, descriptor, !is_journal(rt));
    let noting = Noting::new(rt, &notes);
    warn_of_few(rt, &noting, &service.plan);
    let served = serve_runs(rt, &noting, service, output);
    noting.flush();
    served
}

/// Whether the notes go to the journal of systemd, which has the time of each: it says so to what it starts.
fn is_journal<R: Env + AllocGlobal>(rt: &R) -> bool {
    env::var(rt, "JOURNAL_STREAM").is_ok()
}

/// Reads the settings and the policy.
///
/// # Errors
/// `Device`, of the file that can't be read or isn't UTF-8; `Settings`; `OutOfMemory`.
#[tactic(auto, using(crate::proofs::Preparing::no_settings, crate::proofs::Preparing::no_policy))]
fn prepare<R: Files + AllocGlobal>(rt: &R, path: &str) -> Result<Service, ProgramFault>
    ensures asked { IfOk result (λ service. IsAskedFor service) }
    ensures err { IfErr result (RefusesToPrepare path.now) }
{
    let text = read_text(rt, path)?;
    let settings = read_settings(rt.alloc(), text.as_str())?;
    let policy = read_text(rt, settings.policy.as_str())?;
    Ok(service_of(settings, policy))
}

/// What settings ask for, with this policy.
fn service_of(settings: Settings, policy: String) -> Service
    ensures { IsServiceOf (asked_service settings) (string_bytes policy) result }
{
    let Settings {
        exporters,
        admin,
        policy: _,
        connections,
        target,
        workers,
        limits,
        turns,
        collectors,
        journal,
        runs,
        idle,
        reconnect,
        hold,
        drain,
        endless,
    } = settings;
    let plan = RunPlan {
        run: 1,
        exporters,
        admin,
        policy,
        connections: u64::from(connections),
        endless,
        target,
        turns,
        workers,
        idle,
        reconnect,
        hold,
        drain,
        limits,
        deliver: collectors,
    };
    Service {
        plan,
        limits,
        journal,
        runs,
    }
}
