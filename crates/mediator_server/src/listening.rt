//! Serves a mediator on sockets, from its first policy until it is given back.
ghost use Rattle.std.specs.Prelude.{◌≡◌, ◌+◌, ◌*◌, ◌≤◌, IfOk};
ghost use Rattle.shared_mediator.specs.Counted.{handed_live};
ghost use Rattle.mediator_server.specs.Listening.{IsServed};

use crate::notes;
use crate::plan::RunPlan;
use crate::service::{Handles, serve};
use log::Log;
use mediator_calls::Mediator;
use mediator_state::Fault as MediatorFault;
use shared_mediator::{Closed, EntryLedger, Fault as CloseFault, RecordLedger, SharedMediator};
use std::alloc::{AllocError, Global};
use std::error::Error;
use std::fmt::{self, Display, Formatter, Write};
use std::io::{self, ErrorKind};
use std::marker::Brand;
use std::net::{Net, TcpListener, TcpStream};
use std::sync::Wait;
use std::sync::ledger::Blank;
use std::thread::Threads;
use std::time::Clock;

/// Why a server ended without giving its mediator back. Its text is its name.
#[derive(Clone, Copy, Debug, PartialEq, Eq)]
pub enum Fault {
    /// One of its two addresses can't be listened on, or a connection couldn't be accepted.
    Bind,
    /// The collector at this place of the plan's list, from 0, can't be connected to.
    Connect { collector: usize },
    /// The system refused to start a thread.
    NoThread,
    /// The policy, or a subscription, was refused; or memory ran out.
    Mediator(MediatorFault),
    /// The run has ended, but the mediator isn't given back, and not for want of memory.
    Close(CloseFault),
}

impl Error for Fault {}

/// How a run ended that gave its mediator back.
#[derive(Drop)]
pub struct Ended {
    /// The mediator, and what its receipts come to.
    pub closed: Closed,
    /// Whether an administrator stopped the run.
    pub stopped: bool,
}

impl Display for Fault {
    ghost use Rattle.std.specs.Prelude.{Option, Some};
    ghost use Rattle.mediator_server.specs.FaultTexts.{text_of_listen};

    ghost output = { λ fault. Some (text_of_listen fault) };

    fn fmt<W: Write>(&self, f: &mut Formatter<W>) -> fmt::Result {
        f.write_str(match self {
            Fault::Bind => "Bind",
            Fault::Connect { .. } => "Connect",
            Fault::NoThread => "NoThread",
            Fault::Mediator(_) => "Mediator",
            Fault::Close(_) => "Close",
        })
    }
}

impl Fault {
    /// What a refusal of a listener is called: memory ran out, or it isn't open.
    pub(crate) fn on_listener(fault: &io::Error) -> Fault {
        match fault.kind() {
            ErrorKind::OutOfMemory => Fault::Mediator(MediatorFault::OutOfMemory),
            _ => Fault::Bind,
        }
    }
}

impl From<MediatorFault> for Fault {
    fn from(fault: MediatorFault) -> Fault {
        match fault {
            // Each handle is one thread's own.
            MediatorFault::NoHandle => Fault::NoThread,
            why => Fault::Mediator(why),
        }
    }
}

impl From<AllocError> for Fault {
    fn from(_e: AllocError) -> Fault {
        Fault::Mediator(MediatorFault::OutOfMemory)
    }
}

impl From<CloseFault> for Fault {
    fn from(fault: CloseFault) -> Fault {
        match fault {
            CloseFault::OutOfMemory => Fault::Mediator(MediatorFault::OutOfMemory),
            why => Fault::Close(why),
        }
    }
}

/// The most handles of a kind: no plan needs more, since there is no memory for them.
const MOST_HANDLES: u64 = 0xffff_ffff;

/// How many handles of each kind a plan needs: for its exporters; or for its deliveries, the administrator, and what sets it up.
fn handles_for(plan: &RunPlan) -> u64
    ensures { result ≤ 0xffff_ffff }
{
    if plan.endless || plan.reconnect.is_some() {
        return MOST_HANDLES;
    }
    let deliveries = plan.deliver.len() as u64;
    let admins = deliveries.saturating_add(2);
    plan.connections.max(admins).min(MOST_HANDLES)
}

/// Serves `mediator` on sockets as `plan` says, and gives it back when all has ended. It puts the plan's policy in force,
/// subscribes each collector, connects to it and delivers to it. It serves the exporters that connect, each in a thread of its
/// own, and administrators one after another. Sockets, threads, clocks and the log are those of `rt`, and memory is taken from
/// `alloc`.
///
/// It ends when exporters and administrators have ended, and what was queued is sent. An administrator may stop the run: then no
/// more exporters come in, and those that are there end behind the message in hand. So it is too when the journal is full. Where
/// all exporters have come and gone, administrators are served for ten seconds more.
///
/// A fault of a connection ends that connection alone: one that sends nonsense, an exporter whose session can't be opened, or one
/// for which descriptors, threads or memory are short. A collector that takes nothing holds up nobody, unless the plan has
/// messages wait for room: its subscription is cut when its queue is full, and its writes fail after a while. One that has gone
/// is connected to again, and subscribed anew, where the plan has that. A subscription that an administrator begins is delivered
/// to nobody. Who comes and goes is noted in the log.
///
/// # Errors
/// `Mediator` where the policy or a subscription was refused, or memory ran out; `Bind` where an address can't be listened on, or
/// a connection couldn't be accepted; `Connect` where a collector can't be connected to; `NoThread` where a thread was refused; or
/// `Close` where the mediator isn't given back. What runs is ended first: all who came in are hung up, and what is queued is
/// sent. The mediator is lost.
pub fn listen<
    R: Net<Listener = TcpListener, Stream = TcpStream> + Threads + Wait + Clock + Log + Sync,
>(rt: &R, alloc: Global, plan: &RunPlan, mediator: Mediator) -> Result<Ended, Fault>
    requires fresh { handed_live mediator ≡ 0 }
    ensures served { IfOk result (λ ended. IsServed plan.now mediator.history
        ended.closed.mediator.history ended.closed.accepted ended.closed.handed) }
{
    let handles = handles_for(plan);
    let (entries, handed) = (Blank::new(2 * handles + 1), Blank::new(handles + 1));
    listen_with::<Brand, Brand, R>(rt, alloc, plan, mediator, handles, entries, handed)
}

/// Serves a mediator as [`listen`] does, with the ledgers `entries` and `handed`, and at most `handles` handles of each kind.
///
/// # Errors
/// Those of [`listen`].
fn listen_with<
    E: EntryLedger + Send + Sync,
    H: RecordLedger + Send + Sync,
    R: Net<Listener = TcpListener, Stream = TcpStream> + Threads + Wait + Clock + Log + Sync,
>(
    rt: &R,
    alloc: Global,
    plan: &RunPlan,
    mediator: Mediator,
    handles: u64,
    entries: Blank,
    handed: Blank,
) -> Result<Ended, Fault>
    requires fresh { handed_live mediator ≡ 0 }
    requires before { E.before ≡ mediator.history }
    // The ledger of entries is whole: a share for each handle of an exporter or an administrator, and one more.
    requires entries_name { entries.name ≡ E.name }
    requires entries_parts { (entries.parts ≡ E.parts) × (E.parts ≡ E.all)
        × (E.all ≡ 2 * handles + 1) }
    // The ledger of records is whole: a share for each delivery, and one more.
    requires handed_name { handed.name ≡ H.name }
    requires handed_parts { (handed.parts ≡ H.parts) × (H.parts ≡ H.all) × (H.all ≡ handles + 1) }
    // Each entry since the beginning has its receipt.
    ensures served { IfOk result (λ ended. IsServed plan.now mediator.history
        ended.closed.mediator.history ended.closed.accepted ended.closed.handed) }
{
    let shared = SharedMediator::<E, H>::new(alloc, mediator, handles, entries, handed);
    let Handles {
        exporters,
        deliveries,
        admins,
        stopped,
    } = serve(rt, alloc, &shared, plan)?;
    match shared.close(exporters, deliveries, admins) {
        Ok(closed) => {
            note_groups_left(rt, &closed.mediator);
            notes::totals(rt, &closed);
            Ok(Ended { closed, stopped })
        }
        Err(fault) => Err(Fault::from(fault)),
    }
}

/// Notes how many groups of aggregates the clock hasn't closed, where there are any.
fn note_groups_left<R: Log>(rt: &R, mediator: &Mediator) {
    match mediator.open_groups() {
        Ok(0) | Err(AllocError) => {}
        Ok(count) => notes::groups_left(rt, count),
    }
}
