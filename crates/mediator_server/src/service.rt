//! The threads of a server: one for each collector, one for each exporter, and one for the administrators.
ghost use Rattle.std.specs.Prelude.{◌≡◌, [], IfOk, OnOk};
ghost use Rattle.mediator_server.specs.Listening.{SetsUp, IsSetUp};

use crate::collectors::{self, CollectorHandles};
use crate::connections::{Connection, Connections};
use crate::exporters::{self, ExporterHandles};
use crate::listeners::{Caller, Incoming, Listeners, OwnAddresses};
use crate::listening::Fault;
use crate::plan::RunPlan;
use crate::roster::{Reach, Roster};
use crate::run_state::RunState;
use crate::time::{has_passed, now};
use crate::{administrators, notes};
use log::Log;
use mediator_calls::SubId;
use mediator_connections::Collector;
use mio::Waker;
use shared_mediator::{
    AdminHandle, DeliveryHandle, EntryLedger, ExporterHandle, RecordLedger, SharedMediator,
};
use std::alloc::{AllocError, Global};
use std::net::{Net, TcpListener, TcpStream};
use std::sync::{Mutex, Wait};
use std::thread;
use std::thread::{JoinHandle, Scope, Threads};
use std::time::{Clock, Duration};

/// How many milliseconds pass before it is looked again whether all collectors have taken what is queued.
const LOOK_EACH: u64 = 20;

/// All handles of a run that has ended, and how it ended.
#[derive(Drop)]
pub(crate) struct Handles<E: EntryLedger, H: RecordLedger> {
    /// Those of all exporters.
    pub(crate) exporters: Vec<ExporterHandle<E>>,
    /// Those of all deliveries.
    pub(crate) deliveries: Vec<DeliveryHandle<H>>,
    /// Those by which administrators' calls were made, and the collectors' subscriptions.
    pub(crate) admins: Vec<AdminHandle<E>>,
    /// Whether an administrator stopped the run.
    pub(crate) stopped: bool,
}

/// What the threads of a run share.
#[derive(Drop)]
pub(crate) struct Service<'m, E: EntryLedger, H: RecordLedger> {
    pub(crate) alloc: Global,
    pub(crate) shared: &'m SharedMediator<E, H>,
    pub(crate) plan: &'m RunPlan,
    /// The addresses at which the server is reached.
    pub(crate) own: OwnAddresses,
    /// When the run began, in milliseconds since 1970; 0 where the machine's time can't be read.
    pub(crate) started: u64,
    /// How far the run is.
    pub(crate) state: RunState,
    /// The subscriptions, with their collectors.
    pub(crate) roster: Roster,
    /// The connections of exporters that are open.
    pub(crate) exporters: Connections,
    /// The connections of administrators that are open.
    pub(crate) administrators: Connections,
    /// The connections to collectors that are open, and have something to take.
    pub(crate) collectors: Connections,
    /// The handles of exporters.
    pub(crate) handles: ExporterHandles<E>,
    /// Whether it was warned that the journal is nearly full.
    is_warned: Mutex<bool>,
}

impl<'m, E: EntryLedger, H: RecordLedger> Service<'m, E, H> {
    /// What the threads of a run that begins at `started` share, in milliseconds since 1970. `waker` ends the wait for somebody
    /// to come.
    fn new(
        alloc: Global,
        shared: &'m SharedMediator<E, H>,
        plan: &'m RunPlan,
        own: OwnAddresses,
        started: u64,
        waker: Waker,
    ) -> Service<'m, E, H> {
        Service {
            alloc,
            shared,
            plan,
            own,
            started,
            state: RunState::new(alloc, waker),
            roster: Roster::new(alloc),
            exporters: Connections::new(alloc),
            administrators: Connections::new(alloc),
            collectors: Connections::new(alloc),
            handles: ExporterHandles::new(alloc),
            is_warned: Mutex::new(false),
        }
    }

    /// Whether the journal is full. Then the run ends, which is noted once.
    pub(crate) fn closes_full<R: Wait + Log>(&self, rt: &R) -> bool {
        let is_full = self.shared.full(rt);
        if is_full && self.state.close(rt) {
            notes::closes_full(rt);
        }
        is_full
    }

    /// Warns once where the journal is nearly full.
    pub(crate) fn warn_of_the_journal<R: Wait + Log>(&self, rt: &R) {
        let (fill, limits) = (self.shared.fill(rt), &self.plan.limits);
        if is_nearly(fill.entries, limits.entries) || is_nearly(fill.octets, limits.octets) {
            let mut is_warned = self.is_warned.lock(rt);
            if !*is_warned {
                *is_warned = true;
                notes::journal_nearly_full(rt, fill, limits);
            }
        }
    }
}

/// Whether a number is four fifths of another one, or more.
fn is_nearly(number: u64, most: u64) -> bool {
    number >= most - most / 5
}

/// Serves a shared mediator on sockets as the plan says, and answers all handles when all has ended. The last of the
/// administrators has set the plan up.
///
/// # Errors
/// Those of [`crate::listen`] but for the last.
pub(crate) fn serve<
    E: EntryLedger + Send + Sync,
    H: RecordLedger + Send + Sync,
    R: Net<Listener = TcpListener, Stream = TcpStream> + Threads + Wait + Clock + Log + Sync,
>(
    rt: &R,
    alloc: Global,
    shared: &SharedMediator<E, H>,
    plan: &RunPlan,
) -> Result<Handles<E, H>, Fault>
    ensures set_up { IfOk result (λ handles. IsSetUp plan.now handles.admins.items) }
{
    let mut first = shared.admin(rt)?;
    let subs = set_up(rt, alloc, shared, &mut first, plan)?;
    let mut admin = shared.admin(rt)?;
    let (listeners, waker) = match open_listeners(rt, alloc, plan) {
        Ok(opened) => opened,
        Err(fault) => return Err(fault),
    };
    let own = listeners.own();
    let service = Service::new(alloc, shared, plan, own, milliseconds(rt), waker);
    list_first(rt, &service, &first, &subs);
    let mut handles = serve_all(rt, &service, &mut admin, listeners, subs)?;
    handles.stopped = service.state.is_stopped(rt);
    handles.exporters = service.handles.into_ended();
    handles.admins.reserve(2)?;
    handles.admins.push_reserved(admin);
    handles.admins.push_reserved(first);
    Ok(handles)
}

/// The machine's time, in milliseconds since 1970; 0 where it can't be read.
fn milliseconds(rt: &impl Clock) -> u64 {
    match rt.since_1970() {
        Ok(time) => u64::try_from(time.as_millis()).unwrap_or(0),
        Err(_) => 0,
    }
}

/// Notes the first policy, and lists the first subscriptions, of which no collector is connected yet.
fn list_first<E: EntryLedger, H: RecordLedger, R: Wait + Log>(
    rt: &R,
    service: &Service<'_, E, H>,
    admin: &AdminHandle<E>,
    subs: &Vec<SubId>,
) {
    if let Some(receipt) = admin.kept().first() {
        notes::first_policy(rt, receipt.position);
    }
    for (collector, sub) in service.plan.deliver.iter().zip(subs.iter()) {
        service
            .roster
            .begin(rt, *sub, collector.subscriber.as_str(), Reach::Absent);
    }
}

/// Listens on both addresses.
fn open_listeners<R: Net<Listener = TcpListener, Stream = TcpStream> + Log>(
    rt: &R,
    alloc: Global,
    plan: &RunPlan,
) -> Result<(Listeners, Waker), Fault> {
    let listeners = match Listeners::open(rt, alloc, plan) {
        Ok(listeners) => listeners,
        Err(fault) => return Err(Fault::on_listener(&fault)),
    };
    match listeners.waker() {
        Ok(waker) => Ok((listeners, waker)),
        Err(fault) => Err(Fault::on_listener(&fault)),
    }
}

/// Puts the plan's policy in force, and subscribes each collector, in the order of the plan.
fn set_up<E: EntryLedger, H: RecordLedger>(
    rt: &impl Wait,
    alloc: Global,
    shared: &SharedMediator<E, H>,
    admin: &mut AdminHandle<E>,
    plan: &RunPlan,
) -> Result<Vec<SubId>, Fault>
    requires fresh { admin.old ≡ [] }
    ensures set_up { OnOk result (SetsUp plan.now admin.new) }
{
    let _first = admin.edit(rt, shared, plan.policy.as_str())?;
    let mut subs = Vec::new(alloc);
    'collectors: for collector in plan.deliver.as_slice() {
        subs.reserve(1)?;
        let sub = admin.subscribe(rt, shared, collector.subscriber.as_str())?;
        subs.push_reserved(sub);
    }
    Ok(subs)
}

/// A delivery that is about to start: its handles, and its connection where there is one already.
#[derive(Drop)]
struct Start<E: EntryLedger, H: RecordLedger> {
    handles: CollectorHandles<E, H>,
    connection: Option<Connection>,
}

/// Makes the handles of each delivery, and connects to its collector, unless that is tried again and again.
fn prepare_deliveries<
    E: EntryLedger,
    H: RecordLedger,
    R: Net<Listener = TcpListener, Stream = TcpStream> + Wait + Clock + Log,
>(rt: &R, service: &Service<'_, E, H>, subs: Vec<SubId>) -> Result<Vec<Start<E, H>>, Fault> {
    let mut starts = Vec::new(service.alloc);
    for (place, (collector, sub)) in service.plan.deliver.iter().zip(subs).enumerate() {
        starts.reserve(1)?;
        let connection = if service.plan.reconnect.is_some() {
            None
        } else {
            Some(connect_once(rt, service, collector, place)?)
        };
        let mut deliveries = Vec::new(service.alloc);
        deliveries.reserve(1)?;
        deliveries.push_reserved(service.shared.delivery(rt, sub)?);
        let admin = service.shared.admin(rt)?;
        starts.push_reserved(Start {
            handles: CollectorHandles { deliveries, admin },
            connection,
        });
    }
    Ok(starts)
}

/// Connects to the collector at a place of the plan's list.
fn connect_once<
    E: EntryLedger,
    H: RecordLedger,
    R: Net<Listener = TcpListener, Stream = TcpStream> + Wait + Clock + Log,
>(
    rt: &R,
    service: &Service<'_, E, H>,
    collector: &Collector,
    place: usize,
) -> Result<Connection, Fault> {
    match collectors::connect(rt, service.own, collector.address.as_str()) {
        Ok((stream, peer)) => Ok(service.collectors.add(rt, stream, peer)?),
        Err(why) => {
            notes::cannot_connect(rt, collector, &why);
            Err(Fault::Connect { collector: place })
        }
    }
}

/// Delivers in a thread for each collector while callers are served; then stops, and waits until what is queued is sent.
fn serve_all<
    E: EntryLedger + Send + Sync,
    H: RecordLedger + Send + Sync,
    R: Net<Listener = TcpListener, Stream = TcpStream> + Threads + Wait + Clock + Log + Sync,
>(
    rt: &R,
    service: &Service<'_, E, H>,
    admin: &mut AdminHandle<E>,
    listeners: Listeners,
    subs: Vec<SubId>,
) -> Result<Handles<E, H>, Fault> {
    let starts = prepare_deliveries(rt, service, subs)?;
    thread::scope(thread::scope_env(), rt, |scope| {
        let mut delivering = Vec::new(service.alloc);
        let served = match start_deliveries(rt, service, scope, starts, &mut delivering) {
            Ok(()) => serve_callers(rt, service, admin, listeners),
            Err(fault) => Err(fault),
        };
        admin.stop(rt, service.shared);
        service.state.drain(rt);
        end_slow_collectors(rt, service);
        served?;
        let mut handles = Handles {
            exporters: Vec::new(service.alloc),
            deliveries: Vec::new(service.alloc),
            admins: Vec::new(service.alloc),
            stopped: false,
        };
        join_deliveries(rt, delivering, &mut handles)?;
        Ok(handles)
    })
}

/// Waits for the end of all deliveries, and adds their handles.
fn join_deliveries<E: EntryLedger, H: RecordLedger, R: Threads>(
    rt: &R,
    delivering: Vec<JoinHandle<CollectorHandles<E, H>>>,
    handles: &mut Handles<E, H>,
) -> Result<(), AllocError> {
    for thread in delivering {
        let CollectorHandles { deliveries, admin } = thread.join(rt);
        handles.deliveries.reserve(deliveries.len())?;
        handles.admins.reserve(1)?;
        handles.admins.push_reserved(admin);
        for delivery in deliveries {
            handles.deliveries.push(delivery)?;
        }
    }
    Ok(())
}

/// Starts a delivery to each collector.
fn start_deliveries<
    's,
    'r: 's,
    'm: 's,
    'v: 's,
    X: 's,
    E: EntryLedger + Send + Sync,
    H: RecordLedger + Send + Sync,
    R: Net<Listener = TcpListener, Stream = TcpStream> + Threads + Wait + Clock + Log + Sync,
>(
    rt: &'r R,
    service: &'v Service<'m, E, H>,
    scope: &Scope<'s, X>,
    starts: Vec<Start<E, H>>,
    delivering: &mut Vec<JoinHandle<CollectorHandles<E, H>>>,
) -> Result<(), Fault> {
    for (collector, start) in service.plan.deliver.iter().zip(starts) {
        delivering.reserve(1)?;
        let Start {
            handles,
            connection,
        } = start;
        let started = scope.spawn(move || collectors::serve(
            rt, service, collector, handles, connection,
        ));
        let Ok(thread) = started else {
            return Err(Fault::NoThread);
        };
        delivering.push_reserved(thread);
    }
    Ok(())
}

/// Where the plan has a limit on that, waits until all collectors have taken what was queued, or until the limit, and then ends
/// their connections.
fn end_slow_collectors<E: EntryLedger, H: RecordLedger, R: Wait + Clock + Log>(
    rt: &R,
    service: &Service<'_, E, H>,
) {
    let Some(seconds) = service.plan.drain else {
        return;
    };
    let begun = now(rt);
    for _ in rt.forever() {
        let left = service.collectors.len(rt);
        if left == 0 {
            return;
        }
        if has_passed(rt, begun, Duration::from_secs(seconds)) {
            notes::collectors_given_up(rt, left);
            service.collectors.end_all(rt);
            return;
        }
        rt.sleep(Duration::from_millis(LOOK_EACH));
    }
}

/// Serves who comes in, each exporter in a thread of its own and the administrators in one, until all who are wanted have come and
/// ended. Where that fails, all who are served are hung up, and it waits for their ends.
fn serve_callers<
    E: EntryLedger + Send + Sync,
    H: RecordLedger + Send + Sync,
    R: Threads + Wait + Clock + Log + Sync,
>(
    rt: &R,
    service: &Service<'_, E, H>,
    admin: &mut AdminHandle<E>,
    listeners: Listeners,
) -> Result<(), Fault> {
    thread::scope(thread::scope_env(), rt, |scope| {
        let ended = match start_administrators(rt, service, scope, admin) {
            Ok(()) => take_callers(rt, service, scope, listeners),
            Err(fault) => Err(fault),
        };
        if ended.is_err() {
            service.state.stop(rt);
            service.state.note_exporters_gone(rt);
            service.exporters.end_all(rt);
            service.administrators.end_all(rt);
        }
        ended
    })
}

/// Serves the administrators in a thread.
fn start_administrators<
    's,
    'r: 's,
    'm: 's,
    'v: 's,
    'a: 's,
    X: 's,
    E: EntryLedger + Send + Sync,
    H: RecordLedger + Send + Sync,
    R: Threads + Wait + Clock + Log + Sync,
>(
    rt: &'r R,
    service: &'v Service<'m, E, H>,
    scope: &Scope<'s, X>,
    admin: &'a mut AdminHandle<E>,
) -> Result<(), Fault> {
    match scope.spawn(move || administrators::serve_all(rt, service, admin)) {
        Ok(_serving) => Ok(()),
        Err(_refused) => Err(Fault::NoThread),
    }
}

/// Takes who comes in, until the administrators' thread has ended.
fn take_callers<
    's,
    'r: 's,
    'm: 's,
    'v: 's,
    X: 's,
    E: EntryLedger + Send + Sync,
    H: RecordLedger + Send + Sync,
    R: Threads + Wait + Clock + Log + Sync,
>(
    rt: &'r R,
    service: &'v Service<'m, E, H>,
    scope: &Scope<'s, X>,
    mut listeners: Listeners,
) -> Result<(), Fault> {
    let mut taken = 0u64;
    for _ in rt.forever() {
        if !service.state.is_administered(rt) {
            return Ok(());
        }
        close_in_time(rt, service, &mut listeners, taken);
        match listeners.next(rt) {
            Ok(Some(Incoming::Exporter(caller))) => {
                taken = taken.saturating_add(take_exporter(rt, service, scope, caller, taken))
            }
            Ok(Some(Incoming::Administrator(caller))) => administrators::admit(rt, service, caller),
            Ok(None) => {}
            Err(why) => {
                notes::cannot_accept(rt, &why);
                return Err(Fault::on_listener(&why));
            }
        }
    }
    unreachable!()
}

/// Takes no more exporters where as many have come as the plan has, or where the run is stopped or its journal is full; then
/// those that are there end too. Notes it when none is left.
fn close_in_time<E: EntryLedger, H: RecordLedger, R: Wait + Clock + Log>(
    rt: &R,
    service: &Service<'_, E, H>,
    listeners: &mut Listeners,
    taken: u64,
) {
    let (state, plan) = (&service.state, service.plan);
    if service.closes_full(rt) || state.is_closing(rt) {
        listeners.close_to_exporters();
        service.exporters.end_all(rt);
    } else if !plan.endless && taken >= plan.connections {
        listeners.close_to_exporters();
    }
    if !listeners.take_exporters() && service.exporters.len(rt) == 0 {
        state.note_exporters_gone(rt);
    }
}

/// Serves an exporter, unless as many are there already as may be at a time; and answers how many were taken: one or none.
fn take_exporter<
    's,
    'r: 's,
    'm: 's,
    'v: 's,
    X: 's,
    E: EntryLedger + Send + Sync,
    H: RecordLedger + Send + Sync,
    R: Threads + Wait + Clock + Log + Sync,
>(
    rt: &'r R,
    service: &'v Service<'m, E, H>,
    scope: &Scope<'s, X>,
    caller: Caller,
    taken: u64,
) -> u64 {
    let (plan, more) = (service.plan, taken.saturating_add(1));
    if plan.endless {
        let there = service.exporters.len(rt) as u64;
        if there >= plan.connections {
            notes::turned_away(rt, caller.peer, there);
            return 0;
        }
    } else if more == plan.connections - plan.connections / 5 && plan.connections > 1 {
        notes::connections_nearly_taken(rt, more, plan.connections);
    }
    exporters::admit(rt, service, scope, caller);
    1
}
