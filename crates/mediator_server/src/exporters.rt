//! The connections of exporters: a session and a thread for each, and what is kept of them.
ghost use Rattle.std.specs.Prelude.{None};

use crate::connections::Connection;
use crate::listeners::Caller;
use crate::notes;
use crate::run_state::RunState;
use crate::service::Service;
use crate::socket_options::keep_alive;
use crate::stream_calls::{is_late, read_on};
use crate::time::{has_passed, now};
use ipfix_reader::FramingFault;
use ipfix_session::Gap;
use log::Log;
use mediator_calls::SessionId;
use mediator_connections::{
    Fault as ServeFault, Patience, Reception, ServedExporter, serve_exporter,
};
use mediator_state::Receipt;
use octet_io::{Failed, Source};
use shared_mediator::{EntryLedger, ExporterHandle, RecordLedger};
use std::alloc::{AllocError, Global};
use std::cell::Cell;
use std::net::{SocketAddr, TcpStream};
use std::sync::{Mutex, Wait};
use std::thread::{self, Scope, Threads};
use std::time::{Clock, Duration};

/// How many milliseconds a message waits for room before it is looked again.
const LOOK_EACH: u64 = 2;

/// How full the journal is, is looked up once for this many entries of it.
const LOOK_EACH_ENTRIES: u64 = 64;

/// The handles of exporters: of those whose threads are about to start, and of those that have ended.
#[derive(Drop)]
pub(crate) struct ExporterHandles<E: EntryLedger> {
    starting: Mutex<Vec<ExporterHandle<E>>>,
    ended: Mutex<Vec<ExporterHandle<E>>>,
}

impl<E: EntryLedger> ExporterHandles<E> {
    /// No handle. What it comes to keep is taken from `alloc`.
    pub(crate) fn new(alloc: Global) -> ExporterHandles<E> {
        ExporterHandles {
            starting: Mutex::new(Vec::new(alloc)),
            ended: Mutex::new(Vec::new(alloc)),
        }
    }

    /// Keeps a handle for a thread that is about to start.
    ///
    /// # Errors
    /// There is no memory: the handle is handed back.
    fn keep(&self, rt: &impl Wait, handle: ExporterHandle<E>) -> Result<(), ExporterHandle<E>> {
        let mut starting = self.starting.lock(rt);
        if starting.reserve(1).is_err() {
            return Err(handle);
        }
        starting.push_reserved(handle);
        Ok(())
    }

    /// The handle that was kept for a session.
    fn take(&self, rt: &impl Wait, session: SessionId) -> Option<ExporterHandle<E>> {
        let mut starting = self.starting.lock(rt);
        let place = starting.iter().position(|one| one.session() == session)?;
        Some(starting.remove(place))
    }

    /// Makes room for the handles of `served` exporters that are served, beside those that have ended.
    ///
    /// # Errors
    /// Want of memory.
    fn make_room(&self, rt: &impl Wait, served: usize) -> Result<(), AllocError> {
        self.ended.lock(rt).reserve(served)
    }

    /// Keeps the handle of an exporter that has ended. Room was made for it, so no memory is wanted.
    fn end(&self, rt: &impl Wait, handle: ExporterHandle<E>) {
        let _kept = self.ended.lock(rt).push(handle);
    }

    /// All that have ended.
    pub(crate) fn into_ended(self) -> Vec<ExporterHandle<E>> {
        let ExporterHandles { starting: _, ended } = self;
        ended.into_inner()
    }
}

/// Opens a session for an exporter, and serves it in a thread of its own. Where there is no session, thread or memory for it, its
/// connection is closed.
pub(crate) fn admit<
    's,
    'r: 's,
    'm: 's,
    'v: 's,
    X: 's,
    E: EntryLedger + Send + Sync,
    H: RecordLedger + Send + Sync,
    R: Threads + Wait + Clock + Log + Sync,
>(rt: &'r R, service: &'v Service<'m, E, H>, scope: &Scope<'s, X>, caller: Caller) {
    let Caller { stream, peer } = caller;
    let Ok(connection) = service.exporters.add(rt, stream, peer) else {
        notes::refused_for_memory(rt, peer);
        return;
    };
    let number = connection.number();
    let Some(session) = open_session(rt, service, peer) else {
        service.exporters.forget(rt, number);
        return;
    };
    match scope.spawn(move || serve_connection(rt, service, connection, session)) {
        Ok(_serving) => {}
        Err(_refused) => {
            notes::refused_for_threads(rt, peer);
            give_up(rt, service, session);
            service.exporters.forget(rt, number);
        }
    }
}

/// Opens a session for an exporter, and keeps its handle for the thread that is to serve it.
fn open_session<E: EntryLedger, H: RecordLedger, R: Wait + Log>(
    rt: &R,
    service: &Service<'_, E, H>,
    peer: SocketAddr,
) -> Option<SessionId> {
    if service
        .handles
        .make_room(rt, service.exporters.len(rt))
        .is_err()
    {
        notes::refused_for_memory(rt, peer);
        return None;
    }
    let handle = match service.shared.exporter(rt) {
        Ok(handle) => handle,
        Err(why) => {
            notes::exporter_refused(rt, peer, why);
            return None;
        }
    };
    let session = handle.session();
    match service.handles.keep(rt, handle) {
        Ok(()) => Some(session),
        Err(handle) => {
            notes::refused_for_memory(rt, peer);
            let _closed = handle.end(rt, service.shared);
            service.handles.end(rt, handle);
            None
        }
    }
}

/// Closes a session that no thread serves.
fn give_up<E: EntryLedger, H: RecordLedger, R: Wait>(
    rt: &R,
    service: &Service<'_, E, H>,
    session: SessionId,
) {
    if let Some(handle) = service.handles.take(rt, session) {
        let _closed = handle.end(rt, service.shared);
        service.handles.end(rt, handle);
    }
}

/// Serves an exporter's connection.
fn serve_connection<E: EntryLedger, H: RecordLedger, R: Threads + Wait + Clock + Log + Sync>(
    rt: &R,
    service: &Service<'_, E, H>,
    connection: Connection,
    session: SessionId,
) {
    if let Some(mut handle) = service.handles.take(rt, session) {
        serve_stream(rt, service, &connection, &mut handle);
        service.handles.end(rt, handle);
    }
    service.exporters.forget(rt, connection.number());
    service.state.wake();
}

/// Serves an exporter's stream.
fn serve_stream<E: EntryLedger, H: RecordLedger, R: Threads + Wait + Clock + Log + Sync>(
    rt: &R,
    service: &Service<'_, E, H>,
    connection: &Connection,
    handle: &mut ExporterHandle<E>,
) {
    let (stream, peer, plan) = (connection.stream(), connection.peer, service.plan);
    notes::exporter_begins(rt, peer, handle.session(), handle.opened_at());
    keep_alive(stream);
    if let Some(seconds) = plan.idle {
        let _patient = stream.set_read_timeout(Some(Duration::from_secs(seconds)));
    }
    let why = Cell::new(WhyEnded::ItsOwn);
    let reception = PeerReception {
        rt,
        service,
        peer,
        begun: Cell::new(Duration::from_secs(0)),
        told: Cell::new(None),
    };
    let ended = thread::scope(thread::scope_env(), rt, |scope| {
        serve_by_workers(rt, service, stream, handle, &why, &reception, scope)
    });
    if is_refusal(&ended) {
        service.state.add_refusal(rt);
    }
    notes::exporter_ends(rt, peer, ended, why.get());
}

/// Serves an exporter's stream by as many workers as the plan says, whose threads `scope` starts, and answers what it brought. `why` is
/// told why it is read no further.
///
/// # Errors
/// Those of [`serve_exporter`].
fn serve_by_workers<
    's,
    'r: 's,
    X: 's,
    E: EntryLedger,
    H: RecordLedger,
    O: Reception,
    R: Wait + Sync,
>(
    rt: &'r R,
    service: &Service<'_, E, H>,
    stream: &TcpStream,
    handle: &mut ExporterHandle<E>,
    why: &Cell<WhyEnded>,
    reception: &O,
    scope: &Scope<'s, X>,
) -> Result<ServedExporter, (ServeFault, ServedExporter)> {
    let mut reader = ExporterReader {
        rt,
        state: &service.state,
        stream,
        why,
        has_failed: false,
    };
    serve_exporter(
        rt,
        service.alloc,
        service.shared,
        handle,
        &mut reader,
        service.plan.turns,
        service.plan.workers,
        reception,
        scope,
    )
}

/// Whether a stream ended with a message that wasn't accepted.
fn is_refusal(ended: &Result<ServedExporter, (ServeFault, ServedExporter)>) -> bool {
    match ended {
        Ok(_) | Err((ServeFault::Read | ServeFault::Write { .. } | ServeFault::Turns, _)) => false,
        Err((ServeFault::Framing(why), _)) => *why != FramingFault::CutOff,
        Err((ServeFault::Mediator(_) | ServeFault::TooWide | ServeFault::TooManyCounts, _)) => true,
    }
}

/// Why an exporter's stream is read no further.
#[derive(Clone, Copy, PartialEq, Eq)]
pub(crate) enum WhyEnded {
    /// It ended, or failed.
    ItsOwn,
    /// Nothing came for as long as the plan allows.
    Idle,
    /// The run ends.
    Closing,
}

/// What is read of an exporter: nothing more where the run ends.
#[derive(Drop)]
struct ExporterReader<'r, 'v, 'c, 'w, R> {
    rt: &'r R,
    state: &'v RunState,
    stream: &'c TcpStream,
    why: &'w Cell<WhyEnded>,
    has_failed: bool,
}

impl<R: Wait> Source for ExporterReader<'_, '_, '_, '_, R> {
    ghost remaining = { λ _. None };

    ghost has_failed = { λ reader. reader.has_failed };

    fn read(&mut self, buffer: &mut [u8]) -> Result<usize, Failed> {
        if self.state.is_closing(self.rt) {
            self.why.set(WhyEnded::Closing);
            return Ok(0);
        }
        match read_on(self.rt, self.stream, buffer) {
            Ok(count) => {
                if count == 0 && self.state.is_closing(self.rt) {
                    self.why.set(WhyEnded::Closing);
                }
                Ok(count)
            }
            Err(kind) => {
                if self.state.is_closing(self.rt) {
                    self.why.set(WhyEnded::Closing);
                } else if is_late(kind) {
                    self.why.set(WhyEnded::Idle);
                }
                self.has_failed = true;
                Err(Failed)
            }
        }
    }
}

/// What is told of an exporter's messages, and how long one waits.
#[derive(Drop)]
struct PeerReception<'r, 'v, 'm, R, E: EntryLedger, H: RecordLedger> {
    rt: &'r R,
    service: &'v Service<'m, E, H>,
    peer: SocketAddr,
    /// When the wait of the message in hand began.
    begun: Cell<Duration>,
    /// When a gap was told last.
    told: Cell<Option<Duration>>,
}

impl<R: Clock + Log, E: EntryLedger, H: RecordLedger> PeerReception<'_, '_, '_, R, E, H> {
    /// Tells a gap, unless one was told within the last second.
    fn tell_gap(&self, gap: Gap, position: u64) {
        if let Some(told) = self.told.get() {
            if !has_passed(self.rt, told, Duration::from_secs(1)) {
                return;
            }
        }
        self.told.set(Some(now(self.rt)));
        notes::exporter_gap(self.rt, self.peer, gap, position);
    }
}

impl<R: Wait + Clock, E: EntryLedger, H: RecordLedger> Patience
    for PeerReception<'_, '_, '_, R, E, H> {
    fn has_any(&self) -> bool {
        self.service.plan.hold.is_some()
    }

    fn wait(&self, waits: u64) -> bool {
        wait_a_moment(self.rt, self.service, &self.begun, waits)
    }
}

impl<R: Wait + Clock + Log, E: EntryLedger, H: RecordLedger> Reception
    for PeerReception<'_, '_, '_, R, E, H> {
    fn accept(&self, receipt: &Receipt, _octets: usize) {
        self.service.state.add_message(self.rt, receipt);
        if receipt.cut > 0 {
            notes::exporter_cuts(self.rt, self.peer, receipt);
        }
        if let Some(gap) = receipt.gap {
            self.tell_gap(gap, receipt.position);
        }
        if receipt.position % LOOK_EACH_ENTRIES == 0 {
            self.service.warn_of_the_journal(self.rt);
        }
    }
}

/// Waits a moment for room in a queue, for a call that has waited `waits` times before; and answers whether to look for it again: not
/// when the plan allows no more time since the first wait, or the run ends.
pub(crate) fn wait_a_moment<R: Wait + Clock, E: EntryLedger, H: RecordLedger>(
    rt: &R,
    service: &Service<'_, E, H>,
    begun: &Cell<Duration>,
    waits: u64,
) -> bool {
    let Some(most) = service.plan.hold else {
        return false;
    };
    if waits == 0 {
        begun.set(now(rt));
    }
    rt.sleep(Duration::from_millis(LOOK_EACH));
    !has_passed(rt, begun.get(), Duration::from_millis(most))
}
