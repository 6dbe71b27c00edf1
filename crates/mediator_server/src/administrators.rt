//! The connections of administrators, which are served one after another.
ghost use Rattle.std.specs.Prelude.{None};
ghost use Rattle.std.specs.Io.{ReadsAtMost};

use crate::connections::Connection;
use crate::exporters::wait_a_moment;
use crate::listeners::Caller;
use crate::notes;
use crate::report::{help_page, policy_page, run_page};
use crate::roster::Reach;
use crate::run_state::{Dismissal, RunState};
use crate::service::Service;
use crate::socket_options::{look_while_reading, prepare_to_write};
use crate::stream_calls::{PatientWriter, is_late, read_on};
use crate::time::now;
use admin_text::Topic;
use event_journal::Entry;
use log::Log;
use mediator_calls::SubId;
use mediator_connections::{Control, Patience, serve_admin};
use octet_io::{Failed, Sink, Source};
use shared_mediator::{AdminHandle, EntryLedger, KeptEntry, RecordLedger, SharedMediator};
use std::alloc::AllocError;
use std::cell::Cell;
use std::net::{SocketAddr, TcpStream};
use std::sync::Wait;
use std::time::{Clock, Duration};

/// Has an administrator wait until those before it have ended. Where too many wait, or there is no memory, its connection is closed.
pub(crate) fn admit<E: EntryLedger, H: RecordLedger, R: Wait + Log>(
    rt: &R,
    service: &Service<'_, E, H>,
    caller: Caller,
) {
    let Caller { stream, peer } = caller;
    let Ok(connection) = service.administrators.add(rt, stream, peer) else {
        notes::refused_for_memory(rt, peer);
        return;
    };
    if let Err(connection) = service.state.admit(rt, connection) {
        notes::administrator_refused(rt, peer);
        service.administrators.forget(rt, connection.number());
    }
}

/// Serves administrators with the handle `admin`, one after another, until none is to be served any more.
pub(crate) fn serve_all<E: EntryLedger, H: RecordLedger, R: Wait + Clock + Log>(
    rt: &R,
    service: &Service<'_, E, H>,
    admin: &mut AdminHandle<E>,
) {
    for _ in rt.forever() {
        let Some(connection) = service.state.next_administrator(rt) else {
            return;
        };
        serve_connection(rt, service, admin, &connection);
        service.administrators.forget(rt, connection.number());
    }
}

/// Serves an administrator's connection.
fn serve_connection<E: EntryLedger, H: RecordLedger, R: Wait + Clock + Log>(
    rt: &R,
    service: &Service<'_, E, H>,
    admin: &mut AdminHandle<E>,
    connection: &Connection,
) {
    let (stream, peer, state) = (connection.stream(), connection.peer, &service.state);
    notes::admin_begins(rt, peer);
    prepare_to_write(stream);
    look_while_reading(stream);
    let (is_last, over) = (Cell::new(false), Cell::new(None));
    let mut commands = Commands {
        rt,
        state,
        stream,
        is_last: &is_last,
        over: &over,
        heard: now(rt),
        has_failed: false,
    };
    let mut answers = Answers {
        rt,
        service,
        writer: PatientWriter::new(rt, stream),
        is_last: &is_last,
    };
    let control = RunControl {
        rt,
        service,
        peer,
        begun: Cell::new(Duration::from_secs(0)),
    };
    let answered = serve_admin(
        rt,
        service.alloc,
        service.shared,
        admin,
        &mut commands,
        &mut answers,
        service.plan.turns,
        &control,
    );
    notes::admin_ends(rt, peer, answered, over.get());
}

/// What is read of an administrator: nothing more behind the last answer, or where its time is over.
#[derive(Drop)]
struct Commands<'r, 'v, 'c, 'l, 'o, R> {
    rt: &'r R,
    state: &'v RunState,
    stream: &'c TcpStream,
    is_last: &'l Cell<bool>,
    over: &'o Cell<Option<Dismissal>>,
    /// When something came last.
    heard: Duration,
    has_failed: bool,
}

impl<R: Wait + Clock> Commands<'_, '_, '_, '_, '_, R> {
    /// Waits for octets, as long as this administrator has time.
    fn wait_for(&self, buffer: &mut [u8]) -> Result<usize, Failed>
        ensures { ReadsAtMost result buffer.new }
    {
        for _ in self.rt.forever() {
            if self.is_last.get() {
                return Ok(0);
            }
            if let Some(why) = self.state.dismissal(self.rt, self.heard) {
                self.over.set(Some(why));
                return Ok(0);
            }
            match read_on(self.rt, self.stream, buffer) {
                Ok(count) => return Ok(count),
                Err(kind) if is_late(kind) => {}
                Err(_) => return Err(Failed),
            }
        }
        unreachable!()
    }
}

impl<R: Wait + Clock> Source for Commands<'_, '_, '_, '_, '_, R> {
    ghost remaining = { λ _. None };

    ghost has_failed = { λ commands. commands.has_failed };

    fn read(&mut self, buffer: &mut [u8]) -> Result<usize, Failed> {
        match self.wait_for(buffer) {
            Ok(count) => {
                self.heard = now(self.rt);
                Ok(count)
            }
            Err(Failed) => {
                self.has_failed = true;
                Err(Failed)
            }
        }
    }
}

/// What is written to an administrator. An answer that is written when the journal is full is the last one.
#[derive(Drop)]
struct Answers<'r, 'v, 'm, 'c, 'l, R, E: EntryLedger, H: RecordLedger> {
    rt: &'r R,
    service: &'v Service<'m, E, H>,
    writer: PatientWriter<'r, 'c, R>,
    is_last: &'l Cell<bool>,
}

impl<R: Wait + Clock + Log, E: EntryLedger, H: RecordLedger> Sink
    for Answers<'_, '_, '_, '_, '_, R, E, H> {
    ghost contents = { λ _. None };

    ghost has_failed = { λ answers. answers.writer.has_failed };

    fn write(&mut self, octets: &[u8]) -> Result<usize, Failed> {
        if self.service.closes_full(self.rt) {
            self.is_last.set(true);
        }
        self.writer.write(octets)
    }
}

/// What an administrator asks of the run.
#[derive(Drop)]
struct RunControl<'r, 'v, 'm, R, E: EntryLedger, H: RecordLedger> {
    rt: &'r R,
    service: &'v Service<'m, E, H>,
    peer: SocketAddr,
    /// When the wait of the advance in hand began.
    begun: Cell<Duration>,
}

impl<R: Wait + Clock, E: EntryLedger, H: RecordLedger> Patience
    for RunControl<'_, '_, '_, R, E, H> {
    fn has_any(&self) -> bool {
        self.service.plan.hold.is_some()
    }

    fn wait(&self, waits: u64) -> bool {
        wait_a_moment(self.rt, self.service, &self.begun, waits)
    }
}

impl<R: Wait + Clock + Log, E: EntryLedger, H: RecordLedger> Control
    for RunControl<'_, '_, '_, R, E, H> {
    fn stop(&self) {
        self.service.state.stop(self.rt);
    }

    fn accept(&self, receipt: &KeptEntry) {
        let (state, roster) = (&self.service.state, &self.service.roster);
        match &receipt.entry {
            Entry::Edit { text: _ } => {
                let edit = state.add_edit(self.rt);
                notes::edited(self.rt, self.peer, edit, receipt.position);
            }
            Entry::Subscribe { sub, name } => {
                roster.begin(self.rt, SubId(*sub), name.as_str(), Reach::Nowhere)
            }
            Entry::Unsubscribe { sub } => roster.end(self.rt, SubId(*sub)),
            Entry::Advance { t } => state.set_clock(self.rt, *t),
            _ => {}
        }
    }

    fn tell(&self, topic: Topic, receipts: &[KeptEntry]) -> Result<Vec<u8>, AllocError> {
        let (alloc, plan) = (self.service.alloc, self.service.plan);
        match topic {
            Topic::Subscriptions => self.service.roster.page(self.rt, self.service.shared),
            Topic::Run => run_page(self.rt, self.service),
            Topic::Policy => policy_page(alloc, plan.policy.as_str(), receipts),
            Topic::Help => help_page(alloc),
        }
    }
}
