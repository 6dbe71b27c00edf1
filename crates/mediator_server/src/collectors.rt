//! The connections to collectors: how each is made, delivered over, ended and made again.

use crate::connections::Connection;
use crate::listeners::OwnAddresses;
use crate::machine_clock::MachineClock;
use crate::notes;
use crate::roster::Reach;
use crate::send_queue::is_sent;
use crate::service::Service;
use crate::socket_options::{look_while_reading, prepare_to_write, reset};
use crate::stream_calls::{PatientWriter, say_farewell};
use crate::time::{has_passed, now};
use log::Log;
use mediator_connections::{Collector, Fault as ServeFault, deliver};
use mediator_state::Fault as MediatorFault;
use shared_mediator::{AdminHandle, DeliveryHandle, EntryLedger, Handed, RecordLedger};
use std::alloc::Global;
use std::io::{self, ErrorKind};
use std::net::{Net, SocketAddr, TcpListener, TcpStream, ToSocketAddrs};
use std::sync::Wait;
use std::time::{Clock, Duration};

/// For this many seconds at most it is waited until the system of a collector has taken the last octets.
const FAREWELL: u64 = 5;

/// In milliseconds: how long it is slept between two looks at what the system of a collector has taken.
const LOOK_EACH: u64 = 20;

/// A collector that hasn't answered after this many seconds counts as one that refuses.
const PATIENCE: u64 = 10;

/// The handles of the deliveries to one collector, of which the last is that of the subscription it has now.
#[derive(Drop)]
pub(crate) struct CollectorHandles<E: EntryLedger, H: RecordLedger> {
    /// Those of its deliveries, in the order of their subscriptions.
    pub(crate) deliveries: Vec<DeliveryHandle<H>>,
    /// That by which it is subscribed.
    pub(crate) admin: AdminHandle<E>,
}

/// What a collector has missed: the records that waited for it, and how many had been accepted by then.
#[derive(Clone, Copy)]
struct Missed {
    dropped: u64,
    accepted: u64,
}

/// How a delivery ended.
#[derive(Clone, Copy)]
enum Delivered {
    /// All was sent; or the subscription was ended by an administrator.
    Over,
    /// The subscription was cut, or the collector has gone.
    Broken(Missed),
}

/// Connects to a collector by the first of its addresses that answers.
///
/// # Errors
/// None answers; or it is the server's own.
pub(crate) fn connect<R: Net<Listener = TcpListener, Stream = TcpStream>>(
    rt: &R,
    own: OwnAddresses,
    address: &str,
) -> io::Result<(TcpStream, SocketAddr)> {
    let mut last = io::Error::from(ErrorKind::AddrNotAvailable);
    for peer in address.to_socket_addrs(rt)? {
        if own.have(peer, peer) {
            return Err(io::Error::from(ErrorKind::AddrInUse));
        }
        match TcpStream::connect_timeout(rt, &peer, Duration::from_secs(PATIENCE)) {
            Ok(stream) => return not_own(own, stream, peer),
            Err(why) => last = why,
        }
    }
    Err(last)
}

/// A connection, where it doesn't lead to the server itself.
fn not_own(
    own: OwnAddresses,
    stream: TcpStream,
    peer: SocketAddr,
) -> io::Result<(TcpStream, SocketAddr)> {
    let local = stream.local_addr()?;
    if own.have(local, peer) {
        return Err(io::Error::from(ErrorKind::AddrInUse));
    }
    prepare_to_write(&stream);
    look_while_reading(&stream);
    Ok((stream, peer))
}

/// Delivers to a collector until the run ends; where the plan has it so, it is connected to again and again.
pub(crate) fn serve<
    E: EntryLedger,
    H: RecordLedger,
    R: Net<Listener = TcpListener, Stream = TcpStream> + Wait + Clock + Log,
>(
    rt: &R,
    service: &Service<'_, E, H>,
    collector: &Collector,
    mut handles: CollectorHandles<E, H>,
    first: Option<Connection>,
) -> CollectorHandles<E, H> {
    let (mut next, mut missed) = (first, None);
    for _ in rt.forever() {
        let reached = match next {
            Some(connection) => Some(connection),
            None => reach(rt, service, collector),
        };
        next = None;
        let Some(connection) = reached else {
            note_unreached(rt, service, collector, &handles);
            return handles;
        };
        let number = connection.number();
        let delivered = deliver_anew(rt, service, collector, &mut handles, missed, connection);
        service.collectors.forget(rt, number);
        let (Delivered::Broken(gap), Some(seconds)) = (delivered, service.plan.reconnect) else {
            return handles;
        };
        missed = Some(gap);
        service
            .state
            .wait_until_draining(rt, Duration::from_secs(seconds));
    }
    unreachable!()
}

/// Connects to a collector, and tries that until it answers; none where nothing more comes, or it leads to the server itself.
fn reach<
    E: EntryLedger,
    H: RecordLedger,
    R: Net<Listener = TcpListener, Stream = TcpStream> + Wait + Clock + Log,
>(rt: &R, service: &Service<'_, E, H>, collector: &Collector) -> Option<Connection> {
    let seconds = service.plan.reconnect?;
    let mut is_noted = false;
    for _ in rt.forever() {
        if service.state.is_draining(rt) {
            return None;
        }
        match connect(rt, service.own, collector.address.as_str()) {
            Ok((stream, peer)) => return service.collectors.add(rt, stream, peer).ok(),
            Err(why) => {
                if !is_noted {
                    notes::cannot_reach(rt, collector, &why);
                }
                is_noted = true;
            }
        }
        service
            .state
            .wait_until_draining(rt, Duration::from_secs(seconds));
    }
    unreachable!()
}

/// Tells what waited for a collector that isn't there when the run ends.
fn note_unreached<E: EntryLedger, H: RecordLedger, R: Wait + Log>(
    rt: &R,
    service: &Service<'_, E, H>,
    collector: &Collector,
    handles: &CollectorHandles<E, H>,
) {
    if let Some(delivery) = handles.deliveries.last() {
        let waited = match handles.admin.status(rt, service.shared, delivery.sub()) {
            Ok(status) => u64::from(status.queued),
            Err(_) => 0,
        };
        notes::collector_absent(rt, collector, waited);
    }
}

/// Delivers over a new connection: by the subscription that there is, where nothing of it was ever handed out; else by a new one.
fn deliver_anew<E: EntryLedger, H: RecordLedger, R: Wait + Clock + Log>(
    rt: &R,
    service: &Service<'_, E, H>,
    collector: &Collector,
    handles: &mut CollectorHandles<E, H>,
    missed: Option<Missed>,
    connection: Connection,
) -> Delivered {
    match subscribe_anew(rt, service, collector, handles, missed) {
        Ok(Some(missed)) => notes::collector_again(rt, collector, missed.dropped, missed.accepted),
        Ok(None) => notes::collector_begins(rt, collector),
        Err(missed) => return Delivered::Broken(missed),
    }
    deliver_over(rt, service, collector, handles, connection)
}

/// Begins a new subscription, unless the one that there is has handed out nothing yet and isn't cut. Answers what was missed,
/// where it is a new one.
///
/// # Errors
/// The subscription was refused, or memory ran out: what was missed by now.
fn subscribe_anew<E: EntryLedger, H: RecordLedger, R: Wait + Log>(
    rt: &R,
    service: &Service<'_, E, H>,
    collector: &Collector,
    handles: &mut CollectorHandles<E, H>,
    missed: Option<Missed>,
) -> Result<Option<Missed>, Missed> {
    let accepted = service.state.records(rt, false);
    let mut gap = match missed {
        Some(missed) => missed,
        None => Missed {
            dropped: 0,
            accepted,
        },
    };
    if let Some(delivery) = handles.deliveries.last() {
        let sub = delivery.sub();
        if let Ok(status) = handles.admin.status(rt, service.shared, sub) {
            if delivery.kept().is_empty() && !status.cut {
                return Ok(None);
            }
            if missed.is_none() {
                gap.accepted = service.state.records(rt, true);
            }
            gap.dropped = gap.dropped.saturating_add(u64::from(status.queued));
            if handles.admin.unsubscribe(rt, service.shared, sub).is_ok() {
                service.roster.end(rt, sub);
            }
        }
    }
    if let Err(why) = begin(rt, service, collector, handles) {
        notes::cannot_subscribe(rt, collector, why);
        return Err(gap);
    }
    let meanwhile = service
        .state
        .records(rt, false)
        .saturating_sub(gap.accepted);
    Ok(Some(Missed {
        dropped: gap.dropped,
        accepted: meanwhile,
    }))
}

/// Begins a subscription for a collector, with a handle for its delivery.
///
/// # Errors
/// It was refused, or memory ran out.
fn begin<E: EntryLedger, H: RecordLedger, R: Wait>(
    rt: &R,
    service: &Service<'_, E, H>,
    collector: &Collector,
    handles: &mut CollectorHandles<E, H>,
) -> Result<(), MediatorFault> {
    handles.deliveries.reserve(1)?;
    let name = collector.subscriber.as_str();
    let sub = handles.admin.subscribe(rt, service.shared, name)?;
    service.roster.begin(rt, sub, name, Reach::Absent);
    let delivery = service.shared.delivery(rt, sub)?;
    handles.deliveries.push_reserved(delivery);
    Ok(())
}

/// Delivers over a connection.
fn deliver_over<E: EntryLedger, H: RecordLedger, R: Wait + Clock + Log>(
    rt: &R,
    service: &Service<'_, E, H>,
    collector: &Collector,
    handles: &mut CollectorHandles<E, H>,
    connection: Connection,
) -> Delivered {
    let CollectorHandles { deliveries, admin } = handles;
    let Some(delivery) = deliveries.last_mut() else {
        return Delivered::Over;
    };
    let mut writer = PatientWriter::new(rt, connection.stream());
    let clock = MachineClock::of(rt);
    let target = service.plan.target;
    let (shared, sub) = (service.shared, delivery.sub());
    service.roster.reach(rt, sub, Reach::Connected);
    let sent = deliver(rt, shared, delivery, admin, &mut writer, target, &clock);
    service.roster.reach(rt, sub, Reach::Absent);
    let is_cut = match admin.status(rt, shared, sub) {
        Ok(status) => status.cut,
        Err(_) => false,
    };
    notes::collector_ends(rt, collector, delivery.kept(), sent, is_cut);
    match sent {
        Ok(_) => {
            // All was written, so it isn't one that is waited for any more.
            service.collectors.forget(rt, connection.number());
            if is_cut {
                break_off(rt, service.alloc, &connection);
                Delivered::Broken(Missed {
                    dropped: 0,
                    accepted: service.state.records(rt, true),
                })
            } else {
                say_farewell(rt, connection.stream());
                Delivered::Over
            }
        }
        Err((fault, waited)) => Delivered::Broken(Missed {
            dropped: waited.saturating_add(unsent(delivery.kept(), fault)),
            accepted: service.state.records(rt, false),
        }),
    }
}

/// Ends the connection of a subscription that was cut: when the collector's system has all that was written, by a reset, so that
/// the collector can tell this from the end of its stream. Where the system doesn't tell how much it has, by such an end.
fn break_off<R: Wait + Clock>(rt: &R, alloc: Global, connection: &Connection) {
    let begun = now(rt);
    for _ in rt.forever() {
        match is_sent(alloc, connection) {
            Some(true) => return reset(connection.stream()),
            Some(false) => {}
            None => return say_farewell(rt, connection.stream()),
        }
        if has_passed(rt, begun, Duration::from_secs(FAREWELL)) {
            return reset(connection.stream());
        }
        rt.sleep(Duration::from_millis(LOOK_EACH));
    }
}

/// How many of the records that were pulled stand in messages that weren't sent whole.
fn unsent(pulled: &[Handed], fault: ServeFault) -> u64 {
    let ServeFault::Write { sent } = fault else {
        return 0;
    };
    let (mut octets, mut records) = (0u64, 0u64);
    for handed in pulled {
        octets = octets.saturating_add(handed.message.len() as u64);
        if octets > sent {
            records = records.saturating_add(handed.records);
        }
    }
    records
}
