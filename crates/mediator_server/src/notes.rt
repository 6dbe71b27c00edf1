//! The notes of a run, a line of the log each: who came and went, and the totals.

use crate::exporters::WhyEnded;
use crate::run_state::Dismissal;
use ipfix_session::Gap;
use log::{Log, error, info, warn};
use mediator_calls::{Limits, SessionId};
use mediator_connections::{Collector, Fault as ServeFault, ServedExporter};
use mediator_state::{Fault as MediatorFault, Receipt};
use shared_mediator::{Closed, Fill, Handed};
use std::fmt::{self, Display, Formatter, Write};
use std::io;
use std::net::SocketAddr;

/// A fault as notes tell it: by its cause, where it has one.
#[derive(Clone, Copy)]
struct Cause(ServeFault);

impl Display for Cause {
    fn fmt<W: Write>(&self, f: &mut Formatter<W>) -> fmt::Result {
        match self.0 {
            ServeFault::Framing(why) => why.fmt(f),
            ServeFault::Mediator(why) => why.fmt(f),
            fault => fault.fmt(f),
        }
    }
}

/// What an exporter brought, as notes tell it.
#[derive(Clone, Copy)]
struct Brought(ServedExporter);

impl Display for Brought {
    fn fmt<W: Write>(&self, f: &mut Formatter<W>) -> fmt::Result {
        let ServedExporter {
            messages,
            records,
            gaps,
        } = self.0;
        write!(f, "messages {messages} records {records} gaps {gaps}")
    }
}

/// An address can't be listened on.
pub(crate) fn cannot_listen(rt: &impl Log, address: &str, why: &io::Error) {
    error!(rt; "cannot listen on {address}: {why}");
}

/// A connection couldn't be accepted.
pub(crate) fn cannot_accept(rt: &impl Log, why: &io::Error) {
    error!(rt; "cannot accept a connection: {why}");
}

/// A collector can't be connected to.
pub(crate) fn cannot_connect(rt: &impl Log, collector: &Collector, why: &io::Error) {
    let (name, address) = (collector.subscriber.as_str(), collector.address.as_str());
    error!(rt; "cannot connect to collector {name} {address}: {why}");
}

/// A collector can't be connected to, and is tried again.
pub(crate) fn cannot_reach(rt: &impl Log, collector: &Collector, why: &io::Error) {
    let (name, address) = (collector.subscriber.as_str(), collector.address.as_str());
    warn!(rt; "cannot connect to collector {name} {address} yet: {why}");
}

/// A connection is closed, since no descriptor or no memory is left for it.
pub(crate) fn refused_for_want(rt: &impl Log, peer: SocketAddr, why: &io::Error) {
    warn!(rt; "{peer} refused: {why}");
}

/// A connection is closed, since no memory is left for it.
pub(crate) fn refused_for_memory(rt: &impl Log, peer: SocketAddr) {
    warn!(rt; "{peer} refused: no memory");
}

/// A connection is closed, since no thread is left for it.
pub(crate) fn refused_for_threads(rt: &impl Log, peer: SocketAddr) {
    warn!(rt; "{peer} refused: no thread");
}

/// An exporter has connected, and has a session, which begins at this position of the journal.
pub(crate) fn exporter_begins(rt: &impl Log, peer: SocketAddr, session: SessionId, position: u64) {
    let session = session.0;
    info!(rt; "exporter {peer} connected: session {session} at {position}");
}

/// A message's Sequence Number wasn't the one that was expected (RFC 7011, section 3.1).
pub(crate) fn exporter_gap(rt: &impl Log, peer: SocketAddr, gap: Gap, position: u64) {
    let Gap { expected, got } = gap;
    warn!(rt; "exporter {peer} gap: sequence number {got} for {expected} in the message at {position}");
}

/// No session could be opened for an exporter.
pub(crate) fn exporter_refused(rt: &impl Log, peer: SocketAddr, why: MediatorFault) {
    warn!(rt; "exporter {peer} refused: {why}");
}

/// An exporter's connection has ended.
pub(crate) fn exporter_ends(
    rt: &impl Log,
    peer: SocketAddr,
    ended: Result<ServedExporter, (ServeFault, ServedExporter)>,
    why: WhyEnded,
) {
    match (why, ended) {
        (WhyEnded::Idle, Ok(served) | Err((_, served))) => {
            let brought = Brought(served);
            warn!(rt; "exporter {peer} closed, idle: {brought}")
        }
        (WhyEnded::Closing, Ok(served) | Err((_, served))) => {
            let brought = Brought(served);
            info!(rt; "exporter {peer} closed, the run ends: {brought}")
        }
        (WhyEnded::ItsOwn, Ok(served)) => {
            let brought = Brought(served);
            info!(rt; "exporter {peer} ended: {brought}")
        }
        (WhyEnded::ItsOwn, Err((fault, served))) => {
            let (why, brought) = (Cause(fault), Brought(served));
            warn!(rt; "exporter {peer} failed, {why}: {brought}")
        }
    }
}

/// A message of an exporter cut subscriptions: it had records for them for which there was no room, or with one layout too many.
pub(crate) fn exporter_cuts(rt: &impl Log, peer: SocketAddr, receipt: &Receipt) {
    let (position, cut) = (receipt.position, receipt.cut);
    warn!(rt; "exporter {peer} cut subscriptions: {cut} by the message at {position}");
}

/// The journal is nearly full.
pub(crate) fn journal_nearly_full(rt: &impl Log, fill: Fill, limits: &Limits) {
    let (entries, octets) = (fill.entries, fill.octets);
    let (most_entries, most_octets) = (limits.entries, limits.octets);
    warn!(rt; "the journal is nearly full: entries {entries} of {most_entries} octets {octets} of {most_octets}");
}

/// The journal is full, and the run ends.
pub(crate) fn closes_full(rt: &impl Log) {
    warn!(rt; "the journal is full: the run ends");
}

/// Most of the connections that a run takes were taken.
pub(crate) fn connections_nearly_taken(rt: &impl Log, taken: u64, most: u64) {
    warn!(rt; "connections are nearly used up: {taken} of {most}");
}

/// An exporter is closed as it comes, since as many are there as may be.
pub(crate) fn turned_away(rt: &impl Log, peer: SocketAddr, there: u64) {
    warn!(rt; "exporter {peer} turned away: {there} are connected");
}

/// Collectors that haven't taken what is queued are waited for no longer.
pub(crate) fn collectors_given_up(rt: &impl Log, count: usize) {
    warn!(rt; "collectors given up: {count} did not take what is queued in time");
}

/// An administrator is closed as it comes, since too many wait.
pub(crate) fn administrator_refused(rt: &impl Log, peer: SocketAddr) {
    warn!(rt; "admin {peer} refused: others wait, or the run ends");
}

/// The administrator has connected.
pub(crate) fn admin_begins(rt: &impl Log, peer: SocketAddr) {
    info!(rt; "admin {peer} connected");
}

/// An administrator has put a policy in force: which it is of the run, and the position of the journal from which it is in force.
pub(crate) fn edited(rt: &impl Log, peer: SocketAddr, edit: u64, position: u64) {
    info!(rt; "admin {peer} edit {edit} at {position}");
}

/// The first policy of a run is in force.
pub(crate) fn first_policy(rt: &impl Log, position: u64) {
    info!(rt; "edit 1 at {position}");
}

/// Some groups of aggregates, `count` of them, were open when the run ended, and are lost.
pub(crate) fn groups_left(rt: &impl Log, count: u64) {
    warn!(rt; "groups not closed: {count}");
}

/// The administrator's connection has ended: `answered` says how many commands were answered, or why it ended.
pub(crate) fn admin_ends(
    rt: &impl Log,
    peer: SocketAddr,
    answered: Result<u64, ServeFault>,
    over: Option<Dismissal>,
) {
    match (over, answered) {
        (Some(Dismissal::Silent), _) => {
            warn!(rt; "admin {peer} closed: silent while another waits")
        }
        (Some(Dismissal::Closing), _) => info!(rt; "admin {peer} closed, the run ends"),
        (None, Ok(commands)) => info!(rt; "admin {peer} ended: commands {commands}"),
        (None, Err(fault)) => {
            let why = Cause(fault);
            warn!(rt; "admin {peer} failed, {why}")
        }
    }
}

/// A collector is connected to.
pub(crate) fn collector_begins(rt: &impl Log, collector: &Collector) {
    let (name, address) = (collector.subscriber.as_str(), collector.address.as_str());
    info!(rt; "collector {name} {address} connected");
}

/// A collector is connected to again: `dropped` records had waited for it and were dropped, and `accepted` came while it had no
/// subscription.
pub(crate) fn collector_again(rt: &impl Log, collector: &Collector, dropped: u64, accepted: u64) {
    let (name, address) = (collector.subscriber.as_str(), collector.address.as_str());
    info!(rt; "collector {name} {address} connected again: dropped {dropped} accepted meanwhile {accepted}");
}

/// A collector can't be subscribed anew, and is tried again.
pub(crate) fn cannot_subscribe(rt: &impl Log, collector: &Collector, why: MediatorFault) {
    let (name, address) = (collector.subscriber.as_str(), collector.address.as_str());
    warn!(rt; "collector {name} {address} not subscribed: {why}");
}

/// A collector isn't there when the run ends, and `waited` records wait for it.
pub(crate) fn collector_absent(rt: &impl Log, collector: &Collector, waited: u64) {
    let (name, address) = (collector.subscriber.as_str(), collector.address.as_str());
    warn!(rt; "collector {name} {address} absent at the end: dropped {waited}");
}

/// A delivery has ended, after these messages were pulled; or the subscription was cut before.
pub(crate) fn collector_ends(
    rt: &impl Log,
    collector: &Collector,
    pulled: &[Handed],
    sent: Result<u64, (ServeFault, u64)>,
    cut: bool,
) {
    let (name, address) = (collector.subscriber.as_str(), collector.address.as_str());
    let records = pulled
        .iter()
        .fold(0u64, |sum, handed| sum.saturating_add(handed.records));
    match sent {
        Ok(octets) if cut => {
            warn!(rt; "collector {name} {address} was cut: octets {octets} records {records}")
        }
        Ok(octets) => {
            info!(rt; "collector {name} {address} ended: octets {octets} records {records}")
        }
        Err((ServeFault::Write { sent }, waited)) => {
            warn!(rt; "collector {name} {address} failed, Write: octets {sent} records {records} dropped {waited}")
        }
        Err((fault, _waited)) => {
            let why = Cause(fault);
            warn!(rt; "collector {name} {address} failed, {why}: records {records}")
        }
    }
}

/// All has ended, and the mediator is given back.
pub(crate) fn totals(rt: &impl Log, closed: &Closed) {
    let (accepted, handed) = (closed.accepted, closed.handed);
    info!(rt; "accepted {accepted} handed {handed}");
}
