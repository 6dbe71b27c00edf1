//! A run of a server with all its peers: an exporter connects; the administrator connects, asks and is answered, and goes; then the
//! exporter sends its octets and goes too. When the run has ended, the collectors read what they were sent.

use crate::peers::{reach, send, take_all, wait_until_served};
use crate::stage::{Scene, Stage, run, set_up};
use crate::world::{Left, Time, World};
use mediator_server::{Fault as ListenFault, RunPlan};
use shared_mediator::Closed;
use std::alloc::{AllocError, Global};
use std::net::{Net, Shutdown, SocketAddr, TcpListener, TcpStream};
use std::process::Abort;
use std::sync::Wait;
use std::thread;
use std::thread::Threads;
use std::time::{Clock, Duration};

/// What came of a run.
#[derive(Drop)]
pub(crate) struct Played {
    /// How many messages were accepted, and how many records were handed out.
    pub(crate) counts: (u64, u64),
    /// What the administrator was answered.
    pub(crate) answered: Vec<u8>,
    /// The exporter's address, and the administrator's.
    pub(crate) exporter: SocketAddr,
    pub(crate) admin: SocketAddr,
    /// The name and the address of each collector.
    pub(crate) collectors: Vec<String>,
    /// Whether each collector's socket sent at once, and how long a write to it might take.
    pub(crate) sockets: Vec<(bool, Option<Duration>)>,
    /// What each collector got.
    pub(crate) taken: Vec<Vec<u8>>,
    /// What was noted.
    pub(crate) notes: Vec<u8>,
}

/// What the peers of a run have of it while it runs.
#[derive(Drop)]
struct Met {
    closed: Result<Closed, ListenFault>,
    answered: Vec<u8>,
    exporter: SocketAddr,
    admin: SocketAddr,
    collectors: Vec<TcpStream>,
}

/// Plays a scene, in which the administrator asks this and the exporter sends this, by a clock that shows this.
pub(crate) fn play<
    R: Net<Listener = TcpListener, Stream = TcpStream> + Threads + Wait + Clock + Abort + Sync,
>(
    rt: &R,
    alloc: Global,
    scene: Scene,
    asked: &[u8],
    sent: &[u8],
    time: Option<Time>,
) -> Result<Played, AllocError> {
    let stage = set_up(rt, alloc, scene)?;
    let world = World::new(rt, alloc, time);
    let met = meet(rt, alloc, &world, &stage, asked, sent)?;
    let Left { notes, connected } = world.into_left();
    let sockets = options_of(rt, alloc, &connected)?;
    // The server's ends are closed by now, and so are these.
    drop(connected);
    let mut taken = Vec::new(alloc);
    for collector in &met.collectors {
        taken.push(take_all(rt, alloc, collector))?;
    }
    let closed = met.closed.expect(rt, "a run that ends well");
    Ok(Played {
        counts: (closed.accepted, closed.handed),
        answered: met.answered,
        exporter: met.exporter,
        admin: met.admin,
        collectors: names_of(alloc, &stage.plan)?,
        sockets,
        taken,
        notes,
    })
}

/// A run, with its peers in this thread.
fn meet<R: Net<Listener = TcpListener, Stream = TcpStream> + Threads + Wait + Clock + Abort + Sync>(
    rt: &R,
    alloc: Global,
    world: &World<'_, R>,
    stage: &Stage,
    asked: &[u8],
    sent: &[u8],
) -> Result<Met, AllocError> {
    thread::scope(thread::scope_env(), rt, |scope| {
        let server = scope.spawn(move || run(world, alloc, stage))?;
        let mut collectors = Vec::new(alloc);
        for listener in &stage.listeners {
            let collector = listener.accept().expect(rt, "a server").0;
            // It sends nothing, so that the server need not wait for its end.
            collector.shutdown(Shutdown::Write).expect(rt, "an end");
            collectors.push(collector)?;
        }
        let exporter = reach(rt, stage.plan.exporters.as_str());
        wait_until_served(rt, alloc, stage.plan.admin.as_str());
        let admin = reach(rt, stage.plan.admin.as_str());
        send(rt, &admin, asked);
        admin.shutdown(Shutdown::Write).expect(rt, "an end");
        let answered = take_all(rt, alloc, &admin);
        send(rt, &exporter, sent);
        let exporter_address = exporter.local_addr().expect(rt, "an address");
        drop(exporter);
        Ok(Met {
            closed: server.join(rt),
            answered,
            exporter: exporter_address,
            admin: admin.local_addr().expect(rt, "an address"),
            collectors,
        })
    })
}

/// The collectors of a plan as notes name them.
fn names_of(alloc: Global, plan: &RunPlan) -> Result<Vec<String>, AllocError> {
    let mut names = Vec::new(alloc);
    for collector in &plan.deliver {
        let (name, address) = (collector.subscriber.as_str(), collector.address.as_str());
        names.push(format!(in alloc; "{name} {address}")?)?;
    }
    Ok(names)
}

/// What is set on sockets: whether they send at once, and how long a write may take.
fn options_of(
    rt: &impl Abort,
    alloc: Global,
    sockets: &Vec<TcpStream>,
) -> Result<Vec<(bool, Option<Duration>)>, AllocError> {
    let mut options = Vec::new(alloc);
    for socket in sockets {
        let at_once = socket.nodelay().expect(rt, "an option");
        let patience = socket.write_timeout().expect(rt, "an option");
        options.push((at_once, patience))?;
    }
    Ok(options)
}

/// That a note stands among the notes, on a line of its own.
pub(crate) fn expect_note(rt: &impl Abort, notes: &[u8], note: &str) {
    let mut found = false;
    for line in notes.split(|octet| *octet == b'\n') {
        if line.ends_with(note.as_bytes()) {
            found = true;
        }
    }
    assert!(rt; found, "{note}");
}
