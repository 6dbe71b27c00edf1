//! A server that is to be run: its plan with free addresses, and the listeners of its collectors.

use log::Log;
use mediator_calls::{Limits, Mediator};
use mediator_server::{Collector, Ended, Fault as ListenFault, RunPlan, listen};
use mediator_state::Fault;
use shared_mediator::Closed;
use std::alloc::{AllocError, Global};
use std::net::{Net, TcpListener, TcpStream};
use std::process::Abort;
use std::sync::Wait;
use std::thread::Threads;
use std::time::Clock;

/// All is disclosed to all.
pub(crate) const PASS: &str =
    "policy 1\nrule for * in * from * to * pass\nrule for * in * from * to * element * keep\n";

/// How a server is to be run.
#[derive(Clone, Copy)]
pub(crate) struct Scene {
    pub(crate) policy: &'static str,
    /// To whom is delivered.
    pub(crate) subscribers: &'static [&'static str],
    /// How many templates of a subscription may be known.
    pub(crate) shapes: u32,
    pub(crate) target: u16,
    pub(crate) turns: u64,
}

/// All passes to acme, and nothing is ever full.
pub(crate) const USUAL: Scene = Scene {
    policy: PASS,
    subscribers: &["acme"],
    shapes: 100,
    target: 1400,
    turns: 1000,
};

/// A plan, the limits of its mediator, and the listeners of its collectors.
#[derive(Drop)]
pub(crate) struct Stage {
    pub(crate) plan: RunPlan,
    pub(crate) limits: Limits,
    pub(crate) listeners: Vec<TcpListener>,
}

/// A listener on a port that was free.
fn open_listener<R: Net<Listener = TcpListener, Stream = TcpStream> + Abort>(
    rt: &R,
) -> TcpListener {
    TcpListener::bind(rt, "127.0.0.1:0").expect(rt, "a free port")
}

/// The address of a listener.
fn address_of(
    rt: &impl Abort,
    alloc: Global,
    listener: &TcpListener,
) -> Result<String, AllocError> {
    let address = listener.local_addr().expect(rt, "an address");
    format!(in alloc; "{address}")
}

/// An address on which nobody listens.
fn free_address<R: Net<Listener = TcpListener, Stream = TcpStream> + Abort>(
    rt: &R,
    alloc: Global,
) -> Result<String, AllocError> {
    address_of(rt, alloc, &open_listener(rt))
}

/// A server for one exporter, and collectors that listen.
pub(crate) fn set_up<R: Net<Listener = TcpListener, Stream = TcpStream> + Abort>(
    rt: &R,
    alloc: Global,
    scene: Scene,
) -> Result<Stage, AllocError> {
    let (mut listeners, mut deliver) = (Vec::new(alloc), Vec::new(alloc));
    for name in scene.subscribers {
        let listener = open_listener(rt);
        deliver.push(Collector {
            subscriber: String::from_str(alloc, *name)?,
            address: address_of(rt, alloc, &listener)?,
        })?;
        listeners.push(listener)?;
    }
    let limits = Limits {
        queue: 100,
        shapes: scene.shapes,
        audit: 100,
        entries: 100,
        octets: 1_000_000,
    };
    let plan = RunPlan {
        run: 1,
        exporters: free_address(rt, alloc)?,
        admin: free_address(rt, alloc)?,
        policy: String::from_str(alloc, scene.policy)?,
        connections: 1,
        endless: false,
        target: scene.target,
        turns: scene.turns,
        workers: 2,
        idle: None,
        reconnect: None,
        hold: None,
        drain: None,
        limits,
        deliver,
    };
    Ok(Stage {
        plan,
        limits,
        listeners,
    })
}

/// Runs a server by a plan, on a mediator of its own.
pub(crate) fn run<
    R: Net<Listener = TcpListener, Stream = TcpStream> + Threads + Wait + Clock + Log + Sync,
>(rt: &R, alloc: Global, stage: &Stage) -> Result<Closed, ListenFault> {
    match Mediator::new(alloc, stage.limits) {
        Ok(mediator) => {
            let Ended { closed, stopped: _ } = listen(rt, alloc, &stage.plan, mediator)?;
            Ok(closed)
        }
        Err(_) => Err(ListenFault::Mediator(Fault::OutOfMemory)),
    }
}
