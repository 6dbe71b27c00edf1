//! Who connects to a server, and to whom it connects.

use std::alloc::Global;
use std::io::{ErrorKind, Read, Write};
use std::net::{Net, Shutdown, TcpListener, TcpStream};
use std::process::Abort;
use std::thread;
use std::time::{Clock, Duration};

/// How often it is tried to reach a server that is about to listen, and how long is waited in between.
const TRIES: u32 = 2000;

const MILLISECONDS: u64 = 5;

/// Connects to a server as soon as it listens.
pub(crate) fn reach<R: Net<Listener = TcpListener, Stream = TcpStream> + Clock + Abort>(
    rt: &R,
    address: &str,
) -> TcpStream {
    for _ in 0..TRIES {
        if let Ok(stream) = TcpStream::connect(rt, address) {
            return stream;
        }
        thread::sleep(rt, Duration::from_millis(MILLISECONDS));
    }
    panic!(rt; "nobody listens on {address}")
}

/// Waits until a server's deliveries to its collectors have begun, by what an administrator at `address` is told. Only then is a
/// subscription that is cut sent what was queued: one that is cut earlier is followed by another one.
pub(crate) fn wait_until_served<R: Net<Listener = TcpListener, Stream = TcpStream> + Clock + Abort>(
    rt: &R,
    alloc: Global,
    address: &str,
) {
    for _ in 0..TRIES {
        let asker = reach(rt, address);
        send(rt, &asker, b"status\n");
        asker.shutdown(Shutdown::Write).expect(rt, "an end");
        let page = take_all(rt, alloc, &asker);
        if !has_absent(page.as_slice()) {
            return;
        }
        thread::sleep(rt, Duration::from_millis(MILLISECONDS));
    }
    panic!(rt; "a collector stays absent")
}

/// Whether a line of a page tells of a collector that is absent.
fn has_absent(page: &[u8]) -> bool {
    for line in page.split(|octet| *octet == b'\n') {
        if line.ends_with(b" absent") {
            return true;
        }
    }
    false
}

/// Sends octets.
pub(crate) fn send(rt: &impl Abort, mut stream: &TcpStream, octets: &[u8]) {
    stream.write_all(octets).expect(rt, "all is taken");
}

/// Reads to the end, or to a reset, as the connection of a subscription that was cut ends.
pub(crate) fn take_all(rt: &impl Abort, alloc: Global, mut stream: &TcpStream) -> Vec<u8> {
    let mut octets = Vec::new(alloc);
    if let Err(why) = stream.read_to_end(&mut octets) {
        assert!(rt; why.kind() == ErrorKind::ConnectionReset, "{why}");
    }
    octets
}
