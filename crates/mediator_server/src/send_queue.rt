//! How much of a connection the system still has to send, as Linux lists it in /proc/net/tcp.

use crate::connections::Connection;
use flow_prefix::cut_at;
use libc::{close, read};
use os::open_read;
use std::alloc::Global;
use std::net::SocketAddr;

/// How many octets of a list are read at once.
const PIECE: usize = 8192;

/// Whether the peer's system has acknowledged all that was written. `None` where the system doesn't tell.
pub(crate) fn is_sent(alloc: Global, connection: &Connection) -> Option<bool> {
    let local = connection.stream().local_addr().ok()?;
    let path: &[u8] = match local {
        SocketAddr::V4(_) => b"/proc/net/tcp",
        SocketAddr::V6(_) => b"/proc/net/tcp6",
    };
    let list = read_list(alloc, path)?;
    let (here, there) = (local.port(), connection.peer.port());
    let mut found = None;
    for line in list.as_slice().split(|octet| *octet == b'\n') {
        if let Some(is_empty) = is_queue_empty(line, here, there) {
            found = Some(is_empty && found != Some(false));
        }
    }
    found
}

/// The text of a list; `None` where it can't be read, or there is no memory for it.
fn read_list(alloc: Global, path: &[u8]) -> Option<Vec<u8>> {
    let descriptor = open_read(path);
    if descriptor < 0 {
        return None;
    }
    let list = read_to_end(alloc, descriptor);
    let _closed = close(descriptor);
    list
}

/// All that can be read of a descriptor; `None` where that fails, or there is no memory for it.
fn read_to_end(alloc: Global, descriptor: i32) -> Option<Vec<u8>> {
    let mut octets = Vec::new(alloc);
    let mut piece = [0u8; PIECE];
    for _ in 0..u64::MAX {
        let count = usize::try_from(read(descriptor, &mut piece)).ok()?;
        if count == 0 {
            break;
        }
        octets.extend_from_slice(piece.get(..count)?).ok()?;
    }
    Some(octets)
}

/// Whether a line's connection has nothing to send, where it is one between these ports: behind the place in the list stand both
/// addresses, as `0100007F:1F90`, the state, and how many octets are to be sent and to be read, as `00000000:00000000`.
fn is_queue_empty(line: &[u8], local: u16, remote: u16) -> Option<bool> {
    let mut words = line
        .split(|octet| *octet == b' ')
        .filter(|word| !word.is_empty());
    let (_place, here, there) = (words.next()?, words.next()?, words.next()?);
    let (_state, queues) = (words.next()?, words.next()?);
    if port_of(here)? != local || port_of(there)? != remote {
        return None;
    }
    let (to_send, _to_read) = cut_at(queues, b':')?;
    Some(to_send.iter().all(|digit| *digit == b'0'))
}

/// The port of an address: its last four digits.
fn port_of(address: &[u8]) -> Option<u16> {
    let (_host, port) = cut_at(address, b':')?;
    let mut number = 0u16;
    for digit in port {
        let value = char::from(*digit).to_digit(16)?;
        number = number.checked_mul(16)?.checked_add(value as u16)?;
    }
    Some(number)
}
