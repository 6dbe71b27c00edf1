//! Options of a connection's socket. An option that the system refuses is left as it is.

use libc::net::{
    IPPROTO_TCP, SO_KEEPALIVE, SOL_SOCKET, TCP_KEEPCNT, TCP_KEEPIDLE, TCP_KEEPINTVL, connect,
    setsockopt,
};
use std::net::TcpStream;
use std::os::fd::AsRawFd;
use std::time::Duration;

/// A call on a connection waits for this many milliseconds at most. Then it is looked whether it is to go on.
const LOOK_EACH: u64 = 250;

/// A peer that has sent nothing for this many seconds is asked whether it is still there.
const SILENCE: i32 = 60;

/// It is asked again after this many seconds.
const ASK_EACH: i32 = 10;

/// It is gone when it was asked this often and hasn't answered.
const ASK_TIMES: i32 = 6;

/// Has what is written leave at once, and the system find out when the peer's machine is gone. A write that waits comes back from
/// time to time.
pub(crate) fn prepare_to_write(stream: &TcpStream) {
    let _at_once = stream.set_nodelay(true);
    let _looked_after = stream.set_write_timeout(Some(Duration::from_millis(LOOK_EACH)));
    keep_alive(stream);
}

/// A read that waits comes back from time to time.
pub(crate) fn look_while_reading(stream: &TcpStream) {
    let _looked_after = stream.set_read_timeout(Some(Duration::from_millis(LOOK_EACH)));
}

/// Has the system find out when the peer's machine is gone.
pub(crate) fn keep_alive(stream: &TcpStream) {
    let socket = stream.as_raw_fd();
    let on = value_of(1);
    let (silence, each, times) = (value_of(SILENCE), value_of(ASK_EACH), value_of(ASK_TIMES));
    let _on = unsafe { setsockopt(socket, SOL_SOCKET, SO_KEEPALIVE, &on, 4) };
    let _silence = unsafe { setsockopt(socket, IPPROTO_TCP, TCP_KEEPIDLE, &silence, 4) };
    let _each = unsafe { setsockopt(socket, IPPROTO_TCP, TCP_KEEPINTVL, &each, 4) };
    let _times = unsafe { setsockopt(socket, IPPROTO_TCP, TCP_KEEPCNT, &times, 4) };
}

/// Ends a connection by a reset (RST): what isn't sent yet is lost.
pub(crate) fn reset(stream: &TcpStream) {
    // An address of no family has the system forget the peer, and reset the connection.
    let nobody = [0u8; 128];
    let _reset = unsafe { connect(stream.as_raw_fd(), &nobody, 16) };
}

/// A number as the value of an option.
fn value_of(number: i32) -> [u8; 16] {
    let mut value = [0u8; 16];
    value[..4].copy_from_slice(&number.to_ne_bytes());
    value
}
