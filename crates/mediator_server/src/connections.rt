//! The connections that are open, so that all of them can be ended.

use std::alloc::{AllocError, Global};
use std::net::{Shutdown, SocketAddr, TcpStream};
use std::sync::{Arc, Mutex, Wait};

/// An open connection.
#[derive(Drop)]
pub(crate) struct Connection {
    number: u64,
    stream: Arc<TcpStream, Global>,
    pub(crate) peer: SocketAddr,
}

impl Connection {
    /// The number of the connection among those of its kind, by which [`Connections::forget`] lets go of it.
    pub(crate) fn number(&self) -> u64 {
        self.number
    }

    /// The socket on which it is read and written.
    pub(crate) fn stream(&self) -> &TcpStream {
        &self.stream
    }
}

/// The connections of one kind that are open.
#[derive(Drop)]
pub(crate) struct Connections {
    alloc: Global,
    open: Mutex<Open>,
}

/// What a lock guards: the connections that are open, and how many there ever were.
#[derive(Drop)]
struct Open {
    /// How many were ever added.
    begun: u64,
    connections: Vec<Connection>,
}

impl Connections {
    /// No connection. What it comes to keep is taken from `alloc`.
    pub(crate) fn new(alloc: Global) -> Connections {
        let connections = Vec::new(alloc);
        Connections {
            alloc,
            open: Mutex::new(Open {
                begun: 0,
                connections,
            }),
        }
    }

    /// Adds a connection, and answers an end of it.
    ///
    /// # Errors
    /// Want of memory: the connection is closed.
    pub(crate) fn add(
        &self,
        rt: &impl Wait,
        stream: TcpStream,
        peer: SocketAddr,
    ) -> Result<Connection, AllocError> {
        let stream = Arc::new(self.alloc, stream)?;
        let same = Arc::try_clone(&stream)?;
        let mut open = self.open.lock(rt);
        open.connections.reserve(1)?;
        let number = open.begun;
        open.begun = number.wrapping_add(1);
        open.connections.push_reserved(Connection {
            number,
            stream: same,
            peer,
        });
        Ok(Connection {
            number,
            stream,
            peer,
        })
    }

    /// Lets go of the connection with this number, which is closed when its own end is let go too.
    pub(crate) fn forget(&self, rt: &impl Wait, number: u64) {
        self.open
            .lock(rt)
            .connections
            .retain(|one| one.number != number);
    }

    /// How many are open.
    pub(crate) fn len(&self, rt: &impl Wait) -> usize {
        self.open.lock(rt).connections.len()
    }

    /// Ends all that are open: what is read of them from now on is their end, and writes fail.
    pub(crate) fn end_all(&self, rt: &impl Wait) {
        let open = self.open.lock(rt);
        for connection in open.connections.iter() {
            let _ended = connection.stream.shutdown(Shutdown::Both);
        }
    }
}
