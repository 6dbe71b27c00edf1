//! What the writer's thread does, and what it promises.
ghost use Rattle.std.specs.Prelude.{◌≡◌, [], List};
ghost use Rattle.std.specs.Io.KnownBytes.{Appends, append_known};
ghost use Rattle.rtrb.specs.Ring.{received, SameConsumer};
ghost use Rattle.write_behind.specs.Passing.{left_of, GivesBack};

use crate::gate::Gate;
use octet_io::{Device, write_all};
use rtrb::Consumer;
use std::io::{self, Write};
use std::snapshot::Snapshot as Remembered;
use std::sync::{Arc, Wait};
use std::thread::Promise;

/// What the writer's thread gives back.
#[derive(Drop)]
pub(crate) struct Ended<W> {
    pub(crate) writer: W,
    /// The end of the ring by which octets came.
    pub(crate) ring: Consumer<u8>,
    /// The octets that were taken out of the ring last, where the writer failed.
    pub(crate) piece: Vec<u8>,
    /// How many of these the writer took.
    pub(crate) sent: usize,
    /// Why the writer failed, where it did.
    pub(crate) fault: Option<io::Error>,
}

/// Writes to `writer` what comes through `ring`, by pieces for which `piece` has the room, until `gate` is closed and nothing is
/// left, or the writer fails. `rt` waits for what comes.
pub(crate) fn write_pieces<W: Write, R: Wait + Drop>(
    rt: R,
    gate: Arc<Gate>,
    writer: W,
    ring: Consumer<u8>,
    piece: Vec<u8>,
) -> Ended<W>
    requires none { received ring ≡ [] }
    ensures ring { SameConsumer ring result.ring }
    ensures passed { Appends (W.contents writer)
        (append_known (W.contents result.writer) (left_of result)) (received result.ring) }
{
    let mut device = Device::new(writer);
    let mut ring = ring;
    let mut piece = piece;
    let mut looks = 0;
    for _ in rt.forever() {
        let is_closed = gate.is_closed();
        let count = ring.pop_partial_slice(&mut piece);
        if count > 0 {
            looks = 0;
            gate.tell_room();
            if let Err(stopped) = write_all(&mut device, &piece.as_slice()[..count]) {
                gate.stop();
                piece.truncate(count);
                let fault = Some(device.why());
                return Ended {
                    writer: device.into_inner(),
                    ring,
                    piece,
                    sent: stopped.sent,
                    fault,
                };
            }
        } else if is_closed {
            piece.clear();
            return Ended {
                writer: device.into_inner(),
                ring,
                piece,
                sent: 0,
                fault: None,
            };
        } else {
            looks = gate.wait_for_octets(&rt, looks);
        }
    }
    unreachable!()
}

/// What the thread promises: it gives back what it was given, when all was done. Both fields are kept for proofs alone.
#[derive(Drop)]
pub(crate) struct Owed<W> {
    pub(crate) writer: Remembered<W>,
    pub(crate) ring: Remembered<Consumer<u8>>,
}

impl<W: Write> Promise<Ended<W>> for Owed<W> {
    ghost kept_by = { λ owed ended. GivesBack W.contents owed ended };
}
