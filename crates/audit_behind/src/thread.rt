//! What the audit's thread does, and what it promises.
ghost use Rattle.std.specs.Prelude.{◌≡◌, [], take, IfErr, OnOk};
ghost use Rattle.std.specs.Io.KnownBytes.{Appends, append_known};
ghost use Rattle.octet_io.specs.Device.{device_inner};
ghost use Rattle.rtrb.specs.Ring.{received, SameConsumer};
ghost use Rattle.mediator_offline.specs.Lines.{audit_text};
ghost use Rattle.audit_behind.specs.Recording.{lines_left, texts, GivesBack};

use disclosure_audit::AuditEntry;
use mediator_offline::audit_lines;
use octet_io::{Device, write_all};
use rtrb::Consumer;
use std::alloc::Global;
use std::io::Write;
use std::snapshot::Snapshot as Remembered;
use std::sync::{Arc, Wait};
use std::thread::Promise;
use write_behind::Gate;

/// What the audit's thread gives back.
#[derive(Drop)]
pub(crate) struct Ended<W> {
    pub(crate) device: Device<W>,
    /// The end of the ring by which entries came.
    pub(crate) ring: Consumer<Vec<AuditEntry>>,
    /// The entries that were taken out of the ring last, where not all their lines were written.
    pub(crate) entries: Vec<AuditEntry>,
    /// How many octets of these lines were.
    pub(crate) sent: usize,
}

/// Writes the lines of the entries that come through `ring` to `device`, until `gate` is closed and nothing is left, or the device
/// fails, or there is no memory from `alloc` for lines. `rt` waits for what comes.
#[tactic(auto, using(crate::proofs::RecordingLaws::writes_more, crate::proofs::RecordingLaws::writes_front, write_behind::proofs::PassingLaws::leaves_nothing))]
pub(crate) fn write_entries<W: Write, R: Wait + Drop>(
    rt: R,
    alloc: Global,
    gate: Arc<Gate>,
    device: Device<W>,
    ring: Consumer<Vec<AuditEntry>>,
) -> Ended<W>
    requires none { received ring ≡ [] }
    ensures ring { SameConsumer ring result.ring }
    ensures passed { Appends (W.contents (device_inner device))
        (append_known (W.contents (device_inner result.device)) (lines_left result))
        (texts (received result.ring)) }
{
    let mut device = device;
    let mut ring = ring;
    let mut looks = 0;
    for _ in rt.forever() {
        let is_closed = gate.is_closed();
        match ring.pop() {
            Ok(entries) => {
                looks = 0;
                gate.tell_room();
                if let Err(sent) = write_lines(alloc, &mut device, entries.as_slice()) {
                    gate.stop();
                    return Ended {
                        device,
                        ring,
                        entries,
                        sent,
                    };
                }
            }
            Err(_) if is_closed => {
                return Ended {
                    device,
                    ring,
                    entries: Vec::new(alloc),
                    sent: 0,
                };
            }
            Err(_) => looks = gate.wait_for_octets(&rt, looks),
        }
    }
    unreachable!()
}

/// Writes the lines of `entries` to `device`.
///
/// # Errors
/// How many octets of them were written, where not all were.
fn write_lines<W: Write>(
    alloc: Global,
    device: &mut Device<W>,
    entries: &[AuditEntry],
) -> Result<(), usize>
    ensures ok { OnOk result (Appends (W.contents (device_inner device.old))
        (W.contents (device_inner device.new)) (audit_text entries.now)) }
    ensures err { IfErr result (λ sent. Appends (W.contents (device_inner device.old))
        (W.contents (device_inner device.new)) (take sent (audit_text entries.now))) }
{
    let Ok(text) = audit_lines(alloc, entries) else {
        return Err(0);
    };
    match write_all(device, text.as_slice()) {
        Ok(()) => Ok(()),
        Err(stopped) => Err(stopped.sent),
    }
}

/// What the thread promises: it gives back what it was given, when all was done. Both fields are kept for proofs alone.
#[derive(Drop)]
pub(crate) struct Owed<W> {
    pub(crate) device: Remembered<Device<W>>,
    pub(crate) ring: Remembered<Consumer<Vec<AuditEntry>>>,
}

impl<W: Write> Promise<Ended<W>> for Owed<W> {
    ghost kept_by = { λ owed ended. GivesBack W.contents owed ended };
}
