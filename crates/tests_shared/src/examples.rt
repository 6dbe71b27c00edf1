//! The examples of doc comments, line by line as they stand there; `tools/check_examples` compares them. What they assert is worked
//! out by hand from the rules of a mediator.
ghost use Rattle.std.specs.Prelude.{◌≡◌, ◌+◌, ◌*◌};
ghost use Rattle.shared_mediator.specs.Counted.{handed_live};

use crate::octets::{ONE_RECORD, limits};
use bytes::Bytes;
use mediator_core::Mediator;
use shared_mediator::{EntryLedger, RecordLedger};
use std::alloc::{AllocError, Global};
use std::marker::Brand;
use std::process::Abort;
use std::sync::Wait;
use std::sync::ledger::Blank;

/// A new mediator, shared by at most `handles` handles of each kind.
fn share<R: Wait + Abort>(rt: &R, alloc: Global, handles: u32) -> Result<(), AllocError> {
    let Ok(mediator) = Mediator::new(alloc, limits(10, 10, 10)) else {
        return Err(AllocError);
    };
    let message = Bytes::from_static(ONE_RECORD);
    let handles = handles as u64;
    let (entries, handed) = (Blank::new(2 * handles + 1), Blank::new(handles + 1));
    share_by::<Brand, Brand, R>(rt, alloc, mediator, message, handles, entries, handed);
    Ok(())
}

/// One message of one record is accepted, and that record is handed out.
fn share_by<E: EntryLedger, H: RecordLedger, R: Wait + Abort>(
    rt: &R,
    alloc: Global,
    mediator: Mediator,
    message: Bytes,
    handles: u64,
    entries: Blank,
    handed: Blank,
)
    requires fresh { handed_live mediator ≡ 0 }
    requires before { E.before ≡ mediator.history }
    requires entries_name { entries.name ≡ E.name }
    requires entries_parts { (entries.parts ≡ E.parts) × (E.parts ≡ E.all) × (E.all ≡ 2 * handles + 1) }
    requires handed_name { handed.name ≡ H.name }
    requires handed_parts { (handed.parts ≡ H.parts) × (H.parts ≡ H.all) × (H.all ≡ handles + 1) }
{
    // Example of shared_mediator::SharedMediator.
    use shared_mediator::SharedMediator;

    let shared = SharedMediator::<E, H>::new(alloc, mediator, handles, entries, handed);
    let policy =
        "policy 1\nrule for * in * from * to * pass\nrule for * in * from * to * element * keep\n";
    let mut admin = shared.admin(rt).expect(rt, "an administrator");
    admin.edit(rt, &shared, policy).expect(rt, "an edit");
    let acme = admin.subscribe(rt, &shared, "acme").expect(rt, "acme");
    let mut exporter = shared.exporter(rt).expect(rt, "an exporter");
    exporter.offer(rt, &shared, message).expect(rt, "a receipt");
    let mut delivery = shared.delivery(rt, acme).expect(rt, "a delivery");
    let pulled = delivery.pull(rt, &shared, 1_700_000_060, 1400);
    assert!(rt; matches!(pulled, Ok(Some(handed)) if handed.records == 1));
    // All handles come back.
    let exporters = vec![in alloc; exporter].expect(rt, "memory");
    let deliveries = vec![in alloc; delivery].expect(rt, "memory");
    let admins = vec![in alloc; admin].expect(rt, "memory");
    let ended = shared.close(exporters, deliveries, admins);
    assert!(rt; matches!(&ended, Ok(closed) if closed.accepted == 1));
    assert!(rt; matches!(&ended, Ok(closed) if closed.handed == 1));
    // End of the example.
}

#[test]
fn shared_by_handles(rt: HostRuntime) -> Result<(), AllocError> {
    share(&rt, rt.alloc(), 1)
}
