//! By which clock messages are stamped: octets 4 to 8 of each, as RFC 7011, section 3.1 has them.

use crate::octets::TWO_RECORDS;
use crate::play::play;
use crate::stage::USUAL;
use crate::world::Time;
use std::test::Fail;

/// What the clock shows, and what stands in each message: the seconds modulo 2^32, and 0 where it can't be read.
const TIMES: &[(Option<Time>, &[u8])] = &[
    (Some(1_700_000_060_999), b"\x65\x53\xf1\x3c"),
    (Some(4_294_967_295_000), b"\xff\xff\xff\xff"),
    (Some(4_294_967_303_500), b"\x00\x00\x00\x07"),
    (None, b"\x00\x00\x00\x00"),
];

/// Each of the three messages to the collector has the time: they have 36, 30 and 30 octets.
#[test]
fn export_times(rt: HostRuntime) -> Result<(), Fail> {
    let mut scene = USUAL;
    scene.target = 16;
    for (time, due) in TIMES {
        let played = play(&rt, rt.alloc(), scene, b"", TWO_RECORDS, *time)?;
        let got = played.taken.get(0).expect(&rt, "a collector").as_slice();
        assert!(rt; got.get(4..8) == Some(*due));
        assert!(rt; got.get(40..44) == Some(*due));
        assert!(rt; got.get(70..74) == Some(*due));
    }
    Ok(())
}
