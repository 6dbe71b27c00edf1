//! Numbers and values of variable length, both ways.
use ipfix_octets::variable::LONGEST_VALUE;
use ipfix_octets::{be_number, read_varlen, write_be, write_varlen};
use std::test::Fail;

#[test]
fn numbers_both_ways(rt: HostRuntime) -> Result<(), Fail> {
    let mut out = Vec::new(rt.alloc());
    write_be(0x0102_0304, 4, &mut out)?;
    write_be(0x00ff, 3, &mut out)?;
    assert_eq!(rt; out.as_slice(), [1, 2, 3, 4, 0, 0, 255].as_slice());
    assert_eq!(rt; be_number(&[1, 2, 3, 4]), 0x0102_0304);
    assert_eq!(rt; be_number(&[0xff; 8]), u64::MAX);
    assert_eq!(rt; be_number(&[7]), 7);
    Ok(())
}

/// Values, and what is written before them: the worked case value_lengths.
static VALUES: [(&[u8], &[u8]); 3] = [
    (&[], &[0]),
    (&[0x61; 254], &[254]),
    (&[0x61; 255], &[255, 0, 255]),
];

/// Octets, and where the value at their front starts, with its length.
static TEXTS: [(&[u8], Option<(usize, usize)>); 9] = [
    // The long form may carry any length.
    (b"\xff\x00\x03abc", Some((3, 3))),
    (b"\xff\x00\x00", Some((3, 0))),
    (b"\x03abcd", Some((1, 3))),
    (b"", None),
    (b"\x01", None),
    (b"\xff", None),
    (b"\xff\x00", None),
    (b"\xff\x00\x01", None),
    (b"\xff\xff\xffa", None),
];

#[test]
fn value_lengths(rt: HostRuntime) -> Result<(), Fail> {
    for (value, front) in &VALUES {
        assert!(rt; value.len() <= LONGEST_VALUE);
        let mut out = Vec::new(rt.alloc());
        write_varlen(value, &mut out)?;
        assert_eq!(rt; out.strip_prefix(*front), Some(*value));
        assert_eq!(rt; read_varlen(&out), Some((front.len(), value.len())));
    }
    for (text, want) in &TEXTS {
        assert_eq!(rt; read_varlen(text), *want, "{text:?}");
    }
    Ok(())
}
