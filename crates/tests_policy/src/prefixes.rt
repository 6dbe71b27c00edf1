//! Worked cases, and texts at the edges of the grammar.
use flow_prefix::{Fault as PrefixFault, Prefix, keep_bits};
use std::test::Fail;

/// Octets, how many of their bits are kept, and the octets that this leaves.
static KEPT: [(&[u8], usize, &[u8]); 13] = [
    (&[192, 0, 2, 77], 24, &[192, 0, 2, 0]),
    (&[192, 0, 2, 77], 28, &[192, 0, 2, 64]),
    (&[192, 0, 2, 77], 32, &[192, 0, 2, 77]),
    (&[192, 0, 2, 77], 0, &[0, 0, 0, 0]),
    (&[0xff; 16], 0, &[0; 16]),
    (&[0xff; 16], 1, b"\x80\0\0\0\0\0\0\0\0\0\0\0\0\0\0\0"),
    (
        &[0xff; 16],
        63,
        b"\xff\xff\xff\xff\xff\xff\xff\xfe\0\0\0\0\0\0\0\0",
    ),
    (
        &[0xff; 16],
        64,
        b"\xff\xff\xff\xff\xff\xff\xff\xff\0\0\0\0\0\0\0\0",
    ),
    (
        &[0xff; 16],
        127,
        b"\xff\xff\xff\xff\xff\xff\xff\xff\xff\xff\xff\xff\xff\xff\xff\xfe",
    ),
    (&[0xff; 16], 128, &[0xff; 16]),
    (b"\x00\x00\x5e\x00\x53\xaf", 0, &[0; 6]),
    (b"\x00\x00\x5e\x00\x53\xaf", 24, b"\x00\x00\x5e\0\0\0"),
    (b"\x00\x00\x5e\x00\x53\xaf", 48, b"\x00\x00\x5e\x00\x53\xaf"),
];

/// Texts of prefixes, and what is printed for them.
static PRINTED: [(&str, &str); 13] = [
    // The worked case prefix_and_element_names.
    ("2001:db8::/32", "2001:db8:0:0:0:0:0:0/32"),
    ("192.0.2.0/24", "192.0.2.0/24"),
    ("0.0.0.0/0", "0.0.0.0/0"),
    ("255.255.255.255/32", "255.255.255.255/32"),
    // The examples of RFC 4291, sections 2.2 and 2.3.
    (
        "2001:0DB8:0000:CD30:0000:0000:0000:0000/60",
        "2001:db8:0:cd30:0:0:0:0/60",
    ),
    ("2001:0DB8::CD30:0:0:0:0/60", "2001:db8:0:cd30:0:0:0:0/60"),
    ("2001:0DB8:0:CD30::/60", "2001:db8:0:cd30:0:0:0:0/60"),
    (
        "2001:DB8:0:0:8:800:200C:417A/128",
        "2001:db8:0:0:8:800:200c:417a/128",
    ),
    ("FF01::101/128", "ff01:0:0:0:0:0:0:101/128"),
    ("::1/128", "0:0:0:0:0:0:0:1/128"),
    ("::/0", "0:0:0:0:0:0:0:0/0"),
    ("1:2:3:4:5:6:7::/112", "1:2:3:4:5:6:7:0/112"),
    ("::2:3:4:5:6:7:8/128", "0:2:3:4:5:6:7:8/128"),
];

static FAULTS: [(PrefixFault, &str); 3] = [
    (PrefixFault::BadText, "BadText"),
    (PrefixFault::BadLength, "BadLength"),
    (PrefixFault::HostBits, "HostBits"),
];

#[test]
fn texts_of_faults(rt: HostRuntime) -> Result<(), Fail> {
    for (fault, want) in &FAULTS {
        assert_eq!(rt; format!(in rt.alloc(); "{fault}")?.as_str(), *want);
    }
    Ok(())
}

/// Texts that are no prefixes, and why.
static REFUSED: [(&str, PrefixFault); 35] = [
    // The worked case prefix_and_element_names.
    ("192.0.2.1/24", PrefixFault::HostBits),
    ("10.0.0.0/33", PrefixFault::BadLength),
    ("10.0.0/8", PrefixFault::BadText),
    // The edges of the grammar.
    ("", PrefixFault::BadText),
    ("/", PrefixFault::BadText),
    ("::", PrefixFault::BadText),
    ("::/", PrefixFault::BadText),
    ("::/01", PrefixFault::BadText),
    ("::/1000", PrefixFault::BadText),
    ("::/999", PrefixFault::BadLength),
    ("::/129", PrefixFault::BadLength),
    ("::1/127", PrefixFault::HostBits),
    ("1::2::3/128", PrefixFault::BadText),
    (":::/0", PrefixFault::BadText),
    ("1:2:3:4:5:6:7:8::/128", PrefixFault::BadText),
    ("1:2:3:4::5:6:7:8/128", PrefixFault::BadText),
    ("1:2:3:4:5:6:7:8:9/128", PrefixFault::BadText),
    ("1:2:3:4:5:6:7/128", PrefixFault::BadText),
    ("12345::/16", PrefixFault::BadText),
    ("g::/16", PrefixFault::BadText),
    (":1::/16", PrefixFault::BadText),
    ("1:/16", PrefixFault::BadText),
    ("::ffff:192.0.2.1/128", PrefixFault::BadText),
    // RFC 4291, section 2.3: neither a group's trailing zeros nor those behind it may go.
    ("2001:0DB8:0:CD3/60", PrefixFault::BadText),
    ("2001:0DB8::CD30/60", PrefixFault::HostBits),
    ("2001:0DB8::CD3/60", PrefixFault::HostBits),
    ("01.2.3.4/32", PrefixFault::BadText),
    ("256.0.0.0/8", PrefixFault::BadText),
    ("1.2.3.4.5/32", PrefixFault::BadText),
    ("1..3.4/32", PrefixFault::BadText),
    ("10.0.0.0/8/8", PrefixFault::BadText),
    ("10.0.0.0/+8", PrefixFault::BadText),
    (" 10.0.0.0/8", PrefixFault::BadText),
    ("10.0.0.1/33", PrefixFault::BadLength),
    ("10.0.0.1/31", PrefixFault::HostBits),
];

/// Values, and whether they lie in a prefix.
static INSIDE: [(&str, &[u8], bool); 9] = [
    ("192.0.2.0/24", &[192, 0, 2, 77], true),
    ("192.0.2.0/24", &[192, 0, 3, 0], false),
    ("192.0.2.0/24", &[192, 0, 2], false),
    ("0.0.0.0/0", &[255; 4], true),
    ("0.0.0.0/0", &[0; 16], false),
    ("::/0", &[255; 16], true),
    ("::/0", &[0; 4], false),
    ("8000::/1", &[255; 16], true),
    ("8000::/1", &[127; 16], false),
];

#[test]
fn kept_bits(rt: HostRuntime) -> Result<(), Fail> {
    for (octets, n, want) in &KEPT {
        if octets.len() > 16 || *n > 8 * octets.len() {
            return Err(Fail::new("too many bits"));
        }
        let mut out = Vec::new(rt.alloc());
        keep_bits(octets, *n, &mut out)?;
        assert_eq!(rt; out.as_slice(), *want, "{octets:?} at {n}");
    }
    Ok(())
}

#[test]
fn canonical_texts(rt: HostRuntime) -> Result<(), Fail> {
    for (text, want) in &PRINTED {
        let prefix = Prefix::parse(text)?;
        assert_eq!(rt; prefix.print(rt.alloc())?.as_str(), *want, "of {text}");
    }
    Ok(())
}

#[test]
fn refused_texts(rt: HostRuntime) {
    for (text, want) in &REFUSED {
        assert_eq!(rt; Prefix::parse(text).err(), Some(*want), "at {text}");
    }
}

#[test]
fn values_inside(rt: HostRuntime) -> Result<(), Fail> {
    for (text, value, want) in &INSIDE {
        let prefix = Prefix::parse(text)?;
        assert_eq!(rt; prefix.contains(value), *want, "{value:?} in {text}");
    }
    Ok(())
}
