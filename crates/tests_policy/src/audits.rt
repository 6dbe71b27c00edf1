//! What the entries of an audit print as.
use disclosure_audit::{AuditEntry, Reason, RemovedField, RemovedFields, What, line, put_lines};
use std::alloc::{AllocError, Global};
use std::test::Fail;

/// What was kept back, with its fields in a slice.
enum Kept {
    Withheld(u32, Reason),
    Aggregated(u32),
    Removed(&'static [RemovedField]),
    Cut,
}

/// An entry's position, index and subscription, what was kept back, and its line.
static LINES: [((u64, u32, u64), Kept, &str); 10] = [
    (
        (3, 0, 1),
        Kept::Withheld(0, Reason::Rule),
        "3 0 1 withheld 0 rule\n",
    ),
    (
        (3, 0, 1),
        Kept::Withheld(2, Reason::Empty),
        "3 0 1 withheld 2 empty\n",
    ),
    (
        (3, 0, 1),
        Kept::Withheld(2, Reason::ScopeLost),
        "3 0 1 withheld 2 scope-lost\n",
    ),
    (
        (3, 0, 1),
        Kept::Removed(&[RemovedField { place: 0, rule: 2 }]),
        "3 0 1 removed 0:2\n",
    ),
    (
        (5, 0, 1),
        Kept::Withheld(1, Reason::Late),
        "5 0 1 withheld 1 late\n",
    ),
    (
        (3, 0, 1),
        Kept::Withheld(1, Reason::NoKey),
        "3 0 1 withheld 1 no-key\n",
    ),
    (
        (3, 0, 1),
        Kept::Withheld(1, Reason::NoTime),
        "3 0 1 withheld 1 no-time\n",
    ),
    ((3, 2, 1), Kept::Aggregated(1), "3 2 1 aggregated 1\n"),
    ((4, 0, 1), Kept::Cut, "4 0 1 cut\n"),
    (
        (u64::MAX, u32::MAX, u64::MAX),
        Kept::Removed(&[
            RemovedField { place: 0, rule: 0 },
            RemovedField { place: 7, rule: 12 },
            RemovedField {
                place: u16::MAX,
                rule: u32::MAX,
            },
        ]),
        "18446744073709551615 4294967295 18446744073709551615 removed 0:0,7:12,65535:4294967295\n",
    ),
];

fn what_of(alloc: Global, kept: &Kept) -> Result<What, AllocError> {
    Ok(match kept {
        Kept::Withheld(rule, reason) => What::Withheld {
            rule: *rule,
            reason: *reason,
        },
        Kept::Aggregated(rule) => What::Aggregated { rule: *rule },
        Kept::Removed(fields) => {
            let list = Vec::from_slice(alloc, *fields)?;
            let fields = RemovedFields::from_vec(alloc, list)?;
            What::Removed { fields }
        }
        Kept::Cut => What::Cut,
    })
}

/// The entry with this position, index and subscription.
fn entry_of(alloc: Global, place: (u64, u32, u64), kept: &Kept) -> Result<AuditEntry, AllocError> {
    let (position, index, sub) = place;
    let what = what_of(alloc, kept)?;
    Ok(AuditEntry {
        position,
        index,
        sub,
        what,
    })
}

#[test]
fn audit_lines(rt: HostRuntime) -> Result<(), Fail> {
    for (place, kept, due) in &LINES {
        let text = line(rt.alloc(), &entry_of(rt.alloc(), *place, kept)?)?;
        assert!(rt; text.as_str() == *due, "{due}");
    }
    Ok(())
}

/// Entries as records side by side leave them, of a message and of the next one, with their lines.
static NEIGHBOURS: [((u64, u32, u64), Kept, &str); 7] = [
    (
        (7, 8, 3),
        Kept::Removed(&[RemovedField { place: 2, rule: 4 }]),
        "7 8 3 removed 2:4\n",
    ),
    (
        (7, 9, 3),
        Kept::Removed(&[RemovedField { place: 2, rule: 4 }]),
        "7 9 3 removed 2:4\n",
    ),
    (
        (7, 10, 3),
        Kept::Withheld(0, Reason::Rule),
        "7 10 3 withheld 0 rule\n",
    ),
    (
        (7, 11, 3),
        Kept::Removed(&[RemovedField { place: 2, rule: 4 }]),
        "7 11 3 removed 2:4\n",
    ),
    (
        (7, 11, 4),
        Kept::Removed(&[RemovedField { place: 2, rule: 5 }]),
        "7 11 4 removed 2:5\n",
    ),
    ((7, 112, 4), Kept::Cut, "7 112 4 cut\n"),
    ((17, 112, 4), Kept::Cut, "17 112 4 cut\n"),
];

/// What a line shares with those before it stands in it all the same.
#[test]
fn lines_of_neighbours(rt: HostRuntime) -> Result<(), Fail> {
    let alloc = rt.alloc();
    let mut entries = Vec::new(alloc);
    let mut due = Vec::new(alloc);
    for (place, kept, line) in &NEIGHBOURS {
        entries.push(entry_of(alloc, *place, kept)?)?;
        due.extend_from_slice(line.as_bytes())?;
    }
    let mut text = Vec::new(alloc);
    put_lines(alloc, &mut text, &entries)?;
    assert_eq!(rt; text.as_slice(), due.as_slice());
    Ok(())
}
