//! Settings that are read.
use ipmd_settings::{Collector, Fault as SettingsFault, Key, Settings, read_settings};
use mediator_calls::Limits;
use std::alloc::{AllocError, Global};
use std::process::Abort;
use std::test::Fail;

/// Settings with keys in another order, some that nobody asks for, and a table under its header.
const WRITTEN: &str = "\
title = \"edge\"
turns = 5000
journal_octets = 1_000_000
journal_entries = 1000
audit = 102
shapes = 101
queue = 100
workers = 3
target = 1400
connections = 2
policy = \"policy.txt\"
admin = \"127.0.0.1:4750\"
exporters = \"127.0.0.1:4739\"

[deliver]
zeta = \"127.0.0.1:4744\"
acme-2 = \"127.0.0.1:4742\"
\"\u{e9}\" = \"127.0.0.1:4745\"
acme = \"127.0.0.1:4740\"
Beta = \"127.0.0.1:4741\"
acme_2 = \"127.0.0.1:4743\"

[log]
level = 3
";

/// The collectors of these settings, in the order of their subscribers' octets.
static COLLECTORS: [(&str, &str); 6] = [
    ("Beta", "127.0.0.1:4741"),
    ("acme", "127.0.0.1:4740"),
    ("acme-2", "127.0.0.1:4742"),
    ("acme_2", "127.0.0.1:4743"),
    ("zeta", "127.0.0.1:4744"),
    ("\u{e9}", "127.0.0.1:4745"),
];

const LIMITS: Limits = Limits {
    queue: 100,
    shapes: 101,
    audit: 102,
    entries: 1000,
    octets: 1_000_000,
};

/// Reads settings, and once more where memory was refused.
fn read(alloc: Global, text: &str) -> Result<Settings, SettingsFault> {
    match read_settings(alloc, text) {
        Err(SettingsFault::OutOfMemory) => read_settings(alloc, text),
        answer => answer,
    }
}

/// Whether the texts of settings are those that were written.
fn has_texts(settings: &Settings) -> bool {
    settings.exporters.as_str() == "127.0.0.1:4739"
        && settings.admin.as_str() == "127.0.0.1:4750"
        && settings.policy.as_str() == "policy.txt"
}

/// Whether their numbers are.
fn has_numbers(settings: &Settings) -> bool {
    settings.connections == 2
        && settings.target == 1400
        && settings.workers == 3
        && settings.limits == LIMITS
        && settings.turns == 5000
}

fn is_collector(collector: &Collector, wanted: &(&str, &str)) -> bool {
    collector.subscriber.as_str() == wanted.0 && collector.address.as_str() == wanted.1
}

fn has_collectors(collectors: &[Collector], wanted: &[(&str, &str)]) -> bool {
    collectors.len() == wanted.len()
        && collectors
            .iter()
            .zip(wanted)
            .all(|(found, wanted)| is_collector(found, wanted))
}

#[test]
fn written_settings(rt: HostRuntime) -> Result<(), Fail> {
    let settings = read(rt.alloc(), WRITTEN)?;
    assert!(rt; has_texts(&settings));
    assert!(rt; has_numbers(&settings));
    assert!(rt; has_collectors(settings.collectors.as_slice(), &COLLECTORS));
    Ok(())
}

/// Settings up to the turns.
const FRONT: &str = "\
exporters = \"127.0.0.1:4739\"
admin = \"127.0.0.1:4750\"
policy = \"policy.txt\"
connections = 1
target = 16
workers = 1
queue = 1
shapes = 1
audit = 1
journal_entries = 1
journal_octets = 1
turns = 1
";

/// What may stand behind these, and the journal and the runs that are read.
const TAKEN: &[(&str, Option<&str>, u64)] = &[
    ("deliver = {}\n", None, 1),
    (
        "deliver = {}\njournal = \"run\"\nruns = 7\n",
        Some("run"),
        7,
    ),
    (
        "runs = 7\njournal = \"run\"\ndeliver = {}\n",
        Some("run"),
        7,
    ),
    (
        "deliver = {}\njournal = \"/var/run\"\n",
        Some("/var/run"),
        1,
    ),
    ("deliver = {}\njournal = \"\"\n", Some(""), 1),
    ("deliver = {}\nruns = 1\n", None, 1),
    ("deliver = {}\nruns = 1000\n", None, 1000),
    // Below another key they are other keys.
    ("[deliver]\njournal = \"h:1\"\nruns = \"h:2\"\n", None, 1),
    ("[deliver]\n[log]\njournal = 1\nruns = 0\n", None, 1),
];

/// What may not, and the key at fault: of another type, out of its range, or the first of several.
const REFUSED: &[(&str, Key)] = &[
    ("deliver = {}\njournal = 1\n", Key::Journal),
    ("deliver = {}\njournal = true\n", Key::Journal),
    ("deliver = {}\njournal = [\"run\"]\n", Key::Journal),
    ("deliver = {}\n[journal]\npath = \"run\"\n", Key::Journal),
    ("deliver = {}\nruns = 0\n", Key::Runs),
    ("deliver = {}\nruns = 1001\n", Key::Runs),
    ("deliver = {}\nruns = -1\n", Key::Runs),
    ("deliver = {}\nruns = \"5\"\n", Key::Runs),
    ("deliver = {}\nruns = 5.0\n", Key::Runs),
    ("deliver = {}\nruns = {}\n", Key::Runs),
    ("runs = 0\njournal = 1\ndeliver = 1\n", Key::Deliver),
    ("journal = 1\n", Key::Deliver),
    ("runs = 0\n", Key::Deliver),
    ("runs = 0\njournal = 1\ndeliver = {}\n", Key::Journal),
    ("runs = 0\njournal = \"run\"\ndeliver = {}\n", Key::Runs),
];

/// What may stand behind an empty table of collectors, and the numbers that are read: those of idle, reconnect, hold and drain; and
/// whether a run is endless.
const WAITS: &[(&str, [Option<u64>; 4], bool)] = &[
    ("", [None, None, None, None], false),
    ("idle = 1\n", [Some(1), None, None, None], false),
    ("idle = 86400\n", [Some(86400), None, None, None], false),
    ("reconnect = 1\n", [None, Some(1), None, None], false),
    ("reconnect = 3600\n", [None, Some(3600), None, None], false),
    ("hold = 1\n", [None, None, Some(1), None], false),
    ("hold = 60000\n", [None, None, Some(60000), None], false),
    ("drain = 1\n", [None, None, None, Some(1)], false),
    ("drain = 86400\n", [None, None, None, Some(86400)], false),
    ("endless = true\n", [None, None, None, None], true),
    ("endless = false\n", [None, None, None, None], false),
    (
        "endless = true\ndrain = 4\nhold = 3\nreconnect = 2\nidle = 1\n",
        [Some(1), Some(2), Some(3), Some(4)],
        true,
    ),
    // Below another key they are other keys.
    (
        "[log]\nendless = 1\nidle = 0\n",
        [None, None, None, None],
        false,
    ),
];

/// What may not, and the key at fault: of another type, out of its range, or the first of several.
const REFUSED_WAITS: &[(&str, Key)] = &[
    ("idle = 0\n", Key::Idle),
    ("idle = 86401\n", Key::Idle),
    ("idle = -1\n", Key::Idle),
    ("idle = \"60\"\n", Key::Idle),
    ("idle = 60.0\n", Key::Idle),
    ("reconnect = 0\n", Key::Reconnect),
    ("reconnect = 3601\n", Key::Reconnect),
    ("reconnect = true\n", Key::Reconnect),
    ("hold = 0\n", Key::Hold),
    ("hold = 60001\n", Key::Hold),
    ("hold = [1]\n", Key::Hold),
    ("drain = 0\n", Key::Drain),
    ("drain = 86401\n", Key::Drain),
    ("drain = {}\n", Key::Drain),
    ("endless = 0\n", Key::Endless),
    ("endless = 1\n", Key::Endless),
    ("endless = \"true\"\n", Key::Endless),
    (
        "endless = 0\ndrain = 0\nhold = 0\nreconnect = 0\nidle = 0\nruns = 0\n",
        Key::Runs,
    ),
    (
        "endless = 0\ndrain = 0\nhold = 0\nreconnect = 0\nidle = 0\n",
        Key::Idle,
    ),
    (
        "endless = 0\ndrain = 0\nhold = 0\nreconnect = 0\n",
        Key::Reconnect,
    ),
    ("endless = 0\ndrain = 0\nhold = 0\n", Key::Hold),
    ("endless = 0\ndrain = 0\n", Key::Drain),
];

/// Settings with this behind the turns, read.
fn read_last(alloc: Global, last: &str) -> Result<Result<Settings, SettingsFault>, AllocError> {
    let text = format!(in alloc; "{FRONT}{last}")?;
    Ok(read(alloc, text.as_str()))
}

fn is_path(found: &Option<String>, wanted: Option<&str>) -> bool {
    match found {
        Some(path) => wanted == Some(path.as_str()),
        None => wanted.is_none(),
    }
}

/// Whether settings were read, with this journal and these runs.
fn has_read(answer: &Result<Settings, SettingsFault>, journal: Option<&str>, runs: u64) -> bool {
    match answer {
        Ok(settings) => is_path(&settings.journal, journal) && settings.runs == runs,
        Err(_) => false,
    }
}

/// Whether this key is at fault.
fn is_at_fault(answer: &Result<Settings, SettingsFault>, key: Key) -> bool {
    match answer {
        Ok(_) => false,
        Err(fault) => *fault == SettingsFault::Key(key),
    }
}

fn expect_taken(rt: &impl Abort, alloc: Global) -> Result<(), AllocError> {
    for (last, journal, runs) in TAKEN {
        let answer = read_last(alloc, last)?;
        assert!(rt; has_read(&answer, *journal, *runs), "{last}");
    }
    Ok(())
}

fn expect_refused(rt: &impl Abort, alloc: Global) -> Result<(), AllocError> {
    for (last, key) in REFUSED {
        let answer = read_last(alloc, last)?;
        assert!(rt; is_at_fault(&answer, *key), "{last}");
    }
    Ok(())
}

/// Whether settings were read with these numbers of idle, reconnect, hold and drain, and this of endless.
fn has_waits(
    answer: &Result<Settings, SettingsFault>,
    waits: &[Option<u64>; 4],
    endless: bool,
) -> bool {
    match answer {
        Ok(settings) => {
            [
                settings.idle,
                settings.reconnect,
                settings.hold,
                settings.drain,
            ] == *waits
                && settings.endless == endless
        }
        Err(_) => false,
    }
}

/// Settings with this behind an empty table of collectors, read.
fn read_waits(alloc: Global, last: &str) -> Result<Result<Settings, SettingsFault>, AllocError> {
    let last = format!(in alloc; "deliver = {{}}\n{last}")?;
    read_last(alloc, last.as_str())
}

fn expect_waits(rt: &impl Abort, alloc: Global) -> Result<(), AllocError> {
    for (last, waits, endless) in WAITS {
        let answer = read_waits(alloc, last)?;
        assert!(rt; has_waits(&answer, waits, *endless), "{last}");
    }
    Ok(())
}

fn expect_refused_waits(rt: &impl Abort, alloc: Global) -> Result<(), AllocError> {
    for (last, key) in REFUSED_WAITS {
        let answer = read_waits(alloc, last)?;
        assert!(rt; is_at_fault(&answer, *key), "{last}");
    }
    Ok(())
}

#[test]
fn waits_and_endless(rt: HostRuntime) -> Result<(), Fail> {
    expect_waits(&rt, rt.alloc())?;
    expect_refused_waits(&rt, rt.alloc())?;
    Ok(())
}

#[test]
fn journal_and_runs(rt: HostRuntime) -> Result<(), Fail> {
    expect_taken(&rt, rt.alloc())?;
    expect_refused(&rt, rt.alloc())?;
    Ok(())
}
