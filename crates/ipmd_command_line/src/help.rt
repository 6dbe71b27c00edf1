//! What the help says below the options: an example of each command, and what its answers mean.

/// Below the help of `ipmd` itself.
pub const COMMANDS: &str = "\
Begin with a policy, see that it is one, and filter a stream by it:
  ipmd check-policy --policy policy.txt
  ipmd offline --policy policy.txt --subscriber acme --audit audit.txt < in.ipfix > out.ipfix
What several subscribers would see, or a change of policy would do, is rehearsed by
  ipmd replay --calls calls.txt
Exporters and collectors that are there now are served over TCP by
  ipmd serve --settings settings.toml
Whoever has the file of a mediator's journal may check it by
  ipmd verify --journal run.journal
and may ask what a subscriber saw of each record, and by which rules:
  ipmd explain --journal run.journal --sub 1";

/// Below the help of `ipmd offline`.
pub const OFFLINE: &str = "\
The input is IPFIX messages one after another (RFC 7011), as a file or a TCP connection has them.
The output is the subscriber's own messages. When all is read, standard error says
`messages M records R disclosed D`: messages read, records in them, and records written.

Example:
  ipmd offline --policy policy.txt --subscriber acme --audit audit.txt < in.ipfix > out.ipfix

Each line of the audit names a message (the first is 3), a record in it (the first is 0), the
subscription (1), and what was kept back by which rule; rule 0 stands for no rule at all:
  3 0 1 removed 2:7          of record 0 the field at place 2 (the first is 0), by rule 7
  3 1 1 withheld 0 rule      record 1, since no rule lets it pass
  3 2 1 aggregated 4         record 2 counts in the aggregate of rule 4, whose sums are not
                             written, since no advance closes them here; see ipmd replay --help

What standard error says, and what to do:
  ipmd: framing BadVersion   no message of version 10 stands there: the input is not IPFIX
                             (NetFlow is not), is packed (unpack it), or is text (give --hex)
  ipmd: framing BadLength    a message's length is below that of its header
  ipmd: framing CutOff       the input ends inside a message
  ipmd: hex                  with --hex: the input is not hexadecimal text (leave --hex out)
  ipmd: Malformed            a message's sets or records go past their end
  ipmd: BadName              the subscriber's name is not 1 to 32 of a-z, 0-9, - and _,
                             beginning with a letter
  ipmd: policy line N: KIND  line N of the policy is at fault; see ipmd check-policy --help
  ipmd: Cut                  the records for the subscriber have more than 65,280 layouts, so that
                             no template ID is left
  ipmd: device               a file or a stream can't be opened, read or written (a folder, a
                             full disk, a closed pipe), or the policy is not UTF-8; the line
                             before it says which, and why (octets are counted from 0), as
                             ipmd: policy.txt: No such file or directory (os error 2)
  ipmd: JournalFull          more than 100,000,000 messages, or a terabyte of them
  ipmd: OutOfMemory          no memory is left
The messages before the one at fault are filtered and written all the same.

Exit status: 0 done, 1 refused or out of memory, 2 wrong command line, 3 device.";

/// Below the help of `ipmd check-policy`.
pub const CHECK_POLICY: &str = "\
Example:
  ipmd check-policy --policy-text 'policy 1;rule for acme in * from * to * pass'

It answers `rules N aggregates M`; or `ipmd: policy line N: KIND`, the first line that is at
fault and what is wrong with the first faulty word in it:
  NoHeader          the first line that has words is neither `policy 1` nor `policy 2`
  UnknownWord       another word is due here, or the line ends early, or goes on too long
  BadName           no name (1 to 32 of a-z, 0-9, - and _, a letter first), or no element's name
  BadNumber         no number, or one out of range
  BadPrefix         no address with a length, or a bit is set past the length
  BadTruncate       the element is no address, or has fewer bits
  BadDegrade        the element is no time
  UnknownAggregate  no line above defines this aggregate
  DoubleAggregate   a line above defines this aggregate
  BadKey            this element can't be a key, or is named twice, or is the seventeenth
  TooMany           more than 4,096 rules or 256 aggregates
Or it answers `ipmd: device`, behind a line that says which file or stream failed, and why.

A rule's line is, in this order of words, with * for any:
  rule for NAME in DOMAIN from PREFIX to PREFIX ACTION
ACTION is pass, withhold, aggregate NAME, or element ELEMENT with keep, remove or truncate BITS,
or, in a `policy 2`, with degrade SECONDS.

Exit status: 0 a policy, 1 no policy or out of memory, 2 wrong command line, 3 device.";

/// Below the help of `ipmd replay`.
pub const REPLAY: &str = "\
A call a line, words parted by one space, numbers decimal, octets in hexadecimal. Empty lines and
lines that begin with # are skipped. What each is answered where it is done:
  open                             ok SESSION
  close SESSION                    ok
  receive SESSION NUMBER OCTETS    ok POSITION records R cut C unknown U reserved V refused W,
                                   and behind it gap EXPECTED GOT where sequence numbers are missing
  edit POLICY                      ok REVISION; in POLICY each ; stands for a line end
  subscribe NAME                   ok SUB
  unsubscribe SUB                  ok
  advance T                        ok; the clock's time, in milliseconds since 1970, by which the
                                   intervals of aggregates are closed
  pull SUB NOW TARGET              ok OCTETS, or ok none
  status SUB                       ok QUEUED HANDED SHAPES live, or the same with cut
  audit MOST                       ok COUNT, and COUNT lines of the audit
NUMBER counts the messages of a session, from 0; sessions and subscriptions have numbers from 1 on.
The first line may be `limits QUEUE SHAPES AUDIT ENTRIES OCTETS`; else they are those of
ipmd offline: 65536 65280 131072 100000000 1099511627776.

A call that is refused changes nothing, and is answered err with its name:
  err UnknownSession               no session with this number is open
  err OutOfTurn EXPECTED           the session's next message has the number EXPECTED
  err Malformed FAULT              the octets are no message
  err Policy LINE KIND             the text is no policy; see ipmd check-policy --help
  err BadName                      no name
  err AlreadySubscribed SUB        a live subscription has this name
  err UnknownSub                   no live subscription has this number
  err ClockBack LAST               the clock stands at LAST already
  err JournalFull                  the limits ENTRIES or OCTETS leave no room
  err AuditFull NEED ROOM          the limit AUDIT leaves room for ROOM entries
  err OutOfMemory                  no memory is left

Example:
  open
  edit policy 1;rule for acme in * from * to * pass;rule for acme in * from * to * element * keep
  subscribe acme
  pull 1 0 1400
is answered
  ok 1
  ok 1
  ok 1
  ok none

With --journal the file gets an entry for each call that was accepted and for each subscription that
was cut, as ipmd verify reads them.

What standard error says where no call is answered:
  ipmd: calls line N   line N asks for nothing that there is
  ipmd: BadLimits      a limit is 0, or QUEUE is above 1000000, SHAPES above 65280, AUDIT above
                       10000000, ENTRIES above 100000000 or OCTETS above 1099511627776
  ipmd: device         a file can't be read or written or isn't UTF-8, or the output fails: the
                       line before it says which, and why
  ipmd: OutOfMemory    no memory is left

Exit status: 0 each call was answered, 1 refused or out of memory, 2 wrong command line, 3 device.";

/// Below the help of `ipmd serve`.
pub const SERVE: &str = "\
The settings are a TOML table with these keys; those behind turns may be absent, but not [deliver],
and any other key is ignored:
  exporters = \"0.0.0.0:4739\"      where exporters connect
  admin = \"127.0.0.1:4750\"        where admins connect, one after another
  policy = \"policy.txt\"           the file with the first policy
  connections = 4                 how many exporter connections are accepted in a run, 1 to 1000
  target = 1400                   the most octets of a message to a collector, 16 to 65535
  workers = 2                     the threads that read an exporter's messages, 1 to 64
  queue = 65536                   the records that may wait for a subscription, 1 to 1000000
  shapes = 256                    the layouts of a subscription's records, 1 to 65280
  audit = 131072                  the audit entries that may wait, 1 to 10000000
  journal_entries = 1000000       the entries of the journal, 1 to 100000000
  journal_octets = 1073741824     the octets of the journal, 1 to 1099511627776
  turns = 1000000000              the reads of one connection, 1 to 1000000000
  journal = \"/var/lib/ipmd/run\"  the journal of run 1 is written to the file with .1 behind this
  runs = 30                       how many runs may follow each other, 1 to 1000, else 1
  idle = 3600                     the seconds without an octet after which an exporter's connection
                                  is closed, 1 to 86400, else never
  reconnect = 5                   the seconds after which a collector that refuses or has gone is
                                  tried again, 1 to 3600, else never
  hold = 500                      the milliseconds that a message waits for room in the queues
                                  before it cuts a subscription, 1 to 60000, else none
  drain = 60                      the seconds that the end of a run waits for collectors, 1 to
                                  86400, else as long as they take what is queued
  endless = true                  a run goes on when `connections` exporters have come: so many may
                                  be connected at a time; else false
  [deliver]
  acme = \"192.0.2.1:4739\"         a subscriber's name, and the address of its collector

It connects to each collector, and takes `connections` connections of exporters. When all of these
have come and ended, or the journal is full, or an admin says `stop`, it sends what is queued, and
standard output says `accepted A handed H`: messages accepted, and records handed to subscriptions.
That is a run. When its journal was full, the next one begins with the policy that was last in
force, as `runs` allows.

An admin connection takes a command a line, and answers each before the next. One that is silent for
ten seconds gives way to another that waits:
  edit N, and N octets of policy behind the line end     ok REVISION
  subscribe NAME                                         ok SUB
  unsubscribe SUB                                        ok
  advance T, the clock in milliseconds since 1970        ok
  status SUB                                             ok QUEUED HANDED live, or with cut
  audit MOST, from 1 to 10000                            ok COUNT, and COUNT audit lines, which have
                                                         1 MiB at most
  status                                                 ok COUNT, and a line a subscription:
                                                         SUB NAME QUEUED HANDED live or cut, and
                                                         its collector: connected, absent or none
  run                                                    ok COUNT, and how the run stands, a name
                                                         and a number a line, some with a limit
  policy                                                 ok COUNT, and the policy in force
  help                                                   ok COUNT, and a line a command
  stop                                                   ok
A refused call is answered err and its name, as ipmd replay --help has them, and the connection
goes on. What is no command is answered err Line, and the connection ends. It ends behind `stop`
too, and the run is to end: no more exporters are taken, those connected end behind the message in
hand, what is queued is sent, and no run follows.

Standard error notes what happens, a line each, with the time (unless it is a journal of systemd,
as JOURNAL_STREAM says) and its level: info for the run and for what
connects and ends, warn for a fault that ended a connection, or a subscription that was cut, and
error for what the run itself can't do. A fault of one connection ends that connection alone. A note
that would wait for its reader is dropped, and a later one says how many were.
What standard error says last where the run fails, and what to do:
  ipmd: settings: length     the settings have more than 65536 octets
  ipmd: settings: toml       the settings are no TOML
  ipmd: settings: KEY        the value at KEY is missing, of another type or out of its range
  ipmd: policy line N: KIND  line N of the policy is at fault; see ipmd check-policy --help
  ipmd: BadName              a key below [deliver] is no subscriber's name
  ipmd: JournalFull          the journal's limits leave no room for the policy and the subscribers
  ipmd: device               a file can't be read or isn't UTF-8; an address can't be listened on;
                             a collector can't be connected to; a thread is refused; or the file
                             of a run's journal can't be written, and then the run's line came;
                             a line before it says which file or address it was, and why
  ipmd: OutOfMemory          no memory is left
  ipmd: close                what was received isn't what the journal has; this is never expected

Exit status: 0 done, 1 refused or out of memory, 2 wrong command line, 3 device.";

/// Below the help of `ipmd verify`.
pub const VERIFY: &str = "\
A journal names, in their order, all that changed a mediator: sessions, messages, policies,
subscriptions, advances of the clock, and cuts. The file is legal where each entry is one that a
mediator may have accepted where it stands. Then standard output has a line for each subscription,
and behind these the lines of the audit, as in ipmd offline --help:
  sub 1 acme disclosed 1     subscription 1, of acme: the history discloses one record to it
  5 0 1 cut                  at entry 5 (the first is 0) subscription 1 was cut
Nothing is written of a file that is refused.

Example:
  ipmd verify --journal run.journal > found.txt

What standard error says, and what it means:
  ipmd: journal BadMagic       the file does not begin with IPMJ: it is no journal
  ipmd: journal BadVersion     it is one of another version
  ipmd: journal Truncated      the file ends inside what it announces
  ipmd: journal BadEntry       an entry is none, or octets stand behind the last one
  ipmd: journal BadHistory P   the file is a journal, and no mediator accepts entry P (the first is
                               0) after the entries before it
  ipmd: device                 the file can't be opened or read, or the output fails: the line
                               before it says which, and why
  ipmd: OutOfMemory            no memory is left
A fault of the file goes before one of the history. On a terminal standard error shows meanwhile
how many entries were read.

Exit status: 0 legal, 1 refused or out of memory, 2 wrong command line, 3 device.";

/// Below the help of `ipmd explain`.
pub const EXPLAIN: &str = "\
Of each record of each message that came while the subscription was served, a line says what it
saw of it, by the policy that was in force there, and which rule decided that:
  position 5 index 0: 192.0.2.77:49153 -> 198.51.100.9:443; rule 2 passes it; sourceIPv4Address cut
  to 24 bits by rule 5; sourceTransportPort removed by rule 7; octetDeltaCount kept by rule 8
(on one line). Positions are those of entries in the file, an index is a place in a message, and
both begin at 0. Where from and to a record's flow goes stands there if it has addresses and ports.
What else a line may say:
  withheld by rule 3
  rule 2 passes it; ingressInterface removed by rule 3; withheld, since a scope field is removed by
  rule 3
  rule 2 passes it; octetDeltaCount removed by rule 3; withheld, since all is removed by rule 3
  counted in the aggregate AGGREGATE by rule 4
  withheld by rule 4: the aggregate AGGREGATE finds no time in it, or no key, or it is late
Each field of a record that passes is named. Where no rule decides, the words `no rule matches it`
stand for `by rule N`.

Example:
  ipmd explain --journal run.journal --sub 1 --position 5

What standard error says, and what it means:
  ipmd: journal NoSubscription N  no subscription with this number ever began
  ipmd: journal NoMessage P       no message stands at this position
  ipmd: journal NoRecord P I      the message there has no record at this place
and what ipmd verify --help has. The file is read twice: it is verified before anything is written.

Exit status: 0 explained, 1 refused or out of memory, 2 wrong command line, 3 device.";
