//! The worked cases of aggregates, and of the clock that closes them.
use crate::cases::{Case, HUNDRED, Step, WITHHOLD};
use crate::octets::{
    FIRST_CLOSED, FIRST_CLOSED_NEXT, LATE_FLOW, LATER_CLOSED, LATER_FLOW, MOST_CLOSED, ONE_CLOSED,
    ONE_CLOSED_NEXT, ONE_FLOW, ONE_RECORD, ONE_RECORD_OF_EIGHT, PORTS_CLOSED, SECOND_CLOSED,
    SHORT_PORTS, THREE_FLOWS, UNEVEN_FLOWS, WITHOUT_PORT,
};
use mediator_core::{Fault, Limits};

/// What goes to each port in five minutes, closed a minute after their end.
pub(crate) const WEB: &str =
    "policy 1\naggregate web key destinationTransportPort interval 300 grace 60\nrule for acme in * from * to * aggregate web\n";

/// What goes to each port in five minutes, closed at their end.
pub(crate) const WEB_AT_ONCE: &str =
    "policy 1\naggregate web key destinationTransportPort interval 300 grace 0\nrule for acme in * from * to * aggregate web\n";

/// What goes to each port in five minutes, closed a minute after their end, where everything is withheld.
const WEB_WITHHELD: &str =
    "policy 1\naggregate web key destinationTransportPort interval 300 grace 60\nrule for * in * from * to * withhold\n";

/// All is withheld from beta, whom a rule names. To others nothing of domain 8 passes, and what a network sends without its
/// port; the rest is added up.
const BETA_NAMED: &str =
    "policy 1\naggregate web key destinationTransportPort interval 300 grace 60\nrule for beta in * from * to * withhold\nrule for * in 8 from * to * withhold\nrule for * in * from 192.0.2.0/24 to * pass\nrule for * in * from * to * aggregate web\nrule for * in * from * to * element sourceTransportPort remove\nrule for * in * from * to * element * keep\n";

const ONE_RECORD_WAITS: Limits = Limits {
    queue: 1,
    shapes: 100,
    audit: 100,
    entries: 1000,
    octets: 1_000_000,
};

/// At most one record may wait for a subscription, and three entries in the audit.
const THREE_ENTRIES_WAIT: Limits = Limits {
    queue: 1,
    shapes: 100,
    audit: 3,
    entries: 1000,
    octets: 1_000_000,
};

/// The ends of the first and the second interval, each with its grace, a millisecond before the first, and the first without
/// its grace.
const FIRST_END: u64 = 1_700_000_460_000;

const BEFORE_FIRST_END: u64 = 1_700_000_459_999;

const SECOND_END: u64 = 1_700_000_760_000;

const FIRST_END_AT_ONCE: u64 = 1_700_000_400_000;

/// A policy that adds everything up for acme, acme, and a session.
const BEGIN_WEB: &[Step] = &[
    Step::Edit(WEB, Ok(1)),
    Step::Subscribe("acme", Ok(1)),
    Step::Open(Ok(1)),
];

pub(crate) static AGGREGATES: &[Case] = &[
    // Intervals are closed as their ends and the grace behind them come, and what starts in a closed one is late.
    Case {
        name: "aggregate_web",
        limits: HUNDRED,
        begin: BEGIN_WEB,
        steps: &[
            Step::Accept(1, 0, THREE_FLOWS, 3, 3),
            Step::Served(1, 0, 0, 0),
            Step::Audit(
                10,
                &[
                    "3 0 1 aggregated 1\n",
                    "3 1 1 aggregated 1\n",
                    "3 2 1 aggregated 1\n",
                ],
            ),
            Step::Advance(BEFORE_FIRST_END, Ok(())),
            Step::Served(1, 0, 0, 0),
            Step::Advance(FIRST_END, Ok(())),
            Step::Served(1, 1, 0, 1),
            Step::Pull(1, 1400, Ok(Some(FIRST_CLOSED))),
            Step::Accept(1, 1, LATE_FLOW, 6, 1),
            Step::Audit(10, &["6 0 1 withheld 1 late\n"]),
            Step::Advance(SECOND_END, Ok(())),
            Step::Pull(1, 1400, Ok(Some(SECOND_CLOSED))),
            Step::Advance(u64::MAX, Ok(())),
            Step::Pull(1, 1400, Ok(None)),
            Step::Served(1, 0, 2, 1),
        ],
    },
    Case {
        name: "sums_and_order: the greatest sum, and what doesn't count",
        limits: HUNDRED,
        begin: BEGIN_WEB,
        steps: &[
            Step::Accept(1, 0, UNEVEN_FLOWS, 3, 4),
            Step::Audit(
                10,
                &[
                    "3 0 1 aggregated 1\n",
                    "3 1 1 aggregated 1\n",
                    "3 2 1 withheld 1 no-key\n",
                    "3 3 1 withheld 1 no-time\n",
                ],
            ),
            Step::Advance(FIRST_END, Ok(())),
            Step::Pull(1, 1400, Ok(Some(MOST_CLOSED))),
            Step::Pull(1, 1400, Ok(None)),
        ],
    },
    Case {
        name: "sums_and_order: by the key, at full width",
        limits: HUNDRED,
        begin: BEGIN_WEB,
        steps: &[
            Step::Accept(1, 0, SHORT_PORTS, 3, 2),
            Step::Advance(FIRST_END, Ok(())),
            Step::Pull(1, 1400, Ok(Some(PORTS_CLOSED))),
        ],
    },
    // What counted before an edit closes as it stands, whether or not the edit keeps the aggregate.
    Case {
        name: "edit_keeps_groups: the aggregate stays",
        limits: HUNDRED,
        begin: BEGIN_WEB,
        steps: &[
            Step::Accept(1, 0, ONE_FLOW, 3, 1),
            Step::Edit(WEB_WITHHELD, Ok(2)),
            Step::Accept(1, 1, LATER_FLOW, 5, 1),
            Step::Advance(FIRST_END, Ok(())),
            Step::Pull(1, 1400, Ok(Some(ONE_CLOSED))),
            Step::Pull(1, 1400, Ok(None)),
            Step::Audit(10, &["3 0 1 aggregated 1\n", "5 0 1 withheld 1 rule\n"]),
        ],
    },
    Case {
        name: "edit_keeps_groups: the aggregate goes",
        limits: HUNDRED,
        begin: BEGIN_WEB,
        steps: &[
            Step::Accept(1, 0, ONE_FLOW, 3, 1),
            Step::Edit(WITHHOLD, Ok(2)),
            Step::Accept(1, 1, LATER_FLOW, 5, 1),
            Step::Advance(FIRST_END, Ok(())),
            Step::Pull(1, 1400, Ok(Some(ONE_CLOSED))),
            Step::Pull(1, 1400, Ok(None)),
            Step::Audit(10, &["3 0 1 aggregated 1\n", "5 0 1 withheld 1 rule\n"]),
        ],
    },
    // With another grace it is another aggregate, with groups of its own.
    Case {
        name: "changed_grace",
        limits: HUNDRED,
        begin: BEGIN_WEB,
        steps: &[
            Step::Accept(1, 0, ONE_FLOW, 3, 1),
            Step::Edit(WEB_AT_ONCE, Ok(2)),
            Step::Accept(1, 1, LATER_FLOW, 5, 1),
            Step::Advance(FIRST_END_AT_ONCE, Ok(())),
            Step::Pull(1, 1400, Ok(Some(LATER_CLOSED))),
            Step::Advance(FIRST_END, Ok(())),
            Step::Pull(1, 1400, Ok(Some(ONE_CLOSED_NEXT))),
            Step::Audit(10, &["3 0 1 aggregated 1\n", "5 0 1 aggregated 1\n"]),
        ],
    },
    // An advance that closes too much cuts the subscription, whose groups are gone. Under its name another one begins.
    Case {
        name: "aggregate_cut",
        limits: ONE_RECORD_WAITS,
        begin: BEGIN_WEB,
        steps: &[
            Step::Accept(1, 0, THREE_FLOWS, 3, 3),
            Step::Advance(SECOND_END, Ok(())),
            Step::WasCut(1, 0, 0, 0),
            Step::Pull(1, 1400, Ok(None)),
            Step::Audit(
                10,
                &[
                    "3 0 1 aggregated 1\n",
                    "3 1 1 aggregated 1\n",
                    "3 2 1 aggregated 1\n",
                    "4 0 1 cut\n",
                ],
            ),
            Step::Accept(1, 1, LATE_FLOW, 6, 1),
            Step::Unsubscribe(1, Ok(())),
            Step::Subscribe("acme", Ok(2)),
            Step::Advance(u64::MAX, Ok(())),
            Step::Pull(2, 1400, Ok(None)),
        ],
    },
    Case {
        name: "aggregate_unsubscribed",
        limits: HUNDRED,
        begin: BEGIN_WEB,
        steps: &[
            Step::Accept(1, 0, ONE_FLOW, 3, 1),
            Step::Unsubscribe(1, Ok(())),
            Step::Subscribe("acme", Ok(2)),
            Step::Advance(FIRST_END, Ok(())),
            Step::Pull(2, 1400, Ok(None)),
            Step::Served(2, 0, 0, 0),
        ],
    },
    // Two that no rule names are given the same, and each has its entries and groups; one that is named isn't.
    Case {
        name: "subscribers_alike",
        limits: HUNDRED,
        begin: &[
            Step::Edit(BETA_NAMED, Ok(1)),
            Step::Subscribe("beta", Ok(1)),
            Step::Subscribe("acme", Ok(2)),
            Step::Subscribe("corp", Ok(3)),
            Step::Open(Ok(1)),
        ],
        steps: &[
            Step::Accept(1, 0, ONE_RECORD, 5, 1),
            Step::Accept(1, 1, ONE_RECORD_OF_EIGHT, 6, 1),
            Step::Served(1, 0, 0, 0),
            Step::Served(2, 1, 0, 1),
            Step::Served(3, 1, 0, 1),
            Step::Audit(
                10,
                &[
                    "5 0 1 withheld 1 rule\n",
                    "5 0 2 removed 1:5\n",
                    "5 0 3 removed 1:5\n",
                    "6 0 1 withheld 1 rule\n",
                    "6 0 2 withheld 2 rule\n",
                    "6 0 3 withheld 2 rule\n",
                ],
            ),
            Step::Pull(1, 1400, Ok(None)),
            Step::Pull(2, 1400, Ok(Some(WITHOUT_PORT))),
            Step::Pull(3, 1400, Ok(Some(WITHOUT_PORT))),
            Step::Open(Ok(2)),
            Step::Accept(2, 0, THREE_FLOWS, 8, 3),
            Step::Audit(
                10,
                &[
                    "8 0 1 withheld 1 rule\n",
                    "8 0 2 aggregated 4\n",
                    "8 0 3 aggregated 4\n",
                    "8 1 1 withheld 1 rule\n",
                    "8 1 2 aggregated 4\n",
                    "8 1 3 aggregated 4\n",
                    "8 2 1 withheld 1 rule\n",
                    "8 2 2 aggregated 4\n",
                    "8 2 3 aggregated 4\n",
                ],
            ),
            Step::Advance(FIRST_END, Ok(())),
            Step::Pull(1, 1400, Ok(None)),
            Step::Pull(2, 1400, Ok(Some(FIRST_CLOSED_NEXT))),
            Step::Pull(3, 1400, Ok(Some(FIRST_CLOSED_NEXT))),
            Step::Served(1, 0, 0, 0),
            Step::Served(2, 0, 2, 2),
            Step::Served(3, 0, 2, 2),
        ],
    },
    // The clock stays where it was: an earlier advance, which closes one record, has room.
    Case {
        name: "full_limits: no room for the cut of an advance",
        limits: Limits {
            entries: 5,
            ..ONE_RECORD_WAITS
        },
        begin: BEGIN_WEB,
        steps: &[
            Step::Accept(1, 0, THREE_FLOWS, 3, 3),
            Step::Advance(SECOND_END, Err(Fault::JournalFull)),
            Step::Served(1, 0, 0, 0),
            Step::Advance(FIRST_END, Ok(())),
            Step::Pull(1, 1400, Ok(Some(FIRST_CLOSED))),
        ],
    },
    Case {
        name: "full_limits: the audit and the cut of an advance",
        limits: THREE_ENTRIES_WAIT,
        begin: BEGIN_WEB,
        steps: &[
            Step::Accept(1, 0, THREE_FLOWS, 3, 3),
            Step::Advance(SECOND_END, Err(Fault::AuditFull { need: 1, room: 0 })),
            Step::Served(1, 0, 0, 0),
            Step::Audit(1, &["3 0 1 aggregated 1\n"]),
            Step::Advance(SECOND_END, Ok(())),
            Step::WasCut(1, 0, 0, 0),
            Step::Audit(
                10,
                &[
                    "3 1 1 aggregated 1\n",
                    "3 2 1 aggregated 1\n",
                    "4 0 1 cut\n",
                ],
            ),
        ],
    },
];
