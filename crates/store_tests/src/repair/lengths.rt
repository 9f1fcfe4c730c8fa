//! What is made of a stripe whose files differ in length.
use crate::repair::asserting::assert_holds;
use crate::repair::cases::{
    Act, Case, REPLACING, WHOLE, are_findings, is_left_in, outcome_of, store_of,
};
use crate::repair::samples::NARROW;
use lrc_code::Place;
use std::alloc::Global;
use std::process::Abort;
use store_repair::{Reason, StripeOutcome};

/// A stripe of which all is as it is to be.
const BASE: Case<'static> = Case {
    sample: &NARROW,
    repair: REPLACING,
    ..WHOLE
};

/// All places of the code.
const ALL: &[Place] = &[
    Place::X0,
    Place::X1,
    Place::X2,
    Place::Y0,
    Place::Y1,
    Place::Y2,
    Place::Px,
    Place::Py,
    Place::P0,
    Place::P1,
];

/// The same, but for p1.
const ALL_BUT_P1: &[Place] = &[
    Place::X0,
    Place::X1,
    Place::X2,
    Place::Y0,
    Place::Y1,
    Place::Y2,
    Place::Px,
    Place::Py,
    Place::P0,
];

/// Stripes of which files are cut or lost, and what their length is, if it is known. Else the one line says which have which length, and
/// nothing is written.
static CASES: [(Option<usize>, Case<'static>); 7] = [
    (
        Some(5),
        Case {
            name: "one of another length: the nine others belong together",
            changes: &[(Place::X0, b"\x28\xc3\xa6")],
            ..BASE
        },
    ),
    (
        Some(5),
        Case {
            name: "three without bytes: the seven others belong together",
            changes: &[(Place::X0, b""), (Place::Y0, b""), (Place::P0, b"")],
            left: &[Place::X0, Place::Y0, Place::P0],
            ..BASE
        },
    ),
    (
        Some(5),
        Case {
            name: "a group that belongs together, whatever the number of the others that prove nothing",
            changes: &[
                (Place::Y0, b""),
                (Place::Y1, b""),
                (Place::Y2, b""),
                (Place::Py, b""),
                (Place::P0, b""),
                (Place::P1, b""),
            ],
            left: &[
                Place::Y0,
                Place::Y1,
                Place::Y2,
                Place::Py,
                Place::P0,
                Place::P1,
            ],
            ..BASE
        },
    ),
    (
        None,
        Case {
            name: "two groups that belong together each",
            lost: &[Place::P0, Place::P1],
            changes: &[
                (Place::Y0, b"\xa8\xac\x06\x76"),
                (Place::Y1, b"\x48\x97\xac\xc5"),
                (Place::Y2, b"\x34\xdb\xa9\x90"),
                (Place::Py, b"\xd4\xe0\x03\x23"),
            ],
            said: &[(
                None,
                "its fragments have different lengths, and no check says which is right: \
                x0 x1 x2 px with 5 bytes, y0 y1 y2 py with 4 bytes",
            )],
            left: ALL,
            ..BASE
        },
    ),
    (
        None,
        Case {
            name: "most of them empty: the others have no checks",
            changes: &[
                (Place::X1, b""),
                (Place::X2, b""),
                (Place::Y1, b""),
                (Place::Y2, b""),
                (Place::Px, b""),
                (Place::P0, b""),
                (Place::P1, b""),
            ],
            said: &[(
                None,
                "its fragments have different lengths, and no check says which is right: \
                x0 y0 py with 5 bytes, x1 x2 y1 y2 px p0 p1 with 0 bytes",
            )],
            left: ALL,
            ..BASE
        },
    ),
    (
        None,
        Case {
            name: "none with checks",
            lost: &[Place::X2, Place::Y0, Place::Y1],
            changes: &[(Place::X0, b"\x28"), (Place::X1, b"\x9a")],
            said: &[(
                None,
                "its fragments have different lengths, and no check says which is right: \
                x0 x1 with 1 byte, y2 px py p0 p1 with 5 bytes",
            )],
            left: ALL,
            ..BASE
        },
    ),
    (Some(0), EMPTY),
];

/// Where all are empty p1 is made without bytes, and isn't checked.
pub(crate) const EMPTY: Case<'static> = Case {
    name: "all empty: one length",
    sample: &NARROW,
    lost: &[Place::P1],
    changes: &[
        (Place::X0, b""),
        (Place::X1, b""),
        (Place::X2, b""),
        (Place::Y0, b""),
        (Place::Y1, b""),
        (Place::Y2, b""),
        (Place::Px, b""),
        (Place::Py, b""),
        (Place::P0, b""),
    ],
    repair: REPLACING,
    rebuilt: &[Place::P1],
    is_right: false,
    survivors: 9,
    is_checked: false,
    is_covered: false,
    left: ALL_BUT_P1,
    ..WHOLE
};

/// Whether an outcome says this length, or else the one line of the case.
fn says(
    rt: &impl Abort,
    alloc: Global,
    outcome: &StripeOutcome,
    length: Option<usize>,
    case: &Case<'_>,
) -> bool {
    let Some(length) = length else {
        return outcome.rebuilt.is_empty() && are_findings(rt, alloc, outcome, case);
    };
    for finding in &outcome.findings {
        if matches!(finding.reason, Reason::LengthsDiffer(_)) {
            return false;
        }
    }
    outcome.length == length
}

/// Whether a scrub, a plan and a repair say it, and the repair leaves what the case says.
fn is_decided(rt: &impl Abort, alloc: Global, length: Option<usize>, case: &Case<'_>) -> bool {
    let mut store = store_of(rt, alloc, case);
    for act in [Act::Scrub, Act::Plan, Act::Repair] {
        let outcome = outcome_of(alloc, &mut store, case, act).expect(rt, "an outcome");
        if !says(rt, alloc, &outcome, length, case) {
            return false;
        }
    }
    is_left_in(&store, case)
}

/// A scrub, a plan and a repair say the same of the length, and the checks decide it and not the files' number. Where they don't, nothing
/// is written.
#[test]
fn checks_decide_between_lengths(rt: HostRuntime) {
    for (length, case) in &CASES {
        let is = is_decided(&rt, rt.alloc(), *length, case);
        assert_holds(&rt, is, case.name);
    }
}
