//! Cases in a folder in memory.
use crate::repair::asserting::assert_holds;
use crate::repair::cases::{CHECKED, Case, WHOLE, had, is_as_said, is_left};
use crate::repair::samples::SHORT;
use lrc_code::{Code, Place};
use memory_folder::MemoryFolder;
use std::alloc::{AllocError, Global};
use std::process::Abort;
use store_folder::{FolderStore, Links, Pattern, SeparateStore, Site, Sums};
use store_repair::{Found, Stripe, StripeFiles, StripeOutcome, repair_stripe};

/// The paths of its fragments under their names and under their second names.
pub(crate) static PATHS: [(Place, &str, &str); 10] = [
    (Place::X0, "store/a.x0", "store/a.x0.damaged"),
    (Place::X1, "store/a.x1", "store/a.x1.damaged"),
    (Place::X2, "store/a.x2", "store/a.x2.damaged"),
    (Place::Y0, "store/a.y0", "store/a.y0.damaged"),
    (Place::Y1, "store/a.y1", "store/a.y1.damaged"),
    (Place::Y2, "store/a.y2", "store/a.y2.damaged"),
    (Place::Px, "store/a.px", "store/a.px.damaged"),
    (Place::Py, "store/a.py", "store/a.py.damaged"),
    (Place::P0, "store/a.p0", "store/a.p0.damaged"),
    (Place::P1, "store/a.p1", "store/a.p1.damaged"),
];

/// The path of another stripe's fragment, and its bytes.
pub(crate) const OTHER_PATH: &str = "store/b.x0";

const OTHER: &[u8] = b"\x77";

/// A folder with what a case of the short stripe has before its repair, and the other stripe's fragment.
pub(crate) fn folder_of(rt: &impl Abort, alloc: Global, case: &Case<'_>) -> MemoryFolder {
    let mut files = MemoryFolder::new(alloc);
    files.put(OTHER_PATH, OTHER).expect(rt, "room for a file");
    for (place, path, _) in &PATHS {
        if let Some(bytes) = had(case, *place) {
            files.put(path, bytes).expect(rt, "room for a file");
        }
    }
    files
}

/// Repairs a case's stripe in a folder with these sums, if there are any, and says what is in that then.
pub(crate) fn repaired(
    rt: &HostRuntime,
    files: MemoryFolder,
    case: &Case<'_>,
    sums: Option<&Sums>,
) -> (Result<StripeOutcome, AllocError>, MemoryFolder) {
    let mut found = StripeFiles::new();
    for (place, path, _) in &PATHS {
        if let Some(bytes) = files.bytes_at(path) {
            found.found[place.index()] = Found::File {
                length: bytes.len() as u64,
            };
        }
    }
    let stripe = Stripe {
        name: SHORT.name,
        files: found,
    };
    let site = Site {
        folder: "store",
        target: "store",
        pattern: Pattern::PLAIN,
        code: Code::Narrow,
        sums,
        tag: "",
        links: Links::NotFollowed,
        unmounted: &[],
        shared: None,
    };
    let mut store = SeparateStore::new(FolderStore::over(rt, files, site));
    let outcome = repair_stripe(rt.alloc(), &mut store, &case.repair, &stripe);
    (outcome, store.into_files())
}

/// Whether a folder has what a case leaves, and the other stripe's fragment.
pub(crate) fn is_left_at(files: &MemoryFolder, case: &Case<'_>) -> bool {
    for (place, path, second) in &PATHS {
        if !is_left(case, *place, files.bytes_at(path), files.bytes_at(second)) {
            return false;
        }
    }
    files.bytes_at(OTHER_PATH) == Some(OTHER)
}

/// The SHA-256 digest of the byte 01, as `sha256sum` prints it.
const OF_01: [u8; 32] = [
    0x4b, 0xf5, 0x12, 0x2f, 0x34, 0x45, 0x54, 0xc5, 0x3b, 0xde, 0x2e, 0xbb, 0x8c, 0xd2, 0xb7, 0xe3,
    0xd1, 0x60, 0x0a, 0xd6, 0x31, 0xc3, 0x85, 0xa5, 0xd7, 0xcc, 0xe2, 0x3c, 0x77, 0x85, 0x45, 0x9a,
];

/// The SHA-256 digest of the byte 02, as `sha256sum` prints it.
const OF_02: [u8; 32] = [
    0xdb, 0xc1, 0xb4, 0xc9, 0x00, 0xff, 0xe4, 0x8d, 0x57, 0x5b, 0x5d, 0xa5, 0xc6, 0x38, 0x04, 0x01,
    0x25, 0xf6, 0x5d, 0xb0, 0xfe, 0x3e, 0x24, 0x49, 0x4b, 0x76, 0xea, 0x98, 0x64, 0x57, 0xd9, 0x86,
];

/// Digests that sums say of files.
type Digests = &'static [(&'static str, [u8; 32])];

const DIFFERS: &str = "differs from the checksums";

const REBUILT_DIFFERS: &str = "was rebuilt, and what was rebuilt differs from the checksums";

/// Cases with digests that are said of fragments. x1 is 02.
static CASES: [(Digests, Case<'static>); 7] = [
    (
        &[("a.x1", OF_02)],
        Case {
            name: "one with a digest is rebuilt from three, also beside damage elsewhere",
            lost: &[Place::X1],
            changes: &[(Place::Y0, OTHER)],
            repair: CHECKED,
            rebuilt: &[Place::X1],
            survivors: 3,
            is_checked: false,
            is_covered: false,
            left: &[Place::Y0],
            ..WHOLE
        },
    ),
    (
        &[("a.x1", OF_02), ("a.x0", OF_01)],
        Case {
            name: "what is made of a damaged one differs: all are read, of which its digest says which it is",
            lost: &[Place::X1],
            changes: &[(Place::X0, OTHER)],
            repair: CHECKED,
            rebuilt: &[Place::X1],
            survivors: 8,
            is_covered: false,
            said: &[(Some(Place::X0), DIFFERS)],
            left: &[Place::X0],
            ..WHOLE
        },
    ),
    (
        &[("a.x1", OF_01)],
        Case {
            name: "where the digest is wrong nothing gets the name, and no survivor is blamed",
            lost: &[Place::X1],
            repair: CHECKED,
            survivors: 9,
            said: &[(Some(Place::X1), REBUILT_DIFFERS)],
            left: &[Place::X1],
            ..WHOLE
        },
    ),
    (
        &[("a.x1", OF_02)],
        Case {
            name: "for one of another length with a digest all are read",
            changes: &[(Place::X1, b"")],
            repair: CHECKED,
            survivors: 9,
            said: &[(
                Some(Place::X1),
                "has another length than the other fragments of the stripe",
            )],
            left: &[Place::X1],
            ..WHOLE
        },
    ),
    (
        &[("a.x1", OF_02)],
        Case {
            name: "one that has its digest says the length, also beside a longer one",
            lost: &[Place::X0],
            changes: &[(Place::Y0, b"\x04\x00")],
            repair: CHECKED,
            rebuilt: &[Place::X0],
            survivors: 8,
            said: &[(
                Some(Place::Y0),
                "has another length than the other fragments of the stripe",
            )],
            left: &[Place::Y0],
            ..WHOLE
        },
    ),
    (
        &[("a.x1", OF_02)],
        Case {
            name: "where one of two has no digest as many are read as cover both: all eight",
            lost: &[Place::X1, Place::Y0],
            repair: CHECKED,
            rebuilt: &[Place::X1, Place::Y0],
            survivors: 8,
            ..WHOLE
        },
    ),
    (
        &[("a.x1", OF_02), ("a.py", OF_02)],
        Case {
            name: "of two that are lost the one that differs from its digest gets no name",
            lost: &[Place::X1, Place::Py],
            rebuilt: &[Place::X1],
            survivors: 8,
            said: &[(Some(Place::Py), REBUILT_DIFFERS)],
            left: &[Place::Py],
            ..WHOLE
        },
    ),
];

/// Whether a case is repaired as it says in a folder whose sums say these digests.
fn is_repaired_with(
    abort: &impl Abort,
    rt: &HostRuntime,
    digests: Digests,
    case: &Case<'_>,
) -> bool {
    let mut sums = Sums::new(rt.alloc());
    for (name, digest) in digests {
        sums.set(rt.alloc(), name, *digest)
            .expect(abort, "room for a digest");
    }
    let files = folder_of(abort, rt.alloc(), case);
    let (outcome, files) = repaired(rt, files, case, Some(&sums));
    let outcome = outcome.expect(abort, "an outcome");
    is_left_at(&files, case) && is_as_said(abort, rt.alloc(), &outcome, case)
}

#[test]
fn digests_say_which_are_read_and_which_are_right(rt: HostRuntime) {
    for (digests, case) in &CASES {
        let is = is_repaired_with(&rt, &rt, digests, case);
        assert_holds(&rt, is, case.name);
    }
}
