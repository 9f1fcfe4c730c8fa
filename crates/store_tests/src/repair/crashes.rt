//! Repairs over a folder in memory: with each call failing, and with all that a crash at each call may leave.
use crate::repair::asserting::assert_holds;
use crate::repair::cases::{Case, REPLACING, WHOLE, had, is_as_said, is_left};
use crate::repair::folder_cases::{OTHER_PATH, PATHS, folder_of, is_left_at, repaired};
use crate::repair::samples::bytes_at;
use folders::{Folder, NewFile};
use lrc_code::Place;
use memory_folder::{Fault, MemoryFolder};
use std::process::Abort;

/// More ways for a crash to go than these aren't tried at one call.
const MOST_WAYS: u64 = 300;

static TWO_LOST: Case<'static> = Case {
    name: "two are lost",
    lost: &[Place::X1, Place::Py],
    rebuilt: &[Place::X1, Place::Py],
    survivors: 8,
    ..WHOLE
};

static THREE_LOST: Case<'static> = Case {
    name: "three are lost",
    lost: &[Place::X0, Place::Y2, Place::P1],
    rebuilt: &[Place::X0, Place::Y2, Place::P1],
    survivors: 7,
    is_covered: false,
    ..WHOLE
};

static REPLACED: Case<'static> = Case {
    name: "a damaged one is replaced",
    changes: &[(Place::X2, b"\x77")],
    repair: REPLACING,
    rebuilt: &[Place::X2],
    survivors: 9,
    said: &[(
        Some(Place::X2),
        "is damaged: only without it the others belong together",
    )],
    ..WHOLE
};

/// Whether each name has what a case leaves or what it had before: a damaged fragment is under its name, or under its second name, also
/// with the whole one under its name.
fn is_either_at(files: &MemoryFolder, case: &Case<'_>) -> bool {
    for (place, path, second) in &PATHS {
        let bytes = files.bytes_at(path);
        let kept = files.bytes_at(second);
        let is_kept = kept.is_none() || kept == bytes_at(case.changes, *place);
        let is_as_before = is_kept && bytes == had(case, *place);
        if !is_as_before && !is_left(case, *place, bytes, kept) {
            return false;
        }
    }
    true
}

/// Whether there is nothing but the stripe's fragments, the other stripe's, and files under temporary names.
fn has_nothing_else(rt: &impl Abort, files: &MemoryFolder) -> bool {
    let paths = files.paths().expect(rt, "paths");
    for path in paths {
        let mut is_known = path == OTHER_PATH || path.starts_with("store/.rebuild-store-");
        for (_, name, second) in &PATHS {
            is_known = is_known || path == *name || path == *second;
        }
        if !is_known {
            return false;
        }
    }
    true
}

/// What a crash may leave of a folder.
fn left_by(rt: &impl Abort, files: &MemoryFolder, way: u64) -> MemoryFolder {
    files.after_crash(way).expect(rt, "what a crash leaves")
}

/// Whether that is what a case leaves.
fn is_left_after(rt: &impl Abort, files: &MemoryFolder, way: u64, case: &Case<'_>) -> bool {
    is_left_at(&left_by(rt, files, way), case)
}

/// How many calls a case's repair makes that change something, if it says what it is to say, and that is on the disk: whatever a crash then
/// leaves is what the case leaves. Else none.
fn calls_when_done(abort: &impl Abort, rt: &HostRuntime, case: &Case<'_>) -> u64 {
    let (outcome, files) = repaired(rt, folder_of(abort, rt.alloc(), case), case, None);
    let outcome = outcome.expect(abort, "an outcome");
    let mut is_done = is_as_said(abort, rt.alloc(), &outcome, case);
    for way in 0..files.crashes().min(MOST_WAYS) {
        is_done = is_done && is_left_after(abort, &files, way, case);
    }
    if is_done { files.count() } else { 0 }
}

/// Whether a crash left each name as it was or as it is to be, and the same repair then makes it as it is to be.
fn is_mended(abort: &impl Abort, rt: &HostRuntime, left: MemoryFolder, case: &Case<'_>) -> bool {
    let is_either = is_either_at(&left, case) && has_nothing_else(abort, &left);
    let (again, files) = repaired(rt, left, case, None);
    let again = again.expect(abort, "an outcome");
    let is_all_said = again.findings.is_empty() || !case.changes.is_empty();
    is_either && is_all_said && is_left_at(&files, case)
}

/// Whether all is so after a fault, and after each crash then.
fn is_survived(abort: &impl Abort, rt: &HostRuntime, case: &Case<'_>, fault: Fault) -> bool {
    let mut files = folder_of(abort, rt.alloc(), case);
    files.fail(fault);
    let (_, files) = repaired(rt, files, case, None);
    for way in 0..files.crashes().min(MOST_WAYS) {
        if !is_mended(abort, rt, left_by(abort, &files, way), case) {
            return false;
        }
    }
    is_either_at(&files, case)
}

/// Whether a call and all after it fail, and whether it is done all the same.
const WAYS_TO_FAIL: [(bool, bool); 4] = [
    (true, false),
    (true, true),
    (false, false),
    (false, true),
];

/// Whether all is so where the machine stops at each call, or the call fails alone. There are more calls than so many.
fn is_survived_at_each_call(
    abort: &impl Abort,
    rt: &HostRuntime,
    case: &Case<'_>,
    least: u64,
) -> bool {
    let calls = calls_when_done(abort, rt, case);
    for at in 0..calls {
        for (lasts, is_done) in WAYS_TO_FAIL {
            if !is_survived(abort, rt, case, Fault { at, lasts, is_done }) {
                return false;
            }
        }
    }
    calls > least
}

/// Two are lost: whatever a crash leaves, each name is absent or whole, and the same repair then makes them whole.
#[test]
fn a_crash_leaves_each_name_absent_or_whole(rt: HostRuntime) {
    let is = is_survived_at_each_call(&rt, &rt, &TWO_LOST, 8);
    assert_holds(&rt, is, TWO_LOST.name);
}

/// A damaged fragment is replaced: it is under the one name or the other.
#[test]
fn a_crash_leaves_what_is_replaced(rt: HostRuntime) {
    let is = is_survived_at_each_call(&rt, &rt, &REPLACED, 0);
    assert_holds(&rt, is, REPLACED.name);
}

/// What a repair said to be done is on the disk.
#[test]
fn done_is_on_the_disk(rt: HostRuntime) {
    let calls = calls_when_done(&rt, &rt, &THREE_LOST);
    assert_holds(&rt, calls > 0, THREE_LOST.name);
}

/// What of a file that isn't on the disk a crash may leave, and how that is called.
static TORN: [(&str, Option<&[u8]>); 5] = [
    ("no file", None),
    ("nothing", Some(b"")),
    ("a half", Some(b"ab")),
    ("all", Some(b"abcd")),
    ("other bytes", Some(b"\x3b8\x39\x3e")),
];

/// Whether some crash leaves these bytes of the file, or no file.
fn may_be_left(rt: &impl Abort, files: &MemoryFolder, wanted: Option<&[u8]>) -> bool {
    for way in 0..files.crashes() {
        if left_by(rt, files, way).bytes_at("store/a") == wanted {
            return true;
        }
    }
    false
}

/// A crash leaves of a file that isn't on the disk nothing, a half, all or other bytes, and leaves its path or not.
#[test]
fn a_crash_tears_what_is_not_on_the_disk(rt: HostRuntime) {
    let mut files = MemoryFolder::new(rt.alloc());
    files.fail(Fault {
        at: 1,
        lasts: false,
        is_done: false,
    });
    let mut new = files.create_new("store/a", 0o600).expect(&rt, "a file");
    new.append(b"abcd").expect(&rt, "bytes");
    assert_holds(&rt, files.sync(new).is_err(), "it isn't put on the disk");
    for (name, wanted) in &TORN {
        assert_holds(&rt, may_be_left(&rt, &files, *wanted), name);
    }
}
