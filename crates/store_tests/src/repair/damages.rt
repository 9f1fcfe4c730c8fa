//! What a repair and a scrub make of damage among the survivors of a stripe.
use crate::repair::asserting::assert_holds;
use crate::repair::cases::{Act, Case, REPLACING, WHOLE, is_left_in, outcome_of, store_of};
use crate::repair::ranks::suspects_of;
use crate::repair::samples::{BOTH, Fragments, Sample, bytes_at};
use lrc_code::{Code, Place, PlaceSet};
use std::alloc::Global;
use std::process::Abort;
use store_repair::{Reason, StripeOutcome};

/// A sample's fragment with another first byte.
fn flipped(sample: &Sample, place: Place) -> [u8; 5] {
    match bytes_at(sample.fragments, place) {
        Some([first, second, third, fourth, fifth]) => {
            [*first ^ 0x5a, *second, *third, *fourth, *fifth]
        }
        _ => [0; 5],
    }
}

/// Which fragments are lost in turn: none, some of each kind, and each two of these.
static NARROW_LOSSES: [&[Place]; 29] = [
    &[],
    &[Place::X0],
    &[Place::X1],
    &[Place::Y2],
    &[Place::Px],
    &[Place::Py],
    &[Place::P0],
    &[Place::P1],
    &[Place::X0, Place::X1],
    &[Place::X0, Place::Y2],
    &[Place::X1, Place::Y2],
    &[Place::X0, Place::Px],
    &[Place::X1, Place::Px],
    &[Place::Y2, Place::Px],
    &[Place::X0, Place::Py],
    &[Place::X1, Place::Py],
    &[Place::Y2, Place::Py],
    &[Place::Px, Place::Py],
    &[Place::X0, Place::P0],
    &[Place::X1, Place::P0],
    &[Place::Y2, Place::P0],
    &[Place::Px, Place::P0],
    &[Place::Py, Place::P0],
    &[Place::X0, Place::P1],
    &[Place::X1, Place::P1],
    &[Place::Y2, Place::P1],
    &[Place::Px, Place::P1],
    &[Place::Py, Place::P1],
    &[Place::P0, Place::P1],
];

static WIDE_LOSSES: [&[Place]; 16] = [
    &[],
    &[Place::X1],
    &[Place::Y4],
    &[Place::Px],
    &[Place::Py],
    &[Place::P0],
    &[Place::X1, Place::Y4],
    &[Place::X1, Place::Px],
    &[Place::Y4, Place::Px],
    &[Place::X1, Place::Py],
    &[Place::Y4, Place::Py],
    &[Place::Px, Place::Py],
    &[Place::X1, Place::P0],
    &[Place::Y4, Place::P0],
    &[Place::Px, Place::P0],
    &[Place::Py, Place::P0],
];

/// Those of a code.
fn losses_of(code: Code) -> &'static [&'static [Place]] {
    match code {
        Code::Narrow => &NARROW_LOSSES,
        Code::Wide => &WIDE_LOSSES,
    }
}

/// Whether a repair of a stripe with these losses and changes makes no other fragment than the sample's and others of these.
fn makes_nothing_else(
    rt: &impl Abort,
    alloc: Global,
    sample: &'static Sample,
    lost: &'static [Place],
    changes: Fragments<'_>,
    others: Fragments<'_>,
) -> bool {
    let case = Case {
        sample,
        lost,
        changes,
        repair: REPLACING,
        ..WHOLE
    };
    let mut store = store_of(rt, alloc, &case);
    outcome_of(alloc, &mut store, &case, Act::Repair).expect(rt, "an outcome");
    for (place, bytes) in sample.fragments {
        if let Some(found) = store.fragment(sample.name, *place) {
            if found != *bytes && bytes_at(others, *place) != Some(found) {
                return false;
            }
        }
    }
    true
}

/// Whether two fragments make nothing else, both where they are exchanged, with one more lost at most, and where they are changed.
fn makes_pair_nothing_else(
    rt: &impl Abort,
    alloc: Global,
    sample: &'static Sample,
    one: Place,
    other: Place,
) -> bool {
    let exchanged = [
        (one, bytes_at(sample.fragments, other).unwrap_or(b"")),
        (other, bytes_at(sample.fragments, one).unwrap_or(b"")),
    ];
    for lost in losses_of(sample.code) {
        if lost.len() < 2 && !makes_nothing_else(rt, alloc, sample, lost, &exchanged, &exchanged) {
            return false;
        }
    }
    let first = flipped(sample, one);
    let second = flipped(sample, other);
    let changed = [(one, first.as_slice()), (other, second.as_slice())];
    makes_nothing_else(rt, alloc, sample, &[], &changed, &changed)
}

#[test]
fn two_damaged_fragments_make_nothing_wrong(rt: HostRuntime) {
    for sample in &BOTH {
        let places = sample.code.places();
        for (index, one) in places.iter().enumerate() {
            for other in &places[..index] {
                let is = makes_pair_nothing_else(&rt, rt.alloc(), sample, *one, *other);
                assert_holds(&rt, is, one.name());
            }
        }
    }
}

/// What x0 and the parities become where x0 becomes 01 23 45 67 89, by an independent computation.
static NEW_NARROW: [(Place, &[u8]); 4] = [
    (Place::X0, b"\x01\x23\x45\x67\x89"),
    (Place::Px, b"\x5b\xc9\x70\xc7\xd7"),
    (Place::P0, b"\xad\xbd\x30\x06\x2c"),
    (Place::P1, b"\xfe\x1b\xfa\x4c\xa1"),
];

static NEW_WIDE: [(Place, &[u8]); 4] = [
    (Place::X0, b"\x01\x23\x45\x67\x89"),
    (Place::Px, b"\x65\x87\x48\xdc\x6c"),
    (Place::P0, b"\x67\x9f\x68\xac\x81"),
    (Place::P1, b"\x27\x82\x78\xbb\x4d"),
];

/// The new fragments whose bits are set, and the old ones at the other three places.
fn written_of(
    sample: &'static Sample,
    new: &[(Place, &'static [u8]); 4],
    written: u8,
) -> [(Place, &'static [u8]); 4] {
    let mut bits = written;
    let mut changes = *new;
    for (place, bytes) in &mut changes {
        if bits % 2 == 0 {
            *bytes = bytes_at(sample.fragments, *place).unwrap_or(b"");
        }
        bits /= 2;
    }
    changes
}

/// An update that was torn: some of its four fragments are new, the others old, and one at most is lost. Each fragment is then of one
/// generation or the other.
#[test]
fn torn_update_makes_nothing_of_neither_generation(rt: HostRuntime) {
    for (sample, new) in [(&BOTH[0], &NEW_NARROW), (&BOTH[1], &NEW_WIDE)] {
        for written in 0..16u8 {
            let changes = written_of(sample, new, written);
            for lost in losses_of(sample.code) {
                let is = lost.len() == 2
                    || makes_nothing_else(&rt, rt.alloc(), sample, lost, &changes, new);
                assert_holds(&rt, is, sample.name);
            }
        }
    }
}

/// Whether a scrub says once that there is damage: at a place that is the only suspect, or at one of just these.
fn is_suspected(outcome: &StripeOutcome, damaged: Place, expected: PlaceSet) -> bool {
    let mut is_said = false;
    for finding in &outcome.findings {
        let is_damage = match &finding.reason {
            Reason::Absent => continue,
            Reason::Damaged => finding.place == Some(damaged) && expected.len() == 1,
            Reason::Suspected(suspects) => suspects.places == expected && expected.len() > 1,
            _ => false,
        };
        if is_said || !is_damage {
            return false;
        }
        is_said = true;
    }
    is_said
}

/// Whether a scrub says of a damaged fragment, which is the only change of a stripe of which these are lost, what it must, and, where fewer
/// than two are, a repair makes of it what it must: it is replaced if it is named, and else nothing is written. One that is lost isn't
/// damaged.
fn is_named_or_suspected(
    rt: &impl Abort,
    alloc: Global,
    sample: &'static Sample,
    lost: &'static [Place],
    damaged: Place,
    changes: Fragments<'_>,
) -> bool {
    if lost.contains(&damaged) {
        return true;
    }
    let expected = suspects_of(sample.code, lost, damaged);
    let is_named = expected.len() == 1;
    let case = Case {
        sample,
        lost,
        changes,
        repair: REPLACING,
        left: if is_named { &[] } else { sample.code.places() },
        ..WHOLE
    };
    let mut store = store_of(rt, alloc, &case);
    let scrubbed = outcome_of(alloc, &mut store, &case, Act::Scrub).expect(rt, "an outcome");
    if lost.len() == 2 || !is_suspected(&scrubbed, damaged, expected) {
        return is_suspected(&scrubbed, damaged, expected);
    }
    let outcome = outcome_of(alloc, &mut store, &case, Act::Repair).expect(rt, "an outcome");
    let is_told = if is_named {
        outcome.is_checked
    } else {
        outcome.rebuilt.is_empty()
    };
    is_told && is_left_in(&store, &case)
}

/// A damaged fragment is named where nothing is lost, since any two stripes differ in four places; else the suspects are those that the
/// ranks of the equations' columns say.
#[test]
fn one_damaged_fragment_is_named_or_suspected(rt: HostRuntime) {
    for sample in &BOTH {
        for damaged in sample.code.places() {
            let bytes = flipped(sample, *damaged);
            let changes = [(*damaged, bytes.as_slice())];
            for lost in losses_of(sample.code) {
                let is = is_named_or_suspected(&rt, rt.alloc(), sample, lost, *damaged, &changes);
                assert_holds(&rt, is, damaged.name());
            }
        }
    }
}
