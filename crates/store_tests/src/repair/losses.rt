//! Losses that come back: what covers them, and how few survivors make them.
use crate::repair::asserting::assert_holds;
use crate::repair::cases::{CHECKED, Case, FEW, WHOLE, is_planned, is_repaired};
use crate::repair::samples::{BOTH, NARROW, Sample, WIDE};
use lrc_code::{Code, Group, Place, PlaceSet};
use std::alloc::Global;
use std::process::Abort;
use store_repair::is_covered;

/// Whether both lost fragments are right though two others are damaged, by the code's equations (`tools/store.py`): where one is of each
/// group, parities among them, and neither is a global parity.
fn are_covered(one: Place, other: Place) -> bool {
    match (one.group(), other.group()) {
        (Some(Group::X), Some(Group::Y)) | (Some(Group::Y), Some(Group::X)) => true,
        _ => false,
    }
}

/// Whether a stripe comes back from all others where these fragments are lost, is covered just if it is to be, and a plan says so.
fn comes_back(
    rt: &impl Abort,
    alloc: Global,
    sample: &'static Sample,
    lost: &[Place],
    is_covered: bool,
) -> bool {
    let case = Case {
        sample,
        lost,
        rebuilt: lost,
        survivors: sample.fragments.len().saturating_sub(lost.len()),
        is_covered,
        ..WHOLE
    };
    is_planned(rt, alloc, &case) && is_repaired(rt, alloc, &case)
}

/// Whether it does where a fragment is lost, with any one before it, and with any two.
fn any_come_back(
    rt: &impl Abort,
    alloc: Global,
    sample: &'static Sample,
    one: Place,
    before: &[Place],
) -> bool {
    let mut is = comes_back(rt, alloc, sample, &[one], true);
    for (second, other) in before.iter().enumerate() {
        is = is && comes_back(rt, alloc, sample, &[*other, one], are_covered(*other, one));
        for third in &before[..second] {
            is = is && comes_back(rt, alloc, sample, &[*third, *other, one], false);
        }
    }
    is
}

/// Each loss of three fragments is one that both codes recover. One lost fragment is covered, two of which one is of each group, and none
/// of three.
#[test]
fn up_to_three_lost_fragments_come_back_and_are_covered_by_groups(rt: HostRuntime) {
    for sample in &BOTH {
        let places = sample.code.places();
        for (first, one) in places.iter().enumerate() {
            let is = any_come_back(&rt, rt.alloc(), sample, *one, &places[..first]);
            assert_holds(&rt, is, one.name());
        }
    }
}

/// What survives and what the code doesn't have isn't covered.
#[test]
fn what_is_not_lost_is_not_covered(rt: HostRuntime) {
    for (code, place) in [
        (Code::Narrow, Place::X0),
        (Code::Wide, Place::X0),
        (Code::Narrow, Place::X3),
    ] {
        let is = is_covered(code, code.others(PlaceSet::empty()), place);
        assert_holds(&rt, !is, place.name());
    }
}

/// How many survivors make a lost fragment of a group, how many cover it, and the same of a global parity.
///
/// A fragment of a group is rebuilt from the others of its group: 3 reads of the (6,2,2) code and 6 of the (12,2,2) code (Huang et al.,
/// section 2). A global parity takes all data fragments, or as many others. How many cover one is found by trying all sets of them: without
/// a group's own fragment all but a parity, and without a global parity all.
static FEWEST: [(&Sample, [usize; 2], [usize; 2]); 2] = [
    (&NARROW, [3, 8], [6, 9]),
    (&WIDE, [6, 14], [12, 15]),
];

/// Whether a lost fragment is rebuilt from so many survivors, and covered, with a plan that says so, from so many more.
fn is_from_few(
    rt: &impl Abort,
    alloc: Global,
    sample: &'static Sample,
    lost: &[Place],
    [few, covering]: [usize; 2],
) -> bool {
    let checked = Case {
        sample,
        lost,
        rebuilt: lost,
        repair: CHECKED,
        survivors: covering,
        ..WHOLE
    };
    let unchecked = Case {
        repair: FEW,
        survivors: few,
        is_checked: false,
        is_covered: false,
        ..checked
    };
    is_repaired(rt, alloc, &unchecked)
        && is_planned(rt, alloc, &checked)
        && is_repaired(rt, alloc, &checked)
}

#[test]
fn few_survivors_are_read(rt: HostRuntime) {
    for (sample, of_group, of_global) in &FEWEST {
        for place in sample.code.places() {
            let survivors = match place.group() {
                Some(_) => of_group,
                None => of_global,
            };
            let is = is_from_few(&rt, rt.alloc(), sample, &[*place], *survivors);
            assert_holds(&rt, is, place.name());
        }
    }
}
