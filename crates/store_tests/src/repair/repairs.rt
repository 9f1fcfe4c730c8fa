//! What a repair of a stripe says and leaves.
use crate::repair::asserting::assert_holds;
use crate::repair::cases::{
    Act, CHECKED, Case, FEW, FROM_ALL, REPLACING, WHOLE, is_left, is_left_in, is_repaired,
    outcome_of, put_case, store_of,
};
use crate::repair::lengths::EMPTY;
use crate::repair::samples::{NARROW, WIDE};
use lrc_code::{Code, Place};
use std::alloc::{AllocError, Global};
use std::process::Abort;
use store_repair::{MemoryStore, Reads, Repair, StripeOutcome};

/// One that takes only one fragment to be damaged.
const GUESSING: Repair = Repair {
    code: Code::Narrow,
    reads: Reads::All,
    replace_damaged: true,
    assume_one_damaged: true,
    elsewhere: false,
};

const DAMAGED: &str = "is damaged: only without it the others belong together";

const TAKEN: &str =
    "is taken for the damaged one, which is a guess: only without it the others belong together";

const NO_CHECK: &str = "isn't replaced: no check covers what would be put in its place";

const SEVERAL: &str = "can't be rebuilt: the fragments that survive don't determine it";

/// The fragments of group Y.
const GROUP: &[Place] = &[Place::Y0, Place::Y1, Place::Y2, Place::Py];

/// They, none of which is determined.
const NONE_OF_GROUP: &[(Option<Place>, &str)] = &[
    (Some(Place::Y0), SEVERAL),
    (Some(Place::Y1), SEVERAL),
    (Some(Place::Y2), SEVERAL),
    (Some(Place::Py), SEVERAL),
];

/// A stripe without x0, whose py is 01 in place of 07.
const REPLACED: Case<'static> = Case {
    name: "a damaged fragment is replaced and kept",
    lost: &[Place::X0],
    changes: &[(Place::Py, b"\x01")],
    repair: REPLACING,
    rebuilt: &[Place::X0, Place::Py],
    survivors: 8,
    said: &[(Some(Place::Py), DAMAGED)],
    ..WHOLE
};

static CASES: [Case<'static>; 9] = [
    Case {
        name: "two of a group are covered by no survivors: all are read",
        sample: &NARROW,
        lost: &[Place::X0, Place::X1],
        repair: CHECKED,
        rebuilt: &[Place::X0, Place::X1],
        survivors: 8,
        is_covered: false,
        ..WHOLE
    },
    Case {
        name: "of the survivors that are read one is damaged: all are read, which say which it is",
        lost: &[Place::X0],
        changes: &[(Place::Y1, b"\x77")],
        repair: CHECKED,
        rebuilt: &[Place::X0],
        survivors: 8,
        said: &[(Some(Place::Y1), DAMAGED)],
        left: &[Place::Y1],
        ..WHOLE
    },
    Case {
        name: "a stripe that lost nothing isn't read, so that damage in it isn't looked for",
        changes: &[(Place::Y0, b"\x77")],
        repair: CHECKED,
        survivors: 0,
        is_checked: false,
        left: &[Place::Y0],
        ..WHOLE
    },
    Case {
        name: "a fragment of another length isn't among the few; for the second of a group a global is read",
        sample: &NARROW,
        lost: &[Place::X0],
        changes: &[(Place::X1, b"")],
        repair: FEW,
        rebuilt: &[Place::X0],
        survivors: 6,
        is_checked: false,
        is_covered: false,
        said: &[(
            Some(Place::X1),
            "has another length than the other fragments of the stripe",
        )],
        left: &[Place::X1],
        ..WHOLE
    },
    Case {
        name: "what few survivors don't determine isn't determined by all",
        lost: &[Place::X0, Place::Y0, Place::Y1, Place::Y2, Place::Py],
        repair: FEW,
        rebuilt: &[Place::X0],
        survivors: 3,
        is_checked: false,
        is_covered: false,
        said: NONE_OF_GROUP,
        left: GROUP,
        ..WHOLE
    },
    REPLACED,
    Case {
        name: "a damaged fragment stays where none is to be replaced",
        repair: FROM_ALL,
        rebuilt: &[Place::X0],
        left: &[Place::Py],
        ..REPLACED
    },
    Case {
        name: "of all of a group nothing is determined",
        lost: GROUP,
        repair: REPLACING,
        survivors: 6,
        said: NONE_OF_GROUP,
        left: GROUP,
        ..WHOLE
    },
    Case {
        name: "what else is lost is determined",
        lost: &[Place::X0, Place::Y0, Place::Y1, Place::Y2, Place::Py],
        repair: REPLACING,
        rebuilt: &[Place::X0],
        survivors: 5,
        is_checked: false,
        is_covered: false,
        said: NONE_OF_GROUP,
        left: GROUP,
        ..WHOLE
    },
];

/// Cases in which what is rebuilt isn't covered, and may be wrong.
static UNCOVERED: [Case<'static>; 7] = [
    EMPTY,
    DAMAGE_ALIKE,
    Case {
        sample: &WIDE,
        changes: &[
            (Place::X2, b"\x0a\xe6\x8b\x3b\xe6"),
            (Place::Px, b"\x2c\xab\xad\x9a\xeb"),
        ],
        survivors: 14,
        ..DAMAGE_ALIKE
    },
    GUESSED,
    Case {
        sample: &WIDE,
        changes: &[(Place::X2, b"\x0a\xbc\xd1\x61\xbc")],
        survivors: 14,
        ..GUESSED
    },
    Case {
        name: WRONG_GUESS,
        changes: &[
            (Place::X0, b"\x9a\x9a\x78\x06\x94"),
            (Place::X1, b"\x28\xc3\xa6\x84\x1c"),
        ],
        is_right: false,
        left: &[Place::X0, Place::X1],
        ..GUESSED
    },
    Case {
        name: WRONG_GUESS,
        sample: &WIDE,
        changes: &[
            (Place::X0, b"\xd4\x6b\xce\x4f\xc4"),
            (Place::X1, b"\x12\x55\xfa\x7b\x54"),
        ],
        is_right: false,
        survivors: 14,
        left: &[Place::X0, Place::X1],
        ..GUESSED
    },
];

/// Where x0 and x1 are lost, x2 and px that are damaged by the same bytes look like those of a stripe, since the coefficients of x0, x1 and
/// x2 add up to 00, and their squares do: what is rebuilt is wrong, nothing shows, and it isn't covered. Here it is 5a of each byte.
const DAMAGE_ALIKE: Case<'static> = Case {
    name: "damage of two that doesn't show is not covered",
    sample: &NARROW,
    lost: &[Place::X0, Place::X1],
    changes: &[
        (Place::X2, b"\x9a\x2a\x17\xfc\x90"),
        (Place::Px, b"\x28\x73\xc9\x7e\x18"),
    ],
    rebuilt: &[Place::X0, Place::X1],
    is_right: false,
    survivors: 8,
    is_covered: false,
    left: &[Place::X2, Place::Px],
    ..WHOLE
};

/// Without px, x2 is taken for the damaged one: px is rebuilt from the guess, and x2 stays. The first byte of x2 is changed by 5a.
const GUESSED: Case<'static> = Case {
    name: "what is rebuilt by a guess is unchecked",
    sample: &NARROW,
    lost: &[Place::Px],
    changes: &[(Place::X2, b"\x9a\x70\x4d\xa6\xca")],
    repair: GUESSING,
    rebuilt: &[Place::Px],
    survivors: 8,
    is_checked: false,
    is_covered: false,
    said: &[(Some(Place::X2), TAKEN), (Some(Place::X2), NO_CHECK)],
    left: &[Place::X2],
    ..WHOLE
};

const WRONG_GUESS: &str = "without px, x0 and x1 that are exchanged look like a damaged x2";

#[test]
fn each_case_is_repaired_as_it_says(rt: HostRuntime) {
    for case in &CASES {
        let is = is_repaired(&rt, rt.alloc(), case);
        assert_holds(&rt, is, case.name);
    }
}

#[test]
fn what_is_not_covered_may_be_wrong(rt: HostRuntime) {
    for case in &UNCOVERED {
        let is = is_repaired(&rt, rt.alloc(), case);
        assert_holds(&rt, is, case.name);
    }
}

/// The damaged stripe. Tests that use a static are proved faster than those that use a constant, which each use lays out anew.
static DAMAGED_ONE: Case<'static> = REPLACED;

/// The same, of which nothing is rebuilt.
static UNTOUCHED_ONE: Case<'static> = UNTOUCHED;

/// A stripe of which as much is repaired as is lost.
static WHOLE_ONE: Case<'static> = WHOLE;

/// Repairs a case's stripe in a store.
fn repair(
    rt: &impl Abort,
    alloc: Global,
    store: &mut MemoryStore,
    case: &Case<'_>,
) -> StripeOutcome {
    outcome_of(alloc, store, case, Act::Repair).expect(rt, "an outcome")
}

/// What was replaced before isn't lost: a second one stays where it is.
#[test]
fn second_damaged_fragment_of_a_place_stays(rt: HostRuntime) {
    let case = &DAMAGED_ONE;
    let name = case.sample.name;
    let mut store = store_of(&rt, rt.alloc(), case);
    repair(&rt, rt.alloc(), &mut store, case);
    store
        .put(name, Place::Py, b"\x02")
        .expect(&rt, "room for a fragment");
    let outcome = repair(&rt, rt.alloc(), &mut store, case);
    let is = outcome.rebuilt.is_empty()
        && store.fragment(name, Place::Py) == Some(b"\x02".as_slice())
        && store.kept(name, Place::Py) == Some(b"\x01".as_slice());
    assert_holds(&rt, is, "the second stays, and the first is kept");
}

/// Stripes of one store, of which the last is repaired.
static STRIPES: [Case<'static>; 3] = [
    UNTOUCHED,
    Case {
        sample: &NARROW,
        lost: &[Place::X0],
        left: &[Place::X0],
        ..WHOLE
    },
    OF_TWO,
];

const OF_TWO: Case<'static> = Case {
    sample: &WIDE,
    lost: &[Place::X3, Place::Y5],
    repair: REPLACING,
    ..WHOLE
};

/// Other stripes of the store have losses and damage of their own.
#[test]
fn other_stripes_are_as_they_were(rt: HostRuntime) {
    let mut store = MemoryStore::new(rt.alloc());
    for case in &STRIPES {
        put_case(&mut store, case).expect(&rt, "room for a case");
    }
    repair(&rt, rt.alloc(), &mut store, &STRIPES[2]);
    for case in &STRIPES {
        assert_holds(&rt, is_left_in(&store, case), case.sample.name);
    }
}

/// So many bytes are longer than a window.
const LONG: usize = 200_001;

/// So many bytes of a value.
fn long_of(rt: &impl Abort, alloc: Global, byte: u8) -> Vec<u8> {
    vec![in alloc; byte; LONG].expect(rt, "room for a fragment")
}

/// The short stripe's fragments with each byte repeated, without x1 and p1.
fn long_store(rt: &impl Abort, alloc: Global) -> MemoryStore {
    let mut store = MemoryStore::new(alloc);
    for (place, bytes) in WHOLE_ONE.sample.fragments {
        if *place != Place::X1 && *place != Place::P1 {
            let long = long_of(rt, alloc, *bytes.first().unwrap_or(&0));
            let put = store.put(WHOLE_ONE.sample.name, *place, long.as_slice());
            put.expect(rt, "room for a fragment");
        }
    }
    store
}

/// Fragments that are longer than a window. At each position they are those of the short stripe, without x1 and p1.
#[test]
fn long_fragments_come_back(rt: HostRuntime) {
    let mut store = long_store(&rt, rt.alloc());
    let outcome = repair(&rt, rt.alloc(), &mut store, &WHOLE_ONE);
    assert_holds(&rt, outcome.rebuilt.len() == 2, "two are rebuilt");
    for (place, byte) in [(Place::X1, 0x02), (Place::P1, 0x6e)] {
        let long = long_of(&rt, rt.alloc(), byte);
        let is = store.fragment(WHOLE_ONE.sample.name, place) == Some(long.as_slice());
        assert_holds(&rt, is, place.name());
    }
}

/// The damaged stripe, of which nothing is rebuilt.
const UNTOUCHED: Case<'static> = Case {
    left: &[Place::X0, Place::Py],
    ..REPLACED
};

/// Whether each name of a store is as it was or rebuilt, and rebuilt where the repair is done.
fn is_as_it_was_or_rebuilt(store: &MemoryStore, is_repaired: bool) -> bool {
    let sample = DAMAGED_ONE.sample;
    for place in sample.code.places() {
        let bytes = store.fragment(sample.name, *place);
        let kept = store.kept(sample.name, *place);
        if !is_left(&DAMAGED_ONE, *place, bytes, kept)
            && (is_repaired || !is_left(&UNTOUCHED_ONE, *place, bytes, kept))
        {
            return false;
        }
    }
    true
}

/// In a run that refuses an allocation this ends with the refusal, and then each name is as it was or rebuilt.
#[test]
fn each_name_is_as_it_was_or_rebuilt(rt: HostRuntime) -> Result<(), AllocError> {
    let mut store = MemoryStore::new(rt.alloc());
    put_case(&mut store, &DAMAGED_ONE)?;
    let repaired = outcome_of(rt.alloc(), &mut store, &DAMAGED_ONE, Act::Repair);
    let is = is_as_it_was_or_rebuilt(&store, repaired.is_ok());
    assert_holds(&rt, is, "each is as it was or rebuilt");
    repaired?;
    Ok(())
}
