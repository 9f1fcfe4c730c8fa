//! Requests on one stripe of length 1 (x = 01 02 03, y = 04 05 06, px 00, py 07, p0 04, p1 6E), with their answers.
use farm_core::{Order, RackList, Racks};
use lrc_code::{Fragment, Outcome, Place, Request};
use std::alloc::Global;
use std::process::Abort;

/// An entry of a list: a lost place and the survivors with their one byte each, or a close.
#[derive(Clone, Copy)]
pub(crate) enum Entry {
    Lost(Place, &'static [(Place, u8)]),
    Close,
}

/// x0 from its group: rebuilt 01.
pub(crate) const LOCAL: Entry = Entry::Lost(
    Place::X0,
    &[(Place::X1, 2), (Place::X2, 3), (Place::Px, 0)],
);

/// y0 with y1, y2 and py lost too: several.
pub(crate) const SEVERAL: Entry = Entry::Lost(
    Place::Y0,
    &[
        (Place::X0, 1),
        (Place::X1, 2),
        (Place::X2, 3),
        (Place::Px, 0),
        (Place::P0, 4),
        (Place::P1, 0x6e),
    ],
);

/// p1 from all data: rebuilt 6E.
pub(crate) const GLOBAL: Entry = Entry::Lost(
    Place::P1,
    &[
        (Place::X0, 1),
        (Place::X1, 2),
        (Place::X2, 3),
        (Place::Y0, 4),
        (Place::Y1, 5),
        (Place::Y2, 6),
    ],
);

/// A rack with each of these three.
pub(crate) const ONE: &[&[Entry]] = &[&[LOCAL, SEVERAL, GLOBAL]];

/// Its answers, each as `shown` gives it.
pub(crate) const ANSWERS_OF_ONE: &[&[u16]] = &[&[0x01, STRIPES, 0x6e]];

fn fragments_of(rt: &impl Abort, alloc: Global, survivors: &[(Place, u8)]) -> Vec<Fragment> {
    let mut fragments = Vec::new(alloc);
    for (place, byte) in survivors {
        let fragment = Fragment {
            place: *place,
            bytes: vec![in alloc; *byte].expect(rt, "a fragment"),
        };
        fragments.push(fragment).expect(rt, "fragments");
    }
    fragments
}

/// An order with a request, which is accepted, or a close.
fn order(rt: &impl Abort, alloc: Global, entry: &Entry) -> Order {
    match entry {
        Entry::Lost(target, survivors) => {
            let stripe = String::from_str(alloc, "a").expect(rt, "a name");
            let fragments = fragments_of(rt, alloc, survivors);
            let request = Request::new(stripe, *target, 1, fragments);
            Order::Rebuild(request.expect(rt, "a request"))
        }
        Entry::Close => Order::Close,
    }
}

/// A list of these entries, in their order.
pub(crate) fn list_of(rt: &impl Abort, alloc: Global, entries: &[Entry]) -> RackList {
    let mut orders = Vec::new(alloc);
    for entry in entries {
        orders.push(order(rt, alloc, entry)).expect(rt, "orders");
    }
    RackList::new(orders).expect(rt, "a list")
}

/// How `shown` gives an answer that says that two stripes or more fit.
pub(crate) const STRIPES: u16 = 256;

/// The answer, as it is compared and shown: the one byte of a fragment, or a number that is no byte.
pub(crate) fn shown(outcome: &Outcome) -> u16 {
    match outcome {
        Outcome::Rebuilt(bytes) => match bytes.as_slice() {
            [byte] => u16::from(*byte),
            _ => 258,
        },
        Outcome::Contradiction => 257,
        Outcome::Several => STRIPES,
    }
}

fn are_same(outcomes: &[Outcome], wanted: &[u16]) -> bool {
    if outcomes.len() != wanted.len() {
        return false;
    }
    for (outcome, wanted) in outcomes.iter().zip(wanted) {
        if shown(outcome) != *wanted {
            return false;
        }
    }
    true
}

/// Whether these are the answers of each rack, each as `shown` gives it.
pub(crate) fn are_answers(racks: &[Vec<Outcome>], wanted: &[&[u16]]) -> bool {
    if racks.len() != wanted.len() {
        return false;
    }
    for (outcomes, wanted) in racks.iter().zip(wanted) {
        if !are_same(outcomes.as_slice(), wanted) {
            return false;
        }
    }
    true
}

/// Lists of these entries: of several racks, or of one rack's feeds.
pub(crate) fn lists_of(rt: &impl Abort, alloc: Global, lists: &[&[Entry]]) -> Vec<RackList> {
    let mut all = Vec::new(alloc);
    for entries in lists {
        all.push(list_of(rt, alloc, entries)).expect(rt, "lists");
    }
    all
}

/// Racks with lists of these entries.
pub(crate) fn racks_of(rt: &impl Abort, alloc: Global, lists: &[&[Entry]]) -> Racks {
    Racks::new(lists_of(rt, alloc, lists)).expect(rt, "racks")
}
