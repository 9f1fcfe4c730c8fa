//! Which fragments are suspected of damage, by the ranks of the columns of the codes' equations.
use lrc_code::{Code, Group, Place, PlaceSet};

/// The places at which stripes differ, in at most two places, from the survivors of a stripe of which one is damaged and some are lost.
/// A stripe that differs from another where fragments are lost and at some more places is a sum of the columns there that is 00.
pub(crate) fn suspects_of(code: Code, lost: &[Place], damaged: Place) -> PlaceSet {
    let mut beside = PlaceSet::empty().with(damaged);
    for place in lost {
        beside = beside.with(*place);
    }
    let mut suspects = PlaceSet::empty().with(damaged);
    for place in code.places() {
        if !beside.has(*place) && is_suspect(code, beside, damaged, *place) {
            suspects = suspects.with(*place);
        }
    }
    suspects
}

/// Whether damage at a place, and at one more at most, may look like the damage.
fn is_suspect(code: Code, beside: PlaceSet, damaged: Place, place: Place) -> bool {
    let pair = beside.with(place);
    if may_change(pair, place) {
        return true;
    }
    for third in code.places() {
        let three = pair.with(*third);
        if may_change(three, place) && may_change(three, damaged) {
            return true;
        }
    }
    false
}

/// Whether some stripe differs from another at this place and else at most at others of a set.
fn may_change(set: PlaceSet, place: Place) -> bool {
    rank(set, Some(place)) == rank(set, None)
}

/// The rank of the columns at the places of a set but one: one for each group that has any, and at most two more for all others together.
/// For both codes it is so of each set of up to five columns, by Gaussian elimination in `tools/reference.py`'s field.
fn rank(set: PlaceSet, but: Option<Place>) -> usize {
    let mut x = 0usize;
    let mut y = 0usize;
    let mut global = 0usize;
    for place in Place::ALL {
        if set.has(place) && Some(place) != but {
            match place.group() {
                Some(Group::X) => x = x.saturating_add(1),
                Some(Group::Y) => y = y.saturating_add(1),
                None => global = global.saturating_add(1),
            }
        }
    }
    let others = x.saturating_sub(1).min(2) + y.saturating_sub(1).min(2) + global.min(2);
    x.min(1) + y.min(1) + others.min(2)
}
