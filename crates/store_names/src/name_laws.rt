//! What holds of the names of a pattern, of whichever stripes and places: calls that do nothing, for their contracts.
ghost use Rattle.store_names.specs.DescriptionLaws.{DescriptionsSayTheirStripe};
ghost use Rattle.store_names.specs.Laws.{NamesDiffer, PartsArePartition};
ghost use Rattle.store_names.specs.RunLaws.{EachLeavesOnlyItsOwn, LockIsWhole, UnfinishedIsNoFragment};

use crate::patterns::Pattern;

/// Different stripes or places have different names, also where a stripe's name ends as names of fragments do: `a.x1` of a stripe `a` is
/// no name of a stripe `a.x1`, whose fragment is `a.x1.x0`.
pub fn names_differ(pattern: &Pattern<'_>)
    ensures { NamesDiffer pattern.now }
{
    let _names = pattern;
}

/// Each stripe is of exactly one of the parts 1 to N, whichever N above 0 is.
pub fn parts_are_partition()
    ensures { PartsArePartition }
{}

/// No fragment has the name of an unfinished file, so that no run takes a fragment for one.
pub fn unfinished_is_no_fragment()
    ensures { UnfinishedIsNoFragment }
{}

/// What `is_left_by` takes for a file of the runs of a part, by the tag that `tag_of_part` gives, is an unfinished file of that part: it is
/// no lock, and of no other part.
pub fn each_part_leaves_only_its_own()
    ensures { EachLeavesOnlyItsOwn }
{}

/// A lock is no unfinished file.
pub fn lock_is_whole()
    ensures { LockIsWhole }
{}

/// The name of a description of a stripe, as `description_names` makes it, says that stripe to `described_stripe`, and no other.
pub fn descriptions_say_their_stripe()
    ensures { DescriptionsSayTheirStripe }
{}
