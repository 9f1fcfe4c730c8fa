//! Laws of serving: each function's contract is one, over the definitions alone.
ghost use Rattle.farm_files.specs.ServingLaws.{RacksOfOneFeedAreServedAsLists};

/// Racks that are fed by one list each get the answers to their lists, and the files of these.
pub fn racks_of_one_feed_are_served_as_lists()
    ensures { RacksOfOneFeedAreServedAsLists }
{}
