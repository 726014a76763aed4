//! Worked schedules of three callers, computed as a law: real time decides the order of two stores.

ghost use Rattle.test_cells.specs.ThreeCallers.{IsOrderedByTime, IsOrderedOtherwise};

/// Caller 2 begins to read two registers. Caller 0 stores 7 in one of them, and after its answer
/// caller 1 stores 8 there. So the first store is in batch 1 and the second in batch 2; the read
/// tries again, and finds 8. If the first store has only begun when the second is made, nothing
/// decides their order, and here it is the other one.
pub fn real_time_decides()
    ensures in_turn { IsOrderedByTime }
    ensures overlapping { IsOrderedOtherwise }
{}
