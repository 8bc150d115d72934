//! What the records of an interval mean. These functions do nothing: their contracts are theorems.
ghost use Rattle.hart_replay.specs.Laws.{AreMetByPlace};

/// A loading access takes the first load of its own place: the one that is due, if any, by the skips
/// counted since the last one was met.
pub fn first_loads_are_met_by_place()
    ensures { AreMetByPlace }
{}
