// Laws of scenes that a caller of the calls on places and marks needs.
ghost use Rattle.tp_slots.specs.Laws.{PlacesAreShallow};
ghost use Rattle.tp_slots.specs.MarksTell.{MarksTellStatus};

/// Where a scene fits, no region in which a live item stands, or which it holds, is too deep for its place to be read.
pub fn places_are_shallow()
    ensures { PlacesAreShallow }
{}

/// The mark of a region tells its status by the rules, and no other number has one.
pub fn marks_tell_status()
    ensures { MarksTellStatus }
{}
