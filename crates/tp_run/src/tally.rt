// What a run records of the state that it began last.
ghost use Rattle.std.specs.Prelude.{◌≡◌};
ghost use Rattle.tp_run.specs.StateTries.{tally_of, HasRecordedNothing};

use crate::run::Run;
use std::alloc::Global;
use tp_step::{ItemIds, Tally, Waits};

// Nothing is done yet.
pub(crate) fn no_tally(alloc: Global) -> Tally
    ensures { HasRecordedNothing result }
{
    Tally {
        picks: ItemIds::new(alloc),
        waits: Waits {
            items: Vec::new(alloc),
        },
        rests: ItemIds::new(alloc),
    }
}

// Forgets what was recorded before.
pub(crate) fn clear_tally(tally: &mut Tally)
    ensures { HasRecordedNothing tally.new }
{
    tally.picks.items.clear();
    tally.waits.items.clear();
    tally.rests.items.clear();
}

impl Run {
    /// The items that were reduced, those that were found waiting and those that were found at rest in the state that was begun last,
    /// each in the order of the tries. Before the first state there are none.
    pub fn tally(&self) -> &Tally
        ensures { result.now ≡ tally_of self.now }
    {
        &self.tally
    }
}
