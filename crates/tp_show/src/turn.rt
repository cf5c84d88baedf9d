// What a run answers for a state.
ghost use Rattle.std.specs.Prelude.{◌≡◌};
ghost use Rattle.tp_show.specs.Line.{line_parts, plain_parts};

use crate::line_part::LineParts;
use std::alloc::Global;
use tp_decide::Shows;
use tp_kernel::LimitKind;
use tp_scene::{Cell, Clash};
use tp_value::{Facts, Text};

/// A settled state: its number, the facts of the global variables, what these come to, what is shown, and how many reductions it
/// took. The facts are in the order of the variables, and of one variable a list before its items and these in order. The parts are
/// those of the facts: whole values, and lengths of lists of which not all is known.
#[derive(Drop)]
pub struct Picture {
    pub state: u64,
    pub facts: Facts,
    pub parts: LineParts,
    pub shows: Shows,
    pub reductions: u64,
}

impl Picture {
    /// A picture of no state yet.
    pub fn new(alloc: Global) -> Picture
        ensures parts { plain_parts result.parts ≡ line_parts result.facts }
    {
        Picture {
            state: 0,
            facts: Facts {
                items: Vec::new(alloc),
            },
            parts: LineParts {
                items: Vec::new(alloc),
            },
            shows: Shows {
                items: Vec::new(alloc),
            },
            reductions: 0,
        }
    }
}

/// What became of a state.
#[derive(Debug, Drop)]
pub enum Turn {
    /// It was settled and goes on.
    Went,
    /// It was settled and the interval ends with it.
    Finished { length: u64 },
    /// No interval satisfies the program.
    Contradictory { state: u64, clash: Clash },
    /// It rests, and this cell is open.
    Undetermined { state: u64, cell: Cell },
    /// As many states were settled as there may be, and the last one goes on.
    StateLimit { states: u64 },
    /// The inputs have no value for the port in this state.
    InputMissing { state: u64, port: Text },
    /// An item passes this limit, or there may be no more reductions.
    Over { state: u64, limit: LimitKind },
}
