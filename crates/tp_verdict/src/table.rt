// Verdicts on the parts of a run.
ghost use Rattle.std.specs.Prelude.{◌≡◌, ◌≤◌, ◌<◌, ◌*◌, ℕ, List, IfOk, length};
ghost use Rattle.tp_verdict.specs.Stored.{HaveWidth};

use crate::verdict::Verdict;
use crate::verdict_row::VerdictRow;

/// A verdict for each part, from a state to one that isn't before it.
#[derive(Drop)]
pub struct Table {
    pub(crate) rows: Vec<VerdictRow>,
    ghost square: { HaveWidth (length rows.items) rows.items },
}

impl Table {
    ghost use Rattle.tp_verdict.specs.Code.{verdict_of};
    ghost use Rattle.tp_verdict.specs.Stored.{stored};

    /// The verdict on a part.
    pub fn at(&self, i: usize, j: usize) -> Verdict
        requires { j < length self.now.rows.items }
        ensures { verdict_of result ≡ stored self.now.rows.items i j }
    {
        match self.rows.get(i) {
            Some(row) => row.at(j),
            None => Verdict::No,
        }
    }
}
