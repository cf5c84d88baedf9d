// How a verdict follows from a few others.
use crate::table::Table;
use crate::verdict::Verdict;
use tp_eval::Outcome;

/// How the verdict on a part from a state to another is found: it is fixed; it goes by whether the part has one state; it is that of the
/// start, where the end is so many states ahead; the outcome in the start is the length; the outcomes in the end and in the start are equal;
/// or it follows from verdicts in tables.
#[derive(Clone, Copy)]
pub enum Rule<'a> {
    Fixed(Verdict),
    ByLength(Verdict, Verdict),
    AtStart(usize, &'a [Verdict]),
    Counted(&'a [Outcome]),
    Paired(&'a [Outcome], &'a [Outcome]),
    Next(&'a Table),
    IfMore(&'a Table),
    IfEmpty(&'a Table),
    Both(&'a Table, &'a Table),
    Either(&'a Table, &'a Table),
    Opposite(&'a Table),
    Branch(&'a [Verdict], &'a [Verdict], &'a Table, &'a Table),
}
