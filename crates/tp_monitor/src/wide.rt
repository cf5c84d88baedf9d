// The wider formula that a source is.
ghost use Rattle.std.specs.Prelude.{◌≡◌, [], IfOk};
ghost use Rattle.tp_tree.specs.Read.{phrase_tree, source_tree};
ghost use Rattle.tp_meaning.specs.Interval.{kinds_of};
ghost use Rattle.tp_scope.specs.Names.{names_in, names_with};
ghost use Rattle.tp_scope.specs.Seen.{signatures_seen};
ghost use Rattle.tp_check.specs.Answers.{AnswersCheck};
ghost use Rattle.tp_verdict.specs.Read.{wide_tree};
ghost use Rattle.tp_verdict.specs.Trace.{WideFits};
ghost use Rattle.tp_monitor.specs.WideOf.{wide_over, wide_of_source};
ghost use Rattle.tp_monitor.specs.Seen.{wide_seen};

use crate::wide_formula_of::wide_formula_of;
use std::alloc::Global;
use tp_check::CheckRefusal;
use tp_scope::{Directory, Scope, Visible, add_names};
use tp_tree::{Phrase, Source};
use tp_value::{Globals, NoMemory};
use tp_verdict::WideFormula;

/// A wider formula, with its global variables.
#[derive(Drop)]
pub struct Wide {
    pub globals: Globals,
    pub formula: WideFormula,
}

// Over these variables, with no definitions.
fn read_main(
    alloc: Global,
    main: &Phrase,
    directory: &Directory,
    globals: Globals,
) -> Result<Wide, CheckRefusal>
    requires { signatures_seen directory.now ≡ [] }
    ensures { AnswersCheck wide_seen (wide_over globals (phrase_tree main.now)) result }
{
    let scope = Scope::Outermost;
    let names = Visible {
        directory,
        globals: &globals,
        scope: &scope,
    };
    let formula = wide_formula_of(alloc, main, &names)?;
    Ok(Wide { globals, formula })
}

// The names of the variables of a phrase that is all of a source.
fn names(alloc: Global, main: &Phrase) -> Result<Globals, NoMemory>
    ensures { IfOk result (λ globals.
        globals ≡ names_with [] (names_in [] (phrase_tree main.now))) }
{
    let mut globals = Globals::new(alloc)?;
    add_names(alloc, main, &Scope::Outermost, &mut globals)?;
    Ok(globals)
}

/// The wider formula that a source is.
///
/// A source with definitions is refused as not executable, at the first of them. Of the main phrase, `and`, `or`, `not`, `;`, `next`, `always`,
/// `sometimes`, `keep`, `fin`, `if`, `while` and `repeat` are over wider formulas; but an `or` of two phrases of one state, and a `not` over a
/// place or a phrase of one state, are tests, as where they are run. `proj`, `for`, `forall`, `exists`, `input` and `display` are not
/// executable, but a wrong number of operands of the last two comes first. Any other phrase is the formula that it is where it is run, and is
/// refused as it is there; so every call is unknown.
pub fn read_wide(alloc: Global, source: &Source) -> Result<Wide, CheckRefusal>
    ensures formula { AnswersCheck wide_seen (wide_of_source (source_tree source.now)) result }
    ensures fits { IfOk result (λ w. WideFits (kinds_of w.globals) (wide_tree w.formula)) }
{
    if let [first, ..] = source.definitions.items.as_slice() {
        return Err(CheckRefusal::NotExecutable { at: first.at });
    }
    let states: Vec<bool> = Vec::new(alloc);
    let directory = Directory::of(alloc, &source.definitions, states.as_slice())?;
    let globals = names(alloc, &source.main)?;
    read_main(alloc, &source.main, &directory, globals)
}
