// The program that a source is.
ghost use Rattle.std.specs.Prelude.{◌≡◌, ◌≢◌, length, IfOk, IfErr, Ok, Err};
ghost use Rattle.tp_tree.specs.Read.{source_tree};
ghost use Rattle.tp_meaning.specs.Fits.{ProgramFits};
ghost use Rattle.tp_scope.specs.Seen.{names_of_definitions, signatures_seen};
ghost use Rattle.tp_check.specs.Building.{ParametersOf};
ghost use Rattle.tp_scope.specs.Names.{AreApart, names_of, signatures_of};
ghost use Rattle.tp_check.specs.Answers.{AnswersCheck};
ghost use Rattle.tp_check.specs.Program.{ChecksTo, program_over};
ghost use Rattle.tp_check.specs.NameLaws.{NamesSuffice};
ghost use Rattle.tp_check.specs.Read.{program_tree};

use crate::definitions::{add_names_in_bodies, find_headings, make_definitions};
use crate::formula::shared_formula;
use crate::refusal::CheckRefusal;
use std::alloc::Global;
use std::rc::Rc;
use tp_kernel::{Defs, Formula};
use tp_scope::{Binders, Directory, Scope, Visible, add_names, find_states};
use tp_tree::Source;
use tp_value::{Globals, NoMemory};

/// Definitions, a main formula, and the names of their variables.
#[derive(Drop)]
pub struct Program {
    pub defs: Defs,
    pub main: Rc<Formula>,
    pub globals: Globals,
}

// The names of the source's variables.
fn names(alloc: Global, source: &Source, parameters: &[Binders]) -> Result<Globals, NoMemory>
    requires { ParametersOf source.now.definitions parameters.now }
    ensures { IfOk result (λ globals. globals ≡ names_of (source_tree source.now)) }
{
    let mut globals = Globals::new(alloc)?;
    add_names_in_bodies(alloc, &source.definitions, parameters, &mut globals)?;
    add_names(alloc, &source.main, &Scope::Outermost, &mut globals)?;
    Ok(globals)
}

// The program over these definitions and variables.
fn make_program(
    alloc: Global,
    source: &Source,
    parameters: &[Binders],
    states: &[bool],
    directory: &Directory,
    globals: Globals,
) -> Result<Program, CheckRefusal>
    requires parameters { ParametersOf source.now.definitions parameters.now }
    requires each { length states.now ≡ length source.now.definitions.items.items }
    requires directory { signatures_seen directory.now
        ≡ signatures_of (source_tree source.now).definitions states.now }
    ensures { AnswersCheck program_tree
        (program_over globals states.now (source_tree source.now)) result }
{
    let scope = Scope::Outermost;
    let names = Visible {
        directory,
        globals: &globals,
        scope: &scope,
    };
    let defs = make_definitions(alloc, &source.definitions, parameters, states, &names)?;
    let main = shared_formula(alloc, &source.main, &names)?;
    Ok(Program {
        defs,
        main,
        globals,
    })
}

// The program over these definitions and its own variables.
fn program_where(
    alloc: Global,
    source: &Source,
    parameters: &[Binders],
    states: &[bool],
) -> Result<Program, CheckRefusal>
    requires apart { AreApart (names_of_definitions source.now.definitions) }
    requires parameters { ParametersOf source.now.definitions parameters.now }
    requires each { length states.now ≡ length source.now.definitions.items.items }
    ensures { AnswersCheck program_tree
        (program_over (names_of (source_tree source.now)) states.now (source_tree source.now))
        result }
{
    let directory = Directory::of(alloc, &source.definitions, states)?;
    let globals = names(alloc, source, parameters)?;
    make_program(alloc, source, parameters, states, &directory, globals)
}

/// The program that a source is.
///
/// First no definition may have the name of an earlier one, and none a parameter twice. Then the bodies, in the order of the text, and the
/// main phrase last are taken as formulas, a phrase before its operands and these in the order of the text:
///
/// * `and`, `;`, `proj`, `next`, `if`, `always`, `keep`, `fin`, `while`, `repeat`, `for`, `forall` and `exists` over formulas,
/// * `empty`, `more`, `skip` and `true`,
/// * equations, of which at most one side has `next` in front,
/// * `A gets e`, `A <- e`, `A := e`, `halt(e)`, `stable(A)`, `len(e)` and `list(A, e)`,
/// * `input(A, p)` with a port p, and `display(e, ..)` of one expression or more,
/// * calls of definitions, and
/// * expressions: a place is true, its negation makes it false, and any other is tested.
///
/// A place is a name with any number of indices. A port is a lower-case name, and no variable. A call gives a place to each upper-case
/// parameter and an expression to each lower-case one.
/// `for` and `forall` bind their name in their body, `exists` its names, and a definition its parameters in its body alone. A name is that of
/// its innermost binder, or of a variable where it has none.
///
/// A state definition is one whose body, and each body that it reaches by calls, has no `;`, `proj`, `gets`, `<-`, `:=`, `next`, loop, `for`,
/// `forall`, `exists`, bare word, form, or `if` without `else`. Expressions have none of these either, and call only state definitions.
///
/// The first phrase that breaks this is refused. A call of an unknown definition comes first, then a call or a form with a wrong number of
/// operands, then an `exists` that binds a name twice; then a phrase is no expression, no place or no port where one is due, and not
/// executable anywhere else. `sometimes`, and `not` and `or` over phrases of more than one state, are not executable.
pub fn check(alloc: Global, source: &Source) -> Result<Program, CheckRefusal>
    ensures accepted { IfOk result (λ p.
        ChecksTo (source_tree source.now) (Ok (program_tree p))) }
    ensures named { NamesSuffice (source_tree source.now) }
    ensures fits { IfOk result (λ p. ProgramFits (program_tree p)) }
    ensures refused { IfErr result (λ e.
        e ≢ CheckRefusal.NoMemory → ChecksTo (source_tree source.now) (Err e)) }
{
    let headings = find_headings(alloc, &source.definitions)?;
    let states = find_states(alloc, &source.definitions, &headings.names)?;
    program_where(alloc, source, &headings.parameters, &states)
}
