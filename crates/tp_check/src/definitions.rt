// The definitions of a program.
ghost use Rattle.std.specs.Prelude.{◌≡◌, map, length, IfOk, OnOk};
ghost use Rattle.std.specs.Option.{option_map};
ghost use Rattle.tp_tree.specs.Read.{definition_tree, phrase_tree};
ghost use Rattle.tp_kernel.specs.Read.{definition_of, definitions_of};
ghost use Rattle.tp_scope.specs.Seen.{names_seen};
ghost use Rattle.tp_check.specs.Building.{AnswersHeadings, AnswersParameters, ParametersOf, expr_seen};
ghost use Rattle.tp_scope.specs.Names.{names_with, names_in_bodies};
ghost use Rattle.tp_check.specs.Answers.{AnswersCheck};
ghost use Rattle.tp_check.specs.Program.{expr_where, definition_in, definitions_in};

use crate::expression::shared_expression;
use crate::formula::shared_formula;
use crate::refusal::CheckRefusal;
use std::alloc::Global;
use std::rc::Rc;
use tp_kernel::{Def, Defs, Expr};
use tp_scope::{Binders, Directory, Scope, Visible, add_names};
use tp_tree::{Definition, Definitions, Phrase};
use tp_value::{Globals, NoMemory, Texts};

/// The names of definitions, each at its number, and the parameters of each.
#[derive(Drop)]
pub struct Headings {
    pub names: Binders,
    pub parameters: Vec<Binders>,
}

// The parameters of a definition, where its name isn't one of these and none of them stands twice.
fn own_parameters(
    alloc: Global,
    definition: &Definition,
    before: &Binders,
) -> Result<Binders, CheckRefusal>
    ensures { AnswersParameters before.now definition.now result }
{
    let twice = CheckRefusal::Twice { at: definition.at };
    if before.has(&definition.name) {
        return Err(twice);
    }
    match Binders::of(alloc, &definition.parameters)? {
        Some(own) => Ok(own),
        None => Err(twice),
    }
}

/// The names of the definitions and their parameters, where none is defined twice.
pub fn find_headings(alloc: Global, definitions: &Definitions) -> Result<Headings, CheckRefusal>
    ensures { AnswersHeadings definitions.now result }
{
    let mut names = Binders::none(alloc);
    let mut parameters = Vec::new(alloc);
    for definition in &definitions.items {
        let own = own_parameters(alloc, definition, &names)?;
        names.add(&definition.name)?;
        parameters.push(own)?;
    }
    Ok(Headings { names, parameters })
}

/// Adds the names of variables in the bodies, in the order of the text.
pub fn add_names_in_bodies(
    alloc: Global,
    definitions: &Definitions,
    parameters: &[Binders],
    globals: &mut Globals,
) -> Result<(), NoMemory>
    requires { ParametersOf definitions.now parameters.now }
    ensures { OnOk result (globals.new
        ≡ names_with globals.old
        (names_in_bodies (map definition_tree definitions.now.items.items))) }
{
    let outermost = Scope::Outermost;
    for (definition, binders) in definitions.items.iter().zip(parameters) {
        let scope = Scope::Inner(binders, &outermost);
        add_names(alloc, &definition.body, &scope, globals)?;
    }
    Ok(())
}

fn copy_texts(alloc: Global, texts: &Texts) -> Result<Texts, NoMemory>
    ensures { IfOk result (λ copy. copy ≡ texts.now) }
{
    let mut items = Vec::new(alloc);
    for text in &texts.items {
        items.push(text.copy()?)?;
    }
    Ok(Texts { items })
}

// The body as an expression, where it is that of a state definition.
fn expression_where(
    alloc: Global,
    is_state: bool,
    body: &Phrase,
    names: &Visible,
) -> Result<Option<Rc<Expr>>, CheckRefusal>
    ensures { AnswersCheck (option_map expr_seen)
        (expr_where is_state (names_seen names.now) (phrase_tree body.now)) result }
{
    if is_state {
        let expr = shared_expression(alloc, body, names)?;
        Ok(Some(expr))
    } else {
        Ok(None)
    }
}

// A definition with its body as a formula and as an expression, where these are its parameters.
fn make_definition(
    alloc: Global,
    definition: &Definition,
    parameters: &Binders,
    is_state: bool,
    names: &Visible,
) -> Result<Def, CheckRefusal>
    requires { parameters.now ≡ definition.now.parameters }
    ensures { AnswersCheck definition_of
        (definition_in (names_seen names.now) (definition_tree definition.now) is_state) result }
{
    let scope = Scope::Inner(parameters, names.scope);
    let inside = Visible {
        directory: names.directory,
        globals: names.globals,
        scope: &scope,
    };
    let formula = shared_formula(alloc, &definition.body, &inside)?;
    let expr = expression_where(alloc, is_state, &definition.body, &inside)?;
    Ok(Def {
        name: definition.name.copy()?,
        parameters: copy_texts(alloc, &definition.parameters)?,
        formula,
        expr,
    })
}

/// The definitions, in the order of the text.
pub fn make_definitions(
    alloc: Global,
    definitions: &Definitions,
    parameters: &[Binders],
    states: &[bool],
    names: &Visible,
) -> Result<Defs, CheckRefusal>
    requires parameters { ParametersOf definitions.now parameters.now }
    requires each { length states.now ≡ length definitions.now.items.items }
    ensures { AnswersCheck definitions_of
        (definitions_in (names_seen names.now) (map definition_tree definitions.now.items.items)
        states.now)
        result }
{
    let mut items = Vec::new(alloc);
    for (i, source) in definitions.items.iter().enumerate() {
        items.push(make_definition(alloc, source, &parameters[i], states[i], names)?)?;
    }
    Ok(Defs { items })
}
