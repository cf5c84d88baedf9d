// Formulas that become regions, or bind a local.
ghost use Rattle.std.specs.Prelude.{◌++◌, ◌∷◌, [], Some, None, IfOk};
ghost use Rattle.tp_meaning.specs.Syntax.{place_binding};
ghost use Rattle.tp_kernel.specs.Read.{formula_tree, bindings_of};
ghost use Rattle.tp_scene.specs.Scene as S;
ghost use Rattle.tp_scene.specs.Step as row;
ghost use Rattle.tp_decide.specs.Decided.{Decides, IfOkDecides, holding};
ghost use Rattle.tp_decide.specs.Fits.{IsPlain};
ghost use Rattle.tp_decide.specs.ReadBound.{formula_of, env_of};

use crate::bound_formula::BoundFormula;
use crate::decision::{Decision, Place};
use crate::env::shared_under;
use std::rc::Rc;
use tp_kernel::{Env, Formula, LimitKind};
use tp_value::{NoMemory, Text};

// The greatest depth of a region.
const REGION_LIMIT: u32 = 400;

/// The items that hold a new region: a left one, which another formula follows; or an outer one, with the piece of its projection.
#[derive(Clone, Copy)]
pub enum RegionKind {
    Left,
    Outer,
}

/// A new region with the first formula, and the second beside it, unless it is too deep.
pub fn divide(
    place: Place,
    kind: RegionKind,
    inside: BoundFormula,
    beside: BoundFormula,
) -> Decision
    ensures outcome { Decides result (λ n.
        row.with_region place.depth
        (holding kind (n.item 1)
        (row.region_of n.region (n.item 0) (formula_of inside) (env_of inside))
        (formula_of beside) (env_of beside) S.none)
        2) }
    ensures plain { IsPlain result }
{
    if place.depth >= REGION_LIMIT {
        return Decision::Passes(LimitKind::Nest);
    }
    match kind {
        RegionKind::Left => Decision::Splits {
            first: inside,
            after: beside,
        },
        RegionKind::Outer => Decision::Opens {
            outer: inside,
            piece: beside,
        },
    }
}

/// A region for the first formula, and the second beside it: for the states up to the one where the second begins, or for those that the
/// pieces end in.
pub fn decide_region(
    kind: RegionKind,
    inside: &Rc<Formula>,
    beside: &Rc<Formula>,
    env: &Rc<Env>,
    place: Place,
) -> Result<Decision, NoMemory>
    ensures outcome { IfOkDecides result (λ n.
        row.with_region place.depth
        (holding kind (n.item 1)
        (row.region_of n.region (n.item 0) (formula_tree inside.now.value)
        (bindings_of env.now.value))
        (formula_tree beside.now.value) (bindings_of env.now.value) S.none)
        2) }
    ensures plain { IfOk result IsPlain }
{
    let inside = shared_under(inside, env)?;
    let beside = shared_under(beside, env)?;
    Ok(divide(place, kind, inside, beside))
}

/// The body, with a new local of that name.
pub fn decide_exists(
    name: &Text,
    lasting: bool,
    body: &Rc<Formula>,
    env: &Rc<Env>,
) -> Result<Decision, NoMemory>
    ensures outcome { IfOkDecides result (λ n.
        row.reduces
        (record {
          news = S.leaf (n.item 0) (S.Do (formula_tree body.now.value)
              (bindings_of env.now.value
              ++ place_binding
              (record { var = record { number = n.local; lasting = lasting }; at = [] })
              ∷ [])) S.none;
          items = 1;
          regions = 0;
          local = Some (record { name = name.now; lasting = lasting });
          mark = None;
          facts = [];
        })) }
    ensures plain { IfOk result IsPlain }
{
    let name = name.copy()?;
    let body = shared_under(body, env)?;
    Ok(Decision::Binds {
        name,
        lasting,
        body,
    })
}
