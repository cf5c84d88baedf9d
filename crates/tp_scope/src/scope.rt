// What a name stands for where it is read.
ghost use Rattle.std.specs.Prelude.{◌≡◌, ◌≤◌, ◌^◌, IfOk, OnErr, length};
ghost use Rattle.tp_scope.specs.Scope.{binder_of};
ghost use Rattle.tp_scope.specs.Seen.{names_bound};

use crate::binders::Binders;
use crate::count::{as_number, sum_of};
use crate::directory::Directory;
use tp_value::{Globals, NoMemory, Text};

/// The names that are bound where a phrase stands, those that were bound together as one, the innermost first.
#[derive(Clone, Copy)]
pub enum Scope<'a> {
    Outermost,
    Inner(&'a Binders, &'a Scope<'a>),
}

/// What can be read where a phrase stands: the definitions, the variables, and the bound names.
#[derive(Clone, Copy)]
pub struct Visible<'a> {
    pub directory: &'a Directory<'a>,
    pub globals: &'a Globals,
    pub scope: &'a Scope<'a>,
}

// How many names are bound.
fn bound_count(scope: &Scope) -> Result<u32, NoMemory>
    ensures ok { IfOk result (λ n. n ≡ length (names_bound scope.now)) }
    ensures err { OnErr result (2 ^ 32 ≤ length (names_bound scope.now)) }
{
    match scope {
        Scope::Outermost => Ok(0),
        Scope::Inner(binders, outer) => sum_of(bound_count(outer)?, as_number(binders.len())?),
    }
}

/// The number of the name's innermost binder, or none where the name isn't bound.
pub fn find_binder(scope: &Scope, name: &Text) -> Result<Option<u32>, NoMemory>
    ensures { IfOk result (λ found. found ≡ binder_of (names_bound scope.now) name.now) }
{
    match scope {
        Scope::Outermost => Ok(None),
        Scope::Inner(binders, outer) => match binders.place(name) {
            Some(place) => {
                let number = sum_of(bound_count(outer)?, as_number(place)?)?;
                Ok(Some(number))
            }
            None => find_binder(outer, name),
        },
    }
}
