// What becomes of an item that holds a region.
ghost use Rattle.std.specs.Prelude.{◌≡◌, List};
ghost use Rattle.tp_value.specs.declared.path.Fact.{Fact};
ghost use Rattle.tp_scene.specs.Scene as S;
ghost use Rattle.tp_scene.specs.Step as row;
ghost use Rattle.tp_scene.specs.Pick as pick;
ghost use Rattle.tp_decide.specs.Decided.{plain_place};
ghost use Rattle.tp_decide.specs.Holders.{IsOfKind, kind_of, closes, begins_piece, holder_decided};

use crate::decision::Place;
use tp_scene::Cell;

/// The kinds of items that hold a region: a left region, and what follows it; the same, where the piece of a projection follows with its
/// outer region; a region that has ended; the outer region of a projection whose next piece hasn't begun; the piece at hand of a projection,
/// with the outer region.
#[derive(Clone, Copy, Debug)]
pub enum HolderKind {
    Split,
    SplitProject,
    Closed,
    Opened,
    Running,
}

/// What is to be done with an item that holds a region. `Closes`: the left region has ended, so what follows it begins. `Begins`: the outer
/// region goes on, so a piece begins, in a new region beside it, with a `More` after the formula. Nothing changes in the other cases.
#[derive(Drop)]
pub enum HolderDecision {
    Rests,
    Waits(Cell),
    Closes,
    Begins,
}

fn wait_for_end(inside: Place) -> HolderDecision
    ensures { result ≡ HolderDecision.Waits (Cell.End inside.region inside.depth) }
{
    HolderDecision::Waits(Cell::End {
        region: inside.region,
        depth: inside.depth,
    })
}

// By whether the region goes or ends, where one of these is known.
fn by_status(inside: Place, if_goes: HolderDecision, if_ends: HolderDecision) -> HolderDecision
    ensures outcome { (k : S.Holder) (held second : S.Region) (n : row.Numbers)
        → holder_decided k held second n result
        ≡ row.by_status (plain_place inside) (holder_decided k held second n if_goes)
        (holder_decided k held second n if_ends) }
    ensures kind { (kind : HolderKind) → IsOfKind kind if_goes → IsOfKind kind if_ends
        → IsOfKind kind (HolderDecision.Waits (Cell.End inside.region inside.depth))
        → IsOfKind kind result }
{
    if inside.goes {
        if_goes
    } else if inside.ends {
        if_ends
    } else {
        wait_for_end(inside)
    }
}

/// What picking an item of this kind gives, by the place of the items of the region that it holds.
pub fn decide_holder(kind: HolderKind, inside: Place) -> HolderDecision
    ensures kind { IsOfKind kind result }
    ensures outcome { (w : pick.Setting) (facts : List Fact) (k : S.Holder) (held second : S.Region)
        (n : row.Numbers)
        → kind_of k ≡ kind
        → holder_decided k held second n result
        ≡ row.holder_step w.defs w.inputs w.state facts k held second (plain_place inside) n }
{
    match kind {
        HolderKind::Split | HolderKind::SplitProject => {
            by_status(inside, HolderDecision::Rests, HolderDecision::Closes)
        }
        HolderKind::Closed => HolderDecision::Rests,
        HolderKind::Opened => by_status(inside, HolderDecision::Begins, HolderDecision::Rests),
        HolderKind::Running => HolderDecision::Rests,
    }
}
