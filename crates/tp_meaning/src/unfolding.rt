// How formulas unfold, one turn or one state at a time.
ghost use Rattle.std.specs.Prelude.{ℤ, ℕ, List};
ghost use Rattle.tp_meaning.specs.Syntax.{ExprTree, FormulaTree};
ghost use Rattle.tp_meaning.specs.Unfolding.{AlwaysUnfolds, WhileUnfolds, ForUnfolds, ForallUnfolds, LenUnfolds, NextEquationUnfolds, AssignUnfolds, InputUnfolds, ProjectEnds, ProjectGoes, ProjectSplits, ProjectGoesOn, ProjectNext};

/// Each formula by one turn or one state, as it stands after a step.
pub fn formulas_unfold()
    // `always(f)`: f now, and `always(f)` from the next state on.
    ensures always { AlwaysUnfolds }
    // `while e do f`: a turn of length 1 or more and the loop again, or the end.
    ensures while_loop { WhileUnfolds }
    // `for`: the turn with the least number, and then the loop from the next number on.
    ensures for_loop { (name : List ℕ) (k : ℤ) (e : ExprTree) (f : FormulaTree) (n : ℤ)
        → ForUnfolds name k e f n }
    // `forall`: the instance with the least number, and those from the next number on.
    ensures forall { (name : List ℕ) (k : ℤ) (e : ExprTree) (f : FormulaTree) (n : ℤ)
        → ForallUnfolds name k e f n }
    // `len(e)`: the end, or one state less from the next state on.
    ensures len { (e : ExprTree) → LenUnfolds e }
    // `next .. next t = e`: an equation with a known value in a later state.
    ensures next_equation { NextEquationUnfolds }
    // `A <- e`: an equation with a known value in the last state.
    ensures assign { AssignUnfolds }
    // `input(A, p)`: an equation with the value that is given.
    ensures input { InputUnfolds }
    // `f proj g`: g alone on one state; on more a first piece, and from its end on a projection again, of what g goes
    // on as. `f proj next g` is `(f and more) ; (f proj g)`.
    ensures projection_ends { ProjectEnds }
    ensures projection_goes { ProjectGoes }
    ensures projection_splits { ProjectSplits }
    ensures projection_goes_on { ProjectGoesOn }
    ensures projection_of_next { ProjectNext }
{}
