// Loops and projections, said by their cuts; `forall` by its instances, and `exists` by values on the interval.
ghost use Rattle.std.specs.Prelude.{ℤ, ℕ, Bool, List};
ghost use Rattle.tp_meaning.specs.Syntax.{ExprTree, FormulaTree, while, for_from, forall_from, project, exists};
ghost use Rattle.tp_meaning.specs.Direct.{Means};
ghost use Rattle.tp_meaning.specs.Cuts.{WhileByCuts, ForByCuts, ForallByInstances, ProjectByCuts, ExistsByValues};

/// Loops, projections and bindings mean what they say of their parts at once.
pub fn formulas_mean_by_parts()
    // `while e do f`, by strictly rising cuts.
    ensures while_by_cuts { (e : ExprTree) (f : FormulaTree)
        → Means (while e f) (WhileByCuts e f) }
    // `for v < e do f`, by cuts that never fall, with the numbers of its turns.
    ensures for_by_cuts { (name : List ℕ) (k : ℤ) (e : ExprTree) (f : FormulaTree)
        → Means (for_from name k e f) (ForByCuts k e f) }
    // `forall v < e : f`, by its instances.
    ensures forall_by_instances { (name : List ℕ) (k : ℤ) (e : ExprTree) (f : FormulaTree)
        → Means (forall_from name k e f) (ForallByInstances k e f) }
    // `f proj g`, by strictly rising cuts.
    ensures project_by_cuts { (f g : FormulaTree) → Means (project f g) (ProjectByCuts f g) }
    // `exists V : f`, by values in the states of the interval.
    ensures exists_by_values { (name : List ℕ) (lasting : Bool) (f : FormulaTree)
        → Means (exists name lasting f) (ExistsByValues lasting f) }
{}
