// Laws of renaming.
ghost use Rattle.tp_step_laws.specs.Alike.{AlikeMomentsAdvance, AlikeMomentsSettle};
ghost use Rattle.tp_step_laws.specs.Renaming.{OutcomesRename, PicksRename};

/// What picking an item gives is renamed with the scene, the facts and the numbers that are handed in.
pub fn picks_rename()
    // Outcomes of expressions are renamed with the facts and the bindings.
    ensures outcomes { OutcomesRename }
    ensures picks { PicksRename }
{}

/// Moments that are alike go on alike.
pub fn alike_moments_go_on()
    // They are settled alike, and show the same.
    ensures settle { AlikeMomentsSettle }
    // And they advance to moments that are alike.
    ensures advance { AlikeMomentsAdvance }
{}
