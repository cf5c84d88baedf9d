// Laws of facts and of the states that agree with them. Each function does nothing: its contract is the law.
ghost use Rattle.tp_store.specs.Laws.{ClashesAgreeNowhere, FactsSayTheValue, FullIsRight, OpenIsUndecided, SameShapesSameStore, AddingAddsMeaning, RefusedAgreeNowhere, NoClashArises, HasAgreeingState, LastingExtends};

/// What is known says what holds in each state that agrees with the facts.
pub fn known_is_right()
    // A state agrees with the facts of a value at a path exactly where it has this value there.
    ensures says_the_value { FactsSayTheValue }
    // What is known of a value at a path holds in each state that agrees with the facts.
    ensures full { FullIsRight }
    // An open path has no shape yet, and none is excluded there.
    ensures open_paths { OpenIsUndecided }
    // Two lists without a clash that give each path the same shape are the same store.
    ensures same_shapes { SameShapesSameStore }
{}

/// What adding facts, or refusing them, says of the states that agree.
pub fn adding_is_right()
    // No state agrees with two facts that clash.
    ensures clashes { ClashesAgreeNowhere }
    // After facts are added, the states that agree are those that agreed before and agree with these facts.
    ensures added { AddingAddsMeaning }
    // Where facts are refused, no state agrees with what is kept and with all of them.
    ensures refused { RefusedAgreeNowhere }
    // Neither adding nor dropping facts makes a clash.
    ensures no_clash { NoClashArises }
{}

/// Facts without a clash have states that agree with all of them.
pub fn agreeing_states_exist()
    ensures some { HasAgreeingState }
    // Such a state can be chosen with given values of the static variables that agree with the static facts.
    ensures lasting { LastingExtends }
{}
