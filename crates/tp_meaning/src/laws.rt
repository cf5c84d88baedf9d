// Laws of values and meanings.
ghost use Rattle.tp_meaning.specs.Laws.{ValuesDeepen, MeaningsDeepen, DivisionRoundsDown};

/// What is found at one depth is found at each greater one.
pub fn meanings_deepen()
    ensures values { ValuesDeepen }
    // What holds there holds with the same shows.
    ensures meanings { MeaningsDeepen }
{}

/// `a div b` is rounded down: a is `b * (a div b) + a mod b`, and the remainder lies between 0 and b, on b's side.
pub fn division_rounds_down()
    ensures { DivisionRoundsDown }
{}
