// Laws of traces.
ghost use Rattle.tp_show.specs.TraceArranged.{OrderOfPartsTellsNothing};
ghost use Rattle.tp_show.specs.TraceExamples.{TraceExamples};
ghost use Rattle.tp_show.specs.TraceLaws.{TracesAreReadOnce};
ghost use Rattle.tp_show.specs.TraceOfRun.{TracesTellFacts};

/// A text is a trace of one list of states, or has one first bad line, and not both.
pub fn traces_are_read_once()
    ensures { TracesAreReadOnce }
{}

/// The texts of one or more states with the numbers 0, 1, .., one after another, and then nothing or an end line, are a trace, whose
/// states have exactly the facts of the pictures, in order, each told of its variable by the variable's name.
pub fn traces_tell_facts()
    ensures { TracesTellFacts }
{}

/// Where some parts make the line of a state, they do in every order, and give the same facts.
pub fn order_of_parts_tells_nothing()
    ensures { OrderOfPartsTellsNothing }
{}

/// A counter's text is the trace of its states; lists known as a whole and in part; and a text that begins with the state 1 is none.
pub fn trace_examples()
    ensures { TraceExamples }
{}
