// Laws of the texts.
ghost use Rattle.tp_show.specs.EndsTold.{EndLinesTell};
ghost use Rattle.tp_show.specs.LineExamples.{EndLineExamples, LineExamples};
ghost use Rattle.tp_show.specs.ToldLaws.{TextsTell, TextShowsStates};

/// A text shows the states of its run: their numbers, their facts, of every kind, and what is shown in them can be read back in one
/// way only.
pub fn text_shows_states()
    ensures { TextShowsStates }
{}

/// What the text of settled states tells, read back from the text alone, is what they know and show: a course agrees with the one
/// exactly where it agrees with the other.
pub fn texts_tell()
    ensures { TextsTell }
{}

/// One text is the end line of one end only, up to the numbers of locals and regions, and up to which of two facts that clash was known
/// first.
pub fn end_lines_tell()
    ensures { EndLinesTell }
{}

/// How the lines of some states read: a value known as a whole, a list known in part, and an item alone; what is shown; and how a
/// local is told.
pub fn line_examples()
    ensures states { LineExamples }
    // How runs of each kind of end are told.
    ensures ends { EndLineExamples }
{}
