// Laws of what can be printed so that a trace is read from it.
ghost use Rattle.tp_run_laws.specs.PrintableRuns.{CheckedProgramsArePrintable, ResidualsAreOneLine, RunsArePrintable, TablesArePrintable, TokenNamesAreOfVariables};

/// A name among a text's tokens is a variable's name. A checked program has each name on one line, and each value that is known in it
/// has numbers within the limit. The values of a table of inputs are within the limits.
pub fn sources_are_printable()
    ensures names { TokenNamesAreOfVariables }
    ensures programs { CheckedProgramsArePrintable }
    ensures tables { TablesArePrintable }
{}

/// What a run writes of its states is within the limits on paths, indices, lengths and values, and the names at its end stand on one
/// line.
pub fn runs_are_printable()
    ensures { RunsArePrintable }
{}

/// A residual phrase stands on one line, where names do.
pub fn residuals_are_one_line()
    ensures { ResidualsAreOneLine }
{}
