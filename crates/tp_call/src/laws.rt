// Laws of the end lines of calls.
ghost use Rattle.tp_call.specs.StatusesTold.{StatusLinesTell};

/// One line is the end line of one status only, up to what the end line of a run leaves open: the numbers of locals and regions, and
/// which of two facts that clash was known first.
pub fn status_lines_tell()
    ensures { StatusLinesTell }
{}
