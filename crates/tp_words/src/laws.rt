// Laws of the words.
ghost use Rattle.tp_words.specs.Laws.{TwoWordsAreEnough, CheckNeedsOther, DrillNeedsSize};

/// A mode that reads one file and the file's name, or a drill and its size, are words enough: there are no inputs and no trace, and the
/// limits and the order are the usual ones.
pub fn two_words_are_enough()
    ensures { TwoWordsAreEnough }
{}

/// A mode that reads a second file isn't accepted without the name of that file.
pub fn check_needs_other()
    ensures { CheckNeedsOther }
{}

/// A drill isn't accepted with a word that spells no size: one to four digits, of a value from 1 to 5000.
pub fn drill_needs_size()
    ensures { DrillNeedsSize }
{}
