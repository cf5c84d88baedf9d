// Laws of readings.
ghost use Rattle.tp_lex.specs.Laws.{EachTextIsRead, OneTokenList, OneRefusal, NeverBoth, PlacesCount, NamesHaveTheirCase};
ghost use Rattle.tp_lex.specs.Names.{NamesAreSpelled};

/// A text has exactly one reading: its tokens, or its first fault.
pub fn readings_are_unique()
    ensures some { EachTextIsRead }
    ensures tokens { OneTokenList }
    ensures refusal { OneRefusal }
    ensures never_both { NeverBoth }
    ensures places { PlacesCount }
    ensures cases { NamesHaveTheirCase }
{}

/// Each name among the tokens of a text is a letter, and then letters, digits and `_`.
pub fn names_are_spelled()
    ensures { NamesAreSpelled }
{}
