// Laws of sources: their names, and their canonical spelling.
ghost use Rattle.tp_parse.specs.Names.{NamesAreTokens};
ghost use Rattle.tp_parse.specs.PlaceLaws.{OnePlace, PrefixesAreUnfinished};
ghost use Rattle.tp_parse.specs.Spelled.{SourcesAreWhole, SpellingsAreReadBack};
ghost use Rattle.tp_parse.specs.SpelledText.{OneSpelling, PrintedIsReadBack, SourcesAreSpellable, SpellingsHaveTheirTokens};

/// Each name that stands in an accepted source is the text of one of its tokens.
pub fn names_are_tokens()
    ensures { NamesAreTokens }
{}

/// A source that is printed is read back from its text, up to places, where that is within the limits.
pub fn printed_is_read_back()
    // Whatever tokens the canonical spelling of a source has, they are parsed as the source, up to places.
    ensures whole { SourcesAreWhole }
    ensures spellings { SpellingsAreReadBack }
    // And the text has such tokens.
    ensures texts { SourcesAreSpellable }
    ensures tokens { SpellingsHaveTheirTokens }
    ensures read_back { PrintedIsReadBack }
    ensures once { OneSpelling }
{}

/// Tokens that are refused have one place where they went wrong, and an accepted source that is cut short has none.
pub fn place_is_one()
    ensures one { OnePlace }
    ensures prefixes { PrefixesAreUnfinished }
{}
