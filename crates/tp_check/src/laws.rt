// Laws of what becomes of sources.
ghost use Rattle.tp_check.specs.Laws.{CheckedOnce};
ghost use Rattle.tp_check.specs.NameLaws.{GlobalsAreApart, GlobalsStandInSource};
ghost use Rattle.tp_check.specs.Refusals.{RefusalsNameBroken, ProgramsKeepRules};

/// One thing becomes of a source: one program, or one refusal.
pub fn checked_once()
    ensures { CheckedOnce }
{}

/// A source that is refused has a name of a definition or a parameter that is defined twice, or else its refusal names the first rule that a
/// phrase breaks: the bodies come before the main phrase, a phrase before its operands, and these from left to right.
pub fn refusals_name_broken()
    ensures { RefusalsNameBroken }
{}

/// In a source that is a program no phrase breaks a rule.
pub fn programs_keep_rules()
    ensures { ProgramsKeepRules }
{}

/// The names of a program's variables stand in its source, and none of them stands twice.
pub fn globals_are_names()
    ensures stand { GlobalsStandInSource }
    ensures apart { GlobalsAreApart }
{}
