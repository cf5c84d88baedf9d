// Laws of the canonical spelling.
ghost use Rattle.tp_tree.specs.SpellingExamples.{SpellingExamples};

/// How the phrases and sources of the examples are spelled.
pub fn spelling_examples()
    ensures { SpellingExamples }
{}
