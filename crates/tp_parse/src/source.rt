// Definitions and whole sources.
ghost use Rattle.std.specs.Prelude.{◌≡◌, ◌≢◌, ◌≤◌, [], length, IfOk, IfErr};
ghost use Rattle.tp_parse.specs.Readers.{ReturnsReading};
ghost use Rattle.tp_parse.specs.Source as spec;
ghost use Rattle.tp_parse.specs.Source.{parse_outcome, IsOutcome, NamesToken, definition_trees};
ghost use Rattle.tp_tree.specs.Read.{phrase_tree, definition_tree, source_tree};
ghost use Rattle.tp_tree.specs.Tree.{SourceTree};
ghost use Rattle.tp_tree.specs.Height.{source_height};
ghost use Rattle.tp_parse.specs.Grammar.{Accepts};
ghost use Rattle.tp_parse.specs.Place.{BlamesFirst};
ghost use Rattle.tp_parse.specs.PlaceLaws.{BlamesFirstInEachText};
ghost use Rattle.tp_parse.specs.SpelledText.{ParsesPrinted};
ghost use Rattle.tp_parse.specs.declared.refusal.ParseRefusal.TheVariants.{NoMemory};

use crate::mark::TokenMark;
use crate::parser::Parser;
use crate::refusal::ParseRefusal;
use crate::stop::Refusal;
use std::alloc::Global;
use tp_lex::{Symbol, Tokens, Word};
use tp_tree::level::CHOP;
use tp_tree::{Definition, Definitions, Phrase, Source};
use tp_value::Texts;

/// The greatest height of a phrase.
const MAX_HEIGHT: u8 = 200;

/// The source that the tokens are. A phrase of it is at most 200 high: a number, a truth value, a name, a word by itself, an empty
/// list, and a call or a form without operands are 1 high, any other phrase is 1 higher than its highest operand, and a pair of
/// `( )` or `{ }` adds 1.
pub fn parse(alloc: Global, tokens: &Tokens) -> Result<Source, ParseRefusal>
    ensures accepted { IfOk result (λ s. Accepts tokens.now (source_tree s)) }
    ensures only { IfOk result (λ s. (t : SourceTree) → Accepts tokens.now t → t ≡ source_tree s) }
    ensures low { IfOk result (λ s. source_height (source_tree s) ≤ 200) }
    ensures refused { IfErr result (λ e. e ≢ NoMemory → (t : SourceTree) → ¬ Accepts tokens.now t) }
    ensures outcome { IsOutcome (parse_outcome tokens.now) result }
    ensures token { IfErr result (NamesToken (length tokens.now)) }
    ensures place { IfErr result (BlamesFirst tokens.now) }
    ensures text { IfErr result (BlamesFirstInEachText tokens.now) }

    // The tokens of a source that was printed are parsed as that source, up to places.
    ensures printed { ParsesPrinted tokens.now result }
{
    outcome(alloc, tokens)
}

fn outcome(alloc: Global, tokens: &Tokens) -> Result<Source, ParseRefusal>
    ensures { IsOutcome (parse_outcome tokens.now) result }
{
    match source(alloc, tokens) {
        Ok(source) => Ok(source),
        Err(refusal) => Err(named(tokens.items.len(), refusal)),
    }
}

/// The refusal with the token's number from the front.
fn named(count: usize, refusal: Refusal) -> ParseRefusal
    ensures { result ≡ spec.named count refusal }
{
    match refusal {
        Refusal::Unexpected(left) => ParseRefusal::Unexpected {
            token: count.saturating_sub(left),
        },
        Refusal::Unfinished => ParseRefusal::Unfinished,
        Refusal::TooDeep(left) => ParseRefusal::TooDeep {
            token: count.saturating_sub(left),
        },
        Refusal::NoMemory => ParseRefusal::NoMemory,
    }
}

#[tactic(auto, unfolding(crate::specs::Source::source, crate::specs::Source::ended))]
fn source(alloc: Global, tokens: &Tokens) -> Result<Source, Refusal>
    ensures { ReturnsReading source_tree (spec.source tokens.now) result [] }
{
    let mut parser = Parser::new(&tokens.items);
    let definitions = parser.definitions(alloc)?;
    parser.expect(TokenMark::Word(Word::Run))?;
    let main = parser.sentence(alloc)?;
    if parser.remaining() > 0 {
        return Err(parser.refusal());
    }
    Ok(Source { definitions, main })
}

impl Parser<'_> {
    /// A phrase with the greatest room, and the `.` after it.
    #[tactic(auto, unfolding(crate::specs::Source::sentence))]
    fn sentence(&mut self, alloc: Global) -> Result<Phrase, Refusal>
        ensures { ReturnsReading phrase_tree (spec.sentence self.old) result self.new }
    {
        let read = self.phrase(alloc, CHOP, MAX_HEIGHT)?;
        self.expect(TokenMark::Symbol(Symbol::Stop))?;
        Ok(read.phrase)
    }

    /// The parameters of a definition, and the `)` after them.
    #[tactic(auto, unfolding(crate::specs::Source::parameters))]
    fn parameters(&mut self, alloc: Global) -> Result<Texts, Refusal>
        ensures { ReturnsReading (λ xs. xs) (spec.parameters self.old) result self.new }
    {
        let close = TokenMark::Symbol(Symbol::CloseRound);
        if self.sees(close) {
            self.take();
            return Ok(Texts {
                items: Vec::new(alloc),
            });
        }
        let names = self.names(alloc)?;
        self.expect(close)?;
        Ok(names)
    }

    /// A definition, whose word is next.
    #[tactic(auto, unfolding(crate::specs::Source::definition))]
    fn definition(&mut self, alloc: Global) -> Result<Definition, Refusal>
        ensures { ReturnsReading definition_tree (spec.definition self.old) result self.new }
    {
        let at = self.from();
        self.take();
        let name = self.lower(alloc)?;
        self.expect(TokenMark::Symbol(Symbol::OpenRound))?;
        let parameters = self.parameters(alloc)?;
        self.expect(TokenMark::Symbol(Symbol::Equal))?;
        let body = self.sentence(alloc)?;
        Ok(Definition {
            name,
            at,
            parameters,
            body,
        })
    }

    /// Definitions up to a token that begins none.
    fn definitions(&mut self, alloc: Global) -> Result<Definitions, Refusal>
        ensures { ReturnsReading definition_trees (spec.definitions self.old) result self.new }
    {
        let mut items = Vec::new(alloc);
        for _turn in 0..self.remaining() {
            if !self.sees(TokenMark::Word(Word::Define)) {
                return Ok(Definitions { items });
            }
            items.push(self.definition(alloc)?)?;
        }
        Ok(Definitions { items })
    }
}
