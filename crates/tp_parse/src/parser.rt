// What is left of the tokens, and the steps that take them.
ghost use Rattle.std.specs.Prelude.{◌≡◌, ◌<◌, drop, length, IfOk, OnOk};
ghost use Rattle.tp_parse.specs.Marks as spec;
ghost use Rattle.tp_parse.specs.Readers as readers;
ghost use Rattle.tp_parse.specs.Readers.{ReturnsReading};
ghost use Rattle.tp_parse.specs.declared.stop.Refusal.TheVariants.{TooDeep};

use crate::mark::TokenMark;
use crate::role::{first_half, mark_of, same, second_half};
use crate::stop::Refusal;
use std::alloc::Global;
use std::marker::Model;
use tp_lex::{Kind, Symbol, Token};
use tp_value::{NoMemory, Number, Text, Texts};

/// The tokens that are left; of the first one only its second half, where `halved`.
#[derive(Drop)]
pub struct Parser<'a> {
    tokens: &'a [Token],
    halved: bool,
}

impl<'a> Model for Parser<'a> {
    ghost use Rattle.std.specs.Prelude.{List};
    ghost use Rattle.tp_lex.specs.declared.token.Token.{Token};
    ghost use Rattle.tp_parse.specs.Marks.{left_of};

    ghost Value = { List Token };

    ghost view = { λ p. left_of p.halved p.tokens.now };
}

impl<'a> Parser<'a> {
    pub fn new(tokens: &'a [Token]) -> Parser<'a>
        ensures { result ≡ tokens.now }
    {
        Parser {
            tokens,
            halved: false,
        }
    }

    /// How many tokens are left.
    pub fn remaining(&self) -> usize
        ensures { result ≡ length self.now }
    {
        self.tokens.len()
    }

    /// The next token without its text.
    #[tactic(auto, unfolding(crate::specs::Marks::mark))]
    pub fn mark(&self) -> TokenMark
        ensures { result ≡ spec.mark self.now }
    {
        match self.tokens {
            [] => TokenMark::End,
            [token, ..] => {
                let mark = mark_of(&token.kind);
                if self.halved {
                    without_half(mark)
                } else {
                    mark
                }
            }
        }
    }

    /// The place of the next token's first byte, or 0 at the end.
    #[tactic(auto, unfolding(crate::specs::Marks::from))]
    pub fn from(&self) -> u32
        ensures { result ≡ spec.from self.now }
    {
        match self.tokens {
            [] => 0,
            [token, ..] => {
                if self.halved {
                    token.to.saturating_sub(1)
                } else {
                    token.from
                }
            }
        }
    }

    /// The next token's number, or 0 where it is none.
    #[tactic(auto, unfolding(crate::specs::Marks::first_number))]
    pub fn number(&self) -> Number
        ensures { result ≡ spec.first_number self.now }
    {
        match self.tokens {
            [] => 0,
            [token, ..] => match &token.kind {
                Kind::Number(value) => *value,
                _ => 0,
            },
        }
    }

    /// The next token's name, or the empty text where it is none.
    #[tactic(auto, unfolding(crate::specs::Marks::first_name))]
    pub fn name(&self, alloc: Global) -> Result<Text, NoMemory>
        ensures { IfOk result (λ t. t ≡ spec.first_name self.now) }
    {
        match self.tokens {
            [] => Ok(Text::new(alloc)),
            [token, ..] => match &token.kind {
                Kind::Upper(text) | Kind::Lower(text) => text.copy(),
                _ => Ok(Text::new(alloc)),
            },
        }
    }

    /// Whether the next token has that mark.
    pub fn sees(&self, mark: TokenMark) -> bool
        ensures { result ≡ readers.sees mark self.now }
    {
        same(self.mark(), mark)
    }

    /// The next token's mark, or that of its first half.
    pub fn due(&self) -> TokenMark
        ensures { result ≡ spec.mark_due self.now }
    {
        match self.mark() {
            TokenMark::Symbol(symbol) => TokenMark::Symbol(first_half(symbol)),
            mark => mark,
        }
    }

    /// Takes the next token.
    pub fn take(&mut self)
        ensures { self.new ≡ drop 1 self.old }
    {
        if let [_, rest @ ..] = self.tokens {
            self.tokens = rest;
            self.halved = false;
        }
    }

    /// Why the next token is none that may stand here.
    #[tactic(auto, unfolding(crate::specs::Readers::refusal))]
    pub fn refusal(&self) -> Refusal
        ensures { result ≡ readers.refusal self.now }
    {
        if self.tokens.is_empty() {
            Refusal::Unfinished
        } else {
            Refusal::Unexpected(self.tokens.len())
        }
    }

    /// Takes the next token, or its first half where it is read as two.
    #[tactic(auto, unfolding(crate::specs::Marks::past))]
    pub fn pass(&mut self)
        ensures { self.new ≡ spec.past self.old }
    {
        if same(self.due(), self.mark()) {
            self.take();
        } else {
            self.halved = true;
        }
    }

    /// Takes this mark, which is due.
    #[tactic(auto, unfolding(crate::specs::Readers::expect))]
    pub fn expect(&mut self, mark: TokenMark) -> Result<(), Refusal>
        ensures { ReturnsReading (λ u. u) (readers.expect mark self.old) result self.new }
    {
        if same(self.due(), mark) {
            self.pass();
            Ok(())
        } else {
            Err(self.refusal())
        }
    }

    /// Where operands of this room are due: none are, if it is 0.
    #[tactic(auto, unfolding(crate::specs::Readers::deepen))]
    pub fn deepen(&self, room: u8) -> Result<(), Refusal>
        ensures reads { ReturnsReading (λ u. u) (readers.deepen room self.now) result self.now }
        ensures some { OnOk result (0 < room) }
    {
        if room == 0 {
            return Err(self.too_deep());
        }
        Ok(())
    }

    pub fn too_deep(&self) -> Refusal
        ensures { result ≡ TooDeep (length self.now) }
    {
        Refusal::TooDeep(self.tokens.len())
    }

    /// Takes a name that begins with a lower-case letter.
    #[tactic(auto, unfolding(crate::specs::Readers::lower))]
    pub fn lower(&mut self, alloc: Global) -> Result<Text, Refusal>
        ensures { ReturnsReading (λ t. t) (readers.lower self.old) result self.new }
    {
        if self.sees(TokenMark::Lower) {
            self.taken_name(alloc)
        } else {
            Err(self.refusal())
        }
    }

    /// Takes a name.
    #[tactic(auto, unfolding(crate::specs::Readers::any_name))]
    fn any_name(&mut self, alloc: Global) -> Result<Text, Refusal>
        ensures { ReturnsReading (λ t. t) (readers.any_name self.old) result self.new }
    {
        if self.sees(TokenMark::Upper) || self.sees(TokenMark::Lower) {
            self.taken_name(alloc)
        } else {
            Err(self.refusal())
        }
    }

    /// Takes the next token, and gives its name.
    pub fn taken_name(&mut self, alloc: Global) -> Result<Text, Refusal>
        ensures { ReturnsReading (λ t. t) (readers.taken_name self.old) result self.new }
    {
        let name = self.name(alloc).map_err(|_| Refusal::NoMemory)?;
        self.take();
        Ok(name)
    }

    /// Takes names with commas between them, at least one.
    #[tactic(auto, unfolding(crate::specs::Readers::names))]
    pub fn names(&mut self, alloc: Global) -> Result<Texts, Refusal>
        ensures { ReturnsReading (λ t. t) (readers.names self.old) result self.new }
    {
        let mut items = Vec::new(alloc);
        items.push(self.any_name(alloc)?)?;
        for _turn in 0..self.remaining() {
            if !self.sees(TokenMark::Symbol(Symbol::Comma)) {
                return Ok(Texts { items });
            }
            self.take();
            items.push(self.any_name(alloc)?)?;
        }
        Ok(Texts { items })
    }
}

fn without_half(mark: TokenMark) -> TokenMark
    ensures { result ≡ readers.mark_without_half mark }
{
    match mark {
        TokenMark::Symbol(symbol) => TokenMark::Symbol(second_half(symbol)),
        _ => mark,
    }
}
