// What a primary begins with, up to its first operand.
ghost use Rattle.std.specs.Prelude.{◌≡◌, OnOk, ◌<◌, IsTrue, drop};
ghost use Rattle.tp_parse.specs.Marks as marks;
ghost use Rattle.tp_parse.specs.Head as spec;
ghost use Rattle.tp_parse.specs.Readers.{ReturnsReading};

use crate::head::{Atom, Listed, Pair, PrimaryHead};
use crate::mark::{Enclosure, Start, TokenMark};
use crate::parser::Parser;
use crate::role::{before, start_of};
use crate::stop::Refusal;
use std::alloc::Global;
use tp_lex::{Symbol, Word};
use tp_tree::level::{CHOP, SUM};
use tp_value::Text;

impl Parser<'_> {
    /// Takes what a primary begins with, where the next token begins it so.
    pub fn head(&mut self, alloc: Global, start: Start) -> Result<PrimaryHead, Refusal>
        ensures { ReturnsReading (λ h. h) (spec.head_by start self.old) result self.new }
    {
        match start {
            Start::Nothing => Err(self.refusal()),
            Start::Number => {
                let value = self.number();
                Ok(self.taken(PrimaryHead::Atom(Atom::Number(value))))
            }
            Start::Name => Ok(PrimaryHead::Atom(Atom::Name(self.taken_name(alloc)?))),
            Start::NameOrCall => self.name_or_call(alloc),
            Start::Truth(value) => Ok(self.taken(PrimaryHead::Atom(Atom::Truth(value)))),
            Start::Bare(word) => Ok(self.taken(PrimaryHead::Atom(Atom::Bare(word)))),
            Start::EmptyList => Ok(self.taken(PrimaryHead::Atom(Atom::EmptyList))),
            Start::List => {
                self.pass();
                Ok(PrimaryHead::Listed(Listed::List))
            }
            Start::Form(form) => {
                self.take();
                self.expect(TokenMark::Symbol(Symbol::OpenRound))?;
                Ok(PrimaryHead::Listed(Listed::Form(form)))
            }
            Start::Enclosed(enclosure) => Ok(self.taken(PrimaryHead::Enclosed(enclosure))),
            Start::If => Ok(self.taken(PrimaryHead::If)),
            Start::While => Ok(self.taken(PrimaryHead::Paired(Pair::While))),
            Start::Repeat => Ok(self.taken(PrimaryHead::Paired(Pair::Repeat))),
            Start::For => Ok(PrimaryHead::Paired(Pair::For(self.counter(alloc)?))),
            Start::Forall => Ok(PrimaryHead::Paired(Pair::Forall(self.counter(alloc)?))),
            Start::Exists => {
                self.take();
                let names = self.names(alloc)?;
                self.expect(TokenMark::Symbol(Symbol::Colon))?;
                Ok(PrimaryHead::Exists(names))
            }
        }
    }

    /// Takes the next token, which is the head.
    fn taken(&mut self, head: PrimaryHead) -> PrimaryHead
        ensures head { result ≡ head }
        ensures rest { self.new ≡ drop 1 self.old }
    {
        self.take();
        head
    }

    /// Takes a name, and the `(` of a call where it follows.
    #[tactic(auto, unfolding(crate::specs::Head::name_or_call))]
    fn name_or_call(&mut self, alloc: Global) -> Result<PrimaryHead, Refusal>
        ensures { ReturnsReading (λ h. h) (spec.name_or_call self.old) result self.new }
    {
        let name = self.taken_name(alloc)?;
        if self.sees(TokenMark::Symbol(Symbol::OpenRound)) {
            self.take();
            Ok(PrimaryHead::Listed(Listed::Call(name)))
        } else {
            Ok(PrimaryHead::Atom(Atom::Name(name)))
        }
    }

    /// Takes a loop's word, its variable and the `<` after it.
    #[tactic(auto, unfolding(crate::specs::Head::counter))]
    fn counter(&mut self, alloc: Global) -> Result<Text, Refusal>
        ensures { ReturnsReading (λ x. x) (spec.counter self.old) result self.new }
    {
        self.take();
        let name = self.lower(alloc)?;
        self.expect(TokenMark::Symbol(Symbol::Less))?;
        Ok(name)
    }

    /// Refuses what can't be 1 high where its operands have no room.
    #[tactic(auto, unfolding(crate::specs::Head::admit))]
    pub fn admit(&self, room: u8, start: Start) -> Result<(), Refusal>
        ensures reads { ReturnsReading (λ u. u) (spec.admit room start self.now) result self.now }
        ensures high { OnOk result (IsTrue (spec.is_high start) → 0 < room) }
    {
        if is_high(start) {
            self.deepen(room)
        } else {
            Ok(())
        }
    }

    /// Why no phrase of the level stands here where none may be 1 high.
    #[tactic(auto, unfolding(crate::specs::Head::unfit))]
    pub fn unfit(&self, level: u8) -> Refusal
        ensures { result ≡ spec.unfit level self.now }
    {
        if begins(level, self.mark()) {
            self.too_deep()
        } else {
            self.refusal()
        }
    }
}

/// Whether what begins so has an operand, and is 2 high at least.
fn is_high(start: Start) -> bool
    ensures { result ≡ spec.is_high start }
{
    match start {
        Start::Enclosed(_) => true,
        Start::If => true,
        Start::While => true,
        Start::Repeat => true,
        Start::For => true,
        Start::Forall => true,
        Start::Exists => true,
        Start::Nothing
        | Start::Number
        | Start::Name
        | Start::NameOrCall
        | Start::Truth(_)
        | Start::Bare(_)
        | Start::EmptyList
        | Start::List
        | Start::Form(_) => false,
    }
}

fn is_nothing(start: Start) -> bool
    ensures { result ≡ spec.is_nothing start }
{
    match start {
        Start::Nothing => true,
        _ => false,
    }
}

/// Whether a phrase of the level may begin with such a token.
#[tactic(auto, unfolding(crate::specs::Head::begins))]
fn begins(level: u8, mark: TokenMark) -> bool
    ensures { result ≡ spec.begins level mark }
{
    let own = before(mark);
    if own == 0 {
        !is_nothing(start_of(mark))
    } else {
        own <= level
    }
}

/// The level of the operands.
pub fn listed_level(listed: &Listed) -> u8
    ensures { result ≡ marks.listed_level listed.now }
{
    match listed {
        Listed::List => SUM,
        Listed::Form(_) | Listed::Call(_) => CHOP,
    }
}

/// The mark after the operands.
pub fn listed_close(listed: &Listed) -> TokenMark
    ensures { result ≡ marks.listed_close listed.now }
{
    match listed {
        Listed::List => TokenMark::Symbol(Symbol::Greater),
        Listed::Form(_) | Listed::Call(_) => TokenMark::Symbol(Symbol::CloseRound),
    }
}

pub fn enclosed_level(enclosure: Enclosure) -> u8
    ensures { result ≡ marks.enclosed_level enclosure }
{
    match enclosure {
        Enclosure::Size => SUM,
        Enclosure::Round | Enclosure::Curly => CHOP,
    }
}

pub fn enclosed_close(enclosure: Enclosure) -> TokenMark
    ensures { result ≡ marks.enclosed_close enclosure }
{
    match enclosure {
        Enclosure::Round => TokenMark::Symbol(Symbol::CloseRound),
        Enclosure::Curly => TokenMark::Symbol(Symbol::CloseCurly),
        Enclosure::Size => TokenMark::Symbol(Symbol::Bar),
    }
}

/// The mark between the operands.
pub fn middle(pair: &Pair) -> TokenMark
    ensures { result ≡ marks.middle pair.now }
{
    match pair {
        Pair::While => TokenMark::Word(Word::Do),
        Pair::Repeat => TokenMark::Word(Word::Until),
        Pair::For(_) => TokenMark::Word(Word::Do),
        Pair::Forall(_) => TokenMark::Symbol(Symbol::Colon),
    }
}
