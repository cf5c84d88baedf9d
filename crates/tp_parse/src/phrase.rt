// Phrases, read by recursive descent. `room` is the greatest height that a phrase, or each operand, may have.
ghost use Rattle.std.specs.Prelude.{◌≡◌, ◌+◌, ◌≤◌, ◌<◌, ◌≢◌, ◌↔◌, ℕ, IfOk, OnOk, IsTrue};
ghost use Rattle.tp_tree.specs.Levels.{chop_level};
ghost use Rattle.tp_parse.specs.Marks as marks;
ghost use Rattle.tp_parse.specs.Readers.{ReturnsReading};
ghost use Rattle.tp_parse.specs.Seen.{seen, turn_seen, all_seen};
ghost use Rattle.tp_parse.specs.Reading as spec;
ghost use Rattle.tp_parse.specs.declared.head.PrimaryHead.TheVariants.{Paired};
ghost use Rattle.tp_parse.specs.declared.mark.TokenRole.TheVariants.{Ends};

use crate::head::{Pair, PrimaryHead};
use crate::mark::{Enclosure, Prefix, TokenMark, TokenRole};
use crate::operands::Operands;
use crate::parser::Parser;
use crate::phrases::{
    Measured, OneOperand, TwoOperands, of_atom, of_chain, of_choice_else, of_one, of_operands,
    of_two, raised,
};
use crate::primary::{enclosed_close, enclosed_level, listed_close, listed_level, middle};
use crate::role::{before, prefix_at, role_at, same, start_of};
use crate::stop::Refusal;
use std::alloc::Global;
use tp_lex::{Symbol, Word};
use tp_tree::level::{CHOP, grouping, right_level};
use tp_tree::{Grouping, Op};

impl Parser<'_> {
    /// A phrase of this level.
    #[cycle(phrase)]
    pub fn phrase(&mut self, alloc: Global, level: u8, room: u8) -> Result<Measured, Refusal>
        requires { level ≤ chop_level }
        ensures reads { ReturnsReading seen (spec.read room level self.old) result self.new }
        ensures low { IfOk result (λ r. r.height ≤ room) }
    {
        if room == 0 {
            return Err(self.unfit(level));
        }
        let at = self.from();
        let start = start_level(level, self.mark());
        let mut left = self.first(alloc, start, room - 1)?;
        for lower in start..level {
            // An operand is dear to move, and seldom does an operator of the level follow.
            if !ends(role_at(lower + 1, self.mark())) {
                left = self.operations(alloc, lower + 1, room - 1, at, left)?;
            }
        }
        Ok(left)
    }

    /// A primary, or a phrase with an operator before it, which is of this level.
    #[cycle(phrase)]
    #[tactic(auto, unfolding(crate::specs::Reading::first))]
    fn first(&mut self, alloc: Global, level: u8, room: u8) -> Result<Measured, Refusal>
        requires { level ≤ chop_level }
        ensures reads { ReturnsReading seen (spec.first (spec.read room) room level self.old) result
            self.new }
        ensures low { IfOk result (λ r. r.height ≤ room + 1) }
    {
        match prefix_at(level, self.mark()) {
            None => self.primary(alloc, room),
            Some(prefix) => self.prefixed(alloc, level, room, prefix),
        }
    }

    /// An operator before its operand, and that operand.
    #[cycle(phrase)]
    #[tactic(auto, unfolding(crate::specs::Reading::prefixed))]
    fn prefixed(
        &mut self,
        alloc: Global,
        level: u8,
        room: u8,
        prefix: Prefix,
    ) -> Result<Measured, Refusal>
        requires { level ≤ chop_level }
        ensures reads { ReturnsReading seen
            (spec.prefixed (spec.read room) room level prefix self.old) result self.new }
        ensures low { IfOk result (λ r. r.height ≤ room + 1) }
    {
        let at = self.from();
        self.deepen(room)?;
        self.take();
        let operand = self.phrase(alloc, level, room)?;
        of_one(alloc, at, OneOperand::Prefix(prefix), operand)
    }

    #[cycle(phrase)]
    #[tactic(auto, unfolding(crate::specs::Reading::primary))]
    fn primary(&mut self, alloc: Global, room: u8) -> Result<Measured, Refusal>
        ensures reads { ReturnsReading seen (spec.primary (spec.read room) room self.old) result
            self.new }
        ensures low { IfOk result (λ r. r.height ≤ room + 1) }
    {
        let at = self.from();
        let start = start_of(self.mark());
        self.admit(room, start)?;
        let head = self.head(alloc, start)?;
        self.primary_by(alloc, room, at, head)
    }

    /// The primary that begins with this head.
    #[cycle(phrase)]
    fn primary_by(
        &mut self,
        alloc: Global,
        room: u8,
        at: u32,
        head: PrimaryHead,
    ) -> Result<Measured, Refusal>
        ensures reads { ReturnsReading seen (spec.primary_by (spec.read room) room at head self.old)
            result self.new }
        ensures low { IfOk result (λ r. r.height ≤ room + 1) }
    {
        match head {
            PrimaryHead::Atom(atom) => Ok(of_atom(alloc, at, atom)),
            PrimaryHead::Listed(listed) => {
                let level = listed_level(&listed);
                let close = listed_close(&listed);
                let all = self.operands(alloc, level, close, room)?;
                Ok(of_operands(at, listed, all))
            }
            PrimaryHead::Enclosed(enclosure) => {
                let level = enclosed_level(enclosure);
                let operand = self.part(alloc, level, enclosed_close(enclosure), room)?;
                match enclosure {
                    Enclosure::Size => of_one(alloc, at, OneOperand::Size, operand),
                    Enclosure::Round | Enclosure::Curly => Ok(raised(operand)),
                }
            }
            PrimaryHead::If => self.choice(alloc, room, at),
            PrimaryHead::Paired(pair) => self.paired(alloc, room, at, pair),
            PrimaryHead::Exists(names) => {
                let operand = self.phrase(alloc, CHOP, room)?;
                of_one(alloc, at, OneOperand::Exists(names), operand)
            }
        }
    }

    /// The operands of a primary that has two.
    #[cycle(phrase)]
    fn paired(&mut self, alloc: Global, room: u8, at: u32, pair: Pair) -> Result<Measured, Refusal>
        ensures reads { ReturnsReading seen
            (spec.primary_by (spec.read room) room at (Paired pair) self.old) result self.new }
        ensures low { IfOk result (λ r. r.height ≤ room + 1) }
    {
        let first = self.part(alloc, CHOP, middle(&pair), room)?;
        let second = self.phrase(alloc, CHOP, room)?;
        of_two(alloc, at, TwoOperands::Pair(pair), first, second)
    }

    /// The condition and the parts of an `if`.
    #[cycle(phrase)]
    #[tactic(auto, unfolding(crate::specs::Reading::choice))]
    fn choice(&mut self, alloc: Global, room: u8, at: u32) -> Result<Measured, Refusal>
        ensures reads { ReturnsReading seen (spec.choice (spec.read room) room at self.old) result
            self.new }
        ensures low { IfOk result (λ r. r.height ≤ room + 1) }
    {
        let condition = self.part(alloc, CHOP, TokenMark::Word(Word::Then), room)?;
        let first = self.phrase(alloc, CHOP, room)?;
        self.else_part(alloc, room, at, condition, first)
    }

    /// The `if` of these parts, and of its `else` part where that follows.
    #[cycle(phrase)]
    #[tactic(auto, unfolding(crate::specs::Reading::else_part))]
    fn else_part(
        &mut self,
        alloc: Global,
        room: u8,
        at: u32,
        condition: Measured,
        first: Measured,
    ) -> Result<Measured, Refusal>
        requires { (condition.height ≤ room) × (first.height ≤ room) }
        ensures reads { ReturnsReading seen
            (spec.else_part (spec.read room) room at (seen condition) (seen first) self.old) result
            self.new }
        ensures low { IfOk result (λ r. r.height ≤ room + 1) }
    {
        if !self.sees(TokenMark::Word(Word::Else)) {
            return of_two(alloc, at, TwoOperands::Choice, condition, first);
        }
        self.take();
        let second = self.phrase(alloc, CHOP, room)?;
        of_choice_else(alloc, at, condition, first, second)
    }

    /// A phrase, and the mark after it.
    #[cycle(phrase)]
    #[tactic(auto, unfolding(crate::specs::Reading::part))]
    fn part(
        &mut self,
        alloc: Global,
        level: u8,
        close: TokenMark,
        room: u8,
    ) -> Result<Measured, Refusal>
        requires { level ≤ chop_level }
        ensures reads { ReturnsReading seen (spec.part (spec.read room) room level close self.old)
            result self.new }
        ensures low { IfOk result (λ r. r.height ≤ room) }
    {
        let operand = self.phrase(alloc, level, room)?;
        self.expect(close)?;
        Ok(operand)
    }

    /// Any number of operands with commas between them, and the mark after them.
    #[cycle(phrase)]
    #[tactic(auto, unfolding(crate::specs::Reading::operands))]
    fn operands(
        &mut self,
        alloc: Global,
        level: u8,
        close: TokenMark,
        room: u8,
    ) -> Result<Operands, Refusal>
        requires { level ≤ chop_level }
        ensures reads { ReturnsReading all_seen
            (spec.operands (spec.read room) room level close self.old) result self.new }
        ensures low { IfOk result (λ r. r.height ≤ room) }
    {
        if same(self.due(), close) {
            self.pass();
            return Ok(Operands {
                items: Vec::new(alloc),
                height: 0,
            });
        }
        let first = self.phrase(alloc, level, room)?;
        let all = self.others(alloc, level, TokenMark::Symbol(Symbol::Comma), room, first)?;
        self.expect(close)?;
        Ok(all)
    }

    /// The operand, and those after it, each after a separator.
    #[cycle(phrase)]
    fn others(
        &mut self,
        alloc: Global,
        level: u8,
        separator: TokenMark,
        room: u8,
        first: Measured,
    ) -> Result<Operands, Refusal>
        requires level { level ≤ chop_level }
        requires low { first.height ≤ room }
        ensures reads { ReturnsReading all_seen
            (spec.others (spec.read room) room level separator (seen first) self.old) result
            self.new }
        ensures low { IfOk result (λ r. r.height ≤ room) }
    {
        let mut height = first.height;
        let mut items = Vec::new(alloc);
        items.push(first.phrase)?;
        for _turn in 0..self.remaining() {
            if !self.sees(separator) {
                return Ok(Operands { items, height });
            }
            self.take();
            let next = self.phrase(alloc, level, room)?;
            height = height.max(next.height);
            items.push(next.phrase)?;
        }
        Ok(Operands { items, height })
    }

    /// The operand, and what goes on with it at this level.
    #[cycle(phrase)]
    fn operations(
        &mut self,
        alloc: Global,
        level: u8,
        room: u8,
        at: u32,
        first: Measured,
    ) -> Result<Measured, Refusal>
        requires level { (0 < level) × (level ≤ chop_level) }
        requires low { first.height ≤ room + 1 }
        ensures reads { ReturnsReading seen
            (spec.operations (spec.read room) room level at (seen first) self.old) result self.new }
        ensures low { IfOk result (λ r. r.height ≤ room + 1) }
    {
        let mut left = first;
        for _turn in 0..self.remaining() {
            let (next, more) = self.turn(alloc, level, room, at, left)?;
            left = next;
            if !more {
                return Ok(left);
            }
        }
        Ok(left)
    }

    /// The operand with what comes next at this level, and whether more may come.
    #[cycle(phrase)]
    #[tactic(auto, unfolding(crate::specs::Reading::turn))]
    fn turn(
        &mut self,
        alloc: Global,
        level: u8,
        room: u8,
        at: u32,
        left: Measured,
    ) -> Result<(Measured, bool), Refusal>
        requires level { (0 < level) × (level ≤ chop_level) }
        requires low { left.height ≤ room + 1 }
        ensures reads { ReturnsReading turn_seen
            (spec.turn (spec.read room) room level at (seen left) self.old) result self.new }
        ensures low { IfOk result (λ r. r.0.height ≤ room + 1) }
    {
        match role_at(level, self.mark()) {
            TokenRole::Ends => Ok((left, false)),
            TokenRole::Infix(op) => {
                let whole = self.operated(alloc, op, room, at, left)?;
                Ok((whole, goes_on(grouping(op))))
            }
            TokenRole::Opens => {
                let whole = self.indexed(alloc, room, at, left)?;
                Ok((whole, true))
            }
            TokenRole::Joins => {
                let whole = self.chained(alloc, level, room, at, left)?;
                Ok((whole, false))
            }
        }
    }

    #[cycle(phrase)]
    #[tactic(auto, unfolding(crate::specs::Reading::operated))]
    fn operated(
        &mut self,
        alloc: Global,
        op: Op,
        room: u8,
        at: u32,
        left: Measured,
    ) -> Result<Measured, Refusal>
        ensures reads { ReturnsReading seen
            (spec.operated (spec.read room) room op at (seen left) self.old) result self.new }
        ensures low { IfOk result (λ r. r.height ≤ room + 1) }
    {
        self.fits(room, left.height)?;
        self.take();
        let right = self.phrase(alloc, right_level(op), room)?;
        of_two(alloc, at, TwoOperands::Infix(op), left, right)
    }

    #[cycle(phrase)]
    #[tactic(auto, unfolding(crate::specs::Reading::indexed))]
    fn indexed(
        &mut self,
        alloc: Global,
        room: u8,
        at: u32,
        left: Measured,
    ) -> Result<Measured, Refusal>
        ensures reads { ReturnsReading seen
            (spec.indexed (spec.read room) room at (seen left) self.old) result self.new }
        ensures low { IfOk result (λ r. r.height ≤ room + 1) }
    {
        self.fits(room, left.height)?;
        self.take();
        let index = self.part(alloc, CHOP, TokenMark::Symbol(Symbol::CloseSquare), room)?;
        of_two(alloc, at, TwoOperands::Index, left, index)
    }

    #[cycle(phrase)]
    #[tactic(auto, unfolding(crate::specs::Reading::chained))]
    fn chained(
        &mut self,
        alloc: Global,
        level: u8,
        room: u8,
        at: u32,
        left: Measured,
    ) -> Result<Measured, Refusal>
        requires { (0 < level) × (level ≤ chop_level) }
        ensures reads { ReturnsReading seen
            (spec.chained (spec.read room) room level at (seen left) self.old) result self.new }
        ensures low { IfOk result (λ r. r.height ≤ room + 1) }
    {
        self.fits(room, left.height)?;
        let all = self.others(alloc, level - 1, TokenMark::Word(Word::And), room, left)?;
        Ok(of_chain(at, all))
    }

    /// Refuses the next token where one operand more can't go round the left one.
    #[tactic(auto, unfolding(crate::specs::Reading::fits))]
    fn fits(&self, room: u8, left: u32) -> Result<(), Refusal>
        ensures reads { ReturnsReading (λ u. u) (spec.fits room left self.now) result self.now }
        ensures low { OnOk result ((0 < room) × (left ≤ room)) }
    {
        if room == 0 || left > u32::from(room) {
            return Err(self.too_deep());
        }
        Ok(())
    }
}

/// The level at which the operator before the phrase stands, where it is no higher than `level`.
fn start_level(level: u8, mark: TokenMark) -> u8
    ensures value { result ≡ spec.start_level level mark }
    ensures low { result ≤ level }
    ensures own { 0 < result → marks.before mark ≡ result }
    ensures others { (j : ℕ) → result ≤ j → j < level → marks.before mark ≢ j + 1 }
{
    let own = before(mark);
    if own <= level { own } else { 0 }
}

/// Whether no operator of the level is there.
fn ends(role: TokenRole) -> bool
    ensures { IsTrue result ↔ role ≡ Ends }
{
    match role {
        TokenRole::Ends => true,
        TokenRole::Infix(_) | TokenRole::Opens | TokenRole::Joins => false,
    }
}

/// Whether more operators of the level may follow.
fn goes_on(grouping: Grouping) -> bool
    ensures { result ≡ spec.goes_on grouping }
{
    match grouping {
        Grouping::Left => true,
        Grouping::Single | Grouping::Right => false,
    }
}
