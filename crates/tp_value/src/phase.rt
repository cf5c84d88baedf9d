// What was read last of a value's text, and what the next byte does.
use crate::Number;

/// What stands last in an open list, blanks aside.
#[derive(Clone, Copy)]
pub enum Last {
    Bracket,
    Item,
    Comma,
}

/// What was read last.
#[derive(Clone, Copy)]
pub enum Phase {
    /// Nothing.
    Start,
    /// A part of the innermost open list, or blanks after it.
    Between(Last),
    /// The `-` of the number that begins at `begin`.
    Minus {
        begin: usize,
    },
    /// A digit of that number, which is `number` so far.
    Digits {
        begin: usize,
        negative: bool,
        number: Number,
    },
    /// So many bytes of `true` or `false`.
    Word {
        truth: bool,
        read: usize,
    },
}

/// What a byte does. `begun` counts the items that have begun.
#[derive(Clone, Copy)]
pub enum Move {
    /// It goes on.
    Go { phase: Phase, begun: usize },
    /// It opens a list.
    Open { begun: usize },
    /// It closes the innermost list.
    Close,
    /// It ends a word.
    Word(bool),
}
