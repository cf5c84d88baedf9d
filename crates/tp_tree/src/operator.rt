// The operators and words of phrases.

/// An operator between two operands: `;`, `proj`, `or`, the relations `=` `<>` `<` `<=` `>` `>=` `gets` `<-` `:=`, and `+` `-` `*`
/// `div` `mod`.
#[derive(Clone, Copy)]
pub enum Op {
    Chop,
    Proj,
    Or,
    Equal,
    Differs,
    Less,
    LessEqual,
    Greater,
    GreaterEqual,
    Gets,
    Arrow,
    Becomes,
    Plus,
    Minus,
    Times,
    Div,
    Mod,
}

/// How the operators of one level group: to the left, not at all, or to the right.
#[derive(Clone, Copy)]
pub enum Grouping {
    Left,
    Single,
    Right,
}

/// A word that is a phrase by itself.
#[derive(Clone, Copy)]
pub enum Bare {
    Empty,
    More,
    Skip,
}

/// A word that takes its operands in parentheses.
#[derive(Clone, Copy)]
pub enum Form {
    Always,
    Keep,
    Fin,
    Halt,
    Stable,
    Sometimes,
    Len,
    List,
    Input,
    Display,
}
