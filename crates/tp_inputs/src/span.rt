// The states for which a line of inputs speaks, and what it begins with.
/// The states for which a line speaks: those from the first to the last, or all those for which no range gives a value.
#[derive(Clone, Copy)]
pub enum Span {
    States { first: u64, last: u64 },
    Others,
}

/// What a line begins with: the states for which it speaks, and how many bytes that takes; nothing, since it says nothing; or
/// something else.
#[derive(Clone, Copy)]
pub enum LineHead {
    Speaks(Span, usize),
    Silent,
    Unheard,
}
