// Why an expression has no value, and the limits that a run may pass.
/// Why an expression has no value.
#[derive(Clone, Copy, Debug, PartialEq, Eq)]
pub enum FaultKind {
    WrongKind,
    ZeroDivisor,
    NoElement,
}

/// A limit that a run passes: on reductions in a state, numbers, lists and places, calls and the depth of an evaluation, or
/// the depth of regions.
#[derive(Clone, Copy, Debug, PartialEq, Eq)]
pub enum LimitKind {
    Reductions,
    Number,
    List,
    Calls,
    Nest,
}
