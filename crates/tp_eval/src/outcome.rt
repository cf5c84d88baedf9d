// What comes of evaluating an expression or a place.
use tp_kernel::{FaultKind, LimitKind};
use tp_value::{Path, Value};

/// What an expression is as far as a state is known: a value; the path whose shape it waits for; why it has no value; or the limit that its
/// evaluation passes.
#[derive(Drop)]
pub enum Outcome {
    Value(Value),
    Wait(Path),
    Fault(FaultKind),
    Over(LimitKind),
}

/// What a name followed by indices is: a path, or another outcome. That is a value where the name is bound to a known value which has the
/// element.
#[derive(Drop)]
pub enum PlaceOutcome {
    Place(Path),
    Other(Outcome),
}
