// What is still to be tried in a pass.
use std::collections::VecDeque;

/// What is still to be tried in a pass: every number from this one on, or the items that are listed, from the first or from the last.
#[derive(Drop)]
pub(crate) enum Sweep {
    From(u64),
    Forward(VecDeque<u64>),
    Backward(VecDeque<u64>),
}
