// How far a run goes.

/// How many states a run has at the most, and how many reductions a state. Both are from 1 to 1,000,000.
#[derive(Clone, Copy, Debug, PartialEq, Eq)]
pub struct Limits {
    pub states: u64,
    pub reductions: u64,
}
