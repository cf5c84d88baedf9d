// Faults of a line of inputs.
/// The first fault of a line.
#[derive(Clone, Copy)]
pub enum LineFault {
    Bad,
    Twice,
    TooLong,
}
