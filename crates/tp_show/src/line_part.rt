// The parts of a state's line.
use tp_value::{Path, Value};

/// A place with its whole value, or a list of which not all is known, with its length.
#[derive(Drop)]
pub enum LinePart {
    Value { path: Path, value: Value },
    Length { path: Path, length: u32 },
}

/// Parts of a line, in order.
#[derive(Drop)]
pub struct LineParts {
    pub items: Vec<LinePart>,
}
