// Why a source is no program.

/// Why a source is no program. A phrase is named by the place of the first byte of its text.
#[derive(Clone, Copy, Debug, PartialEq, Eq)]
pub enum CheckRefusal {
    /// The definition at this place has the name of an earlier one, or a parameter twice; or the `exists` at this place has a name twice.
    Twice { at: u32 },
    /// The call at this place is of no definition.
    Unknown { at: u32 },
    /// The call or the form at this place has too few operands or too many.
    WrongCount { at: u32 },
    /// The phrase at this place stands where an expression is due, and is none.
    NotExpression { at: u32 },
    /// The phrase at this place stands where a place is due, and is none.
    NotPlace { at: u32 },
    /// The phrase at this place stands where a port is due, and is none.
    NotPort { at: u32 },
    /// The phrase at this place isn't run.
    NotExecutable { at: u32 },
    NoMemory,
}
