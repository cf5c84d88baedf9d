// Why a text is no table of inputs.
ghost use Rattle.std.specs.Prelude.{◌≡◌};
ghost use Rattle.tp_inputs.specs.declared.refusal.LineRefusal.TheVariants.{NoMemory as line_memory};
ghost use Rattle.tp_inputs.specs.Read.{refusal_in};

use crate::fault::LineFault;
use tp_value::NoMemory;

/// The first line that is refused, counted from 1, with its first fault, or want of memory.
#[derive(Clone, Copy, Debug, PartialEq, Eq)]
pub enum InputsRefusal {
    /// Something in the line is no pair `port=value`, or a number in it is past the limit.
    BadLine { line: u64 },
    /// The line gives a port a second value.
    TwicePort { line: u64 },
    /// A value in the line has too many items, or lists too deep in one another.
    TooLong { line: u64 },
    NoMemory,
}

/// Why a line is refused: its first fault, or want of memory.
#[derive(Clone, Copy)]
pub enum LineRefusal {
    Fault(LineFault),
    NoMemory,
}

impl LineRefusal {
    /// The refusal of the text whose line with that number is refused so.
    pub fn in_line(self, line: u64) -> InputsRefusal
        ensures { result ≡ refusal_in self line }
    {
        match self {
            LineRefusal::Fault(LineFault::Bad) => InputsRefusal::BadLine { line },
            LineRefusal::Fault(LineFault::Twice) => InputsRefusal::TwicePort { line },
            LineRefusal::Fault(LineFault::TooLong) => InputsRefusal::TooLong { line },
            LineRefusal::NoMemory => InputsRefusal::NoMemory,
        }
    }
}

impl From<NoMemory> for LineRefusal {
    ghost from_gives = { λ _ e. e ≡ line_memory };

    fn from(_: NoMemory) -> LineRefusal {
        LineRefusal::NoMemory
    }
}
