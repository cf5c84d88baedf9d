// What is written of a status, and its code.
ghost use Rattle.std.specs.Prelude.{◌≡◌};
ghost use Rattle.tp_call.specs.EndLine.{which_text, kind_text};
ghost use Rattle.tp_call.specs.Code.{code_of};

use crate::status::{SourceKind, Status, Which};

impl Which {
    pub fn text(self) -> &'static str
        ensures { result.now ≡ which_text self }
    {
        match self {
            Which::Source => "source",
            Which::Inputs => "inputs",
            Which::Other => "other",
        }
    }
}

impl SourceKind {
    pub fn text(self) -> &'static str
        ensures { result.now ≡ kind_text self }
    {
        match self {
            SourceKind::BadByte => "bad byte",
            SourceKind::OpenComment => "open comment",
            SourceKind::NumberTooLarge => "number too large",
            SourceKind::NameTooLong => "name too long",
            SourceKind::Unexpected => "unexpected",
            SourceKind::Unfinished => "unfinished",
            SourceKind::TooDeep => "too deep",
            SourceKind::DefinedTwice => "defined twice",
            SourceKind::UnknownName => "unknown name",
            SourceKind::WrongCount => "wrong count",
            SourceKind::NotExpression => "not an expression",
            SourceKind::NotPlace => "not a place",
            SourceKind::NotPort => "not a port",
            SourceKind::NotExecutable => "not executable",
        }
    }
}

impl Status {
    /// The exit status of the program.
    pub fn code(&self) -> u8
        ensures { result ≡ code_of self.now }
    {
        match self {
            Status::Finished { .. } => 0,
            Status::Done => 0,
            Status::Contradictory { .. } => 1,
            Status::Undetermined { .. } => 2,
            Status::StateLimit { .. } => 3,
            Status::ReductionLimit { .. } => 4,
            Status::NumberLimit { .. } => 5,
            Status::ListLimit { .. } => 6,
            Status::CallLimit { .. } => 7,
            Status::NestLimit { .. } => 8,
            Status::InputMissing { .. } => 9,
            Status::SourceRefused { .. } => 10,
            Status::InputsRefused { .. } => 11,
            Status::WordsRefused => 12,
            Status::TooLong { .. } => 13,
            Status::ReadFault { .. } => 14,
            Status::WriteFault => 15,
            Status::NoMemory => 16,
            Status::OtherRefused { .. } => 17,
            Status::TraceTooLong { .. } => 18,
        }
    }
}
