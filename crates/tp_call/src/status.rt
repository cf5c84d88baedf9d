// What a call ends with.
use tp_show::{Cell, Clash};
use tp_value::Text;

/// A file that the words name.
#[derive(Clone, Copy, Debug, PartialEq, Eq)]
pub enum Which {
    Source,
    Inputs,
    /// The second file of the mode `check`: a trace.
    Other,
}

/// Why a source is refused.
#[derive(Clone, Copy, Debug, PartialEq, Eq)]
pub enum SourceKind {
    BadByte,
    OpenComment,
    NumberTooLarge,
    NameTooLong,
    Unexpected,
    Unfinished,
    TooDeep,
    DefinedTwice,
    UnknownName,
    WrongCount,
    NotExpression,
    NotPlace,
    NotPort,
    NotExecutable,
}

/// The answer of a call: how the run ended, that what else was asked for was done, why it wasn't, or what stopped the call.
#[derive(Debug, Drop)]
pub enum Status {
    Finished {
        length: u64,
    },
    Done,
    Contradictory {
        state: u64,
        clash: Clash,
    },
    Undetermined {
        state: u64,
        cell: Cell,
    },
    StateLimit {
        states: u64,
    },
    ReductionLimit {
        state: u64,
    },
    NumberLimit {
        state: u64,
    },
    ListLimit {
        state: u64,
    },
    CallLimit {
        state: u64,
    },
    NestLimit {
        state: u64,
    },
    InputMissing {
        state: u64,
        port: Text,
    },
    SourceRefused {
        line: u64,
        column: u64,
        kind: SourceKind,
    },
    InputsRefused {
        line: u64,
    },
    WordsRefused,
    TooLong {
        which: Which,
    },
    ReadFault {
        which: Which,
    },
    WriteFault,
    NoMemory,
    OtherRefused {
        line: u64,
    },
    TraceTooLong {
        states: u64,
    },
}

/// The line and the column, counted from 1, and the kind of a refusal.
#[derive(Clone, Copy, Debug, PartialEq, Eq)]
pub struct Refused {
    pub line: u64,
    pub column: u64,
    pub kind: SourceKind,
}
