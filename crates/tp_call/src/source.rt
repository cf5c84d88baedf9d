// Reading the source.
ghost use Rattle.std.specs.Prelude.{◌≡◌, ◌≤◌, ◌<◌, ◌^◌, length, None, Some, IfOk, OnOk, OnErr, IsErrOf, MatchOption};
ghost use Rattle.tp_io.specs.Held.{Rose, bytes_of};
ghost use Rattle.tp_call.specs.Answer.{WhereTold};
ghost use Rattle.tp_call.specs.Reading.{asked_by, read_end};

use crate::status::{Status, Which};
use std::alloc::Global;
use tp_io::{FileRefusal, Files};
use tp_value::Bytes;

/// The greatest length of a source, in bytes.
pub const SOURCE_LIMIT: usize = 1_048_576;

/// Why a file could not be read.
#[derive(Clone, Copy, Debug, PartialEq, Eq)]
pub enum ReadRefusal {
    TooLong,
    Failed,
    NoMemory,
}

impl From<FileRefusal> for ReadRefusal {
    ghost use Rattle.tp_call.specs.Reading.{read_refusal_of};
    ghost use Rattle.std.specs.Prelude.{◌≡◌};

    ghost from_gives = { λ f e. e ≡ read_refusal_of f };

    fn from(refusal: FileRefusal) -> Self {
        match refusal {
            FileRefusal::Failed => ReadRefusal::Failed,
            FileRefusal::NoMemory => ReadRefusal::NoMemory,
        }
    }
}

/// Reads a file that may have at most so many bytes.
pub fn read_limited<F: Files>(
    alloc: Global,
    files: &mut F,
    name: &str,
    limit: usize,
) -> Result<Bytes, ReadRefusal>
    requires { limit < 2 ^ 60 }
    ensures bytes { IfOk result (λ bytes.
        (length bytes ≤ limit)
        × WhereTold (F.held files.old) (λ held. bytes ≡ bytes_of held name.now)) }
    ensures too_long { IsErrOf result ReadRefusal.TooLong
        → WhereTold (F.held files.old) (λ held. limit < length (bytes_of held name.now)) }
    ensures failed { IsErrOf result ReadRefusal.Failed
        → Rose F.greatest (F.faults files.old) (F.faults files.new) }
    ensures later { F.faults files.old ≤ F.faults files.new }
    ensures held { F.held files.new ≡ F.held files.old }
    ensures asked { F.asked files.new ≡ asked_by (F.asked files.old) name.now limit result }
{
    let bytes = files.read(alloc, name, limit + 1)?;
    if bytes.len() > limit {
        return Err(ReadRefusal::TooLong);
    }
    Ok(bytes)
}

/// The status of a file that can't be read.
pub fn read_status(refusal: ReadRefusal, which: Which) -> Status
    ensures { result ≡ read_end refusal which }
{
    match refusal {
        ReadRefusal::TooLong => Status::TooLong { which },
        ReadRefusal::Failed => Status::ReadFault { which },
        ReadRefusal::NoMemory => Status::NoMemory,
    }
}
