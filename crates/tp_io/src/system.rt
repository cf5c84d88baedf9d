// The calls of the system that the real devices make. Each does one thing and is told by itself, so that the contracts of the devices can
// say which calls they made; over the system itself nothing is told.
ghost use Rattle.std.specs.Prelude.{◌≡◌, ℕ, List, [], Option, None, Some, OnOk, IfSome, length};
ghost use Rattle.std.specs.declared.io.ErrorKind.{ErrorKind};
ghost use Rattle.std.specs.IoError.{error_kind};
ghost use Rattle.std.specs.Io.{ReadsAtMost, WritesAtMost};
ghost use Rattle.std.specs.Io.KnownBytes.{ReadConsumes, WriteAppends};
ghost use Rattle.tp_io.specs.Devices.{and_one_more};
ghost use Rattle.tp_io.specs.Held.{Held, bytes_of};
ghost use Rattle.tp_io.specs.SystemCalls.{FileCall, WriteCall, IsFaultOf, open_call, read_call, write_call, fault_in};

use std::io::{Read, Write};
use std::{fs, io, rt};

/// Why a call of the system did nothing.
#[derive(Clone, Copy, Debug, PartialEq, Eq)]
pub enum CallFault {
    Interrupted,
    NoMemory,
    Failed,
}

/// The calls by which files are read.
pub trait SystemFiles {
    /// The calls so far, where they are told.
    ghost calls: { Self → Option (List FileCall) };

    /// What each name holds, where it is told.
    ghost held: { Self → Option Held };

    /// The bytes of the file that was opened last which are still to be read, where they are told.
    ghost remaining: { Self → Option (List ℕ) };

    /// Opens the file with this name, in place of the one before.
    fn open(&mut self, name: &str) -> Result<(), CallFault>
        ensures bytes { OnOk result (IfSome (held self.old) (λ files.
            remaining self.new ≡ Some (bytes_of files name.now))) }
        ensures held { held self.new ≡ held self.old }
        ensures calls { calls self.new
            ≡ and_one_more (calls self.old) (open_call name.now (fault_in result)) };

    /// Reads some bytes of the file that was opened last: none at its end, or where there is no room.
    fn read(&mut self, buf: &mut [u8]) -> Result<usize, CallFault>
        ensures bound { ReadsAtMost result buf.new }
        ensures bytes { ReadConsumes (remaining self.old) (remaining self.new) result buf.new }
        ensures held { held self.new ≡ held self.old }
        ensures calls { calls self.new
            ≡ and_one_more (calls self.old) (read_call (length buf.old) result) };
}

/// The calls by which a piece is written.
pub trait SystemWriter {
    /// The calls so far, where they are told.
    ghost calls: { Self → Option (List WriteCall) };

    /// What was written so far, where it is told.
    ghost contents: { Self → Option (List ℕ) };

    /// Writes some of the bytes, from their start.
    fn write(&mut self, bytes: &[u8]) -> Result<usize, CallFault>
        ensures bound { WritesAtMost result bytes.now }
        ensures written { WriteAppends (contents self.old) (contents self.new) result bytes.now }
        ensures calls { calls self.new
            ≡ and_one_more (calls self.old) (write_call bytes.now result) };
}

/// The files of a runtime, of which one is open at a time. What its calls do isn't told.
#[derive(Drop)]
pub struct RuntimeFiles<R: rt::Files> {
    runtime: R,
    file: Option<R::File>,
}

/// A writer of std. What its calls do isn't told, but for the bytes that it holds.
#[derive(Drop)]
pub struct RuntimeWriter<W: Write> {
    pub writer: W,
}

impl<R: rt::Files> RuntimeFiles<R> {
    /// No file is open yet.
    pub fn new(runtime: R) -> Self {
        RuntimeFiles {
            runtime,
            file: None,
        }
    }
}

impl<W: Write> RuntimeWriter<W> {
    pub fn new(writer: W) -> Self
        ensures { result.writer ≡ writer }
    {
        RuntimeWriter { writer }
    }
}

// The fault that an error of std is.
fn fault_of(error: &io::Error) -> CallFault
    ensures { IsFaultOf (error_kind error.now) result }
{
    match error.kind() {
        io::ErrorKind::Interrupted => CallFault::Interrupted,
        io::ErrorKind::OutOfMemory => CallFault::NoMemory,
        _ => CallFault::Failed,
    }
}

impl<R: rt::Files> SystemFiles for RuntimeFiles<R> {
    ghost use Rattle.std.specs.Prelude.{None, Some, []};
    ghost use Rattle.tp_io.specs.SystemCalls.{unread_in};

    ghost calls = { λ _. None };

    ghost held = { λ _. None };

    ghost remaining = { λ s. unread_in R.File.remaining s.file };

    fn open(&mut self, name: &str) -> Result<(), CallFault> {
        let file = fs::open(&self.runtime, name).map_err(|e| fault_of(&e))?;
        self.file = Some(file);
        Ok(())
    }

    fn read(&mut self, buf: &mut [u8]) -> Result<usize, CallFault> {
        match &mut self.file {
            Some(file) => file.read(buf).map_err(|e| fault_of(&e)),
            None => Ok(0),
        }
    }
}

impl<W: Write> SystemWriter for RuntimeWriter<W> {
    ghost use Rattle.std.specs.Prelude.{None};

    ghost calls = { λ _. None };

    ghost contents = { λ s. W.contents s.writer };

    fn write(&mut self, bytes: &[u8]) -> Result<usize, CallFault> {
        self.writer.write(bytes).map_err(|e| fault_of(&e))
    }
}
