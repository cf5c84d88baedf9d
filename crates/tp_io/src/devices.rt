// What a run asks of its files and of its sink.
ghost use Rattle.std.specs.Prelude.{◌≡◌, ◌≤◌, ℕ, List, Option, IfOk, IsErrOf};
ghost use Rattle.tp_io.specs.Devices.{Reads, Writes, asked_after};
ghost use Rattle.tp_io.specs.Held.{Held, Rose, FileRequest};

use crate::refusal::{FileRefusal, WriteRefusal};
use std::alloc::Global;
use tp_value::Bytes;

/// Files that are read by name.
pub trait Files {
    /// What each name holds, where it is told. A name outside of the map holds no bytes.
    ghost held: { Self → Option Held };

    /// What was asked for so far, in order, where it is told.
    ghost asked: { Self → Option (List FileRequest) };

    /// How often a read has failed.
    ghost faults: { Self → ℕ };

    /// The greatest number that this count can have, if there is one.
    ghost greatest: { Option ℕ };

    /// Reads the first bytes of what the name holds, at most so many. A read that wants memory asks for nothing.
    fn read(&mut self, alloc: Global, name: &str, most: usize) -> Result<Bytes, FileRefusal>
        ensures bytes { IfOk result (Reads (held self.old) name.now most) }
        ensures held { held self.new ≡ held self.old }
        ensures asked { asked self.new ≡ asked_after (asked self.old) name.now most result }
        ensures later { faults self.old ≤ faults self.new }
        ensures cause { IsErrOf result FileRefusal.Failed
            → Rose greatest (faults self.old) (faults self.new) };
}

/// Where a run writes to.
pub trait Sink {
    /// The bytes written so far, where they are told.
    ghost written: { Self → Option (List ℕ) };

    /// How often a write has failed.
    ghost faults: { Self → ℕ };

    /// The greatest number that this count can have, if there is one.
    ghost greatest: { Option ℕ };

    /// Appends the piece. A write that fails may have appended a part of it, from its start; one that wants memory
    /// appends nothing.
    fn write(&mut self, alloc: Global, piece: &[u8]) -> Result<(), WriteRefusal>
        ensures written { Writes (written self.old) (written self.new) piece.now result }
        ensures later { faults self.old ≤ faults self.new }
        ensures cause { IsErrOf result WriteRefusal.Failed
            → Rose greatest (faults self.old) (faults self.new) };
}
