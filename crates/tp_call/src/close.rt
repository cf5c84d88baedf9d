// The last write of a call.
ghost use Rattle.std.specs.Prelude.{◌≡◌, ◌≢◌, ◌≤◌};
ghost use Rattle.tp_io.specs.Held.{Rose};
ghost use Rattle.tp_call.specs.EndLine.{refusal_line};
ghost use Rattle.tp_call.specs.Parts.{ClosesText};

use crate::end_line::refusal_text;
use crate::status::Status;
use std::alloc::Global;
use tp_io::{Sink, WriteRefusal};

/// Writes the last text of a call that ends with this status, by one write; there is none where memory was wanted.
pub fn close<K: Sink>(alloc: Global, text: &[u8], status: Status, out: &mut K) -> Status
    requires { status ≢ Status.WriteFault }
    ensures written { ClosesText text.now status (K.written out.old) (K.written out.new) result }
    ensures memory { status ≡ Status.NoMemory → result ≡ Status.NoMemory }
    ensures later { K.faults out.old ≤ K.faults out.new }
    ensures write_fault { result ≡ Status.WriteFault
        → Rose K.greatest (K.faults out.old) (K.faults out.new) }
{
    if let Status::NoMemory = &status {
        return status;
    }
    match out.write(alloc, text) {
        Ok(()) => status,
        Err(WriteRefusal::Failed) => Status::WriteFault,
        Err(WriteRefusal::NoMemory) => Status::NoMemory,
    }
}

/// Writes the end line of a refusal.
pub fn refuse<K: Sink>(alloc: Global, status: Status, out: &mut K) -> Status
    requires { status ≢ Status.WriteFault }
    ensures written { ClosesText (refusal_line status) status (K.written out.old)
        (K.written out.new) result }
    ensures memory { status ≡ Status.NoMemory → result ≡ Status.NoMemory }
    ensures later { K.faults out.old ≤ K.faults out.new }
    ensures write_fault { result ≡ Status.WriteFault
        → Rose K.greatest (K.faults out.old) (K.faults out.new) }
{
    match refusal_text(alloc, &status) {
        Ok(line) => close(alloc, line.as_slice(), status, out),
        Err(_) => Status::NoMemory,
    }
}
