// Writing inputs in the second format.
ghost use Rattle.std.specs.Prelude.{◌≡◌, ◌≤◌};
ghost use Rattle.tp_io.specs.Held.{Rose};
ghost use Rattle.tp_inputs.specs.Converted.{converted};
ghost use Rattle.tp_inputs.specs.Read.{inputs_of};
ghost use Rattle.tp_call.specs.Parts.{ClosesText};

use crate::close::close;
use crate::status::Status;
use std::alloc::Global;
use tp_inputs::Inputs;
use tp_io::Sink;
use tp_value::Text;

/// Writes the inputs in the second format, by one write.
pub fn write_inputs<K: Sink>(alloc: Global, inputs: &Inputs, out: &mut K) -> Status
    ensures written { ClosesText (converted (inputs_of inputs.now)) Status.Done
        (K.written out.old) (K.written out.new) result }
    ensures later { K.faults out.old ≤ K.faults out.new }
    ensures write_fault { result ≡ Status.WriteFault
        → Rose K.greatest (K.faults out.old) (K.faults out.new) }
{
    let mut text = Text::new(alloc);
    match inputs.convert(&mut text) {
        Ok(()) => close(alloc, text.as_slice(), Status::Done, out),
        Err(_) => Status::NoMemory,
    }
}
