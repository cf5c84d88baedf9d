// What a state is read with.
use std::alloc::Global;
use tp_inputs::Inputs;
use tp_kernel::Defs;

/// What a state is read with: the program's definitions, the inputs, and the state's own number; and where memory is taken.
#[derive(Clone, Copy)]
pub struct Setting<'a> {
    pub alloc: Global,
    pub defs: &'a Defs,
    pub inputs: &'a Inputs,
    pub state: u64,
}
