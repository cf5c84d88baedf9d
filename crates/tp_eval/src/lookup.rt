// Where an evaluation finds what an expression names.
use std::alloc::Global;
use tp_kernel::{Defs, Env};
use tp_store::Store;

/// Where an evaluation finds what an expression names: the bound names, what is known of the variables, and the definitions; and where it
/// takes memory.
#[derive(Clone, Copy)]
pub struct Lookup<'a> {
    pub alloc: Global,
    pub env: &'a Env,
    pub store: &'a Store,
    pub defs: &'a Defs,
}
