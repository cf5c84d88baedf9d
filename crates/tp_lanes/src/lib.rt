//! Runs of bytes of a class, and counts of a byte, sixteen bytes at a time; sets of numbers, 512 at a time.
#![tactic(auto)]

mod class;
mod count;
mod members;
mod plane;
mod rows;
mod run;

pub use class::Class;
pub use count::count_byte;
pub use plane::Plane;
pub use run::run_len;
