//! Tests of the calls of the crates below those that make runs: what files and words can't say. The others are runs of the program, in tests/.
#![tactic(auto)]

#[cfg(test)]
mod closing;
#[cfg(test)]
mod closures;
#[cfg(test)]
mod expected;
#[cfg(test)]
mod sources;
#[cfg(test)]
mod stores;
#[cfg(test)]
mod tables;
