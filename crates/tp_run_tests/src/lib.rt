//! Tests of runs and whole calls: what words and files can't say. Those of the layers below stand in a crate of their own, so that both are proved
//! side by side.
#![tactic(auto)]

#[cfg(test)]
mod calls;
#[cfg(test)]
mod expected;
#[cfg(test)]
mod runs;
#[cfg(test)]
mod sources;
