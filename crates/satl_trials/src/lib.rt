//! Tests of single crates that are dear to prove: tests within a crate prove it a second time, and these do not.
#![tactic(auto)]

#[cfg(test)]
mod audit;
#[cfg(test)]
mod disk;
