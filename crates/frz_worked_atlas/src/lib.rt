//! Tests of whole calls of the program `atlas`, over objects in memory.
#![tactic(auto)]

#[cfg(test)]
mod tests;
