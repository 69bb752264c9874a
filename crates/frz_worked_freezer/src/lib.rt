//! Tests of whole calls of the program `freezer`, over objects in memory.
#![tactic(auto)]

#[cfg(test)]
mod tests;
