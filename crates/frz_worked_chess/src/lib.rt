//! Tests of chess over boards and moves that are known to every program, of the crates that hold
//! its rules and its texts.
#![tactic(auto)]

#[cfg(test)]
mod board;
#[cfg(test)]
mod expect;
#[cfg(test)]
mod fens;
#[cfg(test)]
mod moves;
#[cfg(test)]
mod notation;
#[cfg(test)]
mod placement;
#[cfg(test)]
mod squares;
#[cfg(test)]
mod words;
