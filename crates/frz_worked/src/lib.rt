//! Worked rules texts and boards, the tests of the reader of such texts, and the tests over them of
//! the crates below that read no text.
#![tactic(auto)]

#[cfg(test)]
mod binomials;
pub mod boards;
#[cfg(test)]
mod bounds;
#[cfg(test)]
mod codes;
#[cfg(test)]
mod exits;
#[cfg(test)]
mod expect;
#[cfg(test)]
mod games;
pub mod laws;
#[cfg(test)]
mod moves_back;
#[cfg(test)]
mod numbers;
#[cfg(test)]
mod plane_tables;
#[cfg(test)]
mod reading;
#[cfg(test)]
mod retro;
#[cfg(test)]
mod steps;
#[cfg(test)]
mod sweeps;
pub mod ten;
pub mod texts;
#[cfg(test)]
mod values;
#[cfg(test)]
mod words;
