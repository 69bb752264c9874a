//! Tests of the outside, of the ends of commands, and over table files made by hand, of the crates
//! that read such files and play by them.
#![tactic(auto)]

#[cfg(test)]
mod atlas_lines;
#[cfg(test)]
mod atlas_reports;
#[cfg(test)]
mod ends;
#[cfg(test)]
mod expect;
#[cfg(test)]
mod handmade;
#[cfg(test)]
mod journeys;
#[cfg(test)]
mod outside;
#[cfg(test)]
mod pairs;
#[cfg(test)]
mod sessions;
#[cfg(test)]
mod stores;
#[cfg(test)]
mod tables;
