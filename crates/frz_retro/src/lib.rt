//! Retrograde analysis of the restricted game over any graph of numbers: pass by pass, from the
//! numbers that are settled to their predecessors.
#![tactic(auto)]

mod beginning;
mod both_sides;
mod due;
mod game_graph;
mod graph;
mod kinds;
mod local;
mod meeting;
mod moves;
mod note;
mod notes;
mod passes;
mod start;
mod tally;
mod workshop;

pub use both_sides::BothSides;
pub use game_graph::GameGraph;
pub use graph::Graph;
pub use workshop::Workshop;
