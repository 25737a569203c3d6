// The Sound list of document 01, each clause a test at one place of the state, and the ties that make
// soundness last. Nothing here goes over more than one place.
#![tactic(auto)]

pub mod cables;
pub mod contents;
pub mod counts;
pub mod pairs;
pub mod ties;
