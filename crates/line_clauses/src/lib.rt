// What Sound and tight ask of the lines of cables (document 02, Ask 4), each a test at one place, for any words at all.
#![tactic(auto)]

pub mod loads;
pub mod reached;
pub mod ties;
