// What travels on the lines of cables (document 02, Ask 4): things put on a line and taken off it, grants by the count, HELLO, a token
// sent, a link disabled, and a line's step.
#![tactic(auto)]

pub mod arrive;
pub mod grant;
pub mod line;
