// Routing (document 01, "Routing"): which bit of a number decides, and what the direction table says
// of that bit. Which link is then taken needs the state, and is decided above.
#![tactic(auto)]

pub mod direction;
pub mod way;
