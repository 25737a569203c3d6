// What a Step does with one token, or with one circuit of a port (document 01, "What a Step does"), each on a state that has what it
// asks for. Crate switch says which of them a Step does.
#![tactic(auto)]

pub mod land;
pub mod open;
pub mod pass;
pub mod take;
