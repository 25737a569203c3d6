// Tokens and headers (document 01, "Tokens and headers"): control tokens by class, the word in
// which a port holds a token with its mark, and headers made and read at both widths.
#![tactic(auto)]

pub mod control;
pub mod header;
pub mod word;
