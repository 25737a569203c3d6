// The crossing to Rust and C: each call and look of the bench, and of the probe beside it, once more, on numbers and lent slices, and
// nothing else. None has a `requires`, so a caller owes nothing but slices that are what they say. Across
// C a slice is two words, pointer then length, and an enum is one number (answers/specs/Answer.antt).
#![tactic(auto)]

pub mod call;
pub mod list;
pub mod number;
pub mod record;
pub mod single;
pub mod transitions;
pub mod whole;
