// The state in place: a lent slice of 32-bit words. This crate alone knows where a word lies. Each
// kind of record is a struct by value with an impl of `Record`, whose `at` reads a whole record and
// answers the all-zero one where there is none, and whose `put` writes one that is there.
#![tactic(auto)]

pub mod end;
pub mod layout;
pub mod line;
pub mod link;
pub mod memories;
pub mod node;
pub mod port;
pub mod record;
pub mod tile;
pub mod unit;
