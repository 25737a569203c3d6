// For each sentence of clauses 9 and 11 of the Sound list, who names whom, a state that fails it alone and its twin, which is sound. The same
// states are given to every call in rust/compare/tests/disturbed.rs.
#![tactic(auto)]

mod opens;
mod outputs;

use crate::opens::opens;
use crate::outputs::outputs;
use std::io;

fn main(rt: HostRuntime) -> io::Result<()> {
    outputs(&rt)?;
    opens(&rt)
}
