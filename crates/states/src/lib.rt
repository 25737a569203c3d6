// States that fail a clause of the Sound list, for the programs disturbed, disturbed_ports, disturbed_pairs and disturbed_lines: a blank
// network of two nodes with a few records changed, and what is said of it.
#![tactic(auto)]

pub mod say;
pub mod write;
