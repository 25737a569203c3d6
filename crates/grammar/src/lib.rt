// What may stand in a port, oldest first (document 01, "Sound"): one walk over its tokens says that
// tokens and headers are legal, that what has no circuit and what follows an END or PAUSE is nothing or
// a header, that such a header is short only at its port's end, and that header tokens stand elsewhere
// only at the front of a circuit still sending its header outward or being dropped.
#![tactic(auto)]

pub mod port;
pub mod stage;
