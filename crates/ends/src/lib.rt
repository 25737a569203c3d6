// A program's side of a channel, on a state that is known to be sound (document 01, "Calls": Aim, Output,
// Input). The public calls, which test the state first, are crate bench's.
#![tactic(auto)]

pub mod aim;
pub mod input;
pub mod output;
pub mod plan;

ghost use Rattle.std.specs.Prelude.{◌≡◌};
ghost use Rattle.cells.specs.View.{view};
ghost use Rattle.ends.specs.Ends.{end_at};

use cells::node;
use names::Slot;
use names::size::ENDS;

// A token as a program puts it out.
#[derive(Clone, Copy)]
pub enum Token {
    Data(u8),
    Control(u8),
}

// What a program asks for.
#[derive(Clone, Copy)]
pub enum Wanted {
    Data,
    Control,
}

// The channel-end is there.
fn end_at(st: &[u32], slot: Slot, c: usize) -> bool
    ensures { result ≡ end_at (view st.now) slot.0 c }
{
    (slot.0 < node::count(st)) & (c < ENDS)
}
