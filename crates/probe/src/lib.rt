// Transitions for the logic probe (document 02, Ask 8): a port's or line's tokens written as transitions on the wires of a link, and a
// capture read back, for the serial and the fast link. A transition is a byte, the number of the wire that changes. Beside the bench:
// nothing here touches its memories.
#![tactic(auto)]

pub mod answer;
pub mod fast;
pub mod form;
pub mod reader;
pub mod sequence;
pub mod serial;
pub mod wires;
pub mod writer;

ghost use Rattle.std.specs.Prelude.{◌≡◌};
ghost use Rattle.probe.specs.Calls.{form_of, out, writing, reading};

use crate::answer::Refusal;
use crate::fast::Fast;
use crate::form::Mode;
use crate::serial::Serial;

// Tokens, oldest first, as transitions from all wires low.
pub fn write(mode: Mode, tokens: &[u16], buffer: &mut [u8]) -> Result<usize, Refusal>
    ensures { out result buffer.new ≡ writing (form_of mode) tokens.now buffer.old }
{
    match mode {
        Mode::Serial => writer::write::<Serial>(tokens, buffer),
        Mode::Fast => writer::write::<Fast>(tokens, buffer),
    }
}

// A capture as tokens, without their header marks.
pub fn read(mode: Mode, capture: &[u8], buffer: &mut [u16]) -> Result<usize, Refusal>
    ensures { out result buffer.new ≡ reading (form_of mode) capture.now buffer.old }
{
    match mode {
        Mode::Serial => reader::read::<Serial>(capture, buffer),
        Mode::Fast => reader::read::<Fast>(capture, buffer),
    }
}
