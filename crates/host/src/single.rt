// Looks at one direction entry and at one token.
ghost use Rattle.std.specs.Prelude.{◌≡◌};
ghost use Rattle.cells.specs.View.{view};
ghost use Rattle.cells.specs.World.{world, lined};
ghost use Rattle.looks.specs.Looks.{direction, port_token, line_token, end_token};
ghost use Rattle.host.specs.Crossed.{seen_number};

use crate::number::seen_number;
use looks::{direction_of, end_token, line_token, port_token};
use names::Slot;

#[unsafe(no_mangle)]
pub extern "C" fn tarvelgyo_direction(st: &[u32], slot: usize, bit: u32) -> u32
    ensures { result ≡ direction (view st.now) slot bit }
{
    direction_of(st, Slot(slot), bit)
}

// The i-th token held in a port, oldest first.
#[unsafe(no_mangle)]
pub extern "C" fn tarvelgyo_port_token(
    st: &[u32],
    mem: &[u16],
    slot: usize,
    p: usize,
    i: u32,
) -> u64
    ensures { result ≡ seen_number (port_token (world st.now mem.now) slot p i) }
{
    seen_number(port_token(st, mem, Slot(slot), p, i))
}

// The i-th on the line that starts at a link, the first to arrive first.
#[unsafe(no_mangle)]
pub extern "C" fn tarvelgyo_line_token(st: &[u32], ls: &[u16], slot: usize, l: usize, i: u32) -> u64
    ensures { result ≡ seen_number (line_token (lined st.now ls.now) slot l i) }
{
    seen_number(line_token(st, ls, Slot(slot), l, i))
}

// The i-th token held in a channel-end, oldest first.
#[unsafe(no_mangle)]
pub extern "C" fn tarvelgyo_end_token(st: &[u32], slot: usize, c: usize, i: usize) -> u64
    ensures { result ≡ seen_number (end_token (view st.now) slot c i) }
{
    seen_number(end_token(st, Slot(slot), c, i))
}
