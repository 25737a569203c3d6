// One token passes: on to a line, to a channel, or away.
ghost use Rattle.std.specs.Prelude.{◌≡◌, ◌<◌};
ghost use Rattle.names.specs.Size.{links, tile_links};
ghost use Rattle.cells.specs.View.{view};
ghost use Rattle.cells.specs.World.{lent};
ghost use Rattle.acts.specs.Acts.{first_at};
ghost use Rattle.acts.specs.Needs.{Given};
ghost use Rattle.moves.specs.Moves.{moves_out, hands, drops};
ghost use Rattle.moves.specs.Needs.{Takes, Passes};

use crate::open::{close_channel, close_dropped, close_out};
use crate::take::take;
use acts::give;
use names::Slot;
use travel::line::send;

// "Outward: .. Moved."
pub fn move_out(st: &mut [u32], mem: &mut [u16], ls: &mut [u16], slot: Slot, p: usize, l: usize)
    requires { (l < links) × Takes (lent st.old mem.old ls.old) slot.0 p 1
        × Passes (lent st.old mem.old ls.old) slot.0 p l }
    ensures { lent st.new mem.new ls.new
        ≡ moves_out (lent st.old mem.old ls.old) slot.0 p l }
{
    let word = take(st, mem, ls, slot, p);
    close_out(st, slot, p, l, word);
    send(st, ls, slot, l, word);
}

// "To a channel: .. Moved."
pub fn hand(
    st: &mut [u32],
    mem: &mut [u16],
    ls: &mut [u16],
    slot: Slot,
    p: usize,
    c: usize,
    t: usize,
)
    requires { (t < tile_links) × Given (view st.old) slot.0 c (first_at (lent st.old mem.old ls.old) slot.0 p)
        × Takes (lent st.old mem.old ls.old) slot.0 p 1 }
    ensures { lent st.new mem.new ls.new
        ≡ hands (lent st.old mem.old ls.old) slot.0 p c t }
{
    let word = take(st, mem, ls, slot, p);
    give(st, slot, c, word);
    close_channel(st, slot, p, c, t, word);
}

// "Refused circuits: Dropped."
pub fn drop_one(st: &mut [u32], mem: &mut [u16], ls: &mut [u16], slot: Slot, p: usize)
    requires { Takes (lent st.old mem.old ls.old) slot.0 p 1 }
    ensures { lent st.new mem.new ls.new
        ≡ drops (lent st.old mem.old ls.old) slot.0 p }
{
    let word = take(st, mem, ls, slot, p);
    close_dropped(st, slot, p, word);
}
