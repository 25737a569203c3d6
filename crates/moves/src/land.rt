// A circuit opened at its door, and its header removed.
ghost use Rattle.std.specs.Prelude.{◌≡◌, ◌<◌};
ghost use Rattle.names.specs.Size.{tile_links};
ghost use Rattle.acts.specs.Acts.{width_at};
ghost use Rattle.acts.specs.Needs.{Door};
ghost use Rattle.cells.specs.View.{view};
ghost use Rattle.cells.specs.World.{lent};
ghost use Rattle.plans.specs.Plan.{size_of};
ghost use Rattle.moves.specs.Moves.{lands_channel, lands_unit};
ghost use Rattle.moves.specs.Needs.{Takes};

use crate::open::{open_channel, open_unit};
use crate::take::strip;
use acts::width_at;
use names::Slot;

// "this node's channel: .. Opened and the header is removed"
pub fn land_channel(
    st: &mut [u32],
    mem: &mut [u16],
    ls: &mut [u16],
    slot: Slot,
    p: usize,
    c: usize,
    t: usize,
)
    requires { (t < tile_links) × Door c
        × Takes (lent st.old mem.old ls.old) slot.0 p (size_of (width_at (view st.old) slot.0)) }
    ensures { lent st.new mem.new ls.new
        ≡ lands_channel (lent st.old mem.old ls.old) slot.0 p c t }
{
    let width = width_at(st, slot);
    open_channel(st, slot, p, c, t);
    strip(st, mem, ls, slot, p, width);
}

// "this node's control unit: .. Opened, header removed"
pub fn land_unit(st: &mut [u32], mem: &mut [u16], ls: &mut [u16], slot: Slot, p: usize)
    requires { Takes (lent st.old mem.old ls.old) slot.0 p (size_of (width_at (view st.old) slot.0)) }
    ensures { lent st.new mem.new ls.new
        ≡ lands_unit (lent st.old mem.old ls.old) slot.0 p }
{
    let width = width_at(st, slot);
    open_unit(st, slot, p);
    strip(st, mem, ls, slot, p, width);
}
