// A token taken from a port, with the grant that it may bring upstream.
ghost use Rattle.std.specs.Prelude.{◌≡◌, ◌<◌};
ghost use Rattle.acts.specs.Acts.{first_at};
ghost use Rattle.cells.specs.World.{lined, lent};
ghost use Rattle.plans.specs.Plan.{size_of};
ghost use Rattle.moves.specs.Moves.{grants_up, took, stripped};
ghost use Rattle.moves.specs.Needs.{Up, Takes};

use acts::pop;
use names::Slot;
use names::size::LINKS;
use tokens::header::Width;
use travel::grant::consider;

// A grant is considered at a port, if a link feeds it.
fn grant_up(st: &mut [u32], ls: &mut [u16], slot: Slot, p: usize)
    requires { Up (lined st.old ls.old) slot.0 p }
    ensures { lined st.new ls.new ≡ grants_up (lined st.old ls.old) slot.0 p }
{
    if p < LINKS {
        consider(st, ls, slot, p);
    }
}

// Takes the oldest token of a port.
pub fn take(st: &mut [u32], mem: &mut [u16], ls: &mut [u16], slot: Slot, p: usize) -> u16
    requires { Takes (lent st.old mem.old ls.old) slot.0 p 1 }
    ensures { (result ≡ first_at (lent st.old mem.old ls.old) slot.0 p)
        × (lent st.new mem.new ls.new
        ≡ took (lent st.old mem.old ls.old) slot.0 p) }
{
    let word = pop(st, mem, slot, p);
    grant_up(st, ls, slot, p);
    word
}

// Removes a header.
pub fn strip(st: &mut [u32], mem: &mut [u16], ls: &mut [u16], slot: Slot, p: usize, w: Width)
    requires { Takes (lent st.old mem.old ls.old) slot.0 p (size_of w) }
    ensures { lent st.new mem.new ls.new
        ≡ stripped (lent st.old mem.old ls.old) slot.0 p w }
{
    match w {
        Width::One => {
            take(st, mem, ls, slot, p);
        }
        Width::Three => {
            take(st, mem, ls, slot, p);
            take(st, mem, ls, slot, p);
            take(st, mem, ls, slot, p);
        }
    }
}
