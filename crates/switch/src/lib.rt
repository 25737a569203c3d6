// Step, on a state that is known to be sound (document 01, "What a Step does"): what the switch reads and
// plans, then what it does. The public call, which tests the state first, is crate bench's.
#![tactic(auto)]

pub mod hear;
pub mod perform;

ghost use Rattle.std.specs.Prelude.{◌≡◌, true};
ghost use Rattle.answers.specs.Out.{out};
ghost use Rattle.cells.specs.View.{view};
ghost use Rattle.cells.specs.World.{lent};
ghost use Rattle.sound.specs.Sound.{sound};
ghost use Rattle.switch.specs.Step.{port_at, step};

use crate::perform::perform;
use answers::Answer;
use cells::node;
use names::Slot;
use names::no::No;
use names::size::PORTS;
use plans::plan_of;

// The port is there.
fn port_at(st: &[u32], slot: Slot, p: usize) -> bool
    ensures { result ≡ port_at (view st.now) slot.0 p }
{
    (slot.0 < node::count(st)) & (p < PORTS)
}

// Step, whole: refused by its number with nothing changed, or what its plan does.
pub fn step(
    st: &mut [u32],
    mem: &mut [u16],
    ls: &mut [u16],
    slot: Slot,
    p: usize,
) -> Result<Answer, No>
    requires { sound (lent st.old mem.old ls.old) ≡ true }
    ensures { out result (lent st.new mem.new ls.new)
        ≡ step (lent st.old mem.old ls.old) slot.0 p }
{
    if !port_at(st, slot, p) {
        return Err(No::NoSuch);
    }
    let plan = plan_of(st, mem, slot, p);
    Ok(perform(st, mem, ls, slot, p, plan))
}
