// A plan carried out, and what the Step answers.
ghost use Rattle.std.specs.Prelude.{◌≡◌, ◌<◌, Ok};
ghost use Rattle.names.specs.Size.{ports};
ghost use Rattle.answers.specs.Out.{out};
ghost use Rattle.cells.specs.View.{view};
ghost use Rattle.cells.specs.World.{lent};
ghost use Rattle.switch.specs.Step.{step_performed};
ghost use Rattle.switch.specs.Needs.{StepPossible};

use crate::hear::hear;
use acts::circuit::set_hop;
use answers::Answer;
use circuits::Hop;
use moves::land::{land_channel, land_unit};
use moves::open::open_out;
use moves::pass::{drop_one, hand, move_out};
use names::Slot;
use plans::Plan;

pub fn perform(
    st: &mut [u32],
    mem: &mut [u16],
    ls: &mut [u16],
    slot: Slot,
    p: usize,
    plan: Plan,
) -> Answer
    requires { (slot.0 < (view st.old).nodes) × (p < ports) × StepPossible (lent st.old mem.old ls.old) slot.0 p plan }
    ensures { out (Ok result) (lent st.new mem.new ls.new)
        ≡ step_performed (lent st.old mem.old ls.old) slot.0 p plan }
{
    match plan {
        Plan::Idle => Answer::Idle,
        Plan::Wait => Answer::Waiting,
        Plan::OpenOut(l) => {
            open_out(st, slot, p, l);
            Answer::OpenedLink(l as u32)
        }
        Plan::OpenChannel(c, t) => {
            land_channel(st, mem, ls, slot, p, c, t);
            Answer::OpenedChannel
        }
        Plan::OpenUnit => {
            land_unit(st, mem, ls, slot, p);
            Answer::OpenedUnit
        }
        Plan::Refuse(x) => {
            set_hop(st, slot, p, Hop::Dropped(x));
            Answer::Refused(x)
        }
        Plan::MoveOut(l) => {
            move_out(st, mem, ls, slot, p, l);
            Answer::Moved
        }
        Plan::Hand(c, t) => {
            hand(st, mem, ls, slot, p, c, t);
            Answer::Moved
        }
        Plan::Hear => hear(st, mem, ls, slot, p),
        Plan::Drop(x) => {
            drop_one(st, mem, ls, slot, p);
            Answer::Dropped(x)
        }
    }
}
