// Wire and every Set on a state that is known to be sound (document 01, "Calls"). The public calls,
// which test the state first, are crate bench's; a switch message makes its Sets here.
#![tactic(auto)]

pub mod made;
pub mod refused;
pub mod wire;

ghost use Rattle.std.specs.Prelude.{◌≡◌};
ghost use Rattle.answers.specs.Out.{out};
ghost use Rattle.cells.specs.World.{lined};
ghost use Rattle.settings.specs.Set.{set_call};
ghost use Rattle.settings.specs.Needs.{Settled};

use crate::made::make;
use crate::refused::check_set;
use answers::Answer;
use names::Slot;
use names::no::No;

// What is to be set. Values are as wide as they are asked for: those out of range are refused.
#[derive(Clone, Copy)]
pub enum Setting {
    // a node's number
    Number(u32),
    // a node's width, 1 or 3
    Width(u32),
    // the direction entry of a bit
    Direction(u32, u32),
    // a link's direction
    LinkDirection(usize, u32),
    // a link's network
    Network(usize, u32),
    // a link enabled (1) or disabled (0)
    Enable(usize, u32),
    // HELLO on a link
    Hello(usize),
}

// Set, whole: refused by its number with nothing changed, or made.
#[tactic(auto, using(crate::proofs::Passed::set_goes_on, crate::proofs::Passed::set_there))]
pub fn set(st: &mut [u32], ls: &mut [u16], slot: Slot, x: Setting) -> Result<Answer, No>
    requires { Settled (lined st.old ls.old) }
    ensures { out result (lined st.new ls.new) ≡ set_call (lined st.old ls.old) slot.0 x }
{
    check_set(st, ls, slot, x)?;
    Ok(make(st, ls, slot, x))
}
