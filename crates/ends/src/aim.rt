// Aim: a channel-end's destination and network.
ghost use Rattle.std.specs.Prelude.{◌≡◌};
ghost use Rattle.answers.specs.Rows.{checked};
ghost use Rattle.answers.specs.Out.{out};
ghost use Rattle.cells.specs.View.{view};
ghost use Rattle.ends.specs.Needs.{GoalFits};
ghost use Rattle.ends.specs.declared.aim.Goal.TheVariants.{Channel, Unit};
ghost use Rattle.ends.specs.Aim.{goal_ranged, aimed_at, aim_rows, aim};

use crate::end_at;
use answers::Answer;
use cells::end;
use cells::end::{Aim, End};
use cells::record::Record;
use names::no::No;
use names::size::NETWORKS;
use names::{NodeNumber, Slot, is_number};
use tokens::header::is_channel;

// A destination as it is asked for: a channel of a number, or a number's control unit. Values out of
// range are refused.
#[derive(Clone, Copy)]
pub enum Goal {
    Channel(u32, u32),
    Unit(u32),
}

// "channel 0..31 or 255", and a number of 16 bits.
fn goal_ranged(g: Goal) -> bool
    ensures { result ≡ goal_ranged g }
{
    match g {
        Goal::Channel(m, c) => is_number(m) & is_channel(c),
        Goal::Unit(m) => is_number(m),
    }
}

// Whether Aim is refused.
fn check_aim(st: &[u32], slot: Slot, c: usize, g: Goal, network: u32) -> Result<(), No>
    ensures { result ≡ checked (aim_rows (view st.now) slot.0 c g network) }
{
    if !end_at(st, slot, c) {
        return Err(No::NoSuch);
    }
    let ranged = goal_ranged(g) & (network < NETWORKS);
    if !ranged {
        return Err(No::Value);
    }
    let k = End::at(st, slot, c);
    if k.sending.kind != 0 {
        return Err(No::Open);
    }
    Ok(())
}

// The two destinations, as a record has them.
fn to_channel(number: NodeNumber, channel: u32, network: u32) -> Aim
    ensures { result ≡ aimed_at (Channel number.0 channel) network }
{
    Aim {
        kind: 1,
        number: number.0 as u32,
        channel,
        network,
    }
}

fn to_unit(number: NodeNumber, network: u32) -> Aim
    ensures { result ≡ aimed_at (Unit number.0) network }
{
    Aim {
        kind: 2,
        number: number.0 as u32,
        channel: 0,
        network,
    }
}

// A destination and network as a channel-end has them.
fn aimed_at(g: Goal, network: u32) -> Aim
    requires { GoalFits g }
    ensures { result ≡ aimed_at g network }
{
    match g {
        Goal::Channel(m, c) => to_channel(NodeNumber(m as u16), c, network),
        Goal::Unit(m) => to_unit(NodeNumber(m as u16), network),
    }
}

// Aim, whole: refused by its number with nothing changed, or made.
#[tactic(auto, using(crate::proofs::There::aim_fits, crate::proofs::There::aim_there, answers::proofs::Refusals::goes_on_lem), unfolding(crate::specs::Aim::aim))]
pub fn aim(st: &mut [u32], slot: Slot, c: usize, g: Goal, network: u32) -> Result<Answer, No>
    ensures { out result (view st.new) ≡ aim (view st.old) slot.0 c g network }
{
    check_aim(st, slot, c, g, network)?;
    end::put_aim(st, slot, c, aimed_at(g, network));
    Ok(Answer::Done)
}
