// What comes off the far end of a line.
ghost use Rattle.std.specs.Prelude.{◌≡◌, ◌+◌, ◌-◌, ◌^◌, ◌<◌};
ghost use Rattle.names.specs.Size.{links};
ghost use Rattle.cells.specs.View.{view};
ghost use Rattle.cells.specs.World.{world, lent, At};
ghost use Rattle.acts.specs.Needs.{Room};
ghost use Rattle.travel.specs.Travel.{received, token_in, credit_in, hello_in, arrival_grant, arrives_at};
ghost use Rattle.travel.specs.Travel.{came_by, left_by, line_came, line_stepped};
ghost use Rattle.travel.specs.Needs.{Arrives, StepsTo, LineSteps};

use crate::grant::consider;
use crate::line::take;
use acts::push;
use cells::line::Line;
use cells::link::{Link, far_at};
use cells::record::Record;
use cells::{line, link};
use lines::load::{credit_of, is_hello};
use names::Slot;

// One less is issued and not yet received.
fn receive(st: &mut [u32], slot: Slot, k: usize)
    requires { (slot.0 < (view st.old).nodes) × (k < links) }
    ensures { view st.new ≡ received (view st.old) slot.0 k }
{
    let x = Line::at(st, slot, k);
    line::put_issued(st, slot, k, x.issued.saturating_sub(1));
}

// A token comes to a port.
#[tactic(auto, unfolding(acts::specs::Acts::pushed))]
fn token_in(st: &mut [u32], mem: &mut [u16], slot: Slot, k: usize, word: u16)
    requires { Room (world st.old mem.old) slot.0 k 1 × (k < links) }
    ensures { world st.new mem.new ≡ token_in (world st.old mem.old) slot.0 k word }
{
    push(st, mem, slot, k, word);
    receive(st, slot, k);
}

// A credit comes to a link.
#[tactic(auto, using(laws::proofs::Table::upd_own))]
fn credit_in(st: &mut [u32], slot: Slot, k: usize, g: u32)
    requires { (slot.0 < (view st.old).nodes) × (k < links) × (((view st.old).links.flows slot.0 k).credit + g < 2 ^ 32) }
    ensures { view st.new ≡ credit_in (view st.old) slot.0 k g }
{
    let x = Link::at(st, slot, k);
    let credit = x.flow.credit + g;
    Link::change(st, slot, k, move |x: &mut Link| x.flow.credit = credit);
}

// The HELLO of link l of slot a comes to link k of slot b.
#[tactic(auto, using(laws::proofs::Table::upd_own))]
fn hello_in(st: &mut [u32], a: Slot, l: usize, b: Slot, k: usize)
    requires { (a.0 < (view st.old).nodes) × (l < links) × (b.0 < (view st.old).nodes) × (k < links) }
    ensures { view st.new ≡ hello_in (view st.old) a.0 l b.0 k }
{
    Link::change(st, a, l, |x: &mut Link| x.flow.greeted = 1);
    line::put_issued(st, b, k, 0);
}

// What has come off the line from link l of slot a arrives at link k of slot b: the answer is the grant that it brings.
fn arrive(
    st: &mut [u32],
    mem: &mut [u16],
    ls: &mut [u16],
    a: Slot,
    l: usize,
    b: Slot,
    k: usize,
    word: u16,
) -> u32
    requires { Arrives (lent st.old mem.old ls.old) a.0 l b.0 k word }
    ensures { (result ≡ arrival_grant (lent st.old mem.old ls.old) a.0 l b.0 k word)
        × (lent st.new mem.new ls.new
        ≡ arrives_at (lent st.old mem.old ls.old) a.0 l b.0 k word) }
{
    if is_hello(word) {
        hello_in(st, a, l, b, k);
        return consider(st, ls, b, k);
    }
    let g = credit_of(word);
    if g == 0 {
        token_in(st, mem, b, k, word);
        return consider(st, ls, b, k);
    }
    credit_in(st, b, k, g);
    0
}

// One off the far end, of a line that leads to link k of slot b.
fn step_to(
    st: &mut [u32],
    mem: &mut [u16],
    ls: &mut [u16],
    a: Slot,
    l: usize,
    b: Slot,
    k: usize,
) -> Option<u32>
    requires { StepsTo (lent st.old mem.old ls.old) a.0 l (At b k) }
    ensures { (result ≡ came_by (lent st.old mem.old ls.old) a.0 l (At b k))
        × (lent st.new mem.new ls.new
        ≡ left_by (lent st.old mem.old ls.old) a.0 l (At b k)) }
{
    let x = Line::at(st, a, l);
    if x.ring.held == 0 {
        return None;
    }
    let word = take(st, ls, a, l);
    Some(arrive(st, mem, ls, a, l, b, k, word))
}

// The step of the line that starts at a link: none where nothing was on it, else the grant that what came off brought.
#[tactic(auto, unfolding(crate::specs::Travel::line_came, crate::specs::Travel::line_stepped))]
pub fn line_step(
    st: &mut [u32],
    mem: &mut [u16],
    ls: &mut [u16],
    slot: Slot,
    l: usize,
) -> Option<u32>
    requires { LineSteps (lent st.old mem.old ls.old) slot.0 l }
    ensures { (result ≡ line_came (lent st.old mem.old ls.old) slot.0 l)
        × (lent st.new mem.new ls.new
        ≡ line_stepped (lent st.old mem.old ls.old) slot.0 l) }
{
    let (b, k) = far_at(st, slot, l)?;
    step_to(st, mem, ls, slot, l, b, k)
}
