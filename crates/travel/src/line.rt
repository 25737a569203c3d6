// A line of the state: put on, taken off, looked at; a HELLO and a token sent.
ghost use Rattle.std.specs.Prelude.{◌≡◌, true, ◌-◌, ◌<◌};
ghost use Rattle.names.specs.Size.{links};
ghost use Rattle.lines.specs.Line.{line_capacity};
ghost use Rattle.cells.specs.View.{view};
ghost use Rattle.cells.specs.World.{lined};
ghost use Rattle.clauses.specs.Cables.{far_enabled};
ghost use Rattle.travel.specs.Travel.{load_from, put_on, first_on, taken_off, credit_lost, says_hello, paid_one, sends_on};
ghost use Rattle.travel.specs.Travel.{zeroed, far_zeroed, disabled};
ghost use Rattle.travel.specs.Needs.{LineThere, Leads, Cabled};

use cells::line::Line;
use cells::link::{Flow, Link, far_of};
use cells::record::Record;
use cells::{line, link};
use clauses::cables::far_enabled;
use lines::load::{HELLO, Load, load_at};
use lines::{put_on, take_off};
use names::Slot;

// How much is on the line that starts at a link.
pub fn load_from(st: &[u32], ls: &[u16], slot: Slot, l: usize) -> Load
    requires { LineThere (lined st.now ls.now) slot.0 l }
    ensures { result ≡ load_from (lined st.now ls.now) slot.0 l }
{
    let k = Line::at(st, slot, l);
    load_at(k.ring, ls, slot, l)
}

// Puts a token, a credit or a HELLO on it.
#[tactic(auto, unfolding(crate::specs::Travel::put_on))]
pub fn put(st: &mut [u32], ls: &mut [u16], slot: Slot, l: usize, word: u16)
    requires { LineThere (lined st.old ls.old) slot.0 l × (((view st.old).lines.rings slot.0 l).held < line_capacity) }
    ensures { lined st.new ls.new ≡ put_on (lined st.old ls.old) slot.0 l word }
{
    let k = Line::at(st, slot, l);
    let after = put_on(k.ring, ls, slot, l, word);
    line::put_ring(st, slot, l, after);
}

// Takes the first off its far end.
#[tactic(auto, unfolding(crate::specs::Travel::taken_off))]
pub fn take(st: &mut [u32], ls: &mut [u16], slot: Slot, l: usize) -> u16
    requires { LineThere (lined st.old ls.old) slot.0 l × (0 < ((view st.old).lines.rings slot.0 l).held) }
    ensures { (result ≡ first_on (lined st.old ls.old) slot.0 l)
        × (lined st.new ls.new ≡ taken_off (lined st.old ls.old) slot.0 l) }
{
    let k = Line::at(st, slot, l);
    let taken = take_off(k.ring, ls, slot, l);
    line::put_ring(st, slot, l, taken.counters);
    taken.token
}

// A link's own credit is 0 from the moment that its HELLO is sent.
#[tactic(auto, using(laws::proofs::Table::upd_own))]
fn lose_credit(st: &mut [u32], slot: Slot, l: usize)
    requires { (slot.0 < (view st.old).nodes) × (l < links) }
    ensures { view st.new ≡ credit_lost (view st.old) slot.0 l }
{
    Link::change(st, slot, l, |k: &mut Link| k.flow.credit = 0);
}

// HELLO on an enabled link: lost where the far end is absent or disabled, and only where it is not does the line need room.
#[tactic(auto, using(crate::proofs::There::there_net), unfolding(crate::specs::Travel::says_hello))]
pub fn hello(st: &mut [u32], ls: &mut [u16], slot: Slot, l: usize)
    requires { LineThere (lined st.old ls.old) slot.0 l
        × (far_enabled (view st.old) ((view st.old).links.cables slot.0 l) ≡ true
        → ((view st.old).lines.rings slot.0 l).held < line_capacity) }
    ensures { lined st.new ls.new ≡ says_hello (lined st.old ls.old) slot.0 l }
{
    let k = Link::at(st, slot, l);
    let heard = far_enabled(st, k.cable);
    lose_credit(st, slot, l);
    if heard {
        put(st, ls, slot, l, HELLO);
    }
}

// "Each token moved over a link, header included, costs one credit."
#[tactic(auto, using(laws::proofs::Table::upd_own))]
fn pay(st: &mut [u32], slot: Slot, l: usize)
    requires { (slot.0 < (view st.old).nodes) × (l < links) }
    ensures { view st.new ≡ paid_one (view st.old) slot.0 l }
{
    Link::change(st, slot, l, |k: &mut Link| {
        k.flow.credit = k.flow.credit.saturating_sub(1);
    });
}

// A token is sent over a link.
pub fn send(st: &mut [u32], ls: &mut [u16], slot: Slot, l: usize, word: u16)
    requires { LineThere (lined st.old ls.old) slot.0 l × (((view st.old).lines.rings slot.0 l).held < line_capacity) }
    ensures { lined st.new ls.new ≡ sends_on (lined st.old ls.old) slot.0 l word }
{
    pay(st, slot, l);
    put(st, ls, slot, l, word);
}

// "zeroes and un-greets"
const SILENCED: Flow = Flow {
    greeted: 0,
    credit: 0,
};

// A link that owes nothing, and is owed nothing.
fn zero(st: &mut [u32], slot: Slot, l: usize)
    requires { (slot.0 < (view st.old).nodes) × (l < links) }
    ensures { view st.new ≡ zeroed (view st.old) slot.0 l }
{
    link::put_flow(st, slot, l, SILENCED);
    line::put_issued(st, slot, l, 0);
}

// The far end of a cable is zeroed and un-greeted, and stays enabled.
fn zero_far(st: &mut [u32], f: Option<(Slot, usize)>)
    requires { Leads (view st.old).nodes f }
    ensures { view st.new ≡ far_zeroed (view st.old) f }
{
    if let Some((m, j)) = f {
        zero(st, m, j);
    }
}

// "Disabling zeroes and un-greets both ends."
#[tactic(auto, unfolding(crate::specs::Travel::disabled))]
pub fn disable(st: &mut [u32], slot: Slot, l: usize)
    requires { (slot.0 < (view st.old).nodes) × (l < links) × Cabled (view st.old) slot.0 l }
    ensures { view st.new ≡ disabled (view st.old) slot.0 l }
{
    let k = Link::at(st, slot, l);
    let mut x = k.setup;
    x.enabled = 0;
    zero(st, slot, l);
    link::put_setup(st, slot, l, x);
    zero_far(st, far_of(k.cable));
}
