// The ties that lines bring.
ghost use Rattle.std.specs.Prelude.{◌≡◌, false, []};
ghost use Rattle.cells.specs.Memories.{world_of};
ghost use Rattle.clauses.specs.Cables.{on_far};
ghost use Rattle.cells.specs.World.{lined, lent};
ghost use Rattle.line_clauses.specs.Lines.{fed_over_to, fed_over, between, is_greeted, towards, no_credit, hello_last};

use crate::loads::load_on;
use crate::reached::reached;
use cells::line::Line;
use cells::link::{Link, far_at};
use cells::memories::Memories;
use cells::record::Record;
use clauses::cables::far_enabled;
use clauses::pairs::link_user;
use clauses::ties::carried_for;
use names::Slot;

fn fed_over_to(m: &Memories, slot: Slot, l: usize, far: Slot, k: usize) -> bool
    ensures { result ≡ fed_over_to (world_of m.now) slot.0 l far.0 k }
{
    let carried = carried_for(m, slot, link_user(m.state, slot, l));
    reached(m, far, k) == carried
}

// Over a cable the far port, with its line, ends where the circuit that is sent to it has come to.
pub fn fed_over(m: &Memories, slot: Slot, l: usize) -> bool
    ensures { result ≡ fed_over (world_of m.now) slot.0 l }
{
    match far_at(m.state, slot, l) {
        Some((far, k)) => fed_over_to(m, slot, l, far, k),
        None => true,
    }
}

// A line is in use only where both ends are enabled.
pub fn between(st: &[u32], slot: Slot, l: usize) -> bool
    ensures { result ≡ between (lined st.now []) slot.0 l }
{
    let k = Line::at(st, slot, l);
    let x = Link::at(st, slot, l);
    (k.ring.held == 0) | ((x.setup.enabled == 1) & far_enabled(st, x.cable))
}

fn is_greeted(st: &[u32], f: Option<(Slot, usize)>) -> bool
    ensures { result ≡ on_far f false (is_greeted (lined st.now [])) }
{
    f.is_some_and(|(m, k)| Link::at(st, m, k).flow.greeted == 1)
}

// A credit is on a line only towards a greeted end.
pub fn towards(m: &Memories, slot: Slot, l: usize) -> bool
    ensures { result ≡ towards (world_of m.now) slot.0 l }
{
    let on = load_on(m, slot, l);
    let greeted = is_greeted(m.state, far_at(m.state, slot, l));
    (on.credits == 0) | greeted
}

fn no_credit(m: &Memories, f: Option<(Slot, usize)>) -> bool
    ensures { result ≡ on_far f false (no_credit (world_of m.now)) }
{
    match f {
        Some((far, k)) => load_on(m, far, k).credits == 0,
        None => false,
    }
}

// While a HELLO is on a line its sender's credit is 0, no credit is on the line back, and no token stands behind it.
pub fn hello_last(m: &Memories, slot: Slot, l: usize) -> bool
    ensures { result ≡ hello_last (world_of m.now) slot.0 l }
{
    let on = load_on(m, slot, l);
    let x = Link::at(m.state, slot, l);
    let back = no_credit(m, far_at(m.state, slot, l));
    (on.hellos == 0) | ((x.flow.credit == 0) & ((on.behind == 0) & back))
}
