// What is asked at every place of every node: one test of the Sound list, all that the list asks there,
// a tie, or that it is quiet.
ghost use Rattle.std.specs.Prelude.{◌≡◌, ℕ, Bool};
ghost use Rattle.cells.specs.Memories.{world_of};
ghost use Rattle.laws.specs.All.{all, every};
ghost use Rattle.cells.specs.View.{view};
ghost use Rattle.cells.specs.World.{lent};
ghost use Rattle.sound.specs.Questions.{Answers, tied, quiet_port, quiet_end, quiet_line, everywhere};

use crate::passes::{of_end, of_link, of_node, of_port, of_tile};
use crate::tests::{Test, holds_at, places};
use cells::end::End;
use cells::line::Line;
use cells::memories::Memories;
use cells::node;
use cells::port::Port;
use cells::record::Record;
use clauses::ties::{idle, replied, sends, unfed, unsent};
use line_clauses::ties::{between, fed_over, hello_last, towards};
use names::Slot;
use names::size::{ENDS, LINKS, PORTS, TILE_LINKS};

#[derive(Clone, Copy)]
pub enum Question {
    // one row of the Sound list, its number and its test
    Row(u8, Test),
    // all that the Sound list asks of a node, link, port, tile link and channel-end
    OfNode,
    OfLink,
    OfPort,
    OfTile,
    OfEnd,
    // the ties: those of a link, of a channel-end, of port 12
    Tied,
    Sends,
    Replied,
    // no token and no circuit in a port
    QuietPort,
    // no token, no claim and no open circuit at a channel-end
    QuietEnd,
    // nothing on a line
    QuietLine,
}

// All that the ties ask of a link.
#[tactic(auto, unfolding(line_clauses::specs::Lines::load_at))]
pub(crate) fn tied(m: &Memories, slot: Slot, l: usize) -> bool
    ensures { result ≡ tied (world_of m.now) slot.0 l }
{
    let lined = between(m.state, slot, l) & (towards(m, slot, l) & hello_last(m, slot, l));
    let used = unsent(m, slot, l) & (idle(m.state, slot, l) & lined);
    fed_over(m, slot, l) & (unfed(m, slot, l) & used)
}

pub(crate) fn quiet_port(st: &[u32], slot: Slot, p: usize) -> bool
    ensures { result ≡ quiet_port (view st.now) slot.0 p }
{
    let k = Port::at(st, slot, p);
    (k.counters.held == 0) & (k.leg.circuit.kind == 0)
}

pub(crate) fn quiet_end(st: &[u32], slot: Slot, c: usize) -> bool
    ensures { result ≡ quiet_end (view st.now) slot.0 c }
{
    let k = End::at(st, slot, c);
    (k.buffer.held == 0) & ((k.claim.kind == 0) & (k.sending.kind == 0))
}

pub(crate) fn quiet_line(st: &[u32], slot: Slot, l: usize) -> bool
    ensures { result ≡ quiet_line (view st.now) slot.0 l }
{
    let k = Line::at(st, slot, l);
    k.ring.held == 0
}

// A question at every place of one node.
fn on_node<F: Fn(Slot, usize) -> bool>(slot: Slot, places: usize, holds: &F) -> bool
    requires { F.IsAlwaysCallable holds.now }
    ensures { (f : ℕ → ℕ → Bool) → Answers (F.post holds.now) f → result ≡ all places (f slot.0) }
{
    (0..places).all(|i| holds(slot, i))
}

// A question at every place of every node, of which each has so many: `holds` answers it at one.
pub fn at_every_place<F: Fn(Slot, usize) -> bool>(st: &[u32], places: usize, holds: F) -> bool
    requires { F.IsAlwaysCallable holds }
    ensures { (f : ℕ → ℕ → Bool) → Answers (F.post holds) f → result ≡ every (view st.now).nodes places f }
{
    (0..node::count(st)).all(|n| on_node(Slot(n), places, &holds))
}

// The question at every place of every node. It is told apart once, and not at each place.
pub fn everywhere(m: &Memories, q: Question) -> bool
    ensures { result ≡ everywhere q (world_of m.now) }
{
    let st = m.state;
    match q {
        Question::Row(_, t) => at_every_place(st, places(t), |slot, i| holds_at(m, t, slot, i)),
        Question::OfNode => at_every_place(st, 1, |slot, i| of_node(m, slot, i)),
        Question::OfLink => at_every_place(st, LINKS, |slot, l| of_link(m, slot, l)),
        Question::OfPort => at_every_place(st, PORTS, |slot, p| of_port(m, slot, p)),
        Question::OfTile => at_every_place(st, TILE_LINKS, |slot, t| of_tile(m, slot, t)),
        Question::OfEnd => at_every_place(st, ENDS, |slot, c| of_end(m, slot, c)),
        Question::Tied => at_every_place(st, LINKS, |slot, l| tied(m, slot, l)),
        Question::Sends => at_every_place(st, ENDS, |slot, c| sends(m, slot, c)),
        Question::Replied => at_every_place(st, 1, |slot, _| replied(m, slot)),
        Question::QuietPort => at_every_place(st, PORTS, |slot, p| quiet_port(st, slot, p)),
        Question::QuietEnd => at_every_place(st, ENDS, |slot, c| quiet_end(st, slot, c)),
        Question::QuietLine => at_every_place(st, LINKS, |slot, l| quiet_line(st, slot, l)),
    }
}
