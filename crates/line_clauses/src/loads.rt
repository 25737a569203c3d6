// How much is on lines, and what Sound asks of it. A far end is matched, here and in ties: with `is_none_or` over a closure that holds all
// memories the proof did not close.
ghost use Rattle.std.specs.Prelude.{◌≡◌, [], ◌+◌, leb};
ghost use Rattle.cells.specs.Memories.{world_of};
ghost use Rattle.ports.specs.Queue.{capacity};
ghost use Rattle.cells.specs.View.{view};
ghost use Rattle.cells.specs.World.{lined};
ghost use Rattle.line_clauses.specs.Lines.{line_ready, load_at, few, few_on, unlined, room_with, room_to, room_over};
ghost use Rattle.line_clauses.specs.Lines.{count_with, count_to, counted, lines_to, lines_at};

use cells::layout::LINE_WORDS;
use cells::line::Line;
use cells::link::{Link, far_at};
use cells::memories::Memories;
use cells::port::Port;
use cells::record::Record;
use lines::CAPACITY;
use lines::load::{Load, load_at};
use names::Slot;
use names::size::LINKS;
use ports::Counters;

// The lines' memory has this line's stretch, and its counters are those of a ring.
pub fn line_ready(m: &Memories, slot: Slot, l: usize) -> bool
    ensures { result ≡ line_ready (world_of m.now) slot.0 l }
{
    let k = Line::at(m.state, slot, l);
    (slot.0 < m.lines.len() / LINE_WORDS)
        & ((l < LINKS) & ((k.ring.head < CAPACITY) & (k.ring.held <= CAPACITY)))
}

// How much is on a line; too many credits and HELLOs where it cannot be read.
#[tactic(auto, using(crate::proofs::Readies::line_fair, crate::proofs::Readies::line_reaches), unfolding(crate::specs::Lines::load_at))]
pub fn load_on(m: &Memories, slot: Slot, l: usize) -> Load
    ensures { result ≡ load_at (world_of m.now) slot.0 l }
{
    if line_ready(m, slot, l) {
        let k = Line::at(m.state, slot, l);
        return load_at(k.ring, m.lines, slot, l);
    }
    Load {
        tokens: 0,
        credit: 0,
        credits: 2,
        hellos: 2,
        behind: 0,
    }
}

fn few(k: Load) -> bool
    ensures { result ≡ few k }
{
    (k.credits <= 1) & (k.hellos <= 1)
}

// "allows one credit and one HELLO there"
pub fn few_on(m: &Memories, slot: Slot, l: usize) -> bool
    ensures { result ≡ few_on (world_of m.now) slot.0 l }
{
    few(load_on(m, slot, l))
}

// Without a cable nothing is on a line, and nothing is issued.
pub fn unlined(st: &[u32], slot: Slot, l: usize) -> bool
    ensures { result ≡ unlined (lined st.now []) slot.0 l }
{
    let x = Link::at(st, slot, l);
    let k = Line::at(st, slot, l);
    (x.cable.wired == 1) | ((k.ring.held == 0) & (k.issued == 0))
}

// Added in 64 bits, so that words of any size are compared and none wraps.
fn fits(credit: u32, coming: u32, going: u32, held: u32) -> bool
    ensures { result ≡ leb (credit + coming + (going + held)) capacity }
{
    credit as u64 + coming as u64 + (going as u64 + held as u64) <= Counters::CAPACITY as u64
}

fn room_with(st: &[u32], slot: Slot, l: usize, m: Slot, k: usize, going: Load, coming: Load) -> bool
    ensures { result ≡ room_with (view st.now) slot.0 l m.0 k going coming }
{
    let x = Link::at(st, slot, l);
    let far = Port::at(st, m, k);
    fits(
        x.flow.credit,
        coming.credit,
        going.tokens,
        far.counters.held,
    )
}

fn room_to(m: &Memories, slot: Slot, l: usize, far: Slot, k: usize) -> bool
    ensures { result ≡ room_to (world_of m.now) slot.0 l far.0 k }
{
    let going = load_on(m, slot, l);
    let coming = load_on(m, far, k);
    room_with(m.state, slot, l, far, k, going, coming)
}

// Credit in hand and on the line to the link, and tokens on the line from it and held at the far end, are at most 64.
pub fn room_over(m: &Memories, slot: Slot, l: usize) -> bool
    ensures { result ≡ room_over (world_of m.now) slot.0 l }
{
    match far_at(m.state, slot, l) {
        Some((far, k)) => room_to(m, slot, l, far, k),
        None => true,
    }
}

fn count_with(
    st: &[u32],
    slot: Slot,
    l: usize,
    m: Slot,
    k: usize,
    going: Load,
    coming: Load,
) -> bool
    ensures { result ≡ count_with (view st.now) slot.0 l m.0 k going coming }
{
    let x = Line::at(st, slot, l);
    let far = Link::at(st, m, k);
    let sum = far.flow.credit as u64 + going.credit as u64 + coming.tokens as u64;
    !(coming.hellos == 0) | (x.issued as u64 == sum)
}

fn count_to(m: &Memories, slot: Slot, l: usize, far: Slot, k: usize) -> bool
    ensures { result ≡ count_to (world_of m.now) slot.0 l far.0 k }
{
    let going = load_on(m, slot, l);
    let coming = load_on(m, far, k);
    count_with(m.state, slot, l, far, k, going, coming)
}

// While no HELLO is coming to a receiver, its count is the far end's credit, the credit on the line to that end and the tokens on the line
// from it.
pub fn counted(m: &Memories, slot: Slot, l: usize) -> bool
    ensures { result ≡ counted (world_of m.now) slot.0 l }
{
    match far_at(m.state, slot, l) {
        Some((far, k)) => count_to(m, slot, l, far, k),
        None => true,
    }
}

fn lines_to(m: &Memories, slot: Slot, l: usize, far: Slot, k: usize) -> bool
    ensures { result ≡ lines_to (world_of m.now) slot.0 l far.0 k }
{
    let going = load_on(m, slot, l);
    let coming = load_on(m, far, k);
    let counted = count_with(m.state, slot, l, far, k, going, coming) & unlined(m.state, slot, l);
    room_with(m.state, slot, l, far, k, going, coming) & (few(going) & counted)
}

// All that Sound asks of the lines at a link, each of the two read once.
pub fn lines_at(m: &Memories, slot: Slot, l: usize) -> bool
    ensures { result ≡ lines_at (world_of m.now) slot.0 l }
{
    match far_at(m.state, slot, l) {
        Some((far, k)) => lines_to(m, slot, l, far, k),
        None => few_on(m, slot, l) & unlined(m.state, slot, l),
    }
}
