// Looks: read-only, for any state and any memory, without the Sound test. A place that is not there has
// its answer: an all-zero record, or nothing. The records themselves are looked at by crate cells
// (`node::count`, `Node::at`, `Link::at`, `Port::at`, `Tile::at`, `End::at`, `Unit::at`, `Line::at`), and whether the
// network is quiet by crate sound (`is_quiet`).
#![tactic(auto)]

ghost use Rattle.std.specs.Prelude.{◌≡◌, ◌*◌, ◌^◌, ◌<◌};
ghost use Rattle.ports.specs.Ring.{Serves};
ghost use Rattle.cells.specs.View.{view};
ghost use Rattle.cells.specs.World.{world, lined};
ghost use Rattle.looks.specs.Looks.{direction, held_at, port_token, line_token, end_token};

use cells::end::End;
use cells::line::Line;
use cells::node::Node;
use cells::port::Port;
use cells::record::Record;
use lines::CAPACITY;
use names::Slot;
use names::size::{END_BUFFER, LINKS, PORTS};
use ports::{Counters, Queues};

// The direction entry of a node for a bit 0..15.
pub fn direction_of(st: &[u32], slot: Slot, bit: u32) -> u32
    ensures { result ≡ direction (view st.now) slot.0 bit }
{
    let k = Node::at(st, slot, 0);
    let d = k.directions;
    d.entry(bit)
}

// The i-th word of a queue, oldest first, wherever in its ring it begins: of a memory that has MANY
// queues of N words for each node.
#[tactic(auto, using(laws::proofs::All::and_false, ports::proofs::Stretches::reaches), unfolding(crate::specs::Looks::held_at))]
fn held_at<const MANY: usize, const N: u32>(
    c: Counters,
    memory: &[u16],
    slot: Slot,
    queue: usize,
    i: u32,
) -> Option<u32>
    requires { (0 < MANY) × (MANY * N < 2 ^ 64) × Serves N }
    ensures { result ≡ held_at MANY N c memory.now slot.0 queue i }
{
    if slot.0 >= memory.len() / (MANY * N as usize) {
        return None;
    }
    if queue >= MANY {
        return None;
    }
    if i >= c.held {
        return None;
    }
    if i >= N {
        return None;
    }
    let from = Counters {
        head: c.head % N,
        held: 0,
    };
    Some(Queues::<MANY, N>::word(from, memory, slot, queue, i) as u32)
}

// The word of the i-th token held in a port, oldest first.
pub fn port_token(st: &[u32], mem: &[u16], slot: Slot, p: usize, i: u32) -> Option<u32>
    ensures { result ≡ port_token (world st.now mem.now) slot.0 p i }
{
    let k = Port::at(st, slot, p);
    held_at::<PORTS, { Counters::CAPACITY }>(k.counters, mem, slot, p, i)
}

// The word of the i-th on the line that starts at a link, the first to arrive first.
pub fn line_token(st: &[u32], ls: &[u16], slot: Slot, l: usize, i: u32) -> Option<u32>
    ensures { result ≡ line_token (lined st.now ls.now) slot.0 l i }
{
    let k = Line::at(st, slot, l);
    held_at::<LINKS, CAPACITY>(k.ring, ls, slot, l, i)
}

// The word of the i-th token held in a channel-end, oldest first.
#[tactic(auto, using(laws::proofs::All::and_false), unfolding(crate::specs::Looks::end_token))]
pub fn end_token(st: &[u32], slot: Slot, c: usize, i: usize) -> Option<u32>
    ensures { result ≡ end_token (view st.now) slot.0 c i }
{
    let k = End::at(st, slot, c);
    if i >= END_BUFFER {
        return None;
    }
    if i >= k.buffer.held as usize {
        return None;
    }
    let t = k.buffer.tokens;
    Some(t[i])
}
