// What the calls are composed of: each act changes one record, and at most one word of token memory.
#![tactic(auto)]

pub mod circuit;

ghost use Rattle.std.specs.Prelude.{◌≡◌, ◌+◌, ◌<◌};
ghost use Rattle.names.specs.Size.{ports, ends, numbers};
ghost use Rattle.tokens.specs.Header.{words};
ghost use Rattle.cells.specs.View.{view};
ghost use Rattle.cells.specs.World.{world};
ghost use Rattle.acts.specs.Acts.{width_at, number_at, pushed, pushed_all, word_at, first_at, popped};
ghost use Rattle.acts.specs.Acts.{networked, sent_by, sends_to, until_closed, channel_full, buffer_after, handed};
ghost use Rattle.acts.specs.Needs.{NumberFits, Room, Holds, Keeps, Given};

use cells::end::{Buffer, End};
use cells::node::Node;
use cells::port::Port;
use cells::record::Record;
use cells::{end, port};
use circuits::{Peer, of_peer};
use names::size::{END_BUFFER, SINK};
use names::{NodeNumber, Slot};
use ports::{Ports, put_at, take_at};
use tokens::header::{Header, Width};
use tokens::word::{closes, is_pause};

// What a channel-end holds at most, beside words of 32 bits.
const BUFFER: u32 = END_BUFFER as u32;

// The width of a node's headers, at this moment.
pub fn width_at(st: &[u32], slot: Slot) -> Width
    ensures { result ≡ width_at (view st.now) slot.0 }
{
    let k = Node::at(st, slot, 0);
    if k.width == 1 {
        return Width::One;
    }
    Width::Three
}

// A node's number.
pub fn number_at(st: &[u32], slot: Slot) -> NodeNumber
    requires { NumberFits (view st.now) slot.0 }
    ensures { result ≡ number_at (view st.now) slot.0 }
{
    let k = Node::at(st, slot, 0);
    NodeNumber(k.number as u16)
}

// Puts a token into a port, behind those held.
#[tactic(auto, unfolding(crate::specs::Acts::pushed))]
pub fn push(st: &mut [u32], mem: &mut [u16], slot: Slot, p: usize, word: u16)
    requires { Room (world st.old mem.old) slot.0 p 1 }
    ensures { world st.new mem.new ≡ pushed (world st.old mem.old) slot.0 p word }
{
    let k = Port::at(st, slot, p);
    let after = put_at(k.counters, mem, slot, p, word);
    port::put_counters(st, slot, p, after);
}

// Puts a header's words into a port, in order.
#[tactic(auto, using(crate::proofs::Pushes::less, crate::proofs::Pushes::room_after))]
pub fn push_header(st: &mut [u32], mem: &mut [u16], slot: Slot, p: usize, h: Header)
    requires { Room (world st.old mem.old) slot.0 p 3 }
    ensures { world st.new mem.new
        ≡ pushed_all (world st.old mem.old) slot.0 p (words h) }
{
    match h {
        Header::Narrow => {}
        Header::One(a) => push(st, mem, slot, p, a),
        Header::Three(a, b, c) => {
            push(st, mem, slot, p, a);
            push(st, mem, slot, p, b);
            push(st, mem, slot, p, c);
        }
    }
}

// The i-th token of a port, oldest first.
pub fn word_at(st: &[u32], mem: &[u16], slot: Slot, p: usize, i: u32) -> u16
    requires { Holds (world st.now mem.now) slot.0 p (i + 1) }
    ensures { result ≡ word_at (world st.now mem.now) slot.0 p i }
{
    let k = Port::at(st, slot, p);
    Ports::word(k.counters, mem, slot, p, i)
}

// Takes the oldest token of a port.
#[tactic(auto, unfolding(crate::specs::Acts::popped))]
pub fn pop(st: &mut [u32], mem: &mut [u16], slot: Slot, p: usize) -> u16
    requires { Holds (world st.old mem.old) slot.0 p 1 }
    ensures { (result ≡ first_at (world st.old mem.old) slot.0 p)
        × (world st.new mem.new ≡ popped (world st.old mem.old) slot.0 p) }
{
    let k = Port::at(st, slot, p);
    let taken = take_at(k.counters, mem, slot, p);
    port::put_counters(st, slot, p, taken.counters);
    taken.token
}

// Who has a circuit until its END or PAUSE: nobody where this word closes it.
pub fn still(word: u16, x: Peer) -> Peer
    ensures { result ≡ until_closed word x }
{
    if closes(word) {
        return Peer::Nobody;
    }
    x
}

// A channel has no room for this word; the sink always has.
pub fn channel_full(st: &[u32], slot: Slot, c: usize, word: u16) -> bool
    ensures { result ≡ channel_full (view st.now) slot.0 c word }
{
    let k = End::at(st, slot, c);
    !(c == SINK as usize) & ((BUFFER <= k.buffer.held) & !is_pause(word))
}

// A channel-end's buffer after a token: it keeps every one but PAUSE, and has room for those.
fn keep(k: Buffer, word: u16) -> Buffer
    requires { Keeps k word }
    ensures { result ≡ buffer_after k word }
{
    if is_pause(word) {
        return k;
    }
    let mut t = k.tokens;
    let i = k.held as usize;
    t[i] = word as u32;
    Buffer {
        held: k.held + 1,
        tokens: t,
    }
}

// A channel is handed a token; the sink forgets it.
pub fn give(st: &mut [u32], slot: Slot, c: usize, word: u16)
    requires { (slot.0 < (view st.old).nodes) × Given (view st.old) slot.0 c word }
    ensures { view st.new ≡ handed (view st.old) slot.0 c word }
{
    if c == SINK as usize {
        return;
    }
    let k = End::at(st, slot, c);
    let after = keep(k.buffer, word);
    end::put_buffer(st, slot, c, after);
}

// Where a channel-end's open circuit goes.
pub fn set_sending(st: &mut [u32], slot: Slot, c: usize, x: Peer)
    requires { (slot.0 < (view st.old).nodes) × (c < ends) }
    ensures { view st.new ≡ sends_to (view st.old) slot.0 c x }
{
    end::put_sending(st, slot, c, of_peer(x));
}

// The channel-end whose open circuit goes by a port.
pub fn set_sender(st: &mut [u32], slot: Slot, p: usize, x: Peer)
    requires { (slot.0 < (view st.old).nodes) × (p < ports) }
    ensures { view st.new ≡ sent_by (view st.old) slot.0 p x }
{
    port::put_sender(st, slot, p, of_peer(x));
}

// The network of the circuit that has taken a port.
pub fn set_network(st: &mut [u32], slot: Slot, p: usize, v: u32)
    requires { (slot.0 < (view st.old).nodes) × (p < ports) }
    ensures { view st.new ≡ networked (view st.old) slot.0 p v }
{
    port::put_network(st, slot, p, v);
}
