// What ports, channel-ends and control units hold.
ghost use Rattle.std.specs.Prelude.{◌≡◌, length};
ghost use Rattle.cells.specs.Memories.{world_of};
ghost use Rattle.cells.specs.View.{view};
ghost use Rattle.cells.specs.World.{world};
ghost use Rattle.clauses.specs.Contents.{ready, stages, front, back, contents, legal_word, legal_words, held_tokens};
ghost use Rattle.clauses.specs.Contents.{heard_tokens};

use cells::end::End;
use cells::layout::TOKEN_WORDS;
use cells::memories::Memories;
use cells::port::Port;
use cells::record::Record;
use cells::unit::Unit;
use circuits::hop_of;
use grammar::port::{Stages, stages_in};
use grammar::stage::Stage;
use names::Slot;
use names::size::PORTS;
use ports::{Counters, Ports};

// The memory has this port's stretch, and its counters are those of a ring.
fn ready(m: &Memories, slot: Slot, p: usize) -> bool
    ensures { result ≡ ready (world_of m.now) slot.0 p }
{
    let k = Port::at(m.state, slot, p);
    (slot.0 < m.tokens.len() / TOKEN_WORDS)
        & ((p < PORTS)
            & ((k.counters.head < Counters::CAPACITY) & (k.counters.held <= Counters::CAPACITY)))
}

// Where a port's tokens begin and end, to one who walks over them.
#[tactic(auto, using(crate::proofs::Readies::fair, crate::proofs::Readies::reaches, crate::proofs::Readies::read_held))]
fn stages(m: &Memories, slot: Slot, p: usize) -> Stages
    ensures { result ≡ stages (world_of m.now) slot.0 p }
{
    if ready(m, slot, p) {
        let k = Port::at(m.state, slot, p);
        let words = Ports::words(k.counters, m.tokens, slot, p);
        return stages_in(hop_of(k.leg.circuit, k.leg.tile), &words);
    }
    Stages {
        front: Stage::Bad,
        back: Stage::Bad,
    }
}

pub fn front(m: &Memories, slot: Slot, p: usize) -> Stage
    ensures { result ≡ front (world_of m.now) slot.0 p }
{
    let s = stages(m, slot, p);
    s.front
}

pub fn back(m: &Memories, slot: Slot, p: usize) -> Stage
    ensures { result ≡ back (world_of m.now) slot.0 p }
{
    let s = stages(m, slot, p);
    s.back
}

// The sentences of the list on what may stand in a port.
pub fn contents(m: &Memories, slot: Slot, p: usize) -> bool
    ensures { result ≡ contents (world_of m.now) slot.0 p }
{
    let k = Port::at(m.state, slot, p);
    if k.counters.held == 0 {
        // a port that holds nothing holds nothing wrong
        return ready(m, slot, p);
    }
    back(m, slot, p) != Stage::Bad
}

fn legal_word(t: u32, ends: bool) -> bool
    ensures { result ≡ legal_word ends t }
{
    (t < 0x01C2) & (!(t == 0x0102) & (ends | !(t == 0x0101)))
}

// Each word that is held is legal, END where it is kept.
fn legal_words(words: &[u32], held: u32, ends: bool) -> bool
    ensures { result ≡ legal_words ends (length words.now) held words.now }
{
    words
        .iter()
        .take(held as usize)
        .all(|t| legal_word(*t, ends))
}

// "tokens .. are legal": in a channel-end, no PAUSE.
#[tactic(auto, using(crate::proofs::Meanings::end_words), unfolding(laws::specs::All::all))]
pub fn held_tokens(st: &[u32], slot: Slot, c: usize) -> bool
    ensures { result ≡ held_tokens (view st.now) slot.0 c }
{
    let k = End::at(st, slot, c);
    if k.buffer.held == 0 {
        // what holds nothing holds nothing wrong
        return true;
    }
    let t = k.buffer.tokens;
    legal_words(&t, k.buffer.held, true)
}

// And in a control unit that serves a circuit, neither END nor PAUSE, which end its message.
pub fn heard_tokens(st: &[u32], slot: Slot) -> bool
    ensures { result ≡ heard_tokens (view st.now) slot.0 0 }
{
    let k = Unit::at(st, slot, 0);
    if k.serves.kind == 0 {
        return true;
    }
    let t = k.hearing.tokens;
    legal_words(&t, k.hearing.heard, false)
}
