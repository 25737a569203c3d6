// Ties that last with the Sound list and are no part of it.
ghost use Rattle.std.specs.Prelude.{◌≡◌};
ghost use Rattle.cells.specs.Memories.{world_of};
ghost use Rattle.cells.specs.View.{view};
ghost use Rattle.cells.specs.World.{world};
ghost use Rattle.clauses.specs.Ties.{carried_for, unfed, unsent, idle, in_body, sends, replied};

use crate::contents::{back, front};
use crate::pairs::{link_user, sending};
use cells::link::Link;
use cells::memories::Memories;
use cells::record::Record;
use circuits::Peer;
use grammar::stage::{Stage, crossed};
use names::Slot;
use names::size::REPLY_PORT;

// What a link has carried: as much as has left the port that uses it, or nothing unfinished.
pub fn carried_for(m: &Memories, slot: Slot, x: Peer) -> Stage
    ensures { result ≡ carried_for (world_of m.now) slot.0 x }
{
    match x {
        Peer::Nobody => Stage::Fresh,
        Peer::Port(p) => crossed(front(m, slot, p as usize)),
        Peer::End(_) => Stage::Fresh,
    }
}

// An unwired link's port ends with a circuit's end.
pub fn unfed(m: &Memories, slot: Slot, l: usize) -> bool
    ensures { result ≡ unfed (world_of m.now) slot.0 l }
{
    if Link::at(m.state, slot, l).cable.wired == 1 {
        return true;
    }
    back(m, slot, l) == Stage::Fresh
}

// Of what leaves by an unwired link nothing has left yet.
pub fn unsent(m: &Memories, slot: Slot, l: usize) -> bool
    ensures { result ≡ unsent (world_of m.now) slot.0 l }
{
    if Link::at(m.state, slot, l).cable.wired == 1 {
        return true;
    }
    let carried = carried_for(m, slot, link_user(m.state, slot, l));
    carried == Stage::Fresh
}

// A disabled link is used by nobody.
pub fn idle(st: &[u32], slot: Slot, l: usize) -> bool
    ensures { result ≡ idle (view st.now) slot.0 l }
{
    let k = Link::at(st, slot, l);
    (k.setup.enabled == 1) | (k.user.kind == 0)
}

fn in_body(m: &Memories, slot: Slot, x: Peer) -> bool
    ensures { result ≡ in_body (world_of m.now) slot.0 x }
{
    match x {
        Peer::Nobody => true,
        Peer::Port(p) => back(m, slot, p as usize) == Stage::Body,
        Peer::End(_) => true,
    }
}

// The port of an open channel-end ends past a header, without END or PAUSE.
pub fn sends(m: &Memories, slot: Slot, e: usize) -> bool
    ensures { result ≡ sends (world_of m.now) slot.0 e }
{
    in_body(m, slot, sending(m.state, slot, e))
}

// Port 12 ends with a circuit's end.
pub fn replied(m: &Memories, slot: Slot) -> bool
    ensures { result ≡ replied (world_of m.now) slot.0 0 }
{
    back(m, slot, REPLY_PORT) == Stage::Fresh
}
