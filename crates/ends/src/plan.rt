// What an Output is to do, read off the state with nothing changed.
ghost use Rattle.std.specs.Prelude.{◌≡◌};
ghost use Rattle.laws.specs.All.{place_below};
ghost use Rattle.names.specs.Size.{reply_port};
ghost use Rattle.acts.specs.Needs.{NumberFits};
ghost use Rattle.cells.specs.View.{view};
ghost use Rattle.ends.specs.Plan.{lowest_free, straight_plan, local_plan, port_plan, target_plan, open_plan, behind_plan, output_plan};

use acts::circuit::channel_claimed;
use acts::{channel_full, number_at, width_at};
use cells::end::End;
use cells::port::Port;
use cells::record::Record;
use circuits::{Peer, peer_of};
use clauses::pairs::taken;
use names::Slot;
use names::size::{FIRST_TILE_PORT, REPLY_PORT};
use ports::Counters;
use routing::way::way_to;
use tokens::header::{Target, is_narrow, make_header};

#[derive(Clone, Copy)]
pub enum Plan {
    // one byte can't carry the destination
    Narrow,
    // no room, or another circuit is in the way
    Full,
    // a circuit opens by this port
    Opens(usize),
    // behind its circuit's tokens, in this port
    Behind(usize),
    // to this channel of the same node
    Straight(usize),
}

// The lowest free port from the tile.
fn lowest_free(st: &[u32], slot: Slot) -> Option<usize>
    ensures { result ≡ place_below reply_port (lowest_free (view st.now) slot.0) }
{
    (FIRST_TILE_PORT..REPLY_PORT).find(|&p| !taken(st, slot, p))
}

#[tactic(auto, using(laws::proofs::All::place_none))]
fn port_plan(st: &[u32], slot: Slot) -> Plan
    ensures { result ≡ port_plan (view st.now) slot.0 }
{
    let Some(p) = lowest_free(st, slot) else {
        return Plan::Full;
    };
    Plan::Opens(p)
}

// To a channel that no other circuit claims.
fn straight_plan(st: &[u32], slot: Slot, d: usize, word: u16) -> Plan
    ensures { result ≡ straight_plan (view st.now) slot.0 d word }
{
    if channel_full(st, slot, d, word) {
        return Plan::Full;
    }
    Plan::Straight(d)
}

// A circuit opens to a channel of the same node.
fn channel_plan(st: &[u32], slot: Slot, channel: u8, word: u16) -> Plan
    ensures { result ≡ local_plan (view st.now) slot.0 channel word }
{
    let d = channel as usize;
    if channel_claimed(st, slot, d) {
        return Plan::Full;
    }
    straight_plan(st, slot, d, word)
}

// A circuit opens to a destination that its width can carry.
fn target_plan(st: &[u32], slot: Slot, g: Target, word: u16) -> Plan
    requires { NumberFits (view st.now) slot.0 }
    ensures { result ≡ target_plan (view st.now) slot.0 g word }
{
    match g {
        Target::Channel(m, c) => match way_to(m, number_at(st, slot), width_at(st, slot)) {
            None => channel_plan(st, slot, c, word),
            Some(_) => port_plan(st, slot),
        },
        Target::Unit(_) => port_plan(st, slot),
    }
}

// "The first opens a circuit. It has the node's width at that moment."
fn open_plan(st: &[u32], slot: Slot, g: Target, word: u16) -> Plan
    requires { NumberFits (view st.now) slot.0 }
    ensures { result ≡ open_plan (view st.now) slot.0 g word }
{
    if is_narrow(make_header(g, width_at(st, slot))) {
        return Plan::Narrow;
    }
    target_plan(st, slot, g, word)
}

// Behind its circuit's tokens in the port that it has taken.
fn behind_plan(st: &[u32], slot: Slot, p: usize) -> Plan
    ensures { result ≡ behind_plan (view st.now) slot.0 p }
{
    let k = Port::at(st, slot, p);
    if k.counters.held >= Counters::CAPACITY {
        return Plan::Full;
    }
    Plan::Behind(p)
}

// What putting this word out does, for a channel-end that is aimed at g.
#[tactic(auto, unfolding(crate::specs::Plan::output_plan))]
pub fn plan_of(st: &[u32], slot: Slot, c: usize, g: Target, word: u16) -> Plan
    requires { NumberFits (view st.now) slot.0 }
    ensures { result ≡ output_plan (view st.now) slot.0 c g word }
{
    let k = End::at(st, slot, c);
    match peer_of(k.sending) {
        Peer::Nobody => open_plan(st, slot, g, word),
        Peer::Port(p) => behind_plan(st, slot, p as usize),
        Peer::End(d) => straight_plan(st, slot, d as usize, word),
    }
}
