// What a Step is to do (document 01, "What a Step does"), read off the state and the port's tokens with
// nothing changed. What is done of it is crate switch's.
#![tactic(auto)]

pub mod read;

ghost use Rattle.std.specs.Prelude.{◌≡◌};
ghost use Rattle.acts.specs.Needs.{NumberFits};
ghost use Rattle.cells.specs.View.{view};
ghost use Rattle.cells.specs.World.{world};
ghost use Rattle.plans.specs.Needs.{Reads};
ghost use Rattle.plans.specs.Plan.{route_plan, channel_plan, unit_plan, here_plan, step_by_way, way_plan};
ghost use Rattle.plans.specs.Plan.{header_plan, out_plan, hand_plan, by_hop, step_plan};

use crate::read::{
    lowest_link, lowest_tile, marked_width, network_at, number_in, size_of, target_at,
};
use acts::circuit::channel_claimed;
use acts::{channel_full, number_at, width_at, word_at};
use cells::link::Link;
use cells::node::Node;
use cells::port::Port;
use cells::record::Record;
use cells::unit::Unit;
use circuits::{Cause, Hop, hop_of};
use names::Slot;
use names::size::REPLY_PORT;
use routing::way::way_to;
use tokens::header::Target;

#[derive(Clone, Copy)]
pub enum Plan {
    // nothing is held
    Idle,
    // nothing can be done now
    Wait,
    // a circuit opens outward, by this link
    OpenOut(usize),
    // a circuit opens to this channel, by this tile link
    OpenChannel(usize, usize),
    // a circuit opens to the control unit
    OpenUnit,
    // a circuit is refused, and is to be dropped
    Refuse(Cause),
    // a token moves over this link
    MoveOut(usize),
    // a token is handed to this channel, over this tile link
    Hand(usize, usize),
    // the control unit hears a token
    Hear,
    // a token of a refused circuit is dropped
    Drop(Cause),
}

// Towards another node, by a direction and a network.
fn route_plan(st: &[u32], slot: Slot, d: u32, v: u32) -> Plan
    ensures { result ≡ route_plan (view st.now) slot.0 d v }
{
    if let Some(l) = lowest_link(st, slot, d, v, true) {
        return Plan::OpenOut(l);
    }
    if lowest_link(st, slot, d, v, false).is_some() {
        return Plan::Wait;
    }
    Plan::Refuse(Cause::NoRoute)
}

// To a channel of this node.
#[tactic(auto, using(laws::proofs::All::place_none))]
fn channel_plan(st: &[u32], slot: Slot, c: usize) -> Plan
    ensures { result ≡ channel_plan (view st.now) slot.0 c }
{
    let Some(t) = lowest_tile(st, slot) else {
        return Plan::Wait;
    };
    if channel_claimed(st, slot, c) {
        return Plan::Wait;
    }
    Plan::OpenChannel(c, t)
}

// To this node's control unit.
fn unit_plan(st: &[u32], slot: Slot) -> Plan
    ensures { result ≡ unit_plan (view st.now) slot.0 }
{
    let k = Unit::at(st, slot, 0);
    let reply = Port::at(st, slot, REPLY_PORT);
    let busy = !(k.serves.kind == 0) | !(reply.counters.held == 0);
    if busy {
        return Plan::Wait;
    }
    Plan::OpenUnit
}

fn here_plan(st: &[u32], slot: Slot, g: Target) -> Plan
    ensures { result ≡ here_plan (view st.now) slot.0 g }
{
    match g {
        Target::Channel(_, c) => channel_plan(st, slot, c as usize),
        Target::Unit(_) => unit_plan(st, slot),
    }
}

fn by_way(st: &[u32], slot: Slot, p: usize, g: Target, way: Option<u32>) -> Plan
    ensures { result ≡ step_by_way (view st.now) slot.0 p g way }
{
    match way {
        None => here_plan(st, slot, g),
        Some(b) => {
            let k = Node::at(st, slot, 0);
            let d = k.directions;
            route_plan(st, slot, d.entry(b), network_at(st, slot, p))
        }
    }
}

fn way_plan(st: &[u32], slot: Slot, p: usize, g: Target) -> Plan
    requires { NumberFits (view st.now) slot.0 }
    ensures { result ≡ way_plan (view st.now) slot.0 p g }
{
    let way = way_to(number_in(g), number_at(st, slot), width_at(st, slot));
    by_way(st, slot, p, g, way)
}

// A header at the front of a port without a circuit.
fn header_plan(st: &[u32], mem: &[u16], slot: Slot, p: usize) -> Plan
    requires { Reads (world st.now mem.now) slot.0 p 1 }
    ensures { result ≡ header_plan (world st.now mem.now) slot.0 p }
{
    let width = marked_width(word_at(st, mem, slot, p, 0));
    let k = Port::at(st, slot, p);
    if k.counters.held < size_of(width) {
        return Plan::Wait;
    }
    if width != width_at(st, slot) {
        return Plan::Refuse(Cause::Split);
    }
    way_plan(st, slot, p, target_at(st, mem, slot, p))
}

// Outward by a link.
fn out_plan(st: &[u32], slot: Slot, l: usize) -> Plan
    ensures { result ≡ out_plan (view st.now) slot.0 l }
{
    let k = Link::at(st, slot, l);
    if k.flow.credit == 0 {
        return Plan::Wait;
    }
    Plan::MoveOut(l)
}

// To a channel by a tile link.
fn hand_plan(st: &[u32], slot: Slot, c: usize, t: usize, word: u16) -> Plan
    ensures { result ≡ hand_plan (view st.now) slot.0 c t word }
{
    if channel_full(st, slot, c, word) {
        return Plan::Wait;
    }
    Plan::Hand(c, t)
}

fn by_hop(st: &[u32], mem: &[u16], slot: Slot, p: usize, h: Hop) -> Plan
    requires { Reads (world st.now mem.now) slot.0 p 1 }
    ensures { result ≡ by_hop (world st.now mem.now) slot.0 p h }
{
    match h {
        Hop::Shut => header_plan(st, mem, slot, p),
        Hop::Out(l) => out_plan(st, slot, l as usize),
        Hop::Channel(c, t) => {
            let word = word_at(st, mem, slot, p, 0);
            hand_plan(st, slot, c as usize, t as usize, word)
        }
        Hop::Unit => Plan::Hear,
        Hop::Dropped(x) => Plan::Drop(x),
    }
}

// What a Step of a port does.
#[tactic(auto, unfolding(crate::specs::Plan::step_plan))]
pub fn plan_of(st: &[u32], mem: &[u16], slot: Slot, p: usize) -> Plan
    requires { Reads (world st.now mem.now) slot.0 p 0 }
    ensures { result ≡ step_plan (world st.now mem.now) slot.0 p }
{
    let k = Port::at(st, slot, p);
    if k.counters.held == 0 {
        return Plan::Idle;
    }
    by_hop(st, mem, slot, p, hop_of(k.leg.circuit, k.leg.tile))
}
