// A Set that is not refused, made: each form reads its record, changes it, and writes it back.
ghost use Rattle.std.specs.Prelude.{◌≡◌, false, ◌<◌, Ok};
ghost use Rattle.names.specs.Size.{links};
ghost use Rattle.answers.specs.Out.{out};
ghost use Rattle.routing.specs.Direction.{with_entry};
ghost use Rattle.cells.specs.View.{view, with_node, with_setup};
ghost use Rattle.cells.specs.World.{lined};
ghost use Rattle.cells.specs.Changes.{numbered_as, width_as, directions_as, directed_to, network_as};
ghost use Rattle.travel.specs.Needs.{Cabled};
ghost use Rattle.settings.specs.Set.{enabled_or, set_busy, set_answer, set_made};
ghost use Rattle.settings.specs.Needs.{Settable, Settled};

use crate::Setting;
use answers::Answer;
use cells::link::Link;
use cells::node::Node;
use cells::record::Record;
use names::{NodeNumber, Slot};
use travel::line::{disable, hello};

fn set_number(st: &mut [u32], slot: Slot, number: NodeNumber)
    requires { slot.0 < (view st.old).nodes }
    ensures { view st.new ≡ with_node (view st.old) slot.0 (numbered_as ((view st.old).own slot.0 0) number.0) }
{
    Node::change(st, slot, 0, move |k: &mut Node| k.number = number.0 as u32);
}

fn set_width(st: &mut [u32], slot: Slot, v: u32)
    requires { slot.0 < (view st.old).nodes }
    ensures { view st.new ≡ with_node (view st.old) slot.0 (width_as ((view st.old).own slot.0 0) v) }
{
    Node::change(st, slot, 0, move |k: &mut Node| k.width = v);
}

fn set_direction(st: &mut [u32], slot: Slot, bit: u32, v: u32)
    requires { slot.0 < (view st.old).nodes }
    ensures { view st.new ≡ with_node (view st.old) slot.0
        (directions_as ((view st.old).own slot.0 0) (with_entry ((view st.old).own slot.0 0).directions bit v)) }
{
    let k = Node::at(st, slot, 0);
    let directions = k.directions.with_entry(bit, v);
    Node::change(st, slot, 0, move |k: &mut Node| k.directions = directions);
}

#[tactic(auto, using(laws::proofs::Table::upd_own))]
fn set_link_direction(st: &mut [u32], slot: Slot, l: usize, v: u32)
    requires { (slot.0 < (view st.old).nodes) × (l < links) }
    ensures { view st.new ≡ with_setup (view st.old) slot.0 l (directed_to ((view st.old).links.setups slot.0 l) v) }
{
    Link::change(st, slot, l, move |k: &mut Link| k.setup.direction = v);
}

#[tactic(auto, using(laws::proofs::Table::upd_own))]
fn set_network(st: &mut [u32], slot: Slot, l: usize, v: u32)
    requires { (slot.0 < (view st.old).nodes) × (l < links) }
    ensures { view st.new ≡ with_setup (view st.old) slot.0 l (network_as ((view st.old).links.setups slot.0 l) v) }
{
    Link::change(st, slot, l, move |k: &mut Link| k.setup.network = v);
}

// Enabling greets nobody and gives no credit.
#[tactic(auto, using(laws::proofs::Table::upd_own))]
fn set_enable(st: &mut [u32], slot: Slot, l: usize, v: u32)
    requires { (slot.0 < (view st.old).nodes) × (l < links) × Cabled (view st.old) slot.0 l }
    ensures { view st.new ≡ enabled_or (view st.old) slot.0 l v }
{
    if v == 0 {
        disable(st, slot, l);
        return;
    }
    Link::change(st, slot, l, |k: &mut Link| k.setup.enabled = 1);
}

// The Set itself, for a node and a link that are there, of which HELLO finds room on its line.
pub fn make(st: &mut [u32], ls: &mut [u16], slot: Slot, x: Setting) -> Answer
    requires { (slot.0 < (view st.old).nodes) × Settable x × Settled (lined st.old ls.old)
        × (set_busy (lined st.old ls.old) slot.0 x ≡ false) }
    ensures { out (Ok result) (lined st.new ls.new)
        ≡ out (set_answer x) (set_made (lined st.old ls.old) slot.0 x) }
{
    match x {
        Setting::Number(v) => set_number(st, slot, NodeNumber(v as u16)),
        Setting::Width(v) => set_width(st, slot, v),
        Setting::Direction(b, v) => set_direction(st, slot, b, v),
        Setting::LinkDirection(l, v) => set_link_direction(st, slot, l, v),
        Setting::Network(l, v) => set_network(st, slot, l, v),
        Setting::Enable(l, v) => set_enable(st, slot, l, v),
        Setting::Hello(l) => {
            hello(st, ls, slot, l);
            return Answer::Granted(0);
        }
    }
    Answer::Done
}
