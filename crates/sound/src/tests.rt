// The tests of the Sound list, place by place.
ghost use Rattle.std.specs.Prelude.{◌≡◌};
ghost use Rattle.cells.specs.Memories.{world_of};
ghost use Rattle.cells.specs.World.{lent};
ghost use Rattle.sound.specs.Tests.{holds_at, places};

use cells::end::End;
use cells::line::Line;
use cells::link::Link;
use cells::memories::Memories;
use cells::node::Node;
use cells::port::Port;
use cells::record::Record;
use cells::tile::Tile;
use cells::unit::Unit;
use clauses::cables::{cable, credited, greeted};
use clauses::contents::{heard_tokens, held_tokens};
use clauses::counts::{
    end_counts, line_counts, link_counts, node_counts, port_counts, tile_counts, unit_counts,
};
use clauses::pairs::{Role, agrees, open_end, players, silent};
use line_clauses::loads::{counted, few_on, room_over, unlined};
use line_clauses::reached::holds_over;
use names::Slot;
use names::size::{ENDS, LINKS, PORTS, TILE_LINKS};

// An enum, and no closures: the published list, `sound_clauses`, has a test in each row.
#[derive(Clone, Copy)]
pub enum Test {
    // the counts of a node
    Nodes,
    // of a link
    Links,
    // of a port
    Ports,
    // of a tile link
    Tiles,
    // of a channel-end
    Ends,
    // of a control unit
    Units,
    // credit only where greeted
    Credited,
    // greeted only where wired with both ends enabled
    Greeted,
    // credit plus tokens held at the far end at most 64, with what travels between them
    Room,
    // cables agree at both ends
    Cable,
    // what a port holds, with its line behind
    Contents,
    // what a channel-end holds
    Held,
    // what a record names in a role names it back
    Agrees(Role),
    // an open channel-end is aimed, and its circuit exists
    OpenEnd,
    // port 12 is empty while the control unit serves a circuit
    Silent,
    // what a control unit has heard
    Heard,
    // the counts of a line
    Lines,
    // one credit and one HELLO on a line
    Few,
    // what a receiver has issued is on its way
    Counted,
    // without a cable there is no line
    Unlined,
}

// The test at one place.
#[tactic(auto, unfolding(line_clauses::specs::Lines::load_at))]
pub fn holds_at(m: &Memories, t: Test, slot: Slot, i: usize) -> bool
    ensures { result ≡ holds_at t (world_of m.now) slot.0 i }
{
    match t {
        Test::Nodes => node_counts(Node::at(m.state, slot, 0)),
        Test::Links => link_counts(Link::at(m.state, slot, i)),
        Test::Ports => port_counts(Port::at(m.state, slot, i), i),
        Test::Tiles => tile_counts(Tile::at(m.state, slot, i)),
        Test::Ends => end_counts(End::at(m.state, slot, i)),
        Test::Units => unit_counts(Unit::at(m.state, slot, 0)),
        Test::Credited => credited(m.state, slot, i),
        Test::Greeted => greeted(m.state, slot, i),
        Test::Room => room_over(m, slot, i),
        Test::Cable => cable(m.state, slot, i),
        Test::Contents => holds_over(m, slot, i),
        Test::Held => held_tokens(m.state, slot, i),
        Test::Agrees(r) => agrees(m.state, slot, r, i),
        Test::OpenEnd => open_end(m.state, slot, i),
        Test::Silent => silent(m.state, slot),
        Test::Heard => heard_tokens(m.state, slot),
        Test::Lines => line_counts(Line::at(m.state, slot, i)),
        Test::Few => few_on(m, slot, i),
        Test::Counted => counted(m, slot, i),
        Test::Unlined => unlined(m.state, slot, i),
    }
}

// How many places of a node it is made at.
pub fn places(t: Test) -> usize
    ensures { result ≡ places t }
{
    match t {
        Test::Nodes => 1,
        Test::Links => LINKS,
        Test::Ports => PORTS,
        Test::Tiles => TILE_LINKS,
        Test::Ends => ENDS,
        Test::Units => 1,
        Test::Credited => LINKS,
        Test::Greeted => LINKS,
        Test::Room => LINKS,
        Test::Cable => LINKS,
        Test::Contents => PORTS,
        Test::Held => ENDS,
        Test::Agrees(r) => players(r),
        Test::OpenEnd => ENDS,
        Test::Silent => 1,
        Test::Heard => 1,
        Test::Lines => LINKS,
        Test::Few => LINKS,
        Test::Counted => LINKS,
        Test::Unlined => LINKS,
    }
}
