// All that the Sound list asks at one place of one table, in the order of its rows but for those on lines,
// which come last. Each record is read once for all of it, since the tests stand side by side; one that has
// no circuit names nobody, and is not asked for whom.
ghost use Rattle.std.specs.Prelude.{◌≡◌};
ghost use Rattle.cells.specs.Memories.{world_of};
ghost use Rattle.names.specs.Size.{links, ports, tile_links, ends};
ghost use Rattle.cells.specs.World.{lent};
ghost use Rattle.sound.specs.Clauses.{circuits, sound_clauses, asked};

use cells::end::End;
use cells::layout::LINE_WORDS;
use cells::line::Line;
use cells::link::Link;
use cells::memories::Memories;
use cells::node::Node;
use cells::port::Port;
use cells::record::Record;
use cells::tile::Tile;
use cells::unit::Unit;
use clauses::cables::{cable, credited, greeted};
use clauses::contents::{contents, heard_tokens, held_tokens};
use clauses::counts::{
    end_counts, line_counts, link_counts, node_counts, port_counts, tile_counts, unit_counts,
};
use clauses::pairs::{Role, agrees, open_end, silent};
use line_clauses::loads::lines_at;
use line_clauses::reached::{holds_over, nothing_comes};
use names::Slot;

pub fn of_node(m: &Memories, slot: Slot, i: usize) -> bool
    ensures { result ≡ asked sound_clauses 1 (world_of m.now) slot.0 i }
{
    let served = agrees(m.state, slot, Role::UnitPort, i) & silent(m.state, slot);
    let unit = unit_counts(Unit::at(m.state, slot, 0)) & (heard_tokens(m.state, slot) & served);
    node_counts(Node::at(m.state, slot, 0)) & unit
}

pub fn of_link(m: &Memories, slot: Slot, l: usize) -> bool
    ensures { result ≡ asked sound_clauses links (world_of m.now) slot.0 l }
{
    let named = agrees(m.state, slot, Role::LinkPort, l) & lines_at(m, slot, l);
    let cabled = greeted(m.state, slot, l) & (cable(m.state, slot, l) & named);
    let lined = line_counts(Line::at(m.state, slot, l)) & (credited(m.state, slot, l) & cabled);
    link_counts(Link::at(m.state, slot, l)) & lined
}

// What a port names names it back.
fn port_circuits(m: &Memories, slot: Slot, p: usize) -> bool
    ensures { result ≡ asked circuits ports (world_of m.now) slot.0 p }
{
    let inward = agrees(m.state, slot, Role::PortUnit, p)
        & (agrees(m.state, slot, Role::PortClaim, p) & agrees(m.state, slot, Role::PortEnd, p));
    agrees(m.state, slot, Role::PortLink, p) & (agrees(m.state, slot, Role::PortTile, p) & inward)
}

pub fn of_port(m: &Memories, slot: Slot, p: usize) -> bool
    ensures { result ≡ asked sound_clauses ports (world_of m.now) slot.0 p }
{
    let k = Port::at(m.state, slot, p);
    let counts = port_counts(k, p);
    let held = if nothing_comes(m.state, m.lines.len() / LINE_WORDS, slot, p) {
        contents(m, slot, p)
    } else {
        holds_over(m, slot, p)
    };
    let alone = (k.leg.circuit.kind == 0) & (k.sender.kind == 0);
    if alone {
        return counts & held;
    }
    counts & (held & port_circuits(m, slot, p))
}

pub fn of_tile(m: &Memories, slot: Slot, t: usize) -> bool
    ensures { result ≡ asked sound_clauses tile_links (world_of m.now) slot.0 t }
{
    tile_counts(Tile::at(m.state, slot, t)) & agrees(m.state, slot, Role::TilePort, t)
}

// What a channel-end names names it back, and an open one is aimed.
fn end_circuits(m: &Memories, slot: Slot, c: usize) -> bool
    ensures { result ≡ asked circuits ends (world_of m.now) slot.0 c }
{
    let sent = agrees(m.state, slot, Role::EndPort, c) & open_end(m.state, slot, c);
    let claimed = agrees(m.state, slot, Role::EndClaim, c)
        & (agrees(m.state, slot, Role::ClaimEnd, c) & sent);
    agrees(m.state, slot, Role::ClaimPort, c) & claimed
}

pub fn of_end(m: &Memories, slot: Slot, c: usize) -> bool
    ensures { result ≡ asked sound_clauses ends (world_of m.now) slot.0 c }
{
    let k = End::at(m.state, slot, c);
    let counts = end_counts(k);
    let held = held_tokens(m.state, slot, c);
    let alone = (k.sending.kind == 0) & (k.claim.kind == 0);
    if alone {
        return counts & held;
    }
    counts & (held & end_circuits(m, slot, c))
}
