// Sound, tight and quiet: tests over the whole state and both memories of tokens, for any words at all.
#![tactic(auto)]

pub mod passes;
pub mod questions;
pub mod tests;

ghost use Rattle.std.specs.Prelude.{◌≡◌};
ghost use Rattle.cells.specs.Memories.{world_of};
ghost use Rattle.cells.specs.World.{lent};
ghost use Rattle.sound.specs.Clauses.{clause, counts, cables, tokens, outputs, claims, openings, travels, sound_clauses, ask, ask_all};
ghost use Rattle.sound.specs.Sound.{unsound_clause, sound, tight, quiet};

use crate::passes::{of_end, of_link, of_node, of_port, of_tile};
use crate::questions::{at_every_place, quiet_end, quiet_line, quiet_port, tied};
use crate::tests::{Test, holds_at, places};
use cells::layout::shaped;
use cells::memories::Memories;
use clauses::pairs::Role;
use clauses::ties::{replied, sends};
use names::size::{ENDS, LINKS, PORTS, TILE_LINKS};

// A row of the list: what was found before it, else its number, where that is past `after` and its test
// fails.
fn ask(m: &Memories, after: u32, found: u32, number: u8, t: Test) -> u32
    ensures { result ≡ ask after found (clause number t) (world_of m.now) }
{
    if !(found == 0) {
        return found;
    }
    let passes = (number as u32 <= after)
        | at_every_place(m.state, places(t), |slot, i| holds_at(m, t, slot, i));
    if passes {
        return 0;
    }
    number as u32
}

// Counts within their limits.
fn counts(m: &Memories, after: u32, found: u32) -> u32
    ensures { result ≡ ask_all after found counts (world_of m.now) }
{
    let c = ask(m, after, found, 2, Test::Nodes);
    let c = ask(m, after, c, 2, Test::Links);
    let c = ask(m, after, c, 2, Test::Ports);
    let c = ask(m, after, c, 2, Test::Tiles);
    let c = ask(m, after, c, 2, Test::Ends);
    let c = ask(m, after, c, 2, Test::Units);
    ask(m, after, c, 2, Test::Lines)
}

// Credits and cables.
fn cables(m: &Memories, after: u32, found: u32) -> u32
    ensures { result ≡ ask_all after found cables (world_of m.now) }
{
    let c = ask(m, after, found, 3, Test::Credited);
    let c = ask(m, after, c, 4, Test::Greeted);
    let c = ask(m, after, c, 5, Test::Room);
    ask(m, after, c, 6, Test::Cable)
}

// What is held.
fn tokens(m: &Memories, after: u32, found: u32) -> u32
    ensures { result ≡ ask_all after found tokens (world_of m.now) }
{
    let c = ask(m, after, found, 7, Test::Contents);
    let c = ask(m, after, c, 8, Test::Held);
    ask(m, after, c, 8, Test::Heard)
}

// A port's output names that port back and no other.
fn outputs(m: &Memories, after: u32, found: u32) -> u32
    ensures { result ≡ ask_all after found outputs (world_of m.now) }
{
    let c = ask(m, after, found, 9, Test::Agrees(Role::PortLink));
    let c = ask(m, after, c, 9, Test::Agrees(Role::LinkPort));
    let c = ask(m, after, c, 9, Test::Agrees(Role::PortTile));
    let c = ask(m, after, c, 9, Test::Agrees(Role::TilePort));
    let c = ask(m, after, c, 9, Test::Agrees(Role::PortUnit));
    ask(m, after, c, 9, Test::Agrees(Role::UnitPort))
}

// Each claim names one circuit that exists.
fn claims(m: &Memories, after: u32, found: u32) -> u32
    ensures { result ≡ ask_all after found claims (world_of m.now) }
{
    let c = ask(m, after, found, 10, Test::Agrees(Role::PortClaim));
    let c = ask(m, after, c, 10, Test::Agrees(Role::ClaimPort));
    let c = ask(m, after, c, 10, Test::Agrees(Role::EndClaim));
    ask(m, after, c, 10, Test::Agrees(Role::ClaimEnd))
}

// Each open channel-end does, and port 12 is empty while the control unit serves a circuit.
fn openings(m: &Memories, after: u32, found: u32) -> u32
    ensures { result ≡ ask_all after found openings (world_of m.now) }
{
    let c = ask(m, after, found, 11, Test::Agrees(Role::EndPort));
    let c = ask(m, after, c, 11, Test::Agrees(Role::PortEnd));
    let c = ask(m, after, c, 11, Test::OpenEnd);
    ask(m, after, c, 12, Test::Silent)
}

// What lines bring.
fn travels(m: &Memories, after: u32, found: u32) -> u32
    ensures { result ≡ ask_all after found travels (world_of m.now) }
{
    let c = ask(m, after, found, 13, Test::Few);
    let c = ask(m, after, c, 14, Test::Counted);
    ask(m, after, c, 15, Test::Unlined)
}

// The number of the first clause past `after` that fails, 0 where none does.
pub fn clause_after(m: &Memories, after: u32) -> u32
    ensures { result ≡ ask_all after 0 sound_clauses (world_of m.now) }
{
    let c = counts(m, after, 0);
    let c = cables(m, after, c);
    let c = tokens(m, after, c);
    let c = outputs(m, after, c);
    let c = claims(m, after, c);
    let c = openings(m, after, c);
    travels(m, after, c)
}

// The number of the first clause that fails, 0 where the state is sound. 1 is a memory of the wrong
// length; docs/ARCHITECTURE.md lists the others.
pub fn unsound_clause(m: &Memories) -> u32
    ensures { result ≡ unsound_clause (world_of m.now) }
{
    if shaped(m) {
        return clause_after(m, 0);
    }
    1
}

// The Sound list of document 01 holds, and the lengths are right: one pass over each table.
pub fn is_sound(m: &Memories) -> bool
    ensures { result ≡ sound (world_of m.now) }
{
    if !shaped(m) {
        return false;
    }
    let ports = at_every_place(m.state, PORTS, |slot, p| of_port(m, slot, p));
    let tiles = at_every_place(m.state, TILE_LINKS, |slot, t| of_tile(m, slot, t));
    let ends = at_every_place(m.state, ENDS, |slot, c| of_end(m, slot, c));
    let nodes = at_every_place(m.state, 1, |slot, i| of_node(m, slot, i));
    let links = at_every_place(m.state, LINKS, |slot, l| of_link(m, slot, l));
    nodes & (links & (ports & (tiles & ends)))
}

// The ties hold.
pub fn is_tight(m: &Memories) -> bool
    ensures { result ≡ tight (world_of m.now) }
{
    let sent = at_every_place(m.state, ENDS, |slot, c| sends(m, slot, c));
    let answered = at_every_place(m.state, 1, |slot, _| replied(m, slot));
    at_every_place(m.state, LINKS, |slot, l| tied(m, slot, l)) & (sent & answered)
}

// No token, no claim and no open circuit anywhere, and nothing on a line.
pub fn is_quiet(m: &Memories) -> bool
    ensures { result ≡ quiet (world_of m.now) }
{
    let ends = at_every_place(m.state, ENDS, |slot, c| quiet_end(m.state, slot, c));
    let lines = at_every_place(m.state, LINKS, |slot, l| quiet_line(m.state, slot, l));
    at_every_place(m.state, PORTS, |slot, p| quiet_port(m.state, slot, p)) & (ends & lines)
}
