// What a port holds with the line to it behind.
ghost use Rattle.std.specs.Prelude.{◌≡◌, ◌+◌, ◌≤◌, length};
ghost use Rattle.cells.specs.Memories.{world_of};
ghost use Rattle.lines.specs.Line.{line_capacity, LineFair, line_place, on_line};
ghost use Rattle.lines.specs.Load.{tokens_of};
ghost use Rattle.grammar.specs.Walk.{walk};
ghost use Rattle.cells.specs.View.{view};
ghost use Rattle.cells.specs.World.{lined, lent};
ghost use Rattle.line_clauses.specs.Lines.{walked_on, reached_from, reached, clear_of, nothing_comes, holds_over};

use crate::loads::line_ready;
use cells::line::Line;
use cells::link::far_at;
use cells::memories::Memories;
use cells::record::Record;
use clauses::contents::back;
use grammar::stage::{Stage, next};
use lines::load::is_token;
use lines::{CAPACITY, words_on};
use names::Slot;
use names::size::LINKS;
use ports::Counters;

// The walk over the tokens on a line, from where it begins: a credit or a HELLO does not lead on.
fn walk_line(ls: &[u16], c: Counters, slot: Slot, l: usize, s: Stage) -> Stage
    requires { LineFair c × (line_place slot.0 l + line_capacity ≤ length ls.now) }
    ensures { result ≡ walk s (tokens_of (on_line c ls.now (line_place slot.0 l))) }
{
    words_on(c, ls, slot, l)
        .filter(|word| is_token(*word))
        .fold(s, next)
}

fn walked_on(m: &Memories, far: Slot, k: usize, s: Stage) -> Stage
    ensures { result ≡ walked_on (world_of m.now) far.0 k s }
{
    if line_ready(m, far, k) {
        let x = Line::at(m.state, far, k);
        return walk_line(m.lines, x.ring, far, k, s);
    }
    Stage::Bad
}

fn reached_from(m: &Memories, s: Stage, f: Option<(Slot, usize)>) -> Stage
    ensures { result ≡ reached_from (world_of m.now) s f }
{
    match f {
        Some((far, k)) => walked_on(m, far, k, s),
        None => s,
    }
}

// Where a port's tokens end once those on the line to it have come.
pub fn reached(m: &Memories, slot: Slot, p: usize) -> Stage
    ensures { result ≡ reached (world_of m.now) slot.0 p }
{
    let s = back(m, slot, p);
    if p < LINKS {
        let f = far_at(m.state, slot, p);
        return reached_from(m, s, f);
    }
    s
}

// A line on which there is nothing.
fn is_clear(st: &[u32], lined: usize, slot: Slot, l: usize) -> bool
    ensures { result ≡ clear_of (view st.now) lined slot.0 l }
{
    let k = Line::at(st, slot, l);
    (slot.0 < lined) & ((l < LINKS) & ((k.ring.head < CAPACITY) & (k.ring.held == 0)))
}

// Nothing is on its way to a port: it has no line to it, or one on which there is nothing. The lines' memory is for so many nodes.
pub fn nothing_comes(st: &[u32], lined: usize, slot: Slot, p: usize) -> bool
    ensures { result ≡ nothing_comes (view st.now) lined slot.0 p }
{
    if p >= LINKS {
        return true;
    }
    far_at(st, slot, p).is_none_or(|(m, k)| is_clear(st, lined, m, k))
}

// The sentences of the list on what may stand in a port, asked of the port with its line behind. Where nothing is on its way to it,
// `contents` says the same.
pub fn holds_over(m: &Memories, slot: Slot, p: usize) -> bool
    ensures { result ≡ holds_over (world_of m.now) slot.0 p }
{
    reached(m, slot, p) != Stage::Bad
}
