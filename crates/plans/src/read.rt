// What a switch reads: a header in a port, a circuit's network, which links and tile links are free.
ghost use Rattle.std.specs.Prelude.{◌≡◌};
ghost use Rattle.laws.specs.Pick.{pick};
ghost use Rattle.laws.specs.All.{first, place_below};
ghost use Rattle.names.specs.Size.{links, tile_links};
ghost use Rattle.acts.specs.Acts.{word_at};
ghost use Rattle.acts.specs.Needs.{Holds};
ghost use Rattle.cells.specs.View.{view};
ghost use Rattle.cells.specs.World.{world};
ghost use Rattle.plans.specs.Plan.{marked_width, size_of, target_at, network_at};
ghost use Rattle.plans.specs.Plan.{number_in, candidate, free_candidate, tile_free, lowest_tile};

use acts::word_at;
use cells::link::Link;
use cells::port::Port;
use cells::record::Record;
use cells::tile::Tile;
use names::size::{LINKS, REPLY_PORT, TILE_LINKS};
use names::{NodeNumber, Slot};
use tokens::header::{Target, Width, read_one, read_three};
use tokens::word::is_three;

// A header's width, by the mark of its first token.
pub fn marked_width(word: u16) -> Width
    ensures { result ≡ marked_width word }
{
    if is_three(word) {
        return Width::Three;
    }
    Width::One
}

// How many tokens a header has.
pub fn size_of(w: Width) -> u32
    ensures { result ≡ size_of w }
{
    match w {
        Width::One => 1,
        Width::Three => 3,
    }
}

// What a whole header says.
pub fn target_at(st: &[u32], mem: &[u16], slot: Slot, p: usize) -> Target
    requires { Holds (world st.now mem.now) slot.0 p (size_of (marked_width (word_at (world st.now mem.now) slot.0 p 0))) }
    ensures { result ≡ target_at (world st.now mem.now) slot.0 p }
{
    let a = word_at(st, mem, slot, p, 0);
    if is_three(a) {
        let b = word_at(st, mem, slot, p, 1);
        let c = word_at(st, mem, slot, p, 2);
        return read_three(a, b, c);
    }
    read_one(a)
}

pub fn number_in(g: Target) -> NodeNumber
    ensures { result ≡ number_in g }
{
    match g {
        Target::Channel(m, _) => m,
        Target::Unit(m) => m,
    }
}

// The network of the circuit in a port.
pub fn network_at(st: &[u32], slot: Slot, p: usize) -> u32
    ensures { result ≡ network_at (view st.now) slot.0 p }
{
    if p < LINKS {
        let k = Link::at(st, slot, p);
        return k.setup.network;
    }
    if p == REPLY_PORT {
        return 0;
    }
    let k = Port::at(st, slot, p);
    k.network
}

// A candidate, that no circuit uses outward if it is to be free.
fn suits(st: &[u32], slot: Slot, d: u32, v: u32, free: bool, l: usize) -> bool
    ensures { result ≡ pick free
        (free_candidate (view st.now) slot.0 d v l) (candidate (view st.now) slot.0 d v l) }
{
    let k = Link::at(st, slot, l);
    let candidate = (k.setup.enabled == 1) & ((k.setup.direction == d) & (k.setup.network == v));
    if free {
        return candidate & (k.user.kind == 0);
    }
    candidate
}

// The lowest candidate, or the lowest free one.
pub fn lowest_link(st: &[u32], slot: Slot, d: u32, v: u32, free: bool) -> Option<usize>
    ensures { result ≡ place_below links (first links
        (pick free (free_candidate (view st.now) slot.0 d v) (candidate (view st.now) slot.0 d v))) }
{
    (0..LINKS).find(|&l| suits(st, slot, d, v, free, l))
}

fn tile_free(st: &[u32], slot: Slot, t: usize) -> bool
    ensures { result ≡ tile_free (view st.now) slot.0 t }
{
    let k = Tile::at(st, slot, t);
    k.user.kind == 0
}

// The lowest free tile link.
pub fn lowest_tile(st: &[u32], slot: Slot) -> Option<usize>
    ensures { result ≡ place_below tile_links (lowest_tile (view st.now) slot.0) }
{
    (0..TILE_LINKS).find(|&t| tile_free(st, slot, t))
}
