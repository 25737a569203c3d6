// Where each record of a node lies. The records of a node stand in the order node, links, ports, tile
// links, channel-ends, control unit, lines.
ghost use Rattle.std.specs.Prelude.{◌≡◌, ◌+◌, ◌*◌, ◌^◌, ◌<◌, ◌≤◌, length};
ghost use Rattle.cells.specs.Memories.{world_of};
ghost use Rattle.cells.specs.World.{shaped};
ghost use Rattle.cells.specs.Layout.{stride, Within, begins, nodes_in, words_of};

use crate::memories::Memories;
use crate::{end, line, link, node, port, unit};
use names::Slot;
use names::size::{ENDS, LINKS, NODES, PORTS, TILE_LINKS};
use ports::Counters;

// The words of token memory of a node: its ports' stretches.
pub const TOKEN_WORDS: usize = PORTS * Counters::CAPACITY as usize;

// The words of the lines' memory of a node: the stretches of the lines that start at its links.
pub const LINE_WORDS: usize = LINKS * lines::CAPACITY as usize;

// A kind of record: how many a node has, where among the node's words the first begins, and how many
// words each has.
#[derive(Clone, Copy)]
pub struct Kind {
    pub many: usize,
    pub from: usize,
    pub size: usize,
}

// The words of a record: its own and those of its circuits.
const LINK_WORDS: usize = link::OWN + circuits::WORDS;

const PORT_WORDS: usize = port::OWN + 2 * circuits::WORDS;

const END_WORDS: usize = end::OWN + 2 * circuits::WORDS;

const UNIT_WORDS: usize = unit::OWN + circuits::WORDS;

// Where the first of a kind begins: where the kind before it ends.
const FIRST_LINK: usize = node::OWN;

const FIRST_PORT: usize = FIRST_LINK + LINKS * LINK_WORDS;

const FIRST_TILE: usize = FIRST_PORT + PORTS * PORT_WORDS;

const FIRST_END: usize = FIRST_TILE + TILE_LINKS * circuits::WORDS;

const FIRST_UNIT: usize = FIRST_END + ENDS * END_WORDS;

const FIRST_LINE: usize = FIRST_UNIT + UNIT_WORDS;

// The words of a node.
pub const STRIDE: usize = FIRST_LINE + LINKS * line::OWN;

pub const NODE: Kind = Kind {
    many: 1,
    from: 0,
    size: node::OWN,
};

pub const LINK: Kind = Kind {
    many: LINKS,
    from: FIRST_LINK,
    size: LINK_WORDS,
};

pub const PORT: Kind = Kind {
    many: PORTS,
    from: FIRST_PORT,
    size: PORT_WORDS,
};

pub const TILE: Kind = Kind {
    many: TILE_LINKS,
    from: FIRST_TILE,
    size: circuits::WORDS,
};

pub const END: Kind = Kind {
    many: ENDS,
    from: FIRST_END,
    size: END_WORDS,
};

pub const UNIT: Kind = Kind {
    many: 1,
    from: FIRST_UNIT,
    size: UNIT_WORDS,
};

pub const LINE: Kind = Kind {
    many: LINKS,
    from: FIRST_LINE,
    size: line::OWN,
};

// How many nodes a state has: what its length says.
pub fn nodes(st: &[u32]) -> usize
    ensures { result ≡ nodes_in st.now }
{
    st.len() / STRIDE
}

// Where record i of a slot begins. Callers have a state that reaches past the slot's node.
pub fn begins(slot: Slot, i: usize, k: Kind) -> usize
    requires { Within k × (i < k.many) × (slot.0 * stride + stride < 2 ^ 64) }
    ensures { result ≡ begins k slot.0 i }
{
    slot.0 * STRIDE + k.from + i * k.size
}

// The words of record i of a slot, none where there is no such record. Every kind lies within a
// node's words.
pub fn words(st: &[u32], slot: Slot, i: usize, k: Kind) -> &[u32]
    requires { Within k }
    ensures { result.now ≡ words_of k st.now slot.0 i }
{
    if slot.0 >= nodes(st) {
        return &st[..0];
    }
    if i >= k.many {
        return &st[..0];
    }
    let a = begins(slot, i, k);
    let e = a + k.size;
    &st[a..e]
}

// The lengths are those of 1 to 16 nodes.
#[tactic(auto, using(laws::proofs::All::and_false), unfolding(crate::specs::World::shaped, crate::specs::View::view))]
pub fn shaped(m: &Memories) -> bool
    ensures { result ≡ shaped (world_of m.now) }
{
    let n = nodes(m.state);
    if m.state.len() % STRIDE != 0 {
        return false;
    }
    if n > NODES {
        return false;
    }
    (1 <= n) & ((m.tokens.len() == n * TOKEN_WORDS) & (m.lines.len() == n * LINE_WORDS))
}
