// What the state says of circuits, as enums, and how two words say it: where a port's circuit goes, and
// who stands at the other side of a link, a tile link, a claim, an open channel-end or a control unit.
#![tactic(auto)]

ghost use Rattle.std.specs.Prelude.{◌≡◌, [], length};
ghost use Rattle.circuits.specs.Circuit.{circuit_words, to_circuit, from_circuit, peer_of, of_peer, hop_of, of_hop, of_cause, tile_taken};

// The one record of a circuit, shared by ports, claims, open channel-ends, links and the control
// unit. What kind and index mean is read off by `peer_of` and `hop_of`.
#[derive(Clone, Copy)]
pub struct Circuit {
    pub kind: u32,
    pub index: u32,
}

// Who stands at the other side of a circuit within the node.
#[derive(Clone, Copy)]
pub enum Peer {
    Nobody,
    Port(u32),
    // a channel-end, of a circuit within the node
    End(u32),
}

// Why a circuit was refused.
#[derive(Clone, Copy)]
pub enum Cause {
    Split,
    NoRoute,
}

// Where a port's circuit goes.
#[derive(Clone, Copy)]
pub enum Hop {
    // no circuit
    Shut,
    // outward by a link
    Out(u32),
    // to a channel, by a tile link
    Channel(u32, u32),
    // to the control unit
    Unit,
    // refused: its tokens are dropped
    Dropped(Cause),
}

// Words and enums are read off each other by functions of the definitions' own names, which every contract cites; `From` at their calls
// would say less, and a hop needs two values.
pub fn peer_of(c: Circuit) -> Peer
    ensures { result ≡ peer_of c }
{
    let kind = c.kind;
    match kind {
        1 => Peer::Port(c.index),
        2 => Peer::End(c.index),
        _ => Peer::Nobody,
    }
}

pub fn of_peer(p: Peer) -> Circuit
    ensures { result ≡ of_peer p }
{
    match p {
        Peer::Nobody => Circuit { kind: 0, index: 0 },
        Peer::Port(index) => Circuit { kind: 1, index },
        Peer::End(index) => Circuit { kind: 2, index },
    }
}

// The hop of a port's circuit; tile is the tile link that a hop to a channel takes.
pub fn hop_of(c: Circuit, tile: u32) -> Hop
    ensures { result ≡ hop_of c tile }
{
    let kind = c.kind;
    match kind {
        1 => Hop::Out(c.index),
        2 => Hop::Channel(c.index, tile),
        3 => Hop::Unit,
        4 => Hop::Dropped(Cause::Split),
        5 => Hop::Dropped(Cause::NoRoute),
        _ => Hop::Shut,
    }
}

fn of_cause(c: Cause) -> Circuit
    ensures { result ≡ of_cause c }
{
    match c {
        Cause::Split => Circuit { kind: 4, index: 0 },
        Cause::NoRoute => Circuit { kind: 5, index: 0 },
    }
}

pub fn of_hop(h: Hop) -> Circuit
    ensures { result ≡ of_hop h }
{
    match h {
        Hop::Shut => Circuit { kind: 0, index: 0 },
        Hop::Out(index) => Circuit { kind: 1, index },
        Hop::Channel(index, _) => Circuit { kind: 2, index },
        Hop::Unit => Circuit { kind: 3, index: 0 },
        Hop::Dropped(c) => of_cause(c),
    }
}

// The tile link of a hop, 0 where it takes none.
pub fn tile_of(h: Hop) -> u32
    ensures { result ≡ tile_taken h }
{
    match h {
        Hop::Channel(_, tile) => tile,
        Hop::Shut | Hop::Out(_) | Hop::Unit | Hop::Dropped(_) => 0,
    }
}

// The words of a circuit.
pub const WORDS: usize = 2;

// What stands where there is none.
pub fn none() -> Circuit
    ensures { result ≡ to_circuit [] }
{
    Circuit { kind: 0, index: 0 }
}

pub fn read(w: &[u32]) -> Circuit
    requires { length w.now ≡ circuit_words }
    ensures { result ≡ to_circuit w.now }
{
    Circuit {
        kind: w[0],
        index: w[1],
    }
}

pub fn write(w: &mut [u32], c: Circuit)
    requires { length w.old ≡ circuit_words }
    ensures { w.new ≡ from_circuit c }
{
    w[0] = c.kind;
    w[1] = c.index;
}
