// What names something is named back by it.
ghost use Rattle.std.specs.Prelude.{◌≡◌};
ghost use Rattle.cells.specs.View.{view};
ghost use Rattle.cells.specs.World.{hop};
ghost use Rattle.circuits.specs.Circuit.{peer_of};
ghost use Rattle.clauses.specs.Pairs.{port_of, end_of, claimable, straight_to, link_of, tile_of, unit_of, claim_of, named_by, backward};
ghost use Rattle.clauses.specs.Pairs.{players, is_named, names_back, agrees, taken, open_by, open_end, silent};

use cells::end::End;
use cells::link::Link;
use cells::port::Port;
use cells::record::Record;
use cells::tile::Tile;
use cells::unit::Unit;
use circuits::{Hop, Peer, hop_of, peer_of};
use names::Slot;
use names::size::{ENDS, FIRST_TILE_PORT, LINKS, PORTS, REPLY_PORT, SINK, TILE_LINKS};

// Who names whom: each pair both ways.
#[derive(Clone, Copy)]
pub enum Role {
    PortLink,
    LinkPort,
    PortTile,
    TilePort,
    PortUnit,
    UnitPort,
    PortClaim,
    ClaimPort,
    EndClaim,
    ClaimEnd,
    EndPort,
    PortEnd,
}

fn port_of(x: Peer) -> Option<usize>
    ensures { result ≡ port_of x }
{
    match x {
        Peer::Port(p) => Some(p as usize),
        Peer::Nobody | Peer::End(_) => None,
    }
}

fn end_of(x: Peer) -> Option<usize>
    ensures { result ≡ end_of x }
{
    match x {
        Peer::End(e) => Some(e as usize),
        Peer::Nobody | Peer::Port(_) => None,
    }
}

// The sink takes no claim.
fn claimable(c: u32) -> Option<usize>
    ensures { result ≡ claimable c }
{
    if c == SINK {
        return None;
    }
    Some(c as usize)
}

fn straight_to(x: Peer) -> Option<usize>
    ensures { result ≡ straight_to x }
{
    match x {
        Peer::End(c) => claimable(c),
        Peer::Nobody | Peer::Port(_) => None,
    }
}

fn link_of(h: Hop) -> Option<usize>
    ensures { result ≡ link_of h }
{
    match h {
        Hop::Out(l) => Some(l as usize),
        Hop::Shut | Hop::Channel(_, _) | Hop::Unit | Hop::Dropped(_) => None,
    }
}

fn tile_of(h: Hop) -> Option<usize>
    ensures { result ≡ tile_of h }
{
    match h {
        Hop::Channel(_, t) => Some(t as usize),
        Hop::Shut | Hop::Out(_) | Hop::Unit | Hop::Dropped(_) => None,
    }
}

fn unit_of(h: Hop) -> Option<usize>
    ensures { result ≡ unit_of h }
{
    match h {
        Hop::Unit => Some(0),
        Hop::Shut | Hop::Out(_) | Hop::Channel(_, _) | Hop::Dropped(_) => None,
    }
}

fn claim_of(h: Hop) -> Option<usize>
    ensures { result ≡ claim_of h }
{
    match h {
        Hop::Channel(c, _) => claimable(c),
        Hop::Shut | Hop::Out(_) | Hop::Unit | Hop::Dropped(_) => None,
    }
}

// Where a port's circuit goes.
pub fn hop_at(st: &[u32], slot: Slot, p: usize) -> Hop
    ensures { result ≡ hop (view st.now) slot.0 p }
{
    let k = Port::at(st, slot, p);
    hop_of(k.leg.circuit, k.leg.tile)
}

// One field of one record each: over a closure there would be as many lines.

// The port whose circuit leaves by a link.
pub fn link_user(st: &[u32], slot: Slot, i: usize) -> Peer
    ensures { result ≡ peer_of ((view st.now).links.users slot.0 i) }
{
    let k = Link::at(st, slot, i);
    peer_of(k.user)
}

// The port that uses a tile link.
pub fn tile_user(st: &[u32], slot: Slot, i: usize) -> Peer
    ensures { result ≡ peer_of ((view st.now).tiles slot.0 i).user }
{
    let k = Tile::at(st, slot, i);
    peer_of(k.user)
}

// Who sends to a channel-end.
pub fn claim(st: &[u32], slot: Slot, i: usize) -> Peer
    ensures { result ≡ peer_of ((view st.now).ends.claims slot.0 i) }
{
    let k = End::at(st, slot, i);
    peer_of(k.claim)
}

// Where the open circuit of a channel-end goes.
pub fn sending(st: &[u32], slot: Slot, i: usize) -> Peer
    ensures { result ≡ peer_of ((view st.now).ends.sendings slot.0 i) }
{
    let k = End::at(st, slot, i);
    peer_of(k.sending)
}

// The channel-end whose open circuit goes by a port.
pub fn sender(st: &[u32], slot: Slot, i: usize) -> Peer
    ensures { result ≡ peer_of ((view st.now).ports.senders slot.0 i) }
{
    let k = Port::at(st, slot, i);
    peer_of(k.sender)
}

// The port that a control unit serves.
pub fn serves(st: &[u32], slot: Slot) -> Peer
    ensures { result ≡ peer_of ((view st.now).units.serving slot.0 0) }
{
    let k = Unit::at(st, slot, 0);
    peer_of(k.serves)
}

// What a record names in a role.
fn named_by(st: &[u32], slot: Slot, r: Role, i: usize) -> Option<usize>
    ensures { result ≡ named_by r (view st.now) slot.0 i }
{
    match r {
        Role::PortLink => link_of(hop_at(st, slot, i)),
        Role::LinkPort => port_of(link_user(st, slot, i)),
        Role::PortTile => tile_of(hop_at(st, slot, i)),
        Role::TilePort => port_of(tile_user(st, slot, i)),
        Role::PortUnit => unit_of(hop_at(st, slot, i)),
        Role::UnitPort => port_of(serves(st, slot)),
        Role::PortClaim => claim_of(hop_at(st, slot, i)),
        Role::ClaimPort => port_of(claim(st, slot, i)),
        Role::EndClaim => straight_to(sending(st, slot, i)),
        Role::ClaimEnd => end_of(claim(st, slot, i)),
        Role::EndPort => port_of(sending(st, slot, i)),
        Role::PortEnd => end_of(sender(st, slot, i)),
    }
}

fn backward(r: Role) -> Role
    ensures { result ≡ backward r }
{
    match r {
        Role::PortLink => Role::LinkPort,
        Role::LinkPort => Role::PortLink,
        Role::PortTile => Role::TilePort,
        Role::TilePort => Role::PortTile,
        Role::PortUnit => Role::UnitPort,
        Role::UnitPort => Role::PortUnit,
        Role::PortClaim => Role::ClaimPort,
        Role::ClaimPort => Role::PortClaim,
        Role::EndClaim => Role::ClaimEnd,
        Role::ClaimEnd => Role::EndClaim,
        Role::EndPort => Role::PortEnd,
        Role::PortEnd => Role::EndPort,
    }
}

// How many records of a node play a role.
pub fn players(r: Role) -> usize
    ensures { result ≡ players r }
{
    match r {
        Role::PortLink => PORTS,
        Role::LinkPort => LINKS,
        Role::PortTile => PORTS,
        Role::TilePort => TILE_LINKS,
        Role::PortUnit => PORTS,
        Role::UnitPort => 1,
        Role::PortClaim => PORTS,
        Role::ClaimPort => ENDS,
        Role::EndClaim => ENDS,
        Role::ClaimEnd => ENDS,
        Role::EndPort => ENDS,
        Role::PortEnd => PORTS,
    }
}

fn is_named(x: Option<usize>, i: usize) -> bool
    ensures { result ≡ is_named x i }
{
    x == Some(i)
}

fn names_back(st: &[u32], slot: Slot, r: Role, i: usize, j: usize) -> bool
    ensures { result ≡ names_back r (view st.now) slot.0 i j }
{
    let b = backward(r);
    (j < players(b)) & is_named(named_by(st, slot, b, j), i)
}

// What record i of a slot names in a role names it back.
pub fn agrees(st: &[u32], slot: Slot, r: Role, i: usize) -> bool
    ensures { result ≡ agrees r (view st.now) slot.0 i }
{
    named_by(st, slot, r, i).is_none_or(|j| names_back(st, slot, r, i, j))
}

// "The port is taken until its END or PAUSE has left it"
pub fn taken(st: &[u32], slot: Slot, p: usize) -> bool
    ensures { result ≡ taken (view st.now) slot.0 p }
{
    let k = Port::at(st, slot, p);
    !((k.leg.circuit.kind == 0) & (k.counters.held == 0))
}

fn open_by(st: &[u32], slot: Slot, x: Peer) -> bool
    ensures { result ≡ open_by (view st.now) slot.0 x }
{
    match x {
        Peer::Nobody => true,
        Peer::Port(p) => {
            let port = p as usize;
            ((FIRST_TILE_PORT <= port) & (port < REPLY_PORT)) & taken(st, slot, port)
        }
        Peer::End(c) => (c == SINK) | ((c as usize) < ENDS),
    }
}

// An open channel-end is aimed, and goes by a tile port that is taken, or straight to a channel.
pub fn open_end(st: &[u32], slot: Slot, e: usize) -> bool
    ensures { result ≡ open_end (view st.now) slot.0 e }
{
    let k = End::at(st, slot, e);
    (k.sending.kind == 0) | (!(k.aim.kind == 0) & open_by(st, slot, peer_of(k.sending)))
}

// "port 12 is empty while the control unit serves a circuit"
pub fn silent(st: &[u32], slot: Slot) -> bool
    ensures { result ≡ silent (view st.now) slot.0 0 }
{
    let k = Unit::at(st, slot, 0);
    let reply = Port::at(st, slot, REPLY_PORT);
    (k.serves.kind == 0) | (reply.counters.held == 0)
}
