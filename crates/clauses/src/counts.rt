// "counts within their limits", record by record.
ghost use Rattle.std.specs.Prelude.{◌≡◌};
ghost use Rattle.clauses.specs.Counts.{node_counts, link_counts, port_network, port_counts, tile_counts, end_counts, unit_counts, aim_counts};
ghost use Rattle.clauses.specs.Counts.{line_counts};

use cells::end::{Aim, End};
use cells::line::Line;
use cells::link::Link;
use cells::node::Node;
use cells::port::Port;
use cells::tile::Tile;
use cells::unit::Unit;
use lines::CAPACITY;
use names::size::{
    DIRECTIONS, END_BUFFER, FIRST_TILE_PORT, NETWORKS, NUMBERS, REPLY_PORT, UNIT_BUFFER,
};
use ports::Counters;
use tokens::header::is_channel;

// What a channel-end holds at most, beside words of 32 bits.
const BUFFER: u32 = END_BUFFER as u32;

pub fn node_counts(k: Node) -> bool
    ensures { result ≡ node_counts k }
{
    (k.number < NUMBERS) & ((k.width == 1) | (k.width == 3))
}

pub fn link_counts(k: Link) -> bool
    ensures { result ≡ link_counts k }
{
    (k.cable.wired <= 1)
        & ((k.setup.enabled <= 1)
            & ((k.setup.direction < DIRECTIONS)
                & ((k.setup.network < NETWORKS)
                    & ((k.flow.greeted <= 1)
                        & ((k.flow.credit <= Counters::CAPACITY) & (k.user.kind <= 1))))))
}

fn port_network(k: Port, p: usize) -> bool
    ensures { result ≡ port_network p k }
{
    let free = (k.leg.circuit.kind == 0) & (k.counters.held == 0);
    (!((FIRST_TILE_PORT <= p) & (p < REPLY_PORT)) | free) | (k.network < NETWORKS)
}

pub fn port_counts(k: Port, p: usize) -> bool
    ensures { result ≡ port_counts p k }
{
    let sender = (k.sender.kind == 0) | (k.sender.kind == 2);
    (k.counters.head < Counters::CAPACITY)
        & ((k.counters.held <= Counters::CAPACITY)
            & ((k.leg.circuit.kind <= 5) & (port_network(k, p) & sender)))
}

pub fn tile_counts(k: Tile) -> bool
    ensures { result ≡ tile_counts k }
{
    k.user.kind <= 1
}

fn aim_counts(k: Aim) -> bool
    ensures { result ≡ aim_counts k }
{
    (k.kind == 0)
        | ((k.number < NUMBERS)
            & ((k.network < NETWORKS) & ((k.kind == 2) | ((k.kind == 1) & is_channel(k.channel)))))
}

pub fn end_counts(k: End) -> bool
    ensures { result ≡ end_counts k }
{
    aim_counts(k.aim) & ((k.sending.kind <= 2) & ((k.claim.kind <= 2) & (k.buffer.held <= BUFFER)))
}

pub fn unit_counts(k: Unit) -> bool
    ensures { result ≡ unit_counts k }
{
    (k.serves.kind <= 1) & ((k.serves.kind == 0) | (k.hearing.heard <= UNIT_BUFFER))
}

// "a line of up to 66 tokens"
pub fn line_counts(k: Line) -> bool
    ensures { result ≡ line_counts k }
{
    (k.ring.head < CAPACITY) & ((k.ring.held <= CAPACITY) & (k.issued <= Counters::CAPACITY))
}
