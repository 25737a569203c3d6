// Circuits opened and shut, record by record.
ghost use Rattle.std.specs.Prelude.{◌≡◌, ◌<◌};
ghost use Rattle.names.specs.Size.{links, ports, tile_links};
ghost use Rattle.cells.specs.View.{view};
ghost use Rattle.acts.specs.Acts.{leg_of, hopped, network_left, shut, linked_to, tiled_to, claimed_by, channel_claimed};
ghost use Rattle.acts.specs.Needs.{Door};

use cells::end::End;
use cells::port::{Leg, Port};
use cells::record::Record;
use cells::tile::Tile;
use cells::{end, link, port};
use circuits::{Hop, Peer, of_hop, of_peer, tile_of};
use names::Slot;
use names::size::SINK;

// The words that say where a port's circuit goes.
fn leg_of(h: Hop) -> Leg
    ensures { result ≡ leg_of h }
{
    Leg {
        circuit: of_hop(h),
        tile: tile_of(h),
    }
}

// Where a port's circuit goes.
pub fn set_hop(st: &mut [u32], slot: Slot, p: usize, h: Hop)
    requires { (slot.0 < (view st.old).nodes) × (p < ports) }
    ensures { view st.new ≡ hopped (view st.old) slot.0 p h }
{
    port::put_leg(st, slot, p, leg_of(h));
}

// While a port is free its network is 0.
fn network_left(st: &[u32], slot: Slot, p: usize) -> u32
    ensures { result ≡ network_left (view st.now) slot.0 p }
{
    let k = Port::at(st, slot, p);
    if k.counters.held == 0 {
        return 0;
    }
    k.network
}

// A port that has no circuit any more.
pub fn shut(st: &mut [u32], slot: Slot, p: usize)
    requires { (slot.0 < (view st.old).nodes) × (p < ports) }
    ensures { view st.new ≡ shut (view st.old) slot.0 p }
{
    let v = network_left(st, slot, p);
    port::put_leg(st, slot, p, leg_of(Hop::Shut));
    port::put_network(st, slot, p, v);
}

// The port whose circuit leaves by a link.
pub fn set_user(st: &mut [u32], slot: Slot, l: usize, x: Peer)
    requires { (slot.0 < (view st.old).nodes) × (l < links) }
    ensures { view st.new ≡ linked_to (view st.old) slot.0 l x }
{
    link::put_user(st, slot, l, of_peer(x));
}

// The port that uses a tile link.
pub fn set_tile_user(st: &mut [u32], slot: Slot, t: usize, x: Peer)
    requires { (slot.0 < (view st.old).nodes) × (t < tile_links) }
    ensures { view st.new ≡ tiled_to (view st.old) slot.0 t x }
{
    Tile::put(st, slot, t, Tile { user: of_peer(x) });
}

// The channel is claimed: the sink never is.
pub fn channel_claimed(st: &[u32], slot: Slot, c: usize) -> bool
    ensures { result ≡ channel_claimed (view st.now) slot.0 c }
{
    let k = End::at(st, slot, c);
    !(c == SINK as usize) & !(k.claim.kind == 0)
}

// Who claims it.
pub fn claim(st: &mut [u32], slot: Slot, c: usize, x: Peer)
    requires { (slot.0 < (view st.old).nodes) × Door c }
    ensures { view st.new ≡ claimed_by (view st.old) slot.0 c x }
{
    if c == SINK as usize {
        return;
    }
    end::put_claim(st, slot, c, of_peer(x));
}
