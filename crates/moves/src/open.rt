// Circuits opened, and what they hold freed where END or PAUSE has passed.
ghost use Rattle.std.specs.Prelude.{◌≡◌, ◌<◌};
ghost use Rattle.names.specs.Size.{links, ports, tile_links};
ghost use Rattle.acts.specs.Needs.{Door};
ghost use Rattle.cells.specs.View.{view};
ghost use Rattle.moves.specs.Moves.{opens_out, opens_channel, serves, opens_unit, closes_out};
ghost use Rattle.moves.specs.Moves.{closes_channel, serves_nobody, closes_unit, closes_dropped};

use acts::circuit::{claim, set_hop, set_tile_user, set_user, shut};
use cells::record::Record;
use cells::unit;
use cells::unit::Unit;
use circuits::{Hop, Peer, of_peer};
use names::Slot;
use tokens::word::closes;

// Outward by a link.
pub fn open_out(st: &mut [u32], slot: Slot, p: usize, l: usize)
    requires { (slot.0 < (view st.old).nodes) × (p < ports) × (l < links) }
    ensures { view st.new ≡ opens_out (view st.old) slot.0 p l }
{
    set_hop(st, slot, p, Hop::Out(l as u32));
    set_user(st, slot, l, Peer::Port(p as u32));
}

// To a channel by a tile link.
pub fn open_channel(st: &mut [u32], slot: Slot, p: usize, c: usize, t: usize)
    requires { (slot.0 < (view st.old).nodes) × (p < ports) × Door c × (t < tile_links) }
    ensures { view st.new ≡ opens_channel (view st.old) slot.0 p c t }
{
    set_hop(st, slot, p, Hop::Channel(c as u32, t as u32));
    set_tile_user(st, slot, t, Peer::Port(p as u32));
    claim(st, slot, c, Peer::Port(p as u32));
}

// The control unit serves a port, and has heard nothing of its message.
#[tactic(auto, using(laws::proofs::Table::upd_own))]
fn serve(st: &mut [u32], slot: Slot, p: usize)
    requires { (slot.0 < (view st.old).nodes) × (p < ports) }
    ensures { view st.new ≡ serves (view st.old) slot.0 p }
{
    unit::put_serves(st, slot, of_peer(Peer::Port(p as u32)));
    Unit::change(st, slot, 0, |k: &mut Unit| k.hearing.heard = 0);
}

// To the control unit.
pub fn open_unit(st: &mut [u32], slot: Slot, p: usize)
    requires { (slot.0 < (view st.old).nodes) × (p < ports) }
    ensures { view st.new ≡ opens_unit (view st.old) slot.0 p }
{
    set_hop(st, slot, p, Hop::Unit);
    serve(st, slot, p);
}

// A hop outward is closed by END or PAUSE: its link is free.
pub fn close_out(st: &mut [u32], slot: Slot, p: usize, l: usize, word: u16)
    requires { (slot.0 < (view st.old).nodes) × (p < ports) × (l < links) }
    ensures { view st.new ≡ closes_out (view st.old) slot.0 p l word }
{
    if closes(word) {
        shut(st, slot, p);
        set_user(st, slot, l, Peer::Nobody);
    }
}

// .. to a channel: its tile link and its claim are free.
pub fn close_channel(st: &mut [u32], slot: Slot, p: usize, c: usize, t: usize, word: u16)
    requires { (slot.0 < (view st.old).nodes) × (p < ports) × Door c × (t < tile_links) }
    ensures { view st.new ≡ closes_channel (view st.old) slot.0 p c t word }
{
    if closes(word) {
        shut(st, slot, p);
        set_tile_user(st, slot, t, Peer::Nobody);
        claim(st, slot, c, Peer::Nobody);
    }
}

fn idle(st: &mut [u32], slot: Slot)
    requires { slot.0 < (view st.old).nodes }
    ensures { view st.new ≡ serves_nobody (view st.old) slot.0 }
{
    unit::put_serves(st, slot, of_peer(Peer::Nobody));
}

// .. to the control unit: it serves nobody.
pub fn close_unit(st: &mut [u32], slot: Slot, p: usize)
    requires { (slot.0 < (view st.old).nodes) × (p < ports) }
    ensures { view st.new ≡ closes_unit (view st.old) slot.0 p }
{
    shut(st, slot, p);
    idle(st, slot);
}

// .. of a refused circuit.
pub fn close_dropped(st: &mut [u32], slot: Slot, p: usize, word: u16)
    requires { (slot.0 < (view st.old).nodes) × (p < ports) }
    ensures { view st.new ≡ closes_dropped (view st.old) slot.0 p word }
{
    if closes(word) {
        shut(st, slot, p);
    }
}
