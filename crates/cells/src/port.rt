// A port.
ghost use Rattle.std.specs.Prelude.{◌≡◌, ◌<◌};
ghost use Rattle.names.specs.Size.{ports};
ghost use Rattle.cells.specs.Layout.{port};
ghost use Rattle.cells.specs.KindLaws.{port_laws};
ghost use Rattle.cells.specs.Records.{to_port, from_port};
ghost use Rattle.cells.specs.View.{view, whole_port, with_port, with_counters, with_leg, with_network, with_sender};

use crate::layout::{Kind, PORT};
use crate::record::Record;
use circuits::Circuit;
use names::Slot;
use ports::Counters;

// Its words before those of its circuits.
pub const OWN: usize = 4;

// Where the port's circuit goes on to.
#[derive(Clone, Copy)]
pub struct Leg {
    pub circuit: Circuit,
    // the tile link of a hop to a channel
    pub tile: u32,
}

#[derive(Clone, Copy)]
pub struct Port {
    pub counters: Counters,
    pub leg: Leg,
    // of the circuit that has taken a tile port
    pub network: u32,
    // the channel-end whose open circuit goes by it
    pub sender: Circuit,
}

impl Record for Port {
    const KIND: Kind = PORT;

    ghost KIND = { port };

    ghost of_words = { to_port };

    ghost to_words = { from_port };

    ghost entry = { whole_port };

    ghost with = { with_port };

    ghost laws = { port_laws };

    fn none() -> Port {
        Port {
            counters: Counters::new(),
            leg: Leg {
                circuit: circuits::none(),
                tile: 0,
            },
            network: 0,
            sender: circuits::none(),
        }
    }

    fn from_words(w: &[u32]) -> Port {
        let e = OWN + circuits::WORDS;
        Port {
            counters: Counters {
                head: w[0],
                held: w[1],
            },
            leg: Leg {
                circuit: circuits::read(&w[OWN..e]),
                tile: w[2],
            },
            network: w[3],
            sender: circuits::read(&w[e..]),
        }
    }

    fn write(self, w: &mut [u32]) {
        w[0] = self.counters.head;
        w[1] = self.counters.held;
        w[2] = self.leg.tile;
        w[3] = self.network;
        let e = OWN + circuits::WORDS;
        circuits::write(&mut w[OWN..e], self.leg.circuit);
        circuits::write(&mut w[e..], self.sender);
    }
}

// Its counters alone.
#[tactic(auto, using(laws::proofs::Table::upd_own))]
pub fn put_counters(st: &mut [u32], slot: Slot, p: usize, x: Counters)
    requires { (slot.0 < (view st.old).nodes) × (p < ports) }
    ensures { view st.new ≡ with_counters (view st.old) slot.0 p x }
{
    Port::change(st, slot, p, move |k: &mut Port| k.counters = x);
}

// Its circuit alone.
#[tactic(auto, using(laws::proofs::Table::upd_own))]
pub fn put_leg(st: &mut [u32], slot: Slot, p: usize, x: Leg)
    requires { (slot.0 < (view st.old).nodes) × (p < ports) }
    ensures { view st.new ≡ with_leg (view st.old) slot.0 p x }
{
    Port::change(st, slot, p, move |k: &mut Port| k.leg = x);
}

// Its circuit's network alone.
#[tactic(auto, using(laws::proofs::Table::upd_own))]
pub fn put_network(st: &mut [u32], slot: Slot, p: usize, x: u32)
    requires { (slot.0 < (view st.old).nodes) × (p < ports) }
    ensures { view st.new ≡ with_network (view st.old) slot.0 p x }
{
    Port::change(st, slot, p, move |k: &mut Port| k.network = x);
}

// Its sender alone.
#[tactic(auto, using(laws::proofs::Table::upd_own))]
pub fn put_sender(st: &mut [u32], slot: Slot, p: usize, x: Circuit)
    requires { (slot.0 < (view st.old).nodes) × (p < ports) }
    ensures { view st.new ≡ with_sender (view st.old) slot.0 p x }
{
    Port::change(st, slot, p, move |k: &mut Port| k.sender = x);
}
