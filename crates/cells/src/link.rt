// One end of a cable.
ghost use Rattle.std.specs.Prelude.{◌≡◌, ◌<◌};
ghost use Rattle.names.specs.Size.{links};
ghost use Rattle.cells.specs.Layout.{link};
ghost use Rattle.cells.specs.KindLaws.{link_laws};
ghost use Rattle.cells.specs.Records.{to_link, from_link};
ghost use Rattle.cells.specs.View.{view, whole_link, with_link, with_cable, with_setup, with_flow, with_user};
ghost use Rattle.cells.specs.World.{far_of};

use crate::layout::{Kind, LINK};
use crate::record::Record;
use circuits::Circuit;
use names::Slot;

// Its words before those of its circuits.
pub const OWN: usize = 8;

// Where the cable leads.
#[derive(Clone, Copy)]
pub struct Cable {
    // 0 or 1; the far end is not looked at while it is 0
    pub wired: u32,
    pub far_slot: u32,
    pub far_link: u32,
}

// What Set gives a link.
#[derive(Clone, Copy)]
pub struct Setup {
    pub enabled: u32,
    pub direction: u32,
    pub network: u32,
}

// What may still be sent over it.
#[derive(Clone, Copy)]
pub struct Flow {
    pub greeted: u32,
    pub credit: u32,
}

#[derive(Clone, Copy)]
pub struct Link {
    pub cable: Cable,
    pub setup: Setup,
    pub flow: Flow,
    // the port whose circuit leaves by it
    pub user: Circuit,
}

// The far end of a cable: a link of a slot, if it leads anywhere.
pub fn far_of(k: Cable) -> Option<(Slot, usize)>
    ensures { result ≡ far_of k }
{
    if k.wired == 1 {
        return Some((Slot(k.far_slot as usize), k.far_link as usize));
    }
    None
}

impl Record for Link {
    const KIND: Kind = LINK;

    ghost KIND = { link };

    ghost of_words = { to_link };

    ghost to_words = { from_link };

    ghost entry = { whole_link };

    ghost with = { with_link };

    ghost laws = { link_laws };

    fn none() -> Link {
        Link {
            cable: Cable {
                wired: 0,
                far_slot: 0,
                far_link: 0,
            },
            setup: Setup {
                enabled: 0,
                direction: 0,
                network: 0,
            },
            flow: Flow {
                greeted: 0,
                credit: 0,
            },
            user: circuits::none(),
        }
    }

    fn from_words(w: &[u32]) -> Link {
        Link {
            cable: Cable {
                wired: w[0],
                far_slot: w[1],
                far_link: w[2],
            },
            setup: Setup {
                enabled: w[3],
                direction: w[4],
                network: w[5],
            },
            flow: Flow {
                greeted: w[6],
                credit: w[7],
            },
            user: circuits::read(&w[OWN..]),
        }
    }

    #[tactic(auto, using(laws::proofs::Row::listed))]
    fn write(self, w: &mut [u32]) {
        w[0] = self.cable.wired;
        w[1] = self.cable.far_slot;
        w[2] = self.cable.far_link;
        w[3] = self.setup.enabled;
        w[4] = self.setup.direction;
        w[5] = self.setup.network;
        w[6] = self.flow.greeted;
        w[7] = self.flow.credit;
        circuits::write(&mut w[OWN..], self.user);
    }
}

// Where the cable of a link leads.
pub fn far_at(st: &[u32], slot: Slot, l: usize) -> Option<(Slot, usize)>
    ensures { result ≡ far_of ((view st.now).links.cables slot.0 l) }
{
    let k = Link::at(st, slot, l);
    far_of(k.cable)
}

// Its cable alone.
#[tactic(auto, using(laws::proofs::Table::upd_own))]
pub fn put_cable(st: &mut [u32], slot: Slot, l: usize, x: Cable)
    requires { (slot.0 < (view st.old).nodes) × (l < links) }
    ensures { view st.new ≡ with_cable (view st.old) slot.0 l x }
{
    Link::change(st, slot, l, move |k: &mut Link| k.cable = x);
}

// Its settings alone.
#[tactic(auto, using(laws::proofs::Table::upd_own))]
pub fn put_setup(st: &mut [u32], slot: Slot, l: usize, x: Setup)
    requires { (slot.0 < (view st.old).nodes) × (l < links) }
    ensures { view st.new ≡ with_setup (view st.old) slot.0 l x }
{
    Link::change(st, slot, l, move |k: &mut Link| k.setup = x);
}

// Its greeting and credit alone.
#[tactic(auto, using(laws::proofs::Table::upd_own))]
pub fn put_flow(st: &mut [u32], slot: Slot, l: usize, x: Flow)
    requires { (slot.0 < (view st.old).nodes) × (l < links) }
    ensures { view st.new ≡ with_flow (view st.old) slot.0 l x }
{
    Link::change(st, slot, l, move |k: &mut Link| k.flow = x);
}

// Its user alone.
#[tactic(auto, using(laws::proofs::Table::upd_own))]
pub fn put_user(st: &mut [u32], slot: Slot, l: usize, x: Circuit)
    requires { (slot.0 < (view st.old).nodes) × (l < links) }
    ensures { view st.new ≡ with_user (view st.old) slot.0 l x }
{
    Link::change(st, slot, l, move |k: &mut Link| k.user = x);
}
