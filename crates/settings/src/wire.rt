// Wire (document 01, "Calls"; document 02, Ask 7): join two different link ends, both unwired.
ghost use Rattle.std.specs.Prelude.{◌≡◌, ◌<◌, ◌≤◌, ◌^◌};
ghost use Rattle.names.specs.Size.{links, nodes};
ghost use Rattle.answers.specs.Rows.{checked};
ghost use Rattle.answers.specs.Out.{out};
ghost use Rattle.cells.specs.View.{view};
ghost use Rattle.settings.specs.Wire.{link_at, end_wired, wire_rows, cable_to, wired, wire};

use answers::Answer;
use cells::link::{Cable, Link};
use cells::record::Record;
use cells::{link, node};
use names::Slot;
use names::no::No;
use names::size::LINKS;

pub fn link_at(st: &[u32], slot: Slot, l: usize) -> bool
    ensures { result ≡ link_at (view st.now) slot.0 l }
{
    (slot.0 < node::count(st)) & (l < LINKS)
}

fn end_wired(st: &[u32], slot: Slot, l: usize) -> bool
    ensures { result ≡ end_wired (view st.now) slot.0 l }
{
    let k = Link::at(st, slot, l);
    k.cable.wired == 1
}

// Whether Wire is refused.
fn check_wire(st: &[u32], a: Slot, l: usize, b: Slot, k: usize) -> Result<(), No>
    ensures { result ≡ checked (wire_rows (view st.now) a.0 l b.0 k) }
{
    let there = link_at(st, a, l) & link_at(st, b, k);
    if !there {
        return Err(No::NoSuch);
    }
    let itself = (a == b) & (l == k);
    if itself {
        return Err(No::Value);
    }
    let wired = end_wired(st, a, l) | end_wired(st, b, k);
    if wired {
        return Err(No::Busy);
    }
    Ok(())
}

// A cable that leads to link j of slot m.
fn cable_to(m: Slot, j: usize) -> Cable
    requires { (m.0 < 2 ^ 32) × (j < 2 ^ 32) }
    ensures { result ≡ cable_to m.0 j }
{
    Cable {
        wired: 1,
        far_slot: m.0 as u32,
        far_link: j as u32,
    }
}

fn join(st: &mut [u32], a: Slot, l: usize, b: Slot, k: usize)
    requires { (a.0 < (view st.old).nodes) × (l < links) × (b.0 < (view st.old).nodes) × (k < links)
        × ((view st.old).nodes ≤ nodes) }
    ensures { view st.new ≡ wired (view st.old) a.0 l b.0 k }
{
    link::put_cable(st, a, l, cable_to(b, k));
    link::put_cable(st, b, k, cable_to(a, l));
}

// Wire, whole: refused by its number with nothing changed, or made.
#[tactic(auto, using(crate::proofs::Passed::wire_goes_on, crate::proofs::Passed::wire_there))]
pub fn wire(st: &mut [u32], a: Slot, l: usize, b: Slot, k: usize) -> Result<Answer, No>
    requires { (view st.old).nodes ≤ nodes }
    ensures { out result (view st.new) ≡ wire (view st.old) a.0 l b.0 k }
{
    check_wire(st, a, l, b, k)?;
    join(st, a, l, b, k);
    Ok(Answer::Done)
}
