// Cables and credits, link by link.
ghost use Rattle.std.specs.Prelude.{◌≡◌};
ghost use Rattle.cells.specs.View.{view};
ghost use Rattle.clauses.specs.Cables.{leads_to, joined, cable, credited, enabled, far_enabled, greeted};

use cells::link::{Cable, Link, far_at, far_of};
use cells::node;
use cells::record::Record;
use names::Slot;
use names::size::LINKS;

// A cable leads to this very link.
fn leads_to(f: Option<(Slot, usize)>, slot: Slot, l: usize) -> bool
    ensures { result ≡ leads_to f slot.0 l }
{
    f.is_some_and(|(m, k)| (m.0 == slot.0) & (k == l))
}

fn joined(st: &[u32], slot: Slot, l: usize, m: Slot, k: usize) -> bool
    ensures { result ≡ joined (view st.now) slot.0 l m.0 k }
{
    let back = leads_to(far_at(st, m, k), slot, l);
    (m.0 < node::count(st)) & ((k < LINKS) & (!((m == slot) & (k == l)) & back))
}

// "cables agree at both ends"
pub fn cable(st: &[u32], slot: Slot, l: usize) -> bool
    ensures { result ≡ cable (view st.now) slot.0 l }
{
    far_at(st, slot, l).is_none_or(|(m, k)| joined(st, slot, l, m, k))
}

// "credit only where greeted"
pub fn credited(st: &[u32], slot: Slot, l: usize) -> bool
    ensures { result ≡ credited (view st.now) slot.0 l }
{
    let k = Link::at(st, slot, l);
    (k.flow.credit == 0) | (k.flow.greeted == 1)
}

fn enabled(st: &[u32], slot: Slot, l: usize) -> bool
    ensures { result ≡ enabled (view st.now) slot.0 l }
{
    let k = Link::at(st, slot, l);
    k.setup.enabled == 1
}

// The far end exists and is enabled.
pub fn far_enabled(st: &[u32], k: Cable) -> bool
    ensures { result ≡ far_enabled (view st.now) k }
{
    far_of(k).is_some_and(|(m, j)| enabled(st, m, j))
}

// "greeted only where wired with both ends enabled"
pub fn greeted(st: &[u32], slot: Slot, l: usize) -> bool
    ensures { result ≡ greeted (view st.now) slot.0 l }
{
    let k = Link::at(st, slot, l);
    !(k.flow.greeted == 1) | ((k.setup.enabled == 1) & far_enabled(st, k.cable))
}
