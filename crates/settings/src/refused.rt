// When Set is refused (document 01, "Numbers for no").
ghost use Rattle.std.specs.Prelude.{◌≡◌, [], ◌<◌};
ghost use Rattle.answers.specs.Rows.{checked};
ghost use Rattle.cells.specs.View.{view};
ghost use Rattle.cells.specs.World.{lined, far_of};
ghost use Rattle.travel.specs.Needs.{LineThere, FarLine};
ghost use Rattle.settings.specs.Set.{link_there, in_range, end_in_use, far_in_use, in_use, changes_network, in_transit, signalled, either_line};
ghost use Rattle.settings.specs.Set.{disables_busy, hello_busy, set_busy, set_rows};
ghost use Rattle.settings.specs.Needs.{Settable, Settled};

use crate::Setting;
use cells::line::Line;
use cells::link::{Link, far_at};
use cells::node;
use cells::port::Port;
use cells::record::Record;
use names::no::No;
use names::size::{BITS, DIRECTIONS, LINKS, NETWORKS};
use names::{Slot, is_number};
use travel::line::load_from;

// The link that is set is there, if a link is.
fn link_there(x: Setting) -> bool
    ensures { result ≡ link_there x }
{
    match x {
        Setting::Number(_) => true,
        Setting::Width(_) => true,
        Setting::Direction(_, _) => true,
        Setting::LinkDirection(l, _) => l < LINKS,
        Setting::Network(l, _) => l < LINKS,
        Setting::Enable(l, _) => l < LINKS,
        Setting::Hello(l) => l < LINKS,
    }
}

// "a setting or direction bit out of range" is Value.
fn in_range(x: Setting) -> bool
    ensures { result ≡ in_range x }
{
    match x {
        Setting::Number(v) => is_number(v),
        Setting::Width(v) => (v == 1) | (v == 3),
        Setting::Direction(b, v) => (b < BITS) & (v < DIRECTIONS),
        Setting::LinkDirection(_, v) => v < DIRECTIONS,
        Setting::Network(_, v) => v < NETWORKS,
        Setting::Enable(_, v) => v <= 1,
        Setting::Hello(_) => true,
    }
}

// A link end's buffer holds a token, or a direction of its cable is in a circuit there.
fn end_in_use(st: &[u32], slot: Slot, l: usize) -> bool
    ensures { result ≡ end_in_use (view st.now) slot.0 l }
{
    let p = Port::at(st, slot, l);
    let k = Link::at(st, slot, l);
    !((p.leg.circuit.kind == 0) & (p.counters.held == 0)) | !(k.user.kind == 0)
}

fn far_in_use(st: &[u32], f: Option<(Slot, usize)>) -> bool
    ensures { result ≡ far_in_use (view st.now) f }
{
    f.is_some_and(|(m, j)| end_in_use(st, m, j))
}

fn in_use(st: &[u32], slot: Slot, l: usize) -> bool
    ensures { result ≡ in_use (view st.now) slot.0 l }
{
    let far = far_in_use(st, far_at(st, slot, l));
    end_in_use(st, slot, l) | far
}

// "network changed to another while enabled"
fn changes_network(st: &[u32], slot: Slot, l: usize, v: u32) -> bool
    ensures { result ≡ changes_network (view st.now) slot.0 l v }
{
    let k = Link::at(st, slot, l);
    (k.setup.enabled == 1) & !(k.setup.network == v)
}

// Anything is on the line that starts at a link.
fn in_transit(st: &[u32], slot: Slot, l: usize) -> bool
    ensures { result ≡ in_transit (lined st.now []) slot.0 l }
{
    let k = Line::at(st, slot, l);
    !(k.ring.held == 0)
}

// .. on either line of its cable.
fn cable_in_transit(st: &[u32], slot: Slot, l: usize) -> bool
    ensures { result ≡ either_line in_transit (lined st.now []) slot.0 l }
{
    far_at(st, slot, l).is_some_and(|(m, k)| in_transit(st, slot, l) | in_transit(st, m, k))
}

// A credit or a HELLO is on the line that starts at a link.
fn signalled(st: &[u32], ls: &[u16], slot: Slot, l: usize) -> bool
    requires { LineThere (lined st.now ls.now) slot.0 l }
    ensures { result ≡ signalled (lined st.now ls.now) slot.0 l }
{
    let k = load_from(st, ls, slot, l);
    !(k.credits == 0) | !(k.hellos == 0)
}

// .. on either line of its cable.
pub fn cable_signalled(st: &[u32], ls: &[u16], slot: Slot, l: usize) -> bool
    requires { LineThere (lined st.now ls.now) slot.0 l
        × FarLine (lined st.now ls.now) (far_of ((view st.now).links.cables slot.0 l)) }
    ensures { result ≡ either_line signalled (lined st.now ls.now) slot.0 l }
{
    far_at(st, slot, l).is_some_and(|(m, k)| signalled(st, ls, slot, l) | signalled(st, ls, m, k))
}

// "disabling an enabled link while .."
fn disables_busy(st: &[u32], slot: Slot, l: usize, v: u32) -> bool
    ensures { result ≡ disables_busy (lined st.now []) slot.0 l v }
{
    let k = Link::at(st, slot, l);
    (v == 0) & ((k.setup.enabled == 1) & (in_use(st, slot, l) | cable_in_transit(st, slot, l)))
}

// "HELLO on a disabled link", or while a credit or a HELLO travels.
fn hello_busy(st: &[u32], ls: &[u16], slot: Slot, l: usize) -> bool
    requires { LineThere (lined st.now ls.now) slot.0 l
        × FarLine (lined st.now ls.now) (far_of ((view st.now).links.cables slot.0 l)) }
    ensures { result ≡ hello_busy (lined st.now ls.now) slot.0 l }
{
    let k = Link::at(st, slot, l);
    !(k.setup.enabled == 1) | cable_signalled(st, ls, slot, l)
}

fn set_busy(st: &[u32], ls: &[u16], slot: Slot, x: Setting) -> bool
    requires { (slot.0 < (view st.now).nodes) × Settable x × Settled (lined st.now ls.now) }
    ensures { result ≡ set_busy (lined st.now ls.now) slot.0 x }
{
    match x {
        Setting::Number(_) => false,
        Setting::Width(_) => false,
        Setting::Direction(_, _) => false,
        Setting::LinkDirection(_, _) => false,
        Setting::Network(l, v) => changes_network(st, slot, l, v),
        Setting::Enable(l, v) => disables_busy(st, slot, l, v),
        Setting::Hello(l) => hello_busy(st, ls, slot, l),
    }
}

// Whether Set is refused.
pub fn check_set(st: &[u32], ls: &[u16], slot: Slot, x: Setting) -> Result<(), No>
    requires { Settled (lined st.now ls.now) }
    ensures { result ≡ checked (set_rows (lined st.now ls.now) slot.0 x) }
{
    let there = (slot.0 < node::count(st)) & link_there(x);
    if !there {
        return Err(No::NoSuch);
    }
    if !in_range(x) {
        return Err(No::Value);
    }
    if set_busy(st, ls, slot, x) {
        return Err(No::Busy);
    }
    Ok(())
}
