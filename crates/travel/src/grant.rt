// Grants by the count of what a receiver has issued and not yet received.
ghost use Rattle.std.specs.Prelude.{◌≡◌, [], ◌+◌, ◌^◌, ◌<◌};
ghost use Rattle.lines.specs.Line.{line_capacity};
ghost use Rattle.cells.specs.View.{view};
ghost use Rattle.cells.specs.World.{lined, far_of};
ghost use Rattle.travel.specs.Travel.{may_grant, by_count, grant_due, issues, grants_back};
ghost use Rattle.travel.specs.Needs.{FarLine, LineThere, Grants};

use crate::line::{load_from, put};
use cells::line;
use cells::line::Line;
use cells::link::{Link, far_at};
use cells::port::Port;
use cells::record::Record;
use credits::grant;
use lines::CAPACITY;
use lines::load::word_of;
use names::Slot;

// A grant is made to a greeted link of which no HELLO is coming.
fn may_grant(st: &[u32], ls: &[u16], slot: Slot, l: usize) -> bool
    requires { LineThere (lined st.now ls.now) slot.0 l }
    ensures { result ≡ may_grant (lined st.now ls.now) slot.0 l }
{
    let k = Link::at(st, slot, l);
    if k.flow.greeted != 1 {
        return false;
    }
    let on = load_from(st, ls, slot, l);
    on.hellos == 0
}

// What the count allows at a link, where the line from it has room.
fn by_count(st: &[u32], slot: Slot, k: usize) -> u32
    ensures { result ≡ by_count (lined st.now []) slot.0 k }
{
    let x = Line::at(st, slot, k);
    if x.ring.held >= CAPACITY {
        return 0;
    }
    let p = Port::at(st, slot, k);
    grant(x.issued, p.counters.held)
}

// What the receiver at a link grants now. Mostly the count says that there is none, and then nothing else is looked at.
#[tactic(auto, using(crate::proofs::Due::none_due), unfolding(crate::specs::Travel::grant_due))]
pub fn grant_due(st: &[u32], ls: &[u16], slot: Slot, k: usize) -> u32
    requires { FarLine (lined st.now ls.now) (far_of ((view st.now).links.cables slot.0 k)) }
    ensures { result ≡ grant_due (lined st.now ls.now) slot.0 k }
{
    let g = by_count(st, slot, k);
    if g == 0 {
        return 0;
    }
    match far_at(st, slot, k) {
        Some((n, l)) if may_grant(st, ls, n, l) => g,
        _ => 0,
    }
}

// The grant is counted, and goes on the line back.
fn issue(st: &mut [u32], ls: &mut [u16], slot: Slot, k: usize, g: u32)
    requires { LineThere (lined st.old ls.old) slot.0 k × (((view st.old).lines.rings slot.0 k).held < line_capacity)
        × ((view st.old).lines.issued slot.0 k + g < 2 ^ 32) }
    ensures { lined st.new ls.new ≡ issues (lined st.old ls.old) slot.0 k g }
{
    let x = Line::at(st, slot, k);
    line::put_issued(st, slot, k, x.issued + g);
    put(st, ls, slot, k, word_of(g));
}

// A grant is considered at a receiver, and made: the answer is the grant.
#[tactic(auto, unfolding(crate::specs::Travel::grants_back))]
pub fn consider(st: &mut [u32], ls: &mut [u16], slot: Slot, k: usize) -> u32
    requires { Grants (lined st.old ls.old) slot.0 k }
    ensures { (result ≡ grant_due (lined st.old ls.old) slot.0 k)
        × (lined st.new ls.new ≡ grants_back (lined st.old ls.old) slot.0 k) }
{
    let g = grant_due(st, ls, slot, k);
    if g == 0 {
        return 0;
    }
    issue(st, ls, slot, k, g);
    g
}
