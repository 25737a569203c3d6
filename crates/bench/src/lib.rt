// The bench's public calls (document 01, "Calls"): for any arguments, any memory lent, any words in it.
// Each contract gives the one answer and every word of all three memories after the call, refused or not:
// `apply`, in specs/Calls.antt.
#![tactic(auto)]

ghost use Rattle.std.specs.Prelude.{◌≡◌, [], ◌∷◌};
ghost use Rattle.answers.specs.Rows.{checked};
ghost use Rattle.answers.specs.Out.{out};
ghost use Rattle.cells.specs.World.{lent};
ghost use Rattle.fresh.specs.declared.Start.TheVariants.{Fresh, Blank};
ghost use Rattle.bench.specs.Calls.{unsound, apply, Begin, Wire, Set, Aim, Output, Input, Step, Line};

use answers::Answer;
use cells::memories::Memories;
use ends::aim::Goal;
use ends::{Token, Wanted};
use fresh::{Start, begin};
use names::Slot;
use names::no::No;
use settings::Setting;
use settings::wire::link_at;
use sound::is_sound;
use travel::arrive::line_step;

// A record of a list of steps, as a host lends it: the list's own call is crate host's, and what it means
// is `Steps` in specs/Calls.antt.
#[repr(C)]
#[derive(Clone, Copy)]
pub struct StepRecord {
    pub slot: usize,
    pub port: usize,
}

// "state that fails the list" is Unsound.
fn check_sound(st: &[u32], mem: &[u16], ls: &[u16]) -> Result<(), No>
    ensures { result ≡ checked (unsound (lent st.now mem.now ls.now) ∷ []) }
{
    if !is_sound(&Memories {
        state: st,
        tokens: mem,
        lines: ls,
    }) {
        return Err(No::Unsound);
    }
    Ok(())
}

// A network of so many nodes as the boot ROM leaves them, links E to H enabled, whatever the memories held.
#[tactic(auto, unfolding(crate::specs::Calls::apply, fresh::specs::Fresh::begin))]
pub fn fresh(st: &mut [u32], mem: &mut [u16], ls: &mut [u16], nodes: usize) -> Result<Answer, No>
    ensures { out result (lent st.new mem.new ls.new) ≡ apply (lent st.old mem.old ls.old) (Begin Fresh nodes) }
{
    begin(st, mem, ls, Start::Fresh, nodes)
}

// The same with every link disabled.
#[tactic(auto, unfolding(crate::specs::Calls::apply, fresh::specs::Fresh::begin))]
pub fn blank(st: &mut [u32], mem: &mut [u16], ls: &mut [u16], nodes: usize) -> Result<Answer, No>
    ensures { out result (lent st.new mem.new ls.new) ≡ apply (lent st.old mem.old ls.old) (Begin Blank nodes) }
{
    begin(st, mem, ls, Start::Blank, nodes)
}

// A cable between link l of slot a and link k of slot b.
pub fn wire(
    st: &mut [u32],
    mem: &[u16],
    ls: &[u16],
    a: Slot,
    l: usize,
    b: Slot,
    k: usize,
) -> Result<Answer, No>
    ensures { out result (lent st.new mem.now ls.now) ≡ apply (lent st.old mem.now ls.now) (Wire a l b k) }
{
    check_sound(st, mem, ls)?;
    settings::wire::wire(st, a, l, b, k)
}

// A setting of a node or of one of its links.
pub fn set(
    st: &mut [u32],
    mem: &[u16],
    ls: &mut [u16],
    slot: Slot,
    x: Setting,
) -> Result<Answer, No>
    ensures { out result (lent st.new mem.now ls.new) ≡ apply (lent st.old mem.now ls.old) (Set slot x) }
{
    check_sound(st, mem, ls)?;
    settings::set(st, ls, slot, x)
}

// A channel-end's destination and network.
pub fn aim(
    st: &mut [u32],
    mem: &[u16],
    ls: &[u16],
    slot: Slot,
    c: usize,
    g: Goal,
    network: u32,
) -> Result<Answer, No>
    ensures { out result (lent st.new mem.now ls.now) ≡ apply (lent st.old mem.now ls.now) (Aim slot c g network) }
{
    check_sound(st, mem, ls)?;
    ends::aim::aim(st, slot, c, g, network)
}

// A token put out by a channel-end; the first opens a circuit.
pub fn output(
    st: &mut [u32],
    mem: &mut [u16],
    ls: &[u16],
    slot: Slot,
    c: usize,
    x: Token,
) -> Result<Answer, No>
    ensures { out result (lent st.new mem.new ls.now) ≡ apply (lent st.old mem.old ls.now) (Output slot c x) }
{
    check_sound(st, mem, ls)?;
    ends::output::output(st, mem, slot, c, x)
}

// The oldest token that a channel-end holds, as data or as control.
pub fn input(
    st: &mut [u32],
    mem: &[u16],
    ls: &[u16],
    slot: Slot,
    c: usize,
    wanted: Wanted,
) -> Result<Answer, No>
    ensures { out result (lent st.new mem.now ls.now) ≡ apply (lent st.old mem.now ls.now) (Input slot c wanted) }
{
    check_sound(st, mem, ls)?;
    ends::input::input(st, slot, c, wanted)
}

// One Step of a node's port. A control unit obeys a switch message, and replies to it, at its end.
pub fn step(
    st: &mut [u32],
    mem: &mut [u16],
    ls: &mut [u16],
    slot: Slot,
    p: usize,
) -> Result<Answer, No>
    ensures { out result (lent st.new mem.new ls.new) ≡ apply (lent st.old mem.old ls.old) (Step slot p) }
{
    check_sound(st, mem, ls)?;
    switch::step(st, mem, ls, slot, p)
}

// One off the far end of the line that starts at a link: a token comes to a port, a credit or a HELLO to a link.
pub fn line(
    st: &mut [u32],
    mem: &mut [u16],
    ls: &mut [u16],
    slot: Slot,
    l: usize,
) -> Result<Answer, No>
    ensures { out result (lent st.new mem.new ls.new) ≡ apply (lent st.old mem.old ls.old) (Line slot l) }
{
    check_sound(st, mem, ls)?;
    if !link_at(st, slot, l) {
        return Err(No::NoSuch);
    }
    match line_step(st, mem, ls, slot, l) {
        Some(granted) => Ok(Answer::Arrived(granted)),
        None => Ok(Answer::Idle),
    }
}
