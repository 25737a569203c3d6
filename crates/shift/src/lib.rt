// One record of a list of steps (document 02, Ask 1): its Step, as the single call makes it, and its result
// where the host reads it. The function over the list itself is crate host's.
#![tactic(auto)]

ghost use Rattle.std.specs.Prelude.{◌≡◌, ◌<◌, length};
ghost use Rattle.answers.specs.Out.{out};
ghost use Rattle.cells.specs.World.{lent};
ghost use Rattle.bench.specs.Calls.{apply, Step};
ghost use Rattle.shift.specs.Lists.{left, one_step};
ghost use Rattle.shift.specs.Needs.{Sure, known};

use answers::{Answer, answer_number};
use cells::memories::Memories;
use names::Slot;
use names::no::No;
use sound::{is_sound, is_tight};

// The state is sound and tight: it was at the record before, and every Step keeps it so, or it is found to be
// so now. Nothing is tested where it is known, or where no record is to come that has use of it.
fn known(st: &[u32], mem: &[u16], ls: &[u16], sure: bool, more: bool) -> bool
    ensures { result ≡ known sure more (lent st.now mem.now ls.now) }
{
    if sure {
        return true;
    }
    if !more {
        return false;
    }
    if !is_sound(&Memories {
        state: st,
        tokens: mem,
        lines: ls,
    }) {
        return false;
    }
    is_tight(&Memories {
        state: st,
        tokens: mem,
        lines: ls,
    })
}

// The public Step, without its test where the state is known to be sound.
fn step(
    st: &mut [u32],
    mem: &mut [u16],
    ls: &mut [u16],
    slot: Slot,
    port: usize,
    sure: bool,
) -> Result<Answer, No>
    requires { Sure sure (lent st.old mem.old ls.old) }
    ensures { out result (lent st.new mem.new ls.new) ≡ apply (lent st.old mem.old ls.old) (Step slot port) }
{
    if sure {
        return switch::step(st, mem, ls, slot, port);
    }
    bench::step(st, mem, ls, slot, port)
}

// The Step of the record at place i, its answer stored there; whether the state is known from here on.
pub fn step_into(
    st: &mut [u32],
    mem: &mut [u16],
    ls: &mut [u16],
    results: &mut [u64],
    i: usize,
    slot: usize,
    port: usize,
    sure: bool,
) -> bool
    requires { (i < length results.old) × Sure sure (lent st.old mem.old ls.old) }
    ensures { Sure result (lent st.new mem.new ls.new) × (left (lent st.new mem.new ls.new) results.new ≡ one_step (left (lent st.old mem.old ls.old) results.old) i slot port) }
{
    let sure = known(st, mem, ls, sure, i + 1 < results.len());
    let a = step(st, mem, ls, Slot(slot), port, sure);
    results[i] = answer_number(a);
    sure
}
