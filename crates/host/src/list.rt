// The list of steps (document 02, Ask 1): one thin function over a lent slice of records, each taken apart
// and given to the single step.
ghost use Rattle.std.specs.Prelude.{◌≡◌};
ghost use Rattle.cells.specs.World.{lent};
ghost use Rattle.shift.specs.Lists.{listed, list_made};

use answers::{Answer, answer_number};
use bench::StepRecord;
use names::no::No;
use shift::step_into;

// Each record's Step in order, its answer's number at its place of the results; results of another length than
// the list are refused, and nothing is done. Nothing is known of the state before the first record.
#[unsafe(no_mangle)]
pub extern "C" fn tarvelgyo_steps(
    st: &mut [u32],
    mem: &mut [u16],
    ls: &mut [u16],
    list: &[StepRecord],
    results: &mut [u64],
) -> u64
    ensures { listed result (lent st.new mem.new ls.new) results.new ≡ list_made (lent st.old mem.old ls.old) results.old list.now }
{
    if results.len() != list.len() {
        return answer_number(Err(No::NoSuch));
    }
    let mut sure = false;
    for (i, x) in list.iter().enumerate() {
        sure = step_into(st, mem, ls, results, i, x.slot, x.port, sure);
    }
    answer_number(Ok(Answer::Done))
}
