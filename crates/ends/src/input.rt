// Input: the next token, as data or as control.
ghost use Rattle.std.specs.Prelude.{◌≡◌, ◌<◌};
ghost use Rattle.answers.specs.Rows.{checked};
ghost use Rattle.answers.specs.Out.{out};
ghost use Rattle.cells.specs.View.{view};
ghost use Rattle.ends.specs.Input.{is_wanted, first_held, input_rows, input_value, took_first, input};

use crate::{Wanted, end_at};
use answers::Answer;
use cells::end;
use cells::end::{Buffer, End};
use cells::record::Record;
use names::Slot;
use names::no::No;

// The token is of the kind that was asked for.
fn is_wanted(word: u32, wanted: Wanted) -> bool
    ensures { result ≡ is_wanted word wanted }
{
    let control = word / 256 % 2 == 1;
    match wanted {
        Wanted::Data => !control,
        Wanted::Control => control,
    }
}

// The oldest token.
fn first_held(k: Buffer) -> u32
    ensures { result ≡ first_held k }
{
    let t = k.tokens;
    t[0]
}

// Whether Input is refused.
fn check_input(st: &[u32], slot: Slot, c: usize, wanted: Wanted) -> Result<(), No>
    ensures { result ≡ checked (input_rows (view st.now) slot.0 c wanted) }
{
    if !end_at(st, slot, c) {
        return Err(No::NoSuch);
    }
    let e = End::at(st, slot, c);
    let k = e.buffer;
    if k.held == 0 {
        return Err(No::Empty);
    }
    if !is_wanted(first_held(k), wanted) {
        return Err(No::Trap);
    }
    Ok(())
}

// A channel-end's buffer without its oldest token.
fn took_first(k: Buffer) -> Buffer
    requires { 0 < k.held }
    ensures { result ≡ took_first k }
{
    let t = k.tokens;
    Buffer {
        held: k.held - 1,
        tokens: [t[1], t[2], t[3], t[4], t[5], t[6], t[7], 0],
    }
}

// Input, whole: refused by its number with nothing changed (the token stays), or the token's value.
#[tactic(auto, using(answers::proofs::Refusals::goes_on_lem, crate::proofs::There::input_there, crate::proofs::There::some_held), unfolding(crate::specs::Input::input))]
pub fn input(st: &mut [u32], slot: Slot, c: usize, wanted: Wanted) -> Result<Answer, No>
    ensures { out result (view st.new) ≡ input (view st.old) slot.0 c wanted }
{
    check_input(st, slot, c, wanted)?;
    let k = End::at(st, slot, c);
    let word = first_held(k.buffer);
    end::put_buffer(st, slot, c, took_first(k.buffer));
    Ok(Answer::Token((word % 256) as u8))
}
