// A token that the control unit hears.
ghost use Rattle.std.specs.Prelude.{◌≡◌, Ok};
ghost use Rattle.answers.specs.Out.{out};
ghost use Rattle.cells.specs.World.{lent};
ghost use Rattle.messages.specs.Needs.{Ready};
ghost use Rattle.moves.specs.Needs.{Takes};
ghost use Rattle.switch.specs.Step.{hears};

use answers::Answer;
use messages::end_message;
use messages::heard::listen;
use moves::open::close_unit;
use moves::take::take;
use names::Slot;
use tokens::word::closes;

// "To the control unit: Moved", or what becomes of a message at its end, the hop being closed first.
pub fn hear(st: &mut [u32], mem: &mut [u16], ls: &mut [u16], slot: Slot, p: usize) -> Answer
    requires { Takes (lent st.old mem.old ls.old) slot.0 p 1 × Ready (lent st.old mem.old ls.old) slot.0 }
    ensures { out (Ok result) (lent st.new mem.new ls.new)
        ≡ hears (lent st.old mem.old ls.old) slot.0 p }
{
    let word = take(st, mem, ls, slot, p);
    if closes(word) {
        close_unit(st, slot, p);
        return end_message(st, mem, ls, slot, word);
    }
    listen(st, slot, word);
    Answer::Moved
}
