// Switch messages (document 01, "Switch messages"): what a node's control unit hears, and what it does and
// replies at a message's end, on a state that is known to be sound. Step, in crate switch, closes the hop
// first.
#![tactic(auto)]

pub mod heard;
pub mod register;
pub mod reply;
pub mod write;

ghost use Rattle.std.specs.Prelude.{◌≡◌, Ok};
ghost use Rattle.laws.specs.Pick.{pick};
ghost use Rattle.answers.specs.Out.{out};
ghost use Rattle.cells.specs.World.{lent};
ghost use Rattle.messages.specs.declared.reply.Reply.TheVariants.{Nack, Ack};
ghost use Rattle.messages.specs.Ended.{obeyed, ended};
ghost use Rattle.messages.specs.Needs.{Ready};

use crate::heard::{Message, message_of};
use crate::register::read;
use crate::reply::{Reply, send};
use crate::write::write;
use answers::Answer;
use cells::record::Record;
use cells::unit::Unit;
use names::Slot;

// A write that was accepted is acknowledged.
fn verdict(accepted: bool) -> Reply
    ensures { result ≡ pick accepted Ack Nack }
{
    if accepted {
        return Reply::Ack;
    }
    Reply::Nack
}

// A message is obeyed, and replied to with the width that the node has then.
fn obey(st: &mut [u32], mem: &mut [u16], ls: &mut [u16], slot: Slot, m: Message) -> Answer
    requires { Ready (lent st.old mem.old ls.old) slot.0 }
    ensures { out (Ok result) (lent st.new mem.new ls.new) ≡ obeyed (lent st.old mem.old ls.old) slot.0 m }
{
    match m {
        Message::Malformed => Answer::Malformed,
        Message::Wrong(g) => send(st, mem, slot, g, Reply::Nack),
        Message::Read(g, r) => {
            let v = read(st, slot, r);
            send(st, mem, slot, g, Reply::Value(v))
        }
        Message::Write(g, r, v) => {
            let done = write(st, ls, slot, r, v);
            send(st, mem, slot, g, verdict(done))
        }
    }
}

// END or PAUSE has come to a node's control unit.
pub fn end_message(st: &mut [u32], mem: &mut [u16], ls: &mut [u16], slot: Slot, word: u16) -> Answer
    requires { Ready (lent st.old mem.old ls.old) slot.0 }
    ensures { out (Ok result) (lent st.new mem.new ls.new)
        ≡ ended (lent st.old mem.old ls.old) slot.0 word }
{
    let k = Unit::at(st, slot, 0);
    let m = message_of(k.hearing, word);
    obey(st, mem, ls, slot, m)
}
