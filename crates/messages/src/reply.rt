// What a control unit replies, by port 12 (document 01, "Switch messages").
ghost use Rattle.std.specs.Prelude.{◌≡◌, ◌≤◌, Ok};
ghost use Rattle.names.specs.Size.{reply_port};
ghost use Rattle.answers.specs.Out.{out};
ghost use Rattle.cells.specs.World.{world};
ghost use Rattle.acts.specs.Acts.{pushed_all};
ghost use Rattle.acts.specs.Needs.{Room};
ghost use Rattle.messages.specs.Ended.{byte, bytes, said, reply_put, reply_sent};
ghost use Rattle.messages.specs.Needs.{longest};

use acts::{push, push_header, width_at};
use answers::Answer;
use names::Slot;
use names::size::REPLY_PORT;
use tokens::control::{ACK, NACK};
use tokens::header::{Header, Target, is_narrow, make_header};
use tokens::word::{END, of_control, of_data};

// What follows a reply's header.
#[derive(Clone, Copy)]
pub enum Reply {
    Nack,
    Ack,
    // what a register reads
    Value(u32),
}

// The byte of a value that begins at this power of two.
fn byte(v: u32, at: u32) -> u16
    requires { 1 ≤ at }
    ensures { result ≡ byte at v }
{
    of_data((v / at % 0x0100) as u8)
}

// Four data bytes, the high one first.
fn push_bytes(st: &mut [u32], mem: &mut [u16], slot: Slot, v: u32)
    requires { Room (world st.old mem.old) slot.0 reply_port 4 }
    ensures { world st.new mem.new
        ≡ pushed_all (world st.old mem.old) slot.0 reply_port (bytes v) }
{
    push(st, mem, slot, REPLY_PORT, byte(v, 0x0100_0000));
    push(st, mem, slot, REPLY_PORT, byte(v, 0x0001_0000));
    push(st, mem, slot, REPLY_PORT, byte(v, 0x0100));
    push(st, mem, slot, REPLY_PORT, byte(v, 1));
}

// What stands between a reply's header and its END.
fn say(st: &mut [u32], mem: &mut [u16], slot: Slot, x: Reply)
    requires { Room (world st.old mem.old) slot.0 reply_port 5 }
    ensures { world st.new mem.new
        ≡ pushed_all (world st.old mem.old) slot.0 reply_port (said x) }
{
    match x {
        Reply::Nack => push(st, mem, slot, REPLY_PORT, of_control(NACK)),
        Reply::Ack => push(st, mem, slot, REPLY_PORT, of_control(ACK)),
        Reply::Value(v) => {
            push(st, mem, slot, REPLY_PORT, of_control(ACK));
            push_bytes(st, mem, slot, v);
        }
    }
}

#[tactic(auto, using(crate::proofs::Replies::after_header, crate::proofs::Replies::after_said, acts::proofs::Pushes::less))]
fn put_reply(st: &mut [u32], mem: &mut [u16], slot: Slot, h: Header, x: Reply)
    requires { Room (world st.old mem.old) slot.0 reply_port longest }
    ensures { world st.new mem.new ≡ reply_put (world st.old mem.old) slot.0 h x }
{
    push_header(st, mem, slot, REPLY_PORT, h);
    say(st, mem, slot, x);
    push(st, mem, slot, REPLY_PORT, END);
}

// A reply is sent, if the node's width at this moment can carry where it is to go.
pub fn send(st: &mut [u32], mem: &mut [u16], slot: Slot, g: Target, x: Reply) -> Answer
    requires { Room (world st.old mem.old) slot.0 reply_port longest }
    ensures { out (Ok result) (world st.new mem.new)
        ≡ reply_sent (world st.old mem.old) slot.0 g x }
{
    let h = make_header(g, width_at(st, slot));
    if is_narrow(h) {
        return Answer::Unheard;
    }
    put_reply(st, mem, slot, h, x);
    Answer::Moved
}
