// What a control unit hears: the tokens that it keeps, and what they say at the end.
ghost use Rattle.std.specs.Prelude.{◌≡◌, ◌+◌, ◌<◌};
ghost use Rattle.names.specs.Size.{unit_buffer};
ghost use Rattle.tokens.specs.Word.{value_of};
ghost use Rattle.cells.specs.View.{view};
ghost use Rattle.messages.specs.Heard.{hears_word, listens, token, two_data, two, four, is_command, has_reply, reply_to, is_write, is_read};
ghost use Rattle.messages.specs.Heard.{order_of, message_of};

use crate::register::{Register, is_known, register_of};
use cells::record::Record;
use cells::unit;
use cells::unit::{Hearing, Unit};
use names::size::UNIT_BUFFER;
use names::{NodeNumber, Slot};
use tokens::header::{Target, is_channel};
use tokens::word::{READC, WRITEC, is_pause};

// The first token of a message that writes, and of one that reads, beside words of 32 bits.
const WRITE: u32 = WRITEC as u32;

const READ: u32 = READC as u32;

#[derive(Clone, Copy)]
pub enum Message {
    // no known reply address, or PAUSE at its end
    Malformed,
    // a known reply address, and something else that is wrong
    Wrong(Target),
    Read(Target, Register),
    Write(Target, Register, u32),
}

// What a control unit has heard after a token: what no whole message has is not kept.
fn hears_word(k: Hearing, word: u16) -> Hearing
    ensures { result ≡ hears_word k word }
{
    if k.heard < UNIT_BUFFER {
        let mut t = k.tokens;
        let i = k.heard as usize;
        t[i] = word as u32;
        return Hearing {
            heard: k.heard + 1,
            tokens: t,
        };
    }
    k
}

// One token of a message that goes on.
pub fn listen(st: &mut [u32], slot: Slot, word: u16)
    requires { slot.0 < (view st.old).nodes }
    ensures { view st.new ≡ listens (view st.old) slot.0 word }
{
    let k = Unit::at(st, slot, 0);
    unit::put_hearing(st, slot, hears_word(k.hearing, word));
}

fn token(k: Hearing, i: usize) -> u32
    requires { i < unit_buffer }
    ensures { result ≡ token k i }
{
    let t = k.tokens;
    t[i]
}

fn byte(k: Hearing, i: usize) -> u8
    requires { i < unit_buffer }
    ensures { result ≡ value_of (token k i) }
{
    (token(k, i) % 0x0100) as u8
}

// Two tokens are data.
fn two_data(k: Hearing, i: usize) -> bool
    requires { i + 1 < unit_buffer }
    ensures { result ≡ two_data k i }
{
    (token(k, i) < 0x0100) & (token(k, i + 1) < 0x0100)
}

// Two bytes, the high one first.
fn two(k: Hearing, i: usize) -> u16
    requires { i + 1 < unit_buffer }
    ensures { result ≡ two k i }
{
    byte(k, i) as u16 * 0x0100 + byte(k, i + 1) as u16
}

fn four(k: Hearing, i: usize) -> u32
    requires { i + 3 < unit_buffer }
    ensures { result ≡ four k i }
{
    two(k, i) as u32 * 0x0001_0000 + two(k, i + 2) as u32
}

fn is_command(x: u32) -> bool
    ensures { result ≡ is_command x }
{
    (x == WRITE) | (x == READ)
}

// Command and three data bytes, the last of them a channel.
fn has_reply(k: Hearing) -> bool
    ensures { result ≡ has_reply k }
{
    (4 <= k.heard) & (is_command(token(k, 0)) & (two_data(k, 1) & is_channel(token(k, 3))))
}

fn reply_to(k: Hearing) -> Target
    ensures { result ≡ reply_to k }
{
    Target::Channel(NodeNumber(two(k, 1)), byte(k, 3))
}

// Two address bytes and four data bytes follow.
fn is_write(k: Hearing) -> bool
    ensures { result ≡ is_write k }
{
    (token(k, 0) == WRITE)
        & ((k.heard == 10) & (two_data(k, 4) & (two_data(k, 6) & two_data(k, 8))))
}

// Two address bytes follow.
fn is_read(k: Hearing) -> bool
    ensures { result ≡ is_read k }
{
    (token(k, 0) == READ) & ((k.heard == 6) & two_data(k, 4))
}

fn order_of(k: Hearing, g: Target, r: Register) -> Message
    ensures { result ≡ order_of k g r }
{
    let known = is_known(r);
    if is_write(k) & known {
        return Message::Write(g, r, four(k, 6));
    }
    if is_read(k) & known {
        return Message::Read(g, r);
    }
    Message::Wrong(g)
}

// What a message says that this word has ended.
#[tactic(auto, unfolding(crate::specs::Heard::message_of))]
pub fn message_of(k: Hearing, word: u16) -> Message
    ensures { result ≡ message_of k word }
{
    if is_pause(word) {
        return Message::Malformed;
    }
    if has_reply(k) {
        return order_of(k, reply_to(k), register_of(two(k, 4)));
    }
    Message::Malformed
}
