// Transitions for the logic probe (document 02, Ask 8), on lists and buffers of the caller's; no network is touched. Each answers the
// number of its answer, and stores what that bears, a count or a place, into the caller's word.
ghost use Rattle.std.specs.Prelude.{◌≡◌};
ghost use Rattle.probe.specs.Serial.{serial};
ghost use Rattle.probe.specs.Fast.{fast};
ghost use Rattle.probe.specs.Answer.{answer_number, answer_value};
ghost use Rattle.probe.specs.Calls.{writing, reading};
ghost use Rattle.host.specs.Crossed.{probing, probed};

use probe::answer::{Refusal, bears, number};
use probe::form::Mode;
use probe::{read, write};

// The number of an answer; what it bears goes to the caller's word.
fn answered(answer: Result<usize, Refusal>, value: &mut usize) -> u8
    ensures number { result ≡ answer_number answer }
    ensures value { value.new ≡ answer_value answer }
{
    *value = bears(answer);
    number(answer)
}

// Tokens, oldest first, as transitions on two wires.
#[unsafe(no_mangle)]
pub extern "C" fn tarvelgyo_write_serial(tokens: &[u16], out: &mut [u8], value: &mut usize) -> u8
    ensures { probing result value.new out.new ≡ probed (writing serial tokens.now out.old) }
{
    answered(write(Mode::Serial, tokens, out), value)
}

// .. on five wires.
#[unsafe(no_mangle)]
pub extern "C" fn tarvelgyo_write_fast(tokens: &[u16], out: &mut [u8], value: &mut usize) -> u8
    ensures { probing result value.new out.new ≡ probed (writing fast tokens.now out.old) }
{
    answered(write(Mode::Fast, tokens, out), value)
}

// Transitions on two wires as tokens, without header marks.
#[unsafe(no_mangle)]
pub extern "C" fn tarvelgyo_read_serial(capture: &[u8], out: &mut [u16], value: &mut usize) -> u8
    ensures { probing result value.new out.new ≡ probed (reading serial capture.now out.old) }
{
    answered(read(Mode::Serial, capture, out), value)
}

// .. on five wires.
#[unsafe(no_mangle)]
pub extern "C" fn tarvelgyo_read_fast(capture: &[u8], out: &mut [u16], value: &mut usize) -> u8
    ensures { probing result value.new out.new ≡ probed (reading fast capture.now out.old) }
{
    answered(read(Mode::Fast, capture, out), value)
}
