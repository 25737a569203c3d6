// Transitions to tokens: the whole capture is judged before anything is filled.
ghost use Rattle.std.specs.Prelude.{◌≡◌, ◌≤◌, length};
ghost use Rattle.probe.specs.Form.{tokens};
ghost use Rattle.probe.specs.Calls.{filled, out, reading};
ghost use Rattle.probe.specs.Needs.{judged};

use crate::answer::Refusal;
use crate::form::Link;
use crate::sequence::Said;

// How many tokens a capture has, where every sequence has a meaning and none is cut.
pub fn judge<L: Link>(capture: &[u8]) -> Result<usize, Refusal>
    ensures { result ≡ judged L.form capture.now }
{
    let width = L::WIDTH;
    let mut count: usize = 0;
    for (i, symbols) in capture.chunks_exact(width).enumerate() {
        match L::says(symbols) {
            Said::Token(_) => count += 1,
            Said::Return => {}
            Said::Nothing => return Err(Refusal::Bad(i * width)),
        }
    }
    if capture.len() % width != 0 {
        return Err(Refusal::Cut);
    }
    Ok(count)
}

// The tokens of a capture, for which the buffer has room.
pub fn unload<L: Link>(capture: &[u8], buffer: &mut [u16])
    requires { length (tokens L.form capture.now) ≤ length buffer.old }
    ensures { buffer.new ≡ filled (tokens L.form capture.now) buffer.old }
{
    let mut at: usize = 0;
    for symbols in capture.chunks_exact(L::WIDTH) {
        if let Said::Token(word) = L::says(symbols) {
            buffer[at] = word;
            at += 1;
        }
    }
}

// A capture as tokens, without their header marks.
pub(crate) fn read<L: Link>(capture: &[u8], buffer: &mut [u16]) -> Result<usize, Refusal>
    ensures { out result buffer.new ≡ reading L.form capture.now buffer.old }
{
    let count = judge::<L>(capture)?;
    if buffer.len() < count {
        return Err(Refusal::NoSuch);
    }
    unload::<L>(capture, buffer);
    Ok(count)
}
