// Tokens to transitions: the first word that has no form, how many transitions there are, and these.
ghost use Rattle.std.specs.Prelude.{◌≡◌, ◌≤◌, length};
ghost use Rattle.probe.specs.Form.{transitions, writable};
ghost use Rattle.probe.specs.Calls.{filled, out, writing};
ghost use Rattle.probe.specs.Needs.{unwritable, measured};

use crate::answer::Refusal;
use crate::form::Link;
use crate::wires::after;

// The lowest of the header marks, which are bits 9 and 10 of a word.
const LOWEST_MARK: u16 = 512;

// A token's word can be written.
#[tactic(auto, unfolding(crate::specs::Form::writable))]
pub fn writable<L: Link>(word: u16) -> bool
    ensures { result ≡ writable L.form word }
{
    word <= 0x07FF && L::writes(word % LOWEST_MARK)
}

// The place of the first word that cannot be written.
pub fn first_unwritable<L: Link>(tokens: &[u16]) -> Option<usize>
    ensures { result ≡ unwritable L.form tokens.now }
{
    tokens.iter().position(|word| !writable::<L>(*word))
}

// How many transitions tokens take, where these are no more than the most that is asked for.
pub fn measure<L: Link>(tokens: &[u16], most: usize) -> Option<usize>
    ensures { result ≡ measured (length (transitions L.form tokens.now)) most }
{
    let mut wires = 0;
    let mut count: usize = 0;
    for word in tokens {
        let sequence = L::one(wires, *word % LOWEST_MARK);
        if most - count < sequence.len {
            return None;
        }
        count += sequence.len;
        wires = after(wires, &sequence.symbols[..sequence.len]);
    }
    Some(count)
}

// The transitions of tokens, for which the buffer has room.
pub fn fill<L: Link>(tokens: &[u16], buffer: &mut [u8])
    requires { length (transitions L.form tokens.now) ≤ length buffer.old }
    ensures { buffer.new ≡ filled (transitions L.form tokens.now) buffer.old }
{
    let mut wires = 0;
    let mut at: usize = 0;
    for word in tokens {
        let sequence = L::one(wires, *word % LOWEST_MARK);
        let symbols = &sequence.symbols[..sequence.len];
        let end = at + sequence.len;
        buffer[at..end].copy_from_slice(symbols);
        wires = after(wires, symbols);
        at = end;
    }
}

// Tokens, oldest first, as transitions from all wires low.
#[tactic(auto, using(crate::proofs::Writing::wrote_found))]
pub(crate) fn write<L: Link>(tokens: &[u16], buffer: &mut [u8]) -> Result<usize, Refusal>
    ensures { out result buffer.new ≡ writing L.form tokens.now buffer.old }
{
    if let Some(place) = first_unwritable::<L>(tokens) {
        return Err(Refusal::Bad(place));
    }
    let count = measure::<L>(tokens, buffer.len()).ok_or(Refusal::NoSuch)?;
    fill::<L>(tokens, buffer);
    Ok(count)
}
