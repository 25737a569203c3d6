// What is on a line: the words of credits and HELLO, and how much of each there is.
ghost use Rattle.std.specs.Prelude.{◌≡◌, ◌+◌, ◌≤◌, ◌<◌, length};
ghost use Rattle.lines.specs.Line.{line_capacity, LineFair, line_place, on_line};
ghost use Rattle.lines.specs.Load.{credit_word, is_hello, credit_of, is_token, before, load_of, Within};

use crate::words_on;
use names::Slot;
use ports::Counters;

pub const HELLO: u16 = 0x01E6;

const CREDIT8: u16 = 0x01E0;

const CREDIT16: u16 = 0x01E4;

const CREDIT64: u16 = 0x01E1;

// How much is on a line.
#[derive(Clone, Copy)]
pub struct Load {
    // tokens on their way to a port
    pub tokens: u32,
    // credit that they bring together, and how many credits
    pub credit: u32,
    pub credits: u32,
    pub hellos: u32,
    // tokens behind a HELLO
    pub behind: u32,
}

// The word of a grant.
pub fn word_of(grant: u32) -> u16
    ensures { result ≡ credit_word grant }
{
    match grant {
        8 => CREDIT8,
        16 => CREDIT16,
        _ => CREDIT64,
    }
}

pub fn is_hello(word: u16) -> bool
    ensures { result ≡ is_hello word }
{
    word == HELLO
}

// The credit that a word brings, 0 where it is none: it is added up as it is, and so no Option.
#[tactic(auto, unfolding(crate::specs::Load::credit_of))]
pub fn credit_of(word: u16) -> u32
    ensures { result ≡ credit_of word }
{
    match word {
        CREDIT8 => 8,
        CREDIT16 => 16,
        CREDIT64 => 64,
        _ => 0,
    }
}

// A token on its way to a port: whatever is no credit and no HELLO.
#[tactic(auto, unfolding(crate::specs::Load::is_token))]
pub fn is_token(word: u16) -> bool
    ensures { result ≡ is_token word }
{
    !is_hello(word) & (credit_of(word) == 0)
}

// One thing more in front of the rest, on a line.
#[tactic(auto, using(crate::proofs::Loads::credit_most), unfolding(crate::specs::Load::before))]
fn before(word: u16, k: Load) -> Load
    requires { Within line_capacity k }
    ensures { result ≡ before word k }
{
    if is_hello(word) {
        return Load {
            hellos: k.hellos + 1,
            behind: k.behind + k.tokens,
            ..k
        };
    }
    match credit_of(word) {
        0 => Load {
            tokens: k.tokens + 1,
            ..k
        },
        g => Load {
            credit: k.credit + g,
            credits: k.credits + 1,
            ..k
        },
    }
}

// How much is on the line that starts at a link: from its near end to its far end, so that what is behind a HELLO is known when it comes. A loop and no
// fold, since `before` asks for how much has come so far.
#[tactic(auto, using(crate::proofs::Loads::in_front_none, crate::proofs::Loads::within_more))]
pub fn load_at(c: Counters, lines: &[u16], slot: Slot, l: usize) -> Load
    requires { LineFair c × (line_place slot.0 l + line_capacity ≤ length lines.now) }
    ensures { result ≡ load_of (on_line c lines.now (line_place slot.0 l)) }
{
    let mut k = Load {
        tokens: 0,
        credit: 0,
        credits: 0,
        hellos: 0,
        behind: 0,
    };
    for word in words_on(c, lines, slot, l).rev() {
        k = before(word, k);
    }
    k
}
