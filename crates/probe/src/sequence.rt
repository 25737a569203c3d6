// Sequences of transitions: what one says, and one or two to be written.
ghost use Rattle.std.specs.Prelude.{◌≡◌, length};
ghost use Rattle.probe.specs.Form.{meaningless, tokens_in};

// Three cases, and no Option: a return is no token, and is no refusal either.
#[derive(Clone, Copy)]
pub enum Said {
    // a token's word, without header marks
    Token(u16),
    // a return of the wires to low, which is passed over
    Return,
    // no meaning
    Nothing,
}

// At most ten transitions, of which the first len count.
#[derive(Clone, Copy)]
pub struct Sequence {
    pub symbols: [u8; 10],
    pub len: usize,
}

pub fn is_nothing(s: Said) -> bool
    ensures { result ≡ meaningless s }
{
    match s {
        Said::Token(_) => false,
        Said::Return => false,
        Said::Nothing => true,
    }
}

// How many tokens a sequence says.
pub fn count(s: Said) -> usize
    ensures { result ≡ length (tokens_in s) }
{
    match s {
        Said::Token(_) => 1,
        Said::Return => 0,
        Said::Nothing => 0,
    }
}
