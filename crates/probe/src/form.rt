// What the serial and the fast link share: each is a form of the physical layer, and writing and reading go over any form.
ghost use Rattle.std.specs.Prelude.{◌≡◌, ℕ, ◌<◌, length};
ghost use Rattle.probe.specs.Form.{Form};
ghost use Rattle.probe.specs.Needs.{Lies};

use crate::sequence::{Said, Sequence};

// Which link the tokens cross.
#[derive(Clone, Copy)]
pub enum Mode {
    Serial,
    Fast,
}

pub trait Link {
    ghost form: { Form };

    ghost WIDTH: { ℕ };

    // How many transitions a sequence has.
    const WIDTH: usize;

    // A token can be written.
    fn writes(token: u16) -> bool
        ensures { result ≡ form.writes token };

    // A token written from the wires' state.
    fn one(wires: u8, token: u16) -> Sequence
        requires { wires < 32 }
        ensures { Lies result (form.one wires token) };

    // What a sequence says.
    fn says(symbols: &[u8]) -> Said
        requires { length symbols.now ≡ WIDTH }
        ensures { result ≡ form.says symbols.now };

    // A sequence has transitions.
    ghost wide: { 0 < WIDTH };

    ghost width_is: { WIDTH ≡ form.width };
}
