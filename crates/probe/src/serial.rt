// The serial link (002, 4.2): ten transitions a token, on wire 0 or 1.
ghost use Rattle.std.specs.Prelude.{◌≡◌, length};
ghost use Rattle.std.proofs.Common.{lit<};
ghost use Rattle.probe.specs.Serial.{serial, serial_width};

use crate::form::Link;
use crate::sequence::{Said, Sequence};
use tokens::word::value;

pub struct Serial;

impl Link for Serial {
    ghost form = { serial };

    ghost WIDTH = { 10 };

    ghost wide = { lit< tt };

    ghost width_is = { serial_width };

    const WIDTH: usize = 10;

    #[tactic(auto, unfolding(crate::specs::Serial::serial))]
    fn writes(_token: u16) -> bool {
        true
    }

    // The eight bits of the value, the most significant first, the bit of a control token, and even parity.
    #[tactic(auto, unfolding(crate::specs::Digits::ones, crate::specs::Serial::serial, crate::specs::Serial::serial_one))]
    fn one(_wires: u8, token: u16) -> Sequence {
        let v = value(token);
        let a = v / 128 % 2;
        let b = v / 64 % 2;
        let c = v / 32 % 2;
        let d = v / 16 % 2;
        let e = v / 8 % 2;
        let f = v / 4 % 2;
        let g = v / 2 % 2;
        let h = v % 2;
        let control = (token / 256 % 2) as u8;
        let ones = a + b + c + d + e + f + g + h + control;
        Sequence {
            symbols: [a, b, c, d, e, f, g, h, control, ones % 2],
            len: Self::WIDTH,
        }
    }

    // What ten transitions say.
    fn says(symbols: &[u8]) -> Said {
        let mut bits: u16 = 0;
        let mut ones: u16 = 0;
        for symbol in symbols {
            if *symbol > 1 {
                return Said::Nothing;
            }
            bits = bits * 2 + *symbol as u16;
            ones += *symbol as u16;
        }
        let odd = ones % 2 == 1;
        if odd {
            return Said::Nothing;
        }
        Said::Token(bits / 4 + bits / 2 % 2 * 256)
    }
}
