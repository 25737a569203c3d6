// The fast link (002, 4.3): four symbols a sequence, values by wires 0 to 3, the escape by wire 4.
ghost use Rattle.std.specs.Prelude.{◌≡◌, ◌++◌, ◌<◌, eqb, get_or, length};
ghost use Rattle.laws.specs.Pick.{pick};
ghost use Rattle.tokens.specs.Word.{control_word};
ghost use Rattle.probe.specs.Fast.{link_value, special, control_form, end_forms, pause_forms};
ghost use Rattle.probe.specs.Fast.{return_forms, least_of, returned, control_one, fast, fast_width};
ghost use Rattle.probe.specs.Fast.{link_level, control_said, symbols_say};
ghost use Rattle.probe.specs.Wires.{after};
ghost use Rattle.probe.specs.Needs.{Lies, place_in, lowest_two, alone};
ghost use Rattle.std.proofs.Common.{lit<};

use crate::form::Link;
use crate::sequence::{Said, Sequence};
use crate::wires::after;
use tokens::control::{END, PAUSE};
use tokens::word;
use tokens::word::{of_control, value};

// The word of RTNZ0, the first return that has a control token's form.
pub const FIRST_RETURN: u16 = 0x01FC;

const ESCAPE: u8 = 4;

// CREDIT8, CREDIT64, HELLO and CREDIT16, in the order of their values.
const LINK_LEVEL: [u8; 4] = [0xE0, 0xE1, 0xE6, 0xE4];

// For each set of high data wires the two to change, 4 times the first and the second: the two lowest, or wire 0 twice.
const PAIRS: [u8; 16] = [0, 0, 0, 1, 0, 2, 6, 1, 0, 3, 7, 1, 11, 2, 6, 1];

// The v of escape v escape v, where a control token is of that kind.
#[tactic(auto, unfolding(laws::specs::All::first, crate::specs::Fast::link_value))]
fn link_value(c: u8) -> Option<u8>
    ensures { result ≡ place_in (link_value c) 4 }
{
    match c {
        0xE0 => Some(0),
        0xE1 => Some(1),
        0xE6 => Some(2),
        0xE4 => Some(3),
        _ => None,
    }
}

// The control tokens that no single escape tells.
#[tactic(auto, unfolding(crate::specs::Fast::special))]
fn special(c: u8) -> bool
    ensures { result ≡ special c }
{
    c == END || c == PAUSE || link_value(c).is_some()
}

fn single(four: [u8; 4]) -> Sequence
    ensures { Lies result four }
{
    let [a, b, c, d] = four;
    Sequence {
        symbols: [a, b, c, d, 0, 0, 0, 0, 0, 0],
        len: 4,
    }
}

fn double(four: [u8; 4], more: [u8; 4]) -> Sequence
    ensures { Lies result (four ++ more) }
{
    let [a, b, c, d] = four;
    let [e, f, g, h] = more;
    Sequence {
        symbols: [a, b, c, d, e, f, g, h, 0, 0],
        len: 8,
    }
}

// The two data wires that END, PAUSE or NOPD changes, to leave as few high as can be.
fn pair(wires: u8) -> u8
    ensures { result ≡ lowest_two wires }
{
    let data = (wires % 16) as usize;
    PAIRS[data]
}

// The data wire that is alone high beside wire 4.
#[tactic(auto, unfolding(crate::specs::Needs::alone, laws::specs::All::first))]
fn alone(wires: u8) -> Option<u8>
    ensures { result ≡ place_in (alone wires) 4 }
{
    match wires {
        0x11 => Some(0),
        0x12 => Some(1),
        0x14 => Some(2),
        0x18 => Some(3),
        _ => None,
    }
}

// RTNZ or NOPD, whichever brings more wires low.
#[tactic(auto, using(crate::proofs::Closings::alone_found, crate::proofs::Closings::none_alone))]
fn returning(wires: u8) -> [u8; 4]
    requires { wires < 32 }
    ensures { result ≡ least_of wires return_forms }
{
    if let Some(v) = alone(wires) {
        return [ESCAPE, 3, 3, v];
    }
    let two = pair(wires);
    [ESCAPE, two / 4, two % 4, ESCAPE]
}

#[tactic(auto, using(crate::proofs::Closings::end_least), unfolding(crate::proofs::Closings::end_of))]
fn ending(wires: u8) -> [u8; 4]
    requires { wires < 32 }
    ensures { result ≡ least_of wires end_forms }
{
    let two = pair(wires);
    [ESCAPE, ESCAPE, two / 4, two % 4]
}

#[tactic(auto, using(crate::proofs::Closings::pause_least), unfolding(crate::proofs::Closings::pause_of))]
fn pausing(wires: u8) -> [u8; 4]
    requires { wires < 32 }
    ensures { result ≡ least_of wires pause_forms }
{
    let two = pair(wires);
    [two / 4, two % 4, ESCAPE, ESCAPE]
}

// END or PAUSE, and the return that the wires need behind it.
#[tactic(auto, using(crate::proofs::Levels::after_small, crate::proofs::Closings::returned_none, crate::proofs::Closings::returned_some))]
fn closed(wires: u8, four: [u8; 4]) -> Sequence
    requires { wires < 32 }
    ensures { Lies result (four ++ returned (after wires four)) }
{
    let left = after(wires, &four);
    if left == 0 {
        return single(four);
    }
    double(four, returning(left))
}

// A control token by a single escape, whose place tells the two top bits.
fn escaped(c: u8) -> [u8; 4]
    ensures { result ≡ control_form c }
{
    let x = c / 16 % 4;
    let y = c / 4 % 4;
    let z = c % 4;
    match c {
        0x00..=0x3F => [x, y, z, ESCAPE],
        0x40..=0x7F => [x, y, ESCAPE, z],
        0x80..=0xBF => [x, ESCAPE, y, z],
        0xC0..=0xFF => [ESCAPE, x, y, z],
    }
}

fn control_one(wires: u8, c: u8) -> Sequence
    requires { wires < 32 }
    ensures { Lies result (control_one wires c) }
{
    if c == END {
        return closed(wires, ending(wires));
    }
    if c == PAUSE {
        return closed(wires, pausing(wires));
    }
    if let Some(v) = link_value(c) {
        return single([ESCAPE, v, ESCAPE, v]);
    }
    single(escaped(c))
}

// A control token that was told by a single escape.
#[tactic(auto, unfolding(crate::specs::Fast::control_said))]
fn control_said(c: u8) -> Said
    ensures { result ≡ control_said c }
{
    if c >= 0xFC {
        return Said::Return;
    }
    if special(c) {
        return Said::Nothing;
    }
    Said::Token(of_control(c))
}

// Escape v escape v.
fn link_said(b: u8, d: u8) -> Said
    requires { b < 4 }
    ensures { result ≡ pick (eqb b d) (Said.Token (control_word (get_or link_level b 0))) Said.Nothing }
{
    if b != d {
        return Said::Nothing;
    }
    let i = b as usize;
    Said::Token(of_control(LINK_LEVEL[i]))
}

// What four symbols say, by which of them are escapes.
#[tactic(auto, unfolding(crate::specs::Fast::symbols_say))]
fn symbols_say(a: u8, b: u8, c: u8, d: u8) -> Said
    requires { (a < 5) × (b < 5) × (c < 5) × (d < 5) }
    ensures { result ≡ symbols_say a b c d }
{
    match (a == ESCAPE, b == ESCAPE, c == ESCAPE, d == ESCAPE) {
        (false, false, false, false) => Said::Token((a * 64 + b * 16 + c * 4 + d) as u16),
        (true, false, false, false) => control_said(0xC0 + b * 16 + c * 4 + d),
        (false, true, false, false) => control_said(0x80 + a * 16 + c * 4 + d),
        (false, false, true, false) => control_said(0x40 + a * 16 + b * 4 + d),
        (false, false, false, true) => control_said(0x00 + a * 16 + b * 4 + c),
        (true, true, false, false) => Said::Token(word::END),
        (false, false, true, true) => Said::Token(word::PAUSE),
        (true, false, false, true) => Said::Return,
        (true, false, true, false) => link_said(b, d),
        _ => Said::Nothing,
    }
}

pub struct Fast;

impl Link for Fast {
    ghost form = { fast };

    ghost WIDTH = { 4 };

    ghost wide = { lit< tt };

    ghost width_is = { fast_width };

    const WIDTH: usize = 4;

    #[tactic(auto, unfolding(crate::specs::Fast::fast))]
    fn writes(token: u16) -> bool {
        token < FIRST_RETURN
    }

    // A token from the wires' state.
    #[tactic(auto, unfolding(crate::specs::Fast::fast, crate::specs::Fast::fast_one))]
    fn one(wires: u8, token: u16) -> Sequence {
        let v = value(token);
        if token < 0x0100 {
            return single([v / 64 % 4, v / 16 % 4, v / 4 % 4, v % 4]);
        }
        control_one(wires, v)
    }

    // What four transitions say.
    #[tactic(auto, using(crate::proofs::Fasts::wires_said), unfolding(crate::specs::Fast::fast))]
    fn says(symbols: &[u8]) -> Said {
        let &[a, b, c, d] = symbols else {
            unreachable!()
        };
        if a > 4 || b > 4 || c > 4 || d > 4 {
            return Said::Nothing;
        }
        symbols_say(a, b, c, d)
    }
}
