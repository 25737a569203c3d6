// The word in which a port holds a token: the value in bits 0..7, and in the bits above it what
// the token is. Bit 8 marks a control token, bit 9 a token of a header, bit 10 (with bit 9) a
// header of three bytes. The real wire has no such marks.
ghost use Rattle.std.specs.Prelude.{◌≡◌};
ghost use Rattle.tokens.specs.Word.{data_word, control_word, header_word, unit_word, value_of};
ghost use Rattle.tokens.specs.Word.{is_control, is_header, is_three, closes, is_pause};

use crate::control;
use crate::header::Width;

// The words of control tokens.
const CONTROL: u16 = 0x0100;

pub const END: u16 = CONTROL + control::END as u16;

pub const PAUSE: u16 = CONTROL + control::PAUSE as u16;

pub const WRITEC: u16 = CONTROL + control::WRITEC as u16;

pub const READC: u16 = CONTROL + control::READC as u16;

pub fn of_data(v: u8) -> u16
    ensures { result ≡ data_word v }
{
    v as u16
}

pub fn of_control(v: u8) -> u16
    ensures { result ≡ control_word v }
{
    v as u16 + CONTROL
}

// A data token of a header.
pub fn of_header(v: u8, w: Width) -> u16
    ensures { result ≡ header_word v w }
{
    match w {
        Width::One => v as u16 + 0x0200,
        Width::Three => v as u16 + 0x0600,
    }
}

// The control token that ends a control unit's header.
pub fn of_unit() -> u16
    ensures { result ≡ unit_word }
{
    0x07C3
}

pub fn value(word: u16) -> u8
    ensures { result ≡ value_of word }
{
    (word % 0x0100) as u8
}

pub fn is_control(word: u16) -> bool
    ensures { result ≡ is_control word }
{
    word / 0x0100 % 2 == 1
}

pub fn is_header(word: u16) -> bool
    ensures { result ≡ is_header word }
{
    word / 0x0200 % 2 == 1
}

pub fn is_three(word: u16) -> bool
    ensures { result ≡ is_three word }
{
    word / 0x0400 % 2 == 1
}

// END and PAUSE close a hop. Data 1 and 2, and header bytes of these values, close nothing.
#[tactic(auto, unfolding(crate::specs::Word::closes))]
pub fn closes(word: u16) -> bool
    ensures { result ≡ closes word }
{
    matches!(word, END | PAUSE)
}

pub fn is_pause(word: u16) -> bool
    ensures { result ≡ is_pause word }
{
    word == PAUSE
}
