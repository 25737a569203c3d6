// Control tokens: their classes, and which of them Output refuses (002, 1.3).
ghost use Rattle.std.specs.Prelude.{◌≡◌};
ghost use Rattle.tokens.specs.Control.{class_of, privileged_checked, output_checked};

use names::no::No;

// The control tokens that document 01 names.
pub const END: u8 = 0x01;

pub const PAUSE: u8 = 0x02;

pub const ACK: u8 = 0x03;

pub const NACK: u8 = 0x04;

pub const WRITEC: u8 = 0xC0;

pub const READC: u8 = 0xC1;

pub const SSCTRL: u8 = 0xC3;

#[derive(Clone, Copy)]
pub enum Class {
    Application,
    Special,
    Privileged,
    Hardware,
}

// By the papers' ranges; no From, since the one rule that asks names the definition.
pub fn class_of(v: u8) -> Class
    ensures { result ≡ class_of v }
{
    match v {
        0x00..=0x7F => Class::Application,
        0x80..=0xBF => Class::Special,
        0xC0..=0xDF => Class::Privileged,
        0xE0..=0xFF => Class::Hardware,
    }
}

// A privileged token, which Output refuses: but a message's first token passes towards a control unit.
fn check_privileged(v: u8, to_unit: bool) -> Result<(), No>
    ensures { result ≡ privileged_checked v to_unit }
{
    if to_unit {
        if v == WRITEC {
            return Ok(());
        }
        if v == READC {
            return Ok(());
        }
    }
    Err(No::Privileged)
}

// A control token that Output lets pass, or why it refuses it.
#[tactic(auto, unfolding(crate::specs::Control::output_checked))]
pub fn check_output(v: u8, to_unit: bool) -> Result<(), No>
    ensures { result ≡ output_checked v to_unit }
{
    match class_of(v) {
        Class::Application => Ok(()),
        Class::Special => Ok(()),
        Class::Privileged => check_privileged(v, to_unit),
        Class::Hardware => Err(No::Hardware),
    }
}
