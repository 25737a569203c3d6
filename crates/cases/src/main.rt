// Document 01, "Both sides of the line" and "Errors that look reasonable": the examples that need no
// state, run and printed in its own words. The starred ones are proved besides (specs/Starred.antt).
#![tactic(auto)]

ghost use Rattle.std.specs.Prelude.{◌+◌, ◌≤◌};
ghost use Rattle.ports.specs.Queue.{capacity};

use names::NodeNumber;
use routing::way::way_to;
use std::io;
use tokens::control::check_output;
use tokens::header::{Header, Target, Width, make_header};
use tokens::word::{closes, of_control, of_data, value};

fn say(rt: &impl Print, text: &str) -> io::Result<()> {
    print!(rt; "{text}")
}

fn say_number(rt: &impl Print, n: u32) -> io::Result<()> {
    print!(rt; "{n}")
}

fn say_byte(rt: &impl Print, v: u8) -> io::Result<()> {
    print!(rt; " {v:02x}")
}

fn header(rt: &impl Print, label: &str, t: Target, w: Width) -> io::Result<()> {
    say(rt, label)?;
    match make_header(t, w) {
        Header::Narrow => say(rt, " none")?,
        Header::One(a) => say_byte(rt, value(a))?,
        Header::Three(a, b, c) => {
            say_byte(rt, value(a))?;
            say_byte(rt, value(b))?;
            say_byte(rt, value(c))?;
        }
    }
    say(rt, "\n")
}

fn bit(rt: &impl Print, label: &str, number: u16, own: u16, w: Width) -> io::Result<()> {
    say(rt, label)?;
    match way_to(NodeNumber(number), NodeNumber(own), w) {
        None => say(rt, " none: this node")?,
        Some(b) => {
            say(rt, " ")?;
            say_number(rt, b)?;
        }
    }
    say(rt, "\n")
}

// The caller's credit and tokens held are those of a sound link.
#[tactic(auto, using(credits::proofs::Grants::grant_within))]
fn grant(rt: &impl Print, label: &str, credit: u32, held: u32) -> io::Result<()>
    requires { credit + held ≤ capacity }
{
    let granted = credits::grant(credit, held);
    let after = credit + granted;
    say(rt, label)?;
    say(rt, " ")?;
    say_number(rt, granted)?;
    say(rt, ", making ")?;
    say_number(rt, after)?;
    say(rt, "\n")
}

fn control(rt: &impl Print, label: &str, v: u8, to_unit: bool) -> io::Result<()> {
    say(rt, label)?;
    say(rt, " ")?;
    match check_output(v, to_unit) {
        Ok(()) => say_number(rt, 0)?,
        Err(no) => say_number(rt, no.number() as u32)?,
    }
    say(rt, "\n")
}

fn closing(rt: &impl Print, label: &str, word: u16) -> io::Result<()> {
    say(rt, label)?;
    if closes(word) {
        say(rt, " closes\n")
    } else {
        say(rt, " closes nothing\n")
    }
}

fn headers(rt: &impl Print) -> io::Result<()> {
    header(
        rt,
        "* 0x0125, channel 7, three-byte:",
        Target::Channel(NodeNumber(0x0125), 7),
        Width::Three,
    )?;
    header(
        rt,
        "* number 5, channel 7, one-byte:",
        Target::Channel(NodeNumber(5), 7),
        Width::One,
    )?;
    header(
        rt,
        "* number 9, channel 7, one-byte:",
        Target::Channel(NodeNumber(9), 7),
        Width::One,
    )?;
    header(
        rt,
        "0x0125's control unit, three-byte:",
        Target::Unit(NodeNumber(0x0125)),
        Width::Three,
    )?;
    header(
        rt,
        "the sink, one-byte:",
        Target::Channel(NodeNumber(5), 255),
        Width::One,
    )?;
    header(
        rt,
        "a control unit, one-byte:",
        Target::Unit(NodeNumber(5)),
        Width::One,
    )
}

fn bits(rt: &impl Print) -> io::Result<()> {
    bit(
        rt,
        "* highest differing bit, 0x0005 and 0x0005:",
        0x0005,
        0x0005,
        Width::Three,
    )?;
    bit(rt, "* 0x0005 and 0x8005:", 0x0005, 0x8005, Width::Three)?;
    bit(rt, "* 0x0000 and 0x0009:", 0x0000, 0x0009, Width::Three)?;
    bit(rt, "* at one-byte width 1 and 9:", 1, 9, Width::One)?;
    bit(rt, "* at one-byte width 2 and 7:", 2, 7, Width::One)?;
    bit(
        rt,
        "a one-byte destination of 9 at node 1:",
        9,
        1,
        Width::One,
    )
}

fn grants(rt: &impl Print) -> io::Result<()> {
    grant(rt, "* grant at credit 0, held 0:", 0, 0)?;
    grant(rt, "* credit 0, held 40:", 0, 40)?;
    grant(rt, "* credit 0, held 56:", 0, 56)?;
    grant(rt, "* credit 0, held 57:", 0, 57)?;
    grant(rt, "credit 7, held 0:", 7, 0)?;
    grant(rt, "credit 8, held 0:", 8, 0)
}

fn controls(rt: &impl Print) -> io::Result<()> {
    control(rt, "number for no, control 0xBF to a channel:", 0xBF, false)?;
    control(rt, "control 0xC0 to a channel:", 0xC0, false)?;
    control(rt, "control 0xDF to a channel:", 0xDF, false)?;
    control(rt, "control 0xE0 to a channel:", 0xE0, false)?;
    control(rt, "control 0xC0 to a control unit:", 0xC0, true)?;
    control(rt, "control 0xC1 to a control unit:", 0xC1, true)?;
    control(rt, "control 0xC2 to a control unit:", 0xC2, true)?;
    control(rt, "control 0xE0 to a control unit:", 0xE0, true)
}

fn closings(rt: &impl Print) -> io::Result<()> {
    closing(rt, "data 1", of_data(1))?;
    closing(rt, "data 2", of_data(2))?;
    closing(rt, "control 1, END,", of_control(1))?;
    closing(rt, "control 2, PAUSE,", of_control(2))
}

fn main(rt: HostRuntime) -> io::Result<()> {
    headers(&rt)?;
    bits(&rt)?;
    grants(&rt)?;
    controls(&rt)?;
    closings(&rt)
}
