// For each sentence of clause 7 of the Sound list, what a port holds, a state that fails it alone and its twin, which is sound: in port 12
// of slot 1 or, with a circuit or a line behind, in its port 0. The same states are given to every call in rust/compare/tests/disturbed.rs.
#![tactic(auto)]

use names::size::REPLY_PORT;
use states::say::{report, report_over};
use states::write::{
    LINES, TOKENS, WORDS, blank, set_hop, set_issued, set_on, set_serves, set_tile_user, set_user,
    set_wired, set_words,
};
use std::io;

// A one-byte header, and the bytes of a three-byte header.
const ONE: u16 = 0x0227;

const HIGH: u16 = 0x0600;

const LOW: u16 = 0x0601;

const CHANNEL: u16 = 0x0607;

const DATA: u16 = 0x0005;

const END: u16 = 0x0101;

const PAUSE: u16 = 0x0102;

// "tokens .. are legal"
fn tokens(rt: &impl Print) -> io::Result<()> {
    let mut st = [0u32; WORDS];
    let mut mem = [0u16; TOKENS];
    blank(&mut st);
    set_words(&mut st, &mut mem, REPLY_PORT, 2, ONE, 0x01C2, 0);
    report(rt, "7 tokens: control 0xC2 behind a header", &st, &mem)?;
    set_words(&mut st, &mut mem, REPLY_PORT, 2, ONE, 0x01C1, 0);
    report(rt, "7 tokens: control 0xC1 behind a header", &st, &mem)
}

// ".. and headers are legal"
fn channels(rt: &impl Print) -> io::Result<()> {
    let mut st = [0u32; WORDS];
    let mut mem = [0u16; TOKENS];
    blank(&mut st);
    set_words(&mut st, &mut mem, REPLY_PORT, 3, HIGH, LOW, 0x0620);
    report(rt, "7 headers: channel 32", &st, &mem)?;
    set_words(&mut st, &mut mem, REPLY_PORT, 3, HIGH, LOW, 0x061F);
    report(rt, "7 headers: channel 31", &st, &mem)
}

fn widths(rt: &impl Print) -> io::Result<()> {
    let mut st = [0u32; WORDS];
    let mut mem = [0u16; TOKENS];
    blank(&mut st);
    set_words(&mut st, &mut mem, REPLY_PORT, 3, HIGH, LOW, ONE);
    report(rt, "7 headers: two widths in one header", &st, &mem)?;
    set_words(&mut st, &mut mem, REPLY_PORT, 3, HIGH, LOW, 0x07C3);
    report(rt, "7 headers: SSCTRL behind the number", &st, &mem)
}

// "a port with no circuit is empty or starts with a header"
fn starts(rt: &impl Print) -> io::Result<()> {
    let mut st = [0u32; WORDS];
    let mut mem = [0u16; TOKENS];
    blank(&mut st);
    set_words(&mut st, &mut mem, REPLY_PORT, 1, DATA, 0, 0);
    report(rt, "7 starts: data where a header must stand", &st, &mem)?;
    set_words(&mut st, &mut mem, REPLY_PORT, 1, ONE, 0, 0);
    report(rt, "7 starts: a header", &st, &mem)
}

// ".. and so does what follows an END or PAUSE"
fn behind_end(rt: &impl Print) -> io::Result<()> {
    let mut st = [0u32; WORDS];
    let mut mem = [0u16; TOKENS];
    blank(&mut st);
    set_words(&mut st, &mut mem, REPLY_PORT, 3, ONE, END, DATA);
    report(rt, "7 follows: data behind END", &st, &mem)?;
    set_words(&mut st, &mut mem, REPLY_PORT, 3, ONE, END, ONE);
    report(rt, "7 follows: a header behind END", &st, &mem)
}

fn behind_pause(rt: &impl Print) -> io::Result<()> {
    let mut st = [0u32; WORDS];
    let mut mem = [0u16; TOKENS];
    blank(&mut st);
    set_words(&mut st, &mut mem, REPLY_PORT, 3, ONE, PAUSE, DATA);
    report(rt, "7 follows: data behind PAUSE", &st, &mem)?;
    set_words(&mut st, &mut mem, REPLY_PORT, 3, ONE, PAUSE, ONE);
    report(rt, "7 follows: a header behind PAUSE", &st, &mem)
}

// "such a header is short only at its port's end"
fn shorts(rt: &impl Print) -> io::Result<()> {
    let mut st = [0u32; WORDS];
    let mut mem = [0u16; TOKENS];
    blank(&mut st);
    set_words(&mut st, &mut mem, REPLY_PORT, 3, HIGH, LOW, DATA);
    report(rt, "7 short: data behind two tokens of a header", &st, &mem)?;
    set_words(&mut st, &mut mem, REPLY_PORT, 2, HIGH, LOW, DATA);
    report(rt, "7 short: two tokens of a header at the end", &st, &mem)
}

// "header tokens stand elsewhere only .."
fn elsewhere(rt: &impl Print) -> io::Result<()> {
    let mut st = [0u32; WORDS];
    let mut mem = [0u16; TOKENS];
    blank(&mut st);
    set_words(&mut st, &mut mem, REPLY_PORT, 3, ONE, DATA, ONE);
    report(rt, "7 elsewhere: a header behind data", &st, &mem)?;
    set_words(&mut st, &mut mem, REPLY_PORT, 3, ONE, DATA, DATA);
    report(rt, "7 elsewhere: data behind data", &st, &mem)
}

// ".. at the front of a circuit still sending its header outward or being dropped"
fn towards_a_channel(rt: &impl Print) -> io::Result<()> {
    let mut st = [0u32; WORDS];
    let mut mem = [0u16; TOKENS];
    blank(&mut st);
    set_words(&mut st, &mut mem, 0, 2, CHANNEL, DATA, 0);
    set_hop(&mut st, 1, 0, 2, 255, 1);
    set_tile_user(&mut st, 1, 1, 1, 0);
    report(rt, "7 front: a header towards a channel", &st, &mem)?;
    set_tile_user(&mut st, 1, 1, 0, 0);
    set_hop(&mut st, 1, 0, 4, 0, 0);
    report(rt, "7 front: a header being dropped", &st, &mem)
}

fn towards_the_unit(rt: &impl Print) -> io::Result<()> {
    let mut st = [0u32; WORDS];
    let mut mem = [0u16; TOKENS];
    blank(&mut st);
    set_words(&mut st, &mut mem, 0, 2, CHANNEL, DATA, 0);
    set_hop(&mut st, 1, 0, 3, 0, 0);
    set_serves(&mut st, 1, 1, 0);
    report(rt, "7 front: a header towards the control unit", &st, &mem)?;
    set_serves(&mut st, 1, 0, 0);
    set_hop(&mut st, 1, 0, 5, 0, 0);
    report(rt, "7 front: a header without a route", &st, &mem)
}

fn behind_the_front(rt: &impl Print) -> io::Result<()> {
    let mut st = [0u32; WORDS];
    let mut mem = [0u16; TOKENS];
    blank(&mut st);
    set_hop(&mut st, 1, 0, 1, 2, 0);
    set_user(&mut st, 1, 2, 1, 0);
    set_words(&mut st, &mut mem, 0, 2, DATA, CHANNEL, 0);
    report(
        rt,
        "7 front: a header behind data on its way outward",
        &st,
        &mem,
    )?;
    set_words(&mut st, &mut mem, 0, 2, CHANNEL, DATA, 0);
    report(rt, "7 front: a header on its way outward", &st, &mem)
}

// Slot 1's port 0, with a word on the line to it, or none.
fn set_coming(st: &mut [u32], ls: &mut [u16], held: u32, word: u16) {
    set_wired(st, 0, 3, 1, 0);
    set_wired(st, 1, 0, 0, 3);
    set_on(st, ls, 0, 3, held, word, 0);
    set_issued(st, 1, 0, held);
}

// What is on the line to a port stands behind what the port holds.
fn on_the_line(rt: &impl Print) -> io::Result<()> {
    let mut st = [0u32; WORDS];
    let mut mem = [0u16; TOKENS];
    let mut ls = [0u16; LINES];
    blank(&mut st);
    set_coming(&mut st, &mut ls, 1, DATA);
    report_over(
        rt,
        "7 line: data on the line to an empty port",
        &st,
        &mem,
        &ls,
    )?;
    set_words(&mut st, &mut mem, 0, 1, ONE, 0, 0);
    report_over(
        rt,
        "7 line: data on the line to a port that holds a header",
        &st,
        &mem,
        &ls,
    )
}

// "What is left of a header is read from the port's own buffer alone."
fn left_on_the_line(rt: &impl Print) -> io::Result<()> {
    let mut st = [0u32; WORDS];
    let mut mem = [0u16; TOKENS];
    let mut ls = [0u16; LINES];
    blank(&mut st);
    set_hop(&mut st, 1, 0, 1, 2, 0);
    set_user(&mut st, 1, 2, 1, 0);
    set_words(&mut st, &mut mem, 0, 1, 0x0640, 0, 0);
    set_coming(&mut st, &mut ls, 1, CHANNEL);
    report_over(
        rt,
        "7 line: a header on its way outward, its last token on the line",
        &st,
        &mem,
        &ls,
    )?;
    set_words(&mut st, &mut mem, 0, 2, 0x0640, CHANNEL, 0);
    set_coming(&mut st, &mut ls, 0, 0);
    report_over(
        rt,
        "7 line: a header on its way outward, all of it in the port",
        &st,
        &mem,
        &ls,
    )
}

fn main(rt: HostRuntime) -> io::Result<()> {
    tokens(&rt)?;
    channels(&rt)?;
    widths(&rt)?;
    starts(&rt)?;
    behind_end(&rt)?;
    behind_pause(&rt)?;
    shorts(&rt)?;
    elsewhere(&rt)?;
    towards_a_channel(&rt)?;
    towards_the_unit(&rt)?;
    behind_the_front(&rt)?;
    on_the_line(&rt)?;
    left_on_the_line(&rt)
}
