// For each clause of the Sound list a state that fails exactly that clause, and its twin, which is
// sound; clause 7 is disturbed_ports, 9 and 11 are disturbed_pairs, a state for each sentence, and what is
// asked of lines is disturbed_lines. The same states are given to every call in rust/compare/tests/disturbed.rs.
#![tactic(auto)]

use names::size::{REPLY_PORT, UNIT_BUFFER};
use ports::Counters;
use states::say::{report, report_over};
use states::write::{
    LINES, TOKENS, WORDS, blank, join, set_claim, set_credit, set_heard, set_held, set_hop,
    set_sending, set_serves, set_tile_user, set_width, set_wired, set_word,
};
use std::io;

fn lengths(rt: &impl Print) -> io::Result<()> {
    let mut st = [0u32; WORDS];
    let mem = [0u16; TOKENS + 1];
    blank(&mut st);
    report(rt, "1 a memory one word too long", &st, &mem)?;
    report(rt, "1 a memory of the right length", &st, &mem[..TOKENS])
}

fn line_lengths(rt: &impl Print) -> io::Result<()> {
    let mut st = [0u32; WORDS];
    let mem = [0u16; TOKENS];
    let ls = [0u16; LINES + 1];
    blank(&mut st);
    report_over(rt, "1 a memory of lines one word too long", &st, &mem, &ls)?;
    report_over(
        rt,
        "1 a memory of lines of the right length",
        &st,
        &mem,
        &ls[..LINES],
    )
}

fn node_counts(rt: &impl Print) -> io::Result<()> {
    let mut st = [0u32; WORDS];
    let mem = [0u16; TOKENS];
    blank(&mut st);
    set_width(&mut st, 1, 2);
    report(rt, "2 width two", &st, &mem)?;
    set_width(&mut st, 1, 1);
    report(rt, "2 width one", &st, &mem)
}

fn link_counts(rt: &impl Print) -> io::Result<()> {
    let mut st = [0u32; WORDS];
    let mem = [0u16; TOKENS];
    blank(&mut st);
    set_credit(&mut st, 1, 7, 2, 0, 0);
    report(rt, "2 a link neither enabled nor disabled", &st, &mem)?;
    set_credit(&mut st, 1, 7, 1, 0, 0);
    report(rt, "2 a link enabled", &st, &mem)
}

fn port_counts(rt: &impl Print) -> io::Result<()> {
    let mut st = [0u32; WORDS];
    let mem = [0u16; TOKENS];
    blank(&mut st);
    set_hop(&mut st, 1, REPLY_PORT, 6, 0, 0);
    report(rt, "2 a circuit of no kind", &st, &mem)?;
    set_hop(&mut st, 1, REPLY_PORT, 5, 0, 0);
    report(rt, "2 a circuit dropped as NoRoute", &st, &mem)
}

fn tile_counts(rt: &impl Print) -> io::Result<()> {
    let mut st = [0u32; WORDS];
    let mem = [0u16; TOKENS];
    blank(&mut st);
    set_tile_user(&mut st, 0, 3, 2, 0);
    report(rt, "2 a tile link used by a channel-end", &st, &mem)?;
    set_tile_user(&mut st, 0, 3, 0, 0);
    report(rt, "2 a tile link used by nobody", &st, &mem)
}

fn end_counts(rt: &impl Print) -> io::Result<()> {
    let mut st = [0u32; WORDS];
    let mem = [0u16; TOKENS];
    blank(&mut st);
    set_sending(&mut st, 1, 31, 3, 0, 0);
    report(rt, "2 an aim of no kind", &st, &mem)?;
    set_sending(&mut st, 1, 31, 2, 0, 0);
    report(rt, "2 aimed at a control unit", &st, &mem)
}

fn unit_counts(rt: &impl Print) -> io::Result<()> {
    let mut st = [0u32; WORDS];
    let mem = [0u16; TOKENS];
    blank(&mut st);
    set_hop(&mut st, 1, 0, 3, 0, 0);
    set_serves(&mut st, 1, 1, 0);
    set_heard(&mut st, 1, UNIT_BUFFER + 1, 0x01C1);
    report(rt, "2 twelve tokens heard", &st, &mem)?;
    set_heard(&mut st, 1, UNIT_BUFFER, 0x01C1);
    report(rt, "2 eleven tokens heard", &st, &mem)
}

fn credit(rt: &impl Print) -> io::Result<()> {
    let mut st = [0u32; WORDS];
    let mem = [0u16; TOKENS];
    blank(&mut st);
    join(&mut st, 0, 8);
    report(rt, "3 credit on an ungreeted link", &st, &mem)?;
    join(&mut st, 1, 8);
    report(rt, "3 credit on a greeted link", &st, &mem)
}

fn greeting(rt: &impl Print) -> io::Result<()> {
    let mut st = [0u32; WORDS];
    let mem = [0u16; TOKENS];
    blank(&mut st);
    join(&mut st, 1, 0);
    set_credit(&mut st, 1, 3, 0, 0, 0);
    report(rt, "4 greeted, the far end disabled", &st, &mem)?;
    set_credit(&mut st, 1, 3, 1, 0, 0);
    report(rt, "4 greeted, both ends enabled", &st, &mem)
}

fn room(rt: &impl Print) -> io::Result<()> {
    let mut st = [0u32; WORDS];
    let mut mem = [0u16; TOKENS];
    blank(&mut st);
    join(&mut st, 1, Counters::CAPACITY);
    set_word(&mut st, &mut mem, 1, 3, 1, 0x0227);
    report(rt, "5 credit 64, one token held at the far end", &st, &mem)?;
    join(&mut st, 1, Counters::CAPACITY - 1);
    report(rt, "5 credit 63, one token held at the far end", &st, &mem)
}

fn cables(rt: &impl Print) -> io::Result<()> {
    let mut st = [0u32; WORDS];
    let mem = [0u16; TOKENS];
    blank(&mut st);
    set_wired(&mut st, 0, 0, 1, 3);
    report(rt, "6 a cable known at one end", &st, &mem)?;
    set_wired(&mut st, 1, 3, 0, 0);
    report(rt, "6 a cable known at both ends", &st, &mem)
}

fn held(rt: &impl Print) -> io::Result<()> {
    let mut st = [0u32; WORDS];
    let mem = [0u16; TOKENS];
    blank(&mut st);
    set_held(&mut st, 1, 31, 1, 0x0102);
    report(rt, "8 PAUSE in a channel-end", &st, &mem)?;
    set_held(&mut st, 1, 31, 1, 0x0101);
    report(rt, "8 END in a channel-end", &st, &mem)
}

fn heard(rt: &impl Print) -> io::Result<()> {
    let mut st = [0u32; WORDS];
    let mem = [0u16; TOKENS];
    blank(&mut st);
    set_hop(&mut st, 1, 0, 3, 0, 0);
    set_serves(&mut st, 1, 1, 0);
    set_heard(&mut st, 1, 1, 0x0101);
    report(rt, "8 END kept by a control unit", &st, &mem)?;
    set_heard(&mut st, 1, 1, 0x01C1);
    report(rt, "8 READC kept by a control unit", &st, &mem)
}

fn claims(rt: &impl Print) -> io::Result<()> {
    let mut st = [0u32; WORDS];
    let mem = [0u16; TOKENS];
    blank(&mut st);
    set_claim(&mut st, 1, 5, 1, 0);
    report(rt, "10 a claim by a port with no circuit", &st, &mem)?;
    set_hop(&mut st, 1, 0, 2, 5, 1);
    set_tile_user(&mut st, 1, 1, 1, 0);
    report(
        rt,
        "10 a claim by the port whose circuit goes there",
        &st,
        &mem,
    )
}

fn replies(rt: &impl Print) -> io::Result<()> {
    let mut st = [0u32; WORDS];
    let mut mem = [0u16; TOKENS];
    blank(&mut st);
    set_hop(&mut st, 1, 0, 3, 0, 0);
    set_serves(&mut st, 1, 1, 0);
    set_word(&mut st, &mut mem, 1, REPLY_PORT, 1, 0x0227);
    report(
        rt,
        "12 a reply in port 12 while a circuit is served",
        &st,
        &mem,
    )?;
    set_word(&mut st, &mut mem, 1, REPLY_PORT, 0, 0);
    report(rt, "12 port 12 empty while a circuit is served", &st, &mem)
}

fn counts(rt: &impl Print) -> io::Result<()> {
    node_counts(rt)?;
    link_counts(rt)?;
    port_counts(rt)?;
    tile_counts(rt)?;
    end_counts(rt)?;
    unit_counts(rt)
}

fn links(rt: &impl Print) -> io::Result<()> {
    credit(rt)?;
    greeting(rt)?;
    room(rt)?;
    cables(rt)
}

fn main(rt: HostRuntime) -> io::Result<()> {
    lengths(&rt)?;
    line_lengths(&rt)?;
    counts(&rt)?;
    links(&rt)?;
    held(&rt)?;
    heard(&rt)?;
    claims(&rt)?;
    replies(&rt)
}
