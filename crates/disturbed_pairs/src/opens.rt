// Clause 11, "each .. open channel-end names one circuit that exists", of slot 1. One that sends straight to a channel that
// is not there fails clause 10 too, and so has no state here.
use states::say::report;
use states::write::{TOKENS, WORDS, blank, set_sender, set_sending, set_word};
use std::io;

// Channel-end 4 is open by a port, which holds a header and names it.
fn open_by(st: &mut [u32], mem: &mut [u16], p: u32) {
    set_word(st, mem, 1, p as usize, 1, 0x0227);
    set_sender(st, 1, p as usize, 2, 4);
    set_sending(st, 1, 4, 2, 1, p);
}

// The port knows the channel-end that sends by it, and no other.
fn port_of_an_end(rt: &impl Print) -> io::Result<()> {
    let mut st = [0u32; WORDS];
    let mut mem = [0u16; TOKENS];
    blank(&mut st);
    open_by(&mut st, &mut mem, 9);
    set_sender(&mut st, 1, 9, 0, 0);
    report(
        rt,
        "11 an open channel-end that its port does not know",
        &st,
        &mem,
    )?;
    set_sender(&mut st, 1, 9, 2, 4);
    report(rt, "11 an open channel-end and its port", &st, &mem)
}

fn two_ends_of_a_port(rt: &impl Print) -> io::Result<()> {
    let mut st = [0u32; WORDS];
    let mut mem = [0u16; TOKENS];
    blank(&mut st);
    open_by(&mut st, &mut mem, 9);
    set_sending(&mut st, 1, 5, 2, 1, 9);
    report(rt, "11 two open channel-ends and one port", &st, &mem)?;
    set_sending(&mut st, 1, 5, 2, 0, 0);
    report(rt, "11 one open channel-end and its port", &st, &mem)
}

fn end_of_a_port(rt: &impl Print) -> io::Result<()> {
    let mut st = [0u32; WORDS];
    let mut mem = [0u16; TOKENS];
    blank(&mut st);
    open_by(&mut st, &mut mem, 9);
    set_sending(&mut st, 1, 4, 2, 0, 0);
    report(
        rt,
        "11 a port that names a channel-end that is not open",
        &st,
        &mem,
    )?;
    set_sending(&mut st, 1, 4, 2, 1, 9);
    report(
        rt,
        "11 a port that names the channel-end that sends by it",
        &st,
        &mem,
    )
}

fn aimed_by_a_port(rt: &impl Print) -> io::Result<()> {
    let mut st = [0u32; WORDS];
    let mut mem = [0u16; TOKENS];
    blank(&mut st);
    open_by(&mut st, &mut mem, 9);
    set_sending(&mut st, 1, 4, 0, 1, 9);
    report(rt, "11 open by a port and not aimed", &st, &mem)?;
    set_sending(&mut st, 1, 4, 2, 1, 9);
    report(rt, "11 open by a port and aimed", &st, &mem)
}

fn aimed_straight(rt: &impl Print) -> io::Result<()> {
    let mut st = [0u32; WORDS];
    let mem = [0u16; TOKENS];
    blank(&mut st);
    set_sending(&mut st, 1, 4, 0, 2, 255);
    report(rt, "11 open straight to the sink and not aimed", &st, &mem)?;
    set_sending(&mut st, 1, 4, 2, 2, 255);
    report(rt, "11 open straight to the sink and aimed", &st, &mem)
}

// A tile port, 8..11.
fn past_the_links(rt: &impl Print) -> io::Result<()> {
    let mut st = [0u32; WORDS];
    let mut mem = [0u16; TOKENS];
    blank(&mut st);
    open_by(&mut st, &mut mem, 7);
    report(rt, "11 open by port 7", &st, &mem)?;
    set_sender(&mut st, 1, 7, 0, 0);
    open_by(&mut st, &mut mem, 8);
    report(rt, "11 open by port 8", &st, &mem)
}

fn before_the_replies(rt: &impl Print) -> io::Result<()> {
    let mut st = [0u32; WORDS];
    let mut mem = [0u16; TOKENS];
    blank(&mut st);
    open_by(&mut st, &mut mem, 12);
    report(rt, "11 open by port 12", &st, &mem)?;
    set_sender(&mut st, 1, 12, 0, 0);
    open_by(&mut st, &mut mem, 11);
    report(rt, "11 open by port 11", &st, &mem)
}

// The circuit exists: its port is taken.
fn taken(rt: &impl Print) -> io::Result<()> {
    let mut st = [0u32; WORDS];
    let mut mem = [0u16; TOKENS];
    blank(&mut st);
    set_sender(&mut st, 1, 9, 2, 4);
    set_sending(&mut st, 1, 4, 2, 1, 9);
    report(rt, "11 open by a port that nothing has taken", &st, &mem)?;
    open_by(&mut st, &mut mem, 9);
    report(rt, "11 open by a port that is taken", &st, &mem)
}

pub fn opens(rt: &impl Print) -> io::Result<()> {
    port_of_an_end(rt)?;
    two_ends_of_a_port(rt)?;
    end_of_a_port(rt)?;
    aimed_by_a_port(rt)?;
    aimed_straight(rt)?;
    past_the_links(rt)?;
    before_the_replies(rt)?;
    taken(rt)
}
