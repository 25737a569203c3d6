// For each sentence of the Sound list on lines, a state that fails it alone and its twin, which is sound: clauses 13 to 15, and what clauses
// 2 and 5 ask of lines. What clause 7 asks of them is in disturbed_ports.
#![tactic(auto)]

use ports::Counters;
use states::say::report_over;
use states::write::{LINES, TOKENS, WORDS, blank, join, set_issued, set_on, set_word};
use std::io;

const HELLO: u16 = 0x01E6;

const CREDIT8: u16 = 0x01E0;

const CREDIT16: u16 = 0x01E4;

const ONE: u16 = 0x0227;

const DATA: u16 = 0x0005;

// "counts within their limits": more than 64 is never issued, though a HELLO is coming and the count is not compared.
fn issued(rt: &impl Print) -> io::Result<()> {
    let mut st = [0u32; WORDS];
    let mem = [0u16; TOKENS];
    let mut ls = [0u16; LINES];
    blank(&mut st);
    join(&mut st, 0, 0);
    set_on(&mut st, &mut ls, 1, 3, 1, HELLO, 0);
    set_issued(&mut st, 0, 0, Counters::CAPACITY + 1);
    report_over(rt, "2 65 issued, a HELLO coming", &st, &mem, &ls)?;
    set_issued(&mut st, 0, 0, Counters::CAPACITY);
    report_over(rt, "2 64 issued, a HELLO coming", &st, &mem, &ls)
}

// "Sound counts tokens on a line", and the credit on the line back.
fn room_for_tokens(rt: &impl Print) -> io::Result<()> {
    let mut st = [0u32; WORDS];
    let mut mem = [0u16; TOKENS];
    let mut ls = [0u16; LINES];
    blank(&mut st);
    set_word(&mut st, &mut mem, 1, 3, 1, ONE);
    set_on(&mut st, &mut ls, 0, 0, 1, DATA, 0);
    join(&mut st, 1, Counters::CAPACITY - 1);
    set_issued(&mut st, 1, 3, Counters::CAPACITY);
    report_over(
        rt,
        "5 credit 63, one token on the line and one held at the far end",
        &st,
        &mem,
        &ls,
    )?;
    join(&mut st, 1, Counters::CAPACITY - 2);
    set_issued(&mut st, 1, 3, Counters::CAPACITY - 1);
    report_over(
        rt,
        "5 credit 62, one token on the line and one held at the far end",
        &st,
        &mem,
        &ls,
    )
}

fn room_for_credit(rt: &impl Print) -> io::Result<()> {
    let mut st = [0u32; WORDS];
    let mut mem = [0u16; TOKENS];
    let mut ls = [0u16; LINES];
    blank(&mut st);
    join(&mut st, 1, Counters::CAPACITY - 8);
    set_on(&mut st, &mut ls, 1, 3, 1, CREDIT8, 0);
    set_issued(&mut st, 1, 3, Counters::CAPACITY);
    set_word(&mut st, &mut mem, 1, 3, 1, ONE);
    report_over(
        rt,
        "5 credit 56, credit 8 coming, one token held at the far end",
        &st,
        &mem,
        &ls,
    )?;
    set_word(&mut st, &mut mem, 1, 3, 0, 0);
    report_over(
        rt,
        "5 credit 56, credit 8 coming, none held at the far end",
        &st,
        &mem,
        &ls,
    )
}

// "allows one credit and one HELLO there"
fn two_credits(rt: &impl Print) -> io::Result<()> {
    let mut st = [0u32; WORDS];
    let mem = [0u16; TOKENS];
    let mut ls = [0u16; LINES];
    blank(&mut st);
    join(&mut st, 1, 0);
    set_issued(&mut st, 1, 3, 16);
    set_on(&mut st, &mut ls, 1, 3, 2, CREDIT8, CREDIT8);
    report_over(rt, "13 two credits of 8 on a line", &st, &mem, &ls)?;
    set_on(&mut st, &mut ls, 1, 3, 1, CREDIT16, 0);
    report_over(rt, "13 one credit of 16 on a line", &st, &mem, &ls)
}

fn two_hellos(rt: &impl Print) -> io::Result<()> {
    let mut st = [0u32; WORDS];
    let mem = [0u16; TOKENS];
    let mut ls = [0u16; LINES];
    blank(&mut st);
    join(&mut st, 0, 0);
    set_on(&mut st, &mut ls, 1, 3, 2, HELLO, HELLO);
    report_over(rt, "13 two HELLOs on a line", &st, &mem, &ls)?;
    set_on(&mut st, &mut ls, 1, 3, 1, HELLO, 0);
    report_over(rt, "13 one HELLO on a line", &st, &mem, &ls)
}

// "while no HELLO is coming to a receiver, holds its count to the far end's credit plus the credit on the line to that end and the tokens
// on the line from it"
fn count_of_credit(rt: &impl Print) -> io::Result<()> {
    let mut st = [0u32; WORDS];
    let mem = [0u16; TOKENS];
    let ls = [0u16; LINES];
    blank(&mut st);
    join(&mut st, 1, 8);
    set_issued(&mut st, 1, 3, 7);
    report_over(rt, "14 credit 8, of which 7 are issued", &st, &mem, &ls)?;
    set_issued(&mut st, 1, 3, 8);
    report_over(rt, "14 credit 8, all of it issued", &st, &mem, &ls)
}

fn count_of_a_line(rt: &impl Print) -> io::Result<()> {
    let mut st = [0u32; WORDS];
    let mem = [0u16; TOKENS];
    let mut ls = [0u16; LINES];
    blank(&mut st);
    join(&mut st, 1, 8);
    set_on(&mut st, &mut ls, 0, 0, 1, ONE, 0);
    set_on(&mut st, &mut ls, 1, 3, 1, CREDIT16, 0);
    report_over(
        rt,
        "14 8 issued for credit 8, 16 coming and one token sent",
        &st,
        &mem,
        &ls,
    )?;
    set_issued(&mut st, 1, 3, 25);
    report_over(
        rt,
        "14 25 issued for credit 8, 16 coming and one token sent",
        &st,
        &mem,
        &ls,
    )
}

fn count_before_a_hello(rt: &impl Print) -> io::Result<()> {
    let mut st = [0u32; WORDS];
    let mem = [0u16; TOKENS];
    let mut ls = [0u16; LINES];
    blank(&mut st);
    join(&mut st, 1, 0);
    set_issued(&mut st, 1, 3, 5);
    report_over(rt, "14 5 issued for no credit", &st, &mem, &ls)?;
    set_on(&mut st, &mut ls, 0, 0, 1, HELLO, 0);
    report_over(
        rt,
        "14 5 issued for no credit, a HELLO coming",
        &st,
        &mem,
        &ls,
    )
}

// "Each direction of a cable becomes a line": an unwired end has none.
fn line_without_a_cable(rt: &impl Print) -> io::Result<()> {
    let mut st = [0u32; WORDS];
    let mem = [0u16; TOKENS];
    let mut ls = [0u16; LINES];
    blank(&mut st);
    set_on(&mut st, &mut ls, 1, 7, 1, HELLO, 0);
    report_over(
        rt,
        "15 a HELLO on the line of an unwired link",
        &st,
        &mem,
        &ls,
    )?;
    set_on(&mut st, &mut ls, 1, 7, 0, HELLO, 0);
    report_over(
        rt,
        "15 nothing on the line of an unwired link",
        &st,
        &mem,
        &ls,
    )
}

fn count_without_a_cable(rt: &impl Print) -> io::Result<()> {
    let mut st = [0u32; WORDS];
    let mem = [0u16; TOKENS];
    let ls = [0u16; LINES];
    blank(&mut st);
    set_issued(&mut st, 1, 7, 1);
    report_over(rt, "15 one issued by an unwired link", &st, &mem, &ls)?;
    set_issued(&mut st, 1, 7, 0);
    report_over(rt, "15 none issued by an unwired link", &st, &mem, &ls)
}

fn main(rt: HostRuntime) -> io::Result<()> {
    issued(&rt)?;
    room_for_tokens(&rt)?;
    room_for_credit(&rt)?;
    two_credits(&rt)?;
    two_hellos(&rt)?;
    count_of_credit(&rt)?;
    count_of_a_line(&rt)?;
    count_before_a_hello(&rt)?;
    line_without_a_cable(&rt)?;
    count_without_a_cable(&rt)
}
