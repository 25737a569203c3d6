// What is said of a state: the clauses that it fails.
use crate::write::LINES;
use cells::memories::Memories;
use sound::{clause_after, unsound_clause};
use std::io;

fn say(rt: &impl Print, text: &str) -> io::Result<()> {
    print!(rt; "{text}")
}

// Every clause that fails, one after the other.
fn say_failing(rt: &impl Print, st: &[u32], mem: &[u16], ls: &[u16]) -> io::Result<()> {
    let mut clause = clause_after(
        &Memories {
            state: st,
            tokens: mem,
            lines: ls,
        },
        0,
    );
    while !(clause == 0) {
        print!(rt; " {clause}")?;
        clause = clause_after(
            &Memories {
                state: st,
                tokens: mem,
                lines: ls,
            },
            clause,
        );
    }
    Ok(())
}

// The first clause that fails, as the bench answers it, and all that fail.
pub fn report_over(
    rt: &impl Print,
    label: &str,
    st: &[u32],
    mem: &[u16],
    ls: &[u16],
) -> io::Result<()> {
    say(rt, label)?;
    let first = unsound_clause(&Memories {
        state: st,
        tokens: mem,
        lines: ls,
    });
    if first == 0 {
        return say(rt, ": sound\n");
    }
    print!(rt; ": clause {first}; tests that fail are of")?;
    say_failing(rt, st, mem, ls)?;
    say(rt, "\n")
}

// The same of a state with no words in the lines' memory.
pub fn report(rt: &impl Print, label: &str, st: &[u32], mem: &[u16]) -> io::Result<()> {
    let ls = [0u16; LINES];
    report_over(rt, label, st, mem, &ls)
}
