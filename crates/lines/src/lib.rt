// The lines of cables (document 02, Ask 4): each direction of a cable is a line of up to 66 tokens, credits and HELLOs in order, on its
// own stretch of a second lent memory. Its counters are a port's kind of counters, kept with the link that it starts at.
#![tactic(auto)]

pub mod load;

ghost use Rattle.std.specs.Prelude.{◌≡◌, ◌+◌, ◌≤◌, ◌<◌, length};
ghost use Rattle.ports.specs.Ring.{put_counters};
ghost use Rattle.lines.specs.Line.{line_capacity, LineFair, off_counters, line_place, on_memory, off_memory, first_off, word_on, on_line};

use names::Slot;
use names::size::LINKS;
use ports::words::Words;
use ports::{Counters, Queues, Taken};

// What a line holds at most: 64 tokens, a credit and a HELLO.
pub const CAPACITY: u32 = 66;

// The lines' memory: the lines that start at the links of each node.
pub type Lines = Queues<LINKS, CAPACITY>;

// What is on a line.
pub type LineWords<'a> = Words<'a, CAPACITY>;

// The i-th on the line that starts at a link, the first to arrive at 0.
pub fn word_on(c: Counters, lines: &[u16], slot: Slot, l: usize, i: u32) -> u16
    requires { LineFair c × (i < line_capacity) × (line_place slot.0 l + line_capacity ≤ length lines.now) }
    ensures { result ≡ word_on c lines.now (line_place slot.0 l) i }
{
    Lines::word(c, lines, slot, l, i)
}

// What is on the line that starts at a link, the first to arrive first.
pub fn words_on<'a>(c: Counters, lines: &'a [u16], slot: Slot, l: usize) -> LineWords<'a>
    requires { LineFair c × (line_place slot.0 l + line_capacity ≤ length lines.now) }
    ensures { result ≡ on_line c lines.now (line_place slot.0 l) }
{
    Lines::words(c, lines, slot, l)
}

// Puts a token, a credit or a HELLO on the line that starts at a link, behind what is on it.
pub fn put_on(c: Counters, lines: &mut [u16], slot: Slot, l: usize, word: u16) -> Counters
    requires { LineFair c × (c.held < line_capacity) × (line_place slot.0 l + line_capacity ≤ length lines.old) }
    ensures { (result ≡ put_counters c) × (lines.new ≡ on_memory c lines.old (line_place slot.0 l) word) }
{
    Lines::put(c, lines, slot, l, word)
}

// Takes the first off the far end of that line, and clears the word that it leaves.
pub fn take_off(c: Counters, lines: &mut [u16], slot: Slot, l: usize) -> Taken
    requires { LineFair c × (0 < c.held) × (line_place slot.0 l + line_capacity ≤ length lines.old) }
    ensures { (result.counters ≡ off_counters c) × (result.token ≡ first_off c lines.old (line_place slot.0 l))
        × (lines.new ≡ off_memory c lines.old (line_place slot.0 l)) }
{
    Lines::take(c, lines, slot, l)
}
