// Looks at the lent memories as a whole.
ghost use Rattle.std.specs.Prelude.{◌≡◌, ◌*◌};
ghost use Rattle.names.specs.Size.{links, ports};
ghost use Rattle.ports.specs.Queue.{capacity};
ghost use Rattle.lines.specs.Line.{line_capacity};
ghost use Rattle.cells.specs.Layout.{stride};
ghost use Rattle.cells.specs.View.{view};
ghost use Rattle.cells.specs.World.{lent};
ghost use Rattle.sound.specs.Sound.{unsound_clause, sound, tight, quiet};

use cells::layout::{LINE_WORDS, STRIDE, TOKEN_WORDS};
use cells::memories::Memories;
use cells::node::count;
use sound::{is_quiet, is_sound, is_tight, unsound_clause};

// How many words of state to lend for each node.
#[unsafe(no_mangle)]
pub extern "C" fn tarvelgyo_state_words() -> usize
    ensures { result ≡ stride }
{
    STRIDE
}

// How many words of token memory to lend for each node.
#[unsafe(no_mangle)]
pub extern "C" fn tarvelgyo_memory_words() -> usize
    ensures { result ≡ ports * capacity }
{
    TOKEN_WORDS
}

// How many words of the lines' memory to lend for each node.
#[unsafe(no_mangle)]
pub extern "C" fn tarvelgyo_line_words() -> usize
    ensures { result ≡ links * line_capacity }
{
    LINE_WORDS
}

#[unsafe(no_mangle)]
pub extern "C" fn tarvelgyo_node_count(st: &[u32]) -> usize
    ensures { result ≡ (view st.now).nodes }
{
    count(st)
}

#[unsafe(no_mangle)]
pub extern "C" fn tarvelgyo_is_sound(st: &[u32], mem: &[u16], ls: &[u16]) -> bool
    ensures { result ≡ sound (lent st.now mem.now ls.now) }
{
    is_sound(&Memories {
        state: st,
        tokens: mem,
        lines: ls,
    })
}

// 0 where the state is sound, else the number of the first clause that fails.
#[unsafe(no_mangle)]
pub extern "C" fn tarvelgyo_unsound_clause(st: &[u32], mem: &[u16], ls: &[u16]) -> u32
    ensures { result ≡ unsound_clause (lent st.now mem.now ls.now) }
{
    unsound_clause(&Memories {
        state: st,
        tokens: mem,
        lines: ls,
    })
}

#[unsafe(no_mangle)]
pub extern "C" fn tarvelgyo_is_tight(st: &[u32], mem: &[u16], ls: &[u16]) -> bool
    ensures { result ≡ tight (lent st.now mem.now ls.now) }
{
    is_tight(&Memories {
        state: st,
        tokens: mem,
        lines: ls,
    })
}

#[unsafe(no_mangle)]
pub extern "C" fn tarvelgyo_is_quiet(st: &[u32], mem: &[u16], ls: &[u16]) -> bool
    ensures { result ≡ quiet (lent st.now mem.now ls.now) }
{
    is_quiet(&Memories {
        state: st,
        tokens: mem,
        lines: ls,
    })
}
