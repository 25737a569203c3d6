// The two starts, Fresh and blank (document 01, "Calls"; document 02, Ask 7): every word of the lent memories is written, whatever
// stood there.
#![tactic(auto)]

ghost use Rattle.std.specs.Prelude.{◌≡◌, true, [], ◌+◌, ◌*◌, ◌<◌, length, replicate};
ghost use Rattle.names.specs.Size.{links};
ghost use Rattle.answers.specs.Rows.{checked};
ghost use Rattle.answers.specs.Out.{out};
ghost use Rattle.cells.specs.View.{view};
ghost use Rattle.cells.specs.World.{lent};
ghost use Rattle.cells.specs.Start.{start_node, start_link, start_to, start_net, none_on};
ghost use Rattle.fresh.specs.Fresh.{start_rows, leaves_on, begin};
ghost use Rattle.fresh.specs.Needs.{booted_to};
ghost use Rattle.fresh.specs.declared.Start.TheVariants.{Fresh};

use answers::Answer;
use cells::layout::shaped;
use cells::link::{Cable, Flow, Link, Setup};
use cells::memories::Memories;
use cells::node;
use cells::node::Node;
use cells::record::Record;
use circuits::Circuit;
use names::Slot;
use names::no::No;
use names::size::{LINKS, NODES};
use routing::direction::Directions;

// Which links a start leaves enabled.
#[derive(Clone, Copy)]
pub enum Start {
    // links E to H of every node, as the boot ROM does
    Fresh,
    // none
    Blank,
}

// Link E, the first that the boot ROM enables.
const FIRST_BOOT_LINK: usize = 4;

// "every token word 0", in ports and on lines
fn clear_tokens(mem: &mut [u16])
    ensures { mem.new ≡ replicate (length mem.old) 0 }
{
    mem.fill(0);
}

// "number 0, width three, directions 0"
fn settings() -> Node
    ensures { result ≡ start_node }
{
    Node {
        number: 0,
        width: 3,
        directions: Directions {
            first: 0,
            second: 0,
        },
    }
}

// Each node of a state of zeros gets its settings.
fn settle(st: &mut [u32])
    requires { view st.old ≡ start_to 0 none_on (view st.old).nodes }
    ensures { view st.new ≡ start_net none_on (view st.old).nodes }
{
    for n in 0..node::count(st) {
        Node::put(st, Slot(n), 0, settings());
    }
}

// Enabled, and no more: unwired, ungreeted, with no credit.
fn enabled_link() -> Link
    ensures { result ≡ start_link true }
{
    Link {
        cable: Cable {
            wired: 0,
            far_slot: 0,
            far_link: 0,
        },
        setup: Setup {
            enabled: 1,
            direction: 0,
            network: 0,
        },
        flow: Flow {
            greeted: 0,
            credit: 0,
        },
        user: Circuit { kind: 0, index: 0 },
    }
}

// Links E to H of a node are enabled, where those of all nodes before it are.
fn boot_node(st: &mut [u32], slot: Slot)
    requires { (slot.0 < (view st.old).nodes) × (view st.old ≡ start_net (booted_to (slot.0 * links)) (view st.old).nodes) }
    ensures { view st.new ≡ start_net (booted_to ((slot.0 + 1) * links)) (view st.old).nodes }
{
    for l in FIRST_BOOT_LINK..LINKS {
        Link::put(st, slot, l, enabled_link());
    }
}

// "links E to H enabled after start"
fn boot(st: &mut [u32])
    requires { view st.old ≡ start_net none_on (view st.old).nodes }
    ensures { view st.new ≡ start_net (leaves_on Fresh (view st.old).nodes) (view st.old).nodes }
{
    for n in 0..node::count(st) {
        boot_node(st, Slot(n));
    }
}

// The state of a network of as many nodes as there are words for.
fn start_state(st: &mut [u32], which: Start)
    requires { (view st.old).rest ≡ [] }
    ensures { view st.new ≡ start_net (leaves_on which (view st.old).nodes) (view st.old).nodes }
{
    st.fill(0);
    settle(st);
    match which {
        Start::Fresh => boot(st),
        Start::Blank => {}
    }
}

// Whether a start is refused.
fn check_start(st: &[u32], mem: &[u16], ls: &[u16], nodes: usize) -> Result<(), No>
    ensures { result ≡ checked (start_rows (lent st.now mem.now ls.now) nodes) }
{
    let counted = (1 <= nodes) & (nodes <= NODES);
    if !counted {
        return Err(No::NoSuch);
    }
    let fitting = shaped(&Memories {
        state: st,
        tokens: mem,
        lines: ls,
    }) & (node::count(st) == nodes);
    if !fitting {
        return Err(No::Unsound);
    }
    Ok(())
}

// A start, whole: refused by its number with nothing changed, or a network of so many nodes.
pub fn begin(
    st: &mut [u32],
    mem: &mut [u16],
    ls: &mut [u16],
    which: Start,
    nodes: usize,
) -> Result<Answer, No>
    ensures { out result (lent st.new mem.new ls.new)
        ≡ begin (lent st.old mem.old ls.old) which nodes }
{
    check_start(st, mem, ls, nodes)?;
    start_state(st, which);
    clear_tokens(mem);
    clear_tokens(ls);
    Ok(Answer::Done)
}
