// One direction of a cable, at the link that it starts at (document 02, Ask 4): where on its stretch of the lines' memory lies what is on
// it. And what that link, as a receiver, has issued to the far end and not yet received.
ghost use Rattle.std.specs.Prelude.{◌≡◌, ◌<◌};
ghost use Rattle.names.specs.Size.{links};
ghost use Rattle.cells.specs.Layout.{line};
ghost use Rattle.cells.specs.KindLaws.{line_laws};
ghost use Rattle.cells.specs.Records.{to_line, from_line};
ghost use Rattle.cells.specs.View.{view, whole_line, with_line, with_ring, with_issued};

use crate::layout::{Kind, LINE};
use crate::record::Record;
use names::Slot;
use ports::Counters;

// Its words.
pub const OWN: usize = 3;

#[derive(Clone, Copy)]
pub struct Line {
    pub ring: Counters,
    pub issued: u32,
}

impl Record for Line {
    const KIND: Kind = LINE;

    ghost KIND = { line };

    ghost of_words = { to_line };

    ghost to_words = { from_line };

    ghost entry = { whole_line };

    ghost with = { with_line };

    ghost laws = { line_laws };

    fn none() -> Line {
        Line {
            ring: Counters::new(),
            issued: 0,
        }
    }

    fn from_words(w: &[u32]) -> Line {
        Line {
            ring: Counters {
                head: w[0],
                held: w[1],
            },
            issued: w[2],
        }
    }

    fn write(self, w: &mut [u32]) {
        w[0] = self.ring.head;
        w[1] = self.ring.held;
        w[2] = self.issued;
    }
}

// Where what is on it lies, alone.
#[tactic(auto, using(laws::proofs::Table::upd_own))]
pub fn put_ring(st: &mut [u32], slot: Slot, l: usize, x: Counters)
    requires { (slot.0 < (view st.old).nodes) × (l < links) }
    ensures { view st.new ≡ with_ring (view st.old) slot.0 l x }
{
    Line::change(st, slot, l, move |k: &mut Line| k.ring = x);
}

// The count of what is issued, alone.
#[tactic(auto, using(laws::proofs::Table::upd_own))]
pub fn put_issued(st: &mut [u32], slot: Slot, l: usize, x: u32)
    requires { (slot.0 < (view st.old).nodes) × (l < links) }
    ensures { view st.new ≡ with_issued (view st.old) slot.0 l x }
{
    Line::change(st, slot, l, move |k: &mut Line| k.issued = x);
}
