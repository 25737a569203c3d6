// A control unit.
ghost use Rattle.std.specs.Prelude.{◌≡◌, ◌<◌};
ghost use Rattle.cells.specs.Layout.{unit};
ghost use Rattle.cells.specs.KindLaws.{unit_laws};
ghost use Rattle.cells.specs.Records.{to_unit, from_unit};
ghost use Rattle.cells.specs.View.{view, with_unit, with_serving, with_hearing};

use crate::layout::{Kind, UNIT};
use crate::record::Record;
use circuits::Circuit;
use names::Slot;
use names::size::UNIT_BUFFER;

// Where among its words its tokens begin, and where its circuits do.
const TOKENS: usize = 1;

pub const OWN: usize = TOKENS + UNIT_BUFFER as usize;

// What it has heard of a message, as far as it keeps it: a count and an array, since both are words of the record.
#[derive(Clone, Copy)]
pub struct Hearing {
    pub heard: u32,
    pub tokens: [u32; UNIT_BUFFER as usize],
}

#[derive(Clone, Copy)]
pub struct Unit {
    // the port that it listens to
    pub serves: Circuit,
    pub hearing: Hearing,
}

impl Record for Unit {
    const KIND: Kind = UNIT;

    ghost KIND = { unit };

    ghost of_words = { to_unit };

    ghost to_words = { from_unit };

    ghost entry = { λ s n i. record { serves = s.units.serving n i; hearing = s.units.hearings n i } };

    ghost with = { λ s n i k. with_unit s n k };

    ghost laws = { unit_laws };

    fn none() -> Unit {
        Unit {
            serves: circuits::none(),
            hearing: Hearing {
                heard: 0,
                tokens: [0; UNIT_BUFFER as usize],
            },
        }
    }

    fn from_words(w: &[u32]) -> Unit {
        let mut tokens = [0; UNIT_BUFFER as usize];
        tokens.copy_from_slice(&w[TOKENS..OWN]);
        Unit {
            serves: circuits::read(&w[OWN..]),
            hearing: Hearing {
                heard: w[0],
                tokens,
            },
        }
    }

    fn write(self, w: &mut [u32]) {
        w[0] = self.hearing.heard;
        w[TOKENS..OWN].copy_from_slice(&self.hearing.tokens);
        circuits::write(&mut w[OWN..], self.serves);
    }
}

// Whom it serves, alone.
#[tactic(auto, using(laws::proofs::Table::upd_own))]
pub fn put_serves(st: &mut [u32], slot: Slot, x: Circuit)
    requires { slot.0 < (view st.old).nodes }
    ensures { view st.new ≡ with_serving (view st.old) slot.0 x }
{
    Unit::change(st, slot, 0, move |k: &mut Unit| k.serves = x);
}

// What it has heard, alone.
#[tactic(auto, using(laws::proofs::Table::upd_own))]
pub fn put_hearing(st: &mut [u32], slot: Slot, x: Hearing)
    requires { slot.0 < (view st.old).nodes }
    ensures { view st.new ≡ with_hearing (view st.old) slot.0 x }
{
    Unit::change(st, slot, 0, move |k: &mut Unit| k.hearing = x);
}
