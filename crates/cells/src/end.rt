// A channel-end.
ghost use Rattle.std.specs.Prelude.{◌≡◌, ◌<◌};
ghost use Rattle.names.specs.Size.{ends};
ghost use Rattle.cells.specs.Layout.{end};
ghost use Rattle.cells.specs.KindLaws.{end_laws};
ghost use Rattle.cells.specs.Records.{to_end, from_end};
ghost use Rattle.cells.specs.View.{view, whole_end, with_end, with_aim, with_sending, with_claim, with_buffer};

use crate::layout::{END, Kind};
use crate::record::Record;
use circuits::Circuit;
use names::Slot;
use names::size::END_BUFFER;

// Where among its words its tokens begin, and where its circuits do.
const TOKENS: usize = 5;

pub const OWN: usize = TOKENS + END_BUFFER;

// Its destination and network.
#[derive(Clone, Copy)]
pub struct Aim {
    // 0 unaimed, 1 at a channel of a number, 2 at its control unit
    pub kind: u32,
    pub number: u32,
    pub channel: u32,
    pub network: u32,
}

// What it holds: a count and an array, since both are words of the record.
#[derive(Clone, Copy)]
pub struct Buffer {
    pub held: u32,
    // oldest first; past held they are not looked at
    pub tokens: [u32; END_BUFFER],
}

#[derive(Clone, Copy)]
pub struct End {
    pub aim: Aim,
    // the port by which its open circuit goes, or the channel-end that it goes straight to
    pub sending: Circuit,
    // who sends to it
    pub claim: Circuit,
    pub buffer: Buffer,
}

impl Record for End {
    const KIND: Kind = END;

    ghost KIND = { end };

    ghost of_words = { to_end };

    ghost to_words = { from_end };

    ghost entry = { whole_end };

    ghost with = { with_end };

    ghost laws = { end_laws };

    fn none() -> End {
        End {
            aim: Aim {
                kind: 0,
                number: 0,
                channel: 0,
                network: 0,
            },
            sending: circuits::none(),
            claim: circuits::none(),
            buffer: Buffer {
                held: 0,
                tokens: [0; END_BUFFER],
            },
        }
    }

    fn from_words(w: &[u32]) -> End {
        let mut tokens = [0; END_BUFFER];
        tokens.copy_from_slice(&w[TOKENS..OWN]);
        let e = OWN + circuits::WORDS;
        End {
            aim: Aim {
                kind: w[0],
                number: w[1],
                channel: w[2],
                network: w[3],
            },
            sending: circuits::read(&w[OWN..e]),
            claim: circuits::read(&w[e..]),
            buffer: Buffer { held: w[4], tokens },
        }
    }

    fn write(self, w: &mut [u32]) {
        w[0] = self.aim.kind;
        w[1] = self.aim.number;
        w[2] = self.aim.channel;
        w[3] = self.aim.network;
        w[4] = self.buffer.held;
        w[TOKENS..OWN].copy_from_slice(&self.buffer.tokens);
        let e = OWN + circuits::WORDS;
        circuits::write(&mut w[OWN..e], self.sending);
        circuits::write(&mut w[e..], self.claim);
    }
}

// Its destination alone.
#[tactic(auto, using(laws::proofs::Table::upd_own))]
pub fn put_aim(st: &mut [u32], slot: Slot, c: usize, x: Aim)
    requires { (slot.0 < (view st.old).nodes) × (c < ends) }
    ensures { view st.new ≡ with_aim (view st.old) slot.0 c x }
{
    End::change(st, slot, c, move |k: &mut End| k.aim = x);
}

// Where its circuit goes, alone.
#[tactic(auto, using(laws::proofs::Table::upd_own))]
pub fn put_sending(st: &mut [u32], slot: Slot, c: usize, x: Circuit)
    requires { (slot.0 < (view st.old).nodes) × (c < ends) }
    ensures { view st.new ≡ with_sending (view st.old) slot.0 c x }
{
    End::change(st, slot, c, move |k: &mut End| k.sending = x);
}

// Its claim alone.
#[tactic(auto, using(laws::proofs::Table::upd_own))]
pub fn put_claim(st: &mut [u32], slot: Slot, c: usize, x: Circuit)
    requires { (slot.0 < (view st.old).nodes) × (c < ends) }
    ensures { view st.new ≡ with_claim (view st.old) slot.0 c x }
{
    End::change(st, slot, c, move |k: &mut End| k.claim = x);
}

// What it holds, alone.
#[tactic(auto, using(laws::proofs::Table::upd_own))]
pub fn put_buffer(st: &mut [u32], slot: Slot, c: usize, x: Buffer)
    requires { (slot.0 < (view st.old).nodes) × (c < ends) }
    ensures { view st.new ≡ with_buffer (view st.old) slot.0 c x }
{
    End::change(st, slot, c, move |k: &mut End| k.buffer = x);
}
