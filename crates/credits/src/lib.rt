// Credits (document 01, "Credits"): what is granted when a grant is considered. When one is
// considered, and what it does to the link, needs the state, and is decided above.
#![tactic(auto)]

ghost use Rattle.std.specs.Prelude.{◌≡◌};
ghost use Rattle.credits.specs.Grant.{room_of, covered, grant_of};

use ports::Counters;

// A link that has this much credit is granted none.
const ENOUGH: u32 = 8;

// What the far buffer has left for tokens that no credit was given for.
fn room(credit: u32, held: u32) -> u32
    ensures { result ≡ room_of credit held }
{
    if held >= Counters::CAPACITY {
        return 0;
    }
    let free = Counters::CAPACITY - held;
    if credit >= free {
        return 0;
    }
    free - credit
}

// The largest of the three grants that a room covers.
fn covered(room: u32) -> u32
    ensures { result ≡ covered room }
{
    match room {
        0..=7 => 0,
        8..=15 => 8,
        16..=63 => 16,
        64..=0xFFFF_FFFF => 64,
    }
}

// The grant for a link's credit and the tokens held at its far end: 0, 8, 16 or 64.
#[tactic(auto, unfolding(crate::specs::Grant::grant_of))]
pub fn grant(credit: u32, held: u32) -> u32
    ensures { result ≡ grant_of credit held }
{
    if credit >= ENOUGH {
        return 0;
    }
    covered(room(credit, held))
}
