// The direction table of a switch: sixteen entries of four bits in two registers.
ghost use Rattle.std.specs.Prelude.{◌≡◌, ◌<◌};
ghost use Rattle.routing.specs.Direction.{field, with_field, entry_of, with_entry};

#[derive(Clone, Copy)]
pub struct Directions {
    // entries of bits 0..7
    pub first: u32,
    // entries of bits 8..15
    pub second: u32,
}

// Four bits of a register, from bit 4i on.
#[tactic(auto, unfolding(crate::specs::Direction::field))]
pub fn field(reg: u32, i: u32) -> u32
    requires { i < 8 }
    ensures { result ≡ field reg i }
{
    (reg >> (4 * i)) & 15
}

// The register with these four bits replaced by the low four of d.
#[tactic(auto, using(crate::proofs::Fields::by_masks, crate::proofs::Fields::unit), unfolding(crate::specs::Direction::with_field))]
fn with_field(reg: u32, i: u32, d: u32) -> u32
    requires { i < 8 }
    ensures { result ≡ with_field reg i d }
{
    let shift = 4 * i;
    let above = ((reg >> shift) >> 4) << 4;
    let below = reg & ((1 << shift) - 1);
    ((above | (d & 15)) << shift) | below
}

impl Directions {
    // The direction for a bit 0..15.
    #[tactic(auto, unfolding(crate::specs::Direction::entry_of))]
    pub fn entry(self, bit: u32) -> u32
        ensures { result ≡ entry_of self bit }
    {
        let i = bit % 8;
        if bit < 8 {
            return field(self.first, i);
        }
        field(self.second, i)
    }

    // The table with the direction of a bit 0..15 replaced, and the other fifteen as they are.
    #[tactic(auto, unfolding(crate::specs::Direction::with_entry))]
    pub fn with_entry(self, bit: u32, d: u32) -> Self
        ensures { result ≡ with_entry self bit d }
    {
        let i = bit % 8;
        if bit < 8 {
            return Self {
                first: with_field(self.first, i, d),
                second: self.second,
            };
        }
        Self {
            first: self.first,
            second: with_field(self.second, i, d),
        }
    }
}
