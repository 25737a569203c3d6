// A place in the bench's table and a switch's own identifier are two types, so that one is never
// given for the other (document 01, "What the bench holds"). Lowest of all crates.
#![tactic(auto)]

pub mod no;
pub mod size;

ghost use Rattle.std.specs.Prelude.{◌≡◌};
ghost use Rattle.names.specs.Number.{ranged, is_number, of_bytes, high_byte, low_byte};

// A node's place in the bench's table. As the argument of a call it may be any number: a slot that
// is not there is NoSuch.
#[derive(Clone, Copy, PartialEq, Eq)]
pub struct Slot(pub usize);

// The 16-bit identifier written into a node's switch. Two nodes may carry the same one.
#[derive(Clone, Copy, PartialEq, Eq)]
pub struct NodeNumber(pub u16);

impl NodeNumber {
    // A caller's value, which is a number as soon as it is known to be in range.
    pub fn of(value: u32) -> Option<Self>
        ensures { result ≡ ranged value }
    {
        u16::try_from(value).ok().map(Self)
    }

    pub fn of_bytes(high: u8, low: u8) -> Self
        ensures { result ≡ of_bytes high low }
    {
        Self(u16::from_be_bytes([high, low]))
    }

    pub fn high(self) -> u8
        ensures { result ≡ high_byte self }
    {
        self.0.to_be_bytes()[0]
    }

    pub fn low(self) -> u8
        ensures { result ≡ low_byte self }
    {
        self.0.to_be_bytes()[1]
    }
}

// A wide value is a number.
pub fn is_number(value: u32) -> bool
    ensures { result ≡ is_number value }
{
    NodeNumber::of(value).is_some()
}
