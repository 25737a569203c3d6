// Headers made from a destination and read back, at both widths (000, 3.5).
ghost use Rattle.std.specs.Prelude.{◌≡◌};
ghost use Rattle.tokens.specs.Header.{compared, header_of, three_of, is_narrow, read_one, read_three};
ghost use Rattle.tokens.specs.Shape.{legal_channel};
ghost use Rattle.tokens.specs.declared.header.Width.{Width};

use crate::word::{is_control, of_header, of_unit, value};
use names::size::SINK;
use names::{NodeNumber, size};

// Channels that a header can name, beside bytes.
const CHANNELS: u8 = size::CHANNELS as u8;

// The width of a node's headers.
#[derive(Clone, Copy, PartialEq, Eq)]
pub enum Width {
    One,
    Three,
}

// A destination: a channel of a number, 0..31 or the sink 255, or a number's control unit.
#[derive(Clone, Copy)]
pub enum Target {
    Channel(NodeNumber, u8),
    Unit(NodeNumber),
}

// A header's words as they go into a port; none where one byte can't carry the target, which callers put there too, and so no Option.
#[derive(Clone, Copy)]
pub enum Header {
    Narrow,
    One(u16),
    Three(u16, u16, u16),
}

// A destination can name the channel.
#[tactic(auto, unfolding(crate::specs::Shape::legal_channel))]
pub fn is_channel(c: u32) -> bool
    ensures { result ≡ legal_channel c }
{
    (c < size::CHANNELS) | (c == SINK)
}

// The bits of a number that a width compares: sixteen, or the low three.
pub fn compared(n: NodeNumber, w: Width) -> NodeNumber
    ensures { result ≡ compared w n }
{
    match w {
        Width::One => NodeNumber(n.0 % 8),
        Width::Three => n,
    }
}

#[tactic(auto, unfolding(crate::specs::Header::header_of))]
fn one_byte(n: NodeNumber, c: u8) -> Header
    ensures { result ≡ header_of (Target.Channel n c) Width.One }
{
    if c < CHANNELS {
        let low = compared(n, Width::One);
        return Header::One(of_header(low.0 as u8 * CHANNELS + c, Width::One));
    }
    Header::Narrow
}

// The two number bytes, then the last word.
fn three_byte(n: NodeNumber, last: u16) -> Header
    ensures { result ≡ three_of n last }
{
    Header::Three(
        of_header(n.high(), Width::Three),
        of_header(n.low(), Width::Three),
        last,
    )
}

#[tactic(auto, unfolding(crate::specs::Header::header_of))]
pub fn make_header(t: Target, w: Width) -> Header
    ensures { result ≡ header_of t w }
{
    match t {
        Target::Channel(n, c) => match w {
            Width::One => one_byte(n, c),
            Width::Three => three_byte(n, of_header(c, Width::Three)),
        },
        Target::Unit(n) => match w {
            Width::One => Header::Narrow,
            Width::Three => three_byte(n, of_unit()),
        },
    }
}

// A width can't carry the target.
pub fn is_narrow(h: Header) -> bool
    ensures { result ≡ is_narrow h }
{
    matches!(h, Header::Narrow)
}

#[tactic(auto, unfolding(crate::specs::Header::read_one))]
pub fn read_one(a: u16) -> Target
    ensures { result ≡ read_one a }
{
    let v = value(a);
    Target::Channel(NodeNumber((v / CHANNELS) as u16), v % CHANNELS)
}

#[tactic(auto, unfolding(crate::specs::Header::read_three))]
pub fn read_three(a: u16, b: u16, c: u16) -> Target
    ensures { result ≡ read_three a b c }
{
    let n = NodeNumber::of_bytes(value(a), value(b));
    if is_control(c) {
        return Target::Unit(n);
    }
    Target::Channel(n, value(c))
}
