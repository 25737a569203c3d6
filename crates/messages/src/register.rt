// The registers that hold settings of Set (source document 000, 9.3 and 9.4): where they are, and what they
// read. What a write to one sets is module write's.
ghost use Rattle.std.specs.Prelude.{◌≡◌, ◌<◌};
ghost use Rattle.names.specs.Size.{links};
ghost use Rattle.cells.specs.View.{view};
ghost use Rattle.messages.specs.declared.register.Register.TheVariants.{Width};
ghost use Rattle.messages.specs.Register.{link_in, register_of, is_known, read_of};

use cells::link::Link;
use cells::node::Node;
use cells::record::Record;
use names::Slot;

#[derive(Clone, Copy)]
pub enum Register {
    // an address without one; `read` and `write` answer of it too, and so no Option
    Unknown,
    // short headers
    Width,
    // the node's number
    Number,
    // the direction entries of bits 0..7
    LowDirections,
    // .. and of bits 8..15
    HighDirections,
    // a link's direction and network
    Route(usize),
    // a link enabled, and HELLO
    State(usize),
}

// Links stand in the order C D A B G H E F.
fn link_in(i: u16) -> usize
    requires { i < links }
    ensures { result ≡ link_in i }
{
    let order = [2, 3, 0, 1, 6, 7, 4, 5];
    order[i as usize]
}

pub fn register_of(address: u16) -> Register
    ensures { result ≡ register_of address }
{
    match address {
        0x0000..=0x0003 => Register::Unknown,
        0x0004 => Register::Width,
        0x0005 => Register::Number,
        0x0006..=0x000B => Register::Unknown,
        0x000C => Register::LowDirections,
        0x000D => Register::HighDirections,
        0x000E..=0x001F => Register::Unknown,
        0x0020..=0x0027 => Register::Route(link_in(address - 0x0020)),
        0x0028..=0x007F => Register::Unknown,
        0x0080..=0x0087 => Register::State(link_in(address - 0x0080)),
        0x0088..=0xFFFF => Register::Unknown,
    }
}

pub fn is_known(r: Register) -> bool
    ensures { result ≡ is_known r }
{
    match r {
        Register::Unknown => false,
        Register::Width => true,
        Register::Number => true,
        Register::LowDirections => true,
        Register::HighDirections => true,
        Register::Route(_) => true,
        Register::State(_) => true,
    }
}

// Short headers read 1.
fn read_width(st: &[u32], slot: Slot) -> u32
    ensures { result ≡ read_of (view st.now) slot.0 Width }
{
    let k = Node::at(st, slot, 0);
    if k.width == 1 {
        return 1;
    }
    0
}

// What a register reads: what it lacks is 0, and so is HELLO.
pub fn read(st: &[u32], slot: Slot, r: Register) -> u32
    ensures { result ≡ read_of (view st.now) slot.0 r }
{
    match r {
        Register::Unknown => 0,
        Register::Width => read_width(st, slot),
        Register::Number => {
            let k = Node::at(st, slot, 0);
            k.number
        }
        Register::LowDirections => {
            let k = Node::at(st, slot, 0);
            k.directions.first
        }
        Register::HighDirections => {
            let k = Node::at(st, slot, 0);
            k.directions.second
        }
        Register::Route(l) => {
            let k = Link::at(st, slot, l);
            k.setup.direction % 16 * 0x0100 + k.setup.network % 4 * 0x0010
        }
        Register::State(l) => {
            let k = Link::at(st, slot, l);
            k.setup.enabled % 2 * 0x8000_0000
        }
    }
}
