// A write to a register: its fields are tried as Sets, and all are made or none. What would refuse a later
// field is looked at before an earlier one is made, so that nothing has to be undone.
ghost use Rattle.std.specs.Prelude.{◌≡◌, [], ◌∷◌, ◌%◌, ◌<◌, ◌≤◌, eqb};
ghost use Rattle.laws.specs.Pick.{pick};
ghost use Rattle.cells.specs.View.{view};
ghost use Rattle.cells.specs.World.{lined};
ghost use Rattle.settings.specs.Set.{set_call};
ghost use Rattle.settings.specs.Needs.{Settled};
ghost use Rattle.messages.specs.Register.{entries_of, fields_of};
ghost use Rattle.messages.specs.declared.register.Register.TheVariants.{Route, State};
ghost use Rattle.messages.specs.Write.{passes_set, accepted, written};

use crate::register::Register;
use names::Slot;
use routing::direction::field;
use settings::refused::{cable_signalled, check_set};
use settings::{Setting, set};

// One Set: whether it was made.
fn tried(st: &mut [u32], ls: &mut [u16], slot: Slot, x: Setting) -> bool
    requires { Settled (lined st.old ls.old) }
    ensures { (result ≡ passes_set (lined st.old ls.old) slot.0 x)
        × (lined st.new ls.new ≡ (set_call (lined st.old ls.old) slot.0 x).next) }
{
    set(st, ls, slot, x).is_ok()
}

// A register with one field.
fn write_one(st: &mut [u32], ls: &mut [u16], slot: Slot, x: Setting) -> bool
    requires { Settled (lined st.old ls.old) }
    ensures { (result ≡ accepted (lined st.old ls.old) slot.0 (x ∷ []))
        × (lined st.new ls.new ≡ written (lined st.old ls.old) slot.0 (x ∷ [])) }
{
    tried(st, ls, slot, x)
}

// Eight direction entries, from this bit on: none of these Sets is refused.
fn write_directions(st: &mut [u32], ls: &mut [u16], slot: Slot, bit: u32, v: u32) -> bool
    requires { (slot.0 < (view st.old).nodes) × (bit ≤ 8) × Settled (lined st.old ls.old) }
    ensures { (result ≡ accepted (lined st.old ls.old) slot.0 (entries_of bit v))
        × (lined st.new ls.new ≡ written (lined st.old ls.old) slot.0 (entries_of bit v)) }
{
    for i in 0..8 {
        tried(st, ls, slot, Setting::Direction(bit + i, field(v, i)));
    }
    true
}

// A link's direction, which stays as it was where its network is refused.
fn write_route(st: &mut [u32], ls: &mut [u16], slot: Slot, l: usize, v: u32) -> bool
    requires { Settled (lined st.old ls.old) }
    ensures { (result ≡ accepted (lined st.old ls.old) slot.0 (fields_of (Route l) v))
        × (lined st.new ls.new ≡ written (lined st.old ls.old) slot.0 (fields_of (Route l) v)) }
{
    let network = Setting::Network(l, v / 0x0010 % 4);
    if check_set(st, ls, slot, network).is_err() {
        return false;
    }
    tried(st, ls, slot, Setting::LinkDirection(l, v / 0x0100 % 16));
    tried(st, ls, slot, network)
}

// A link enabled or disabled, and HELLO, which is refused on a link that the same write disables, and while a credit or a HELLO is on a line
// of its cable.
fn write_state(st: &mut [u32], ls: &mut [u16], slot: Slot, l: usize, v: u32) -> bool
    requires { Settled (lined st.old ls.old) }
    ensures { (result ≡ accepted (lined st.old ls.old) slot.0 (fields_of (State l) v))
        × (lined st.new ls.new ≡ written (lined st.old ls.old) slot.0 (fields_of (State l) v)) }
{
    let enable = v / 0x8000_0000 % 2;
    let hello = v / 0x0100_0000 % 2;
    if hello == 0 {
        return write_one(st, ls, slot, Setting::Enable(l, enable));
    }
    if enable == 0 {
        return false;
    }
    if check_set(st, ls, slot, Setting::Enable(l, enable)).is_err() {
        return false;
    }
    if cable_signalled(st, ls, slot, l) {
        return false;
    }
    tried(st, ls, slot, Setting::Enable(l, enable));
    tried(st, ls, slot, Setting::Hello(l))
}

// Short headers are one byte wide.
fn width_in(v: u32) -> u32
    ensures { result ≡ pick (eqb (v % 2) 1) 1 3 }
{
    if v % 2 == 1 {
        return 1;
    }
    3
}

// A write, whole or not at all: whether it was accepted.
pub fn write(st: &mut [u32], ls: &mut [u16], slot: Slot, r: Register, v: u32) -> bool
    requires { (slot.0 < (view st.old).nodes) × Settled (lined st.old ls.old) }
    ensures { (result ≡ accepted (lined st.old ls.old) slot.0 (fields_of r v))
        × (lined st.new ls.new ≡ written (lined st.old ls.old) slot.0 (fields_of r v)) }
{
    match r {
        Register::Unknown => true,
        Register::Width => write_one(st, ls, slot, Setting::Width(width_in(v))),
        Register::Number => write_one(st, ls, slot, Setting::Number(v % 0x0001_0000)),
        Register::LowDirections => write_directions(st, ls, slot, 0, v),
        Register::HighDirections => write_directions(st, ls, slot, 8, v),
        Register::Route(l) => write_route(st, ls, slot, l, v),
        Register::State(l) => write_state(st, ls, slot, l, v),
    }
}
