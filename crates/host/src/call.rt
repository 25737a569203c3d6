// The calls. Each answers one number, and leaves the memories as the call of crate bench does.
ghost use Rattle.std.specs.Prelude.{◌≡◌};
ghost use Rattle.settings.specs.declared.Setting.TheVariants.{Number, Width, Direction, LinkDirection, Network, Enable, Hello};
ghost use Rattle.ends.specs.declared.aim.Goal.TheVariants as Goals;
ghost use Rattle.ends.specs.declared.Token.TheVariants as Tokens;
ghost use Rattle.ends.specs.declared.Wanted.TheVariants as Wants;
ghost use Rattle.cells.specs.World.{lent};
ghost use Rattle.fresh.specs.declared.Start.TheVariants.{Fresh, Blank};
ghost use Rattle.bench.specs.Calls.{apply, Begin, Wire, Set, Aim, Output, Input, Step, Line};
ghost use Rattle.host.specs.Crossed.{crossing, crossed, slot};

use answers::answer_number;
use bench::{aim, blank, fresh, input, line, output, set, step, wire};
use ends::aim::Goal;
use ends::{Token, Wanted};
use names::Slot;
use settings::Setting;

#[unsafe(no_mangle)]
pub extern "C" fn tarvelgyo_fresh(
    st: &mut [u32],
    mem: &mut [u16],
    ls: &mut [u16],
    nodes: usize,
) -> u64
    ensures { crossing result (lent st.new mem.new ls.new) ≡ crossed (apply (lent st.old mem.old ls.old) (Begin Fresh nodes)) }
{
    answer_number(fresh(st, mem, ls, nodes))
}

#[unsafe(no_mangle)]
pub extern "C" fn tarvelgyo_blank(
    st: &mut [u32],
    mem: &mut [u16],
    ls: &mut [u16],
    nodes: usize,
) -> u64
    ensures { crossing result (lent st.new mem.new ls.new) ≡ crossed (apply (lent st.old mem.old ls.old) (Begin Blank nodes)) }
{
    answer_number(blank(st, mem, ls, nodes))
}

// A cable between link l of slot a and link k of slot b.
#[unsafe(no_mangle)]
pub extern "C" fn tarvelgyo_wire(
    st: &mut [u32],
    mem: &[u16],
    ls: &[u16],
    a: usize,
    l: usize,
    b: usize,
    k: usize,
) -> u64
    ensures { crossing result (lent st.new mem.now ls.now) ≡ crossed (apply (lent st.old mem.now ls.now) (Wire (slot a) l (slot b) k)) }
{
    answer_number(wire(st, mem, ls, Slot(a), l, Slot(b), k))
}

#[unsafe(no_mangle)]
pub extern "C" fn tarvelgyo_set_number(
    st: &mut [u32],
    mem: &[u16],
    ls: &mut [u16],
    n: usize,
    value: u32,
) -> u64
    ensures { crossing result (lent st.new mem.now ls.new) ≡ crossed (apply (lent st.old mem.now ls.old) (Set (slot n) (Number value))) }
{
    answer_number(set(st, mem, ls, Slot(n), Setting::Number(value)))
}

#[unsafe(no_mangle)]
pub extern "C" fn tarvelgyo_set_width(
    st: &mut [u32],
    mem: &[u16],
    ls: &mut [u16],
    n: usize,
    value: u32,
) -> u64
    ensures { crossing result (lent st.new mem.now ls.new) ≡ crossed (apply (lent st.old mem.now ls.old) (Set (slot n) (Width value))) }
{
    answer_number(set(st, mem, ls, Slot(n), Setting::Width(value)))
}

#[unsafe(no_mangle)]
pub extern "C" fn tarvelgyo_set_direction(
    st: &mut [u32],
    mem: &[u16],
    ls: &mut [u16],
    n: usize,
    bit: u32,
    value: u32,
) -> u64
    ensures { crossing result (lent st.new mem.now ls.new) ≡ crossed (apply (lent st.old mem.now ls.old) (Set (slot n) (Direction bit value))) }
{
    answer_number(set(st, mem, ls, Slot(n), Setting::Direction(bit, value)))
}

#[unsafe(no_mangle)]
pub extern "C" fn tarvelgyo_set_link_direction(
    st: &mut [u32],
    mem: &[u16],
    ls: &mut [u16],
    n: usize,
    l: usize,
    value: u32,
) -> u64
    ensures { crossing result (lent st.new mem.now ls.new) ≡ crossed (apply (lent st.old mem.now ls.old) (Set (slot n) (LinkDirection l value))) }
{
    answer_number(set(st, mem, ls, Slot(n), Setting::LinkDirection(l, value)))
}

#[unsafe(no_mangle)]
pub extern "C" fn tarvelgyo_set_network(
    st: &mut [u32],
    mem: &[u16],
    ls: &mut [u16],
    n: usize,
    l: usize,
    value: u32,
) -> u64
    ensures { crossing result (lent st.new mem.now ls.new) ≡ crossed (apply (lent st.old mem.now ls.old) (Set (slot n) (Network l value))) }
{
    answer_number(set(st, mem, ls, Slot(n), Setting::Network(l, value)))
}

#[unsafe(no_mangle)]
pub extern "C" fn tarvelgyo_set_enable(
    st: &mut [u32],
    mem: &[u16],
    ls: &mut [u16],
    n: usize,
    l: usize,
    value: u32,
) -> u64
    ensures { crossing result (lent st.new mem.now ls.new) ≡ crossed (apply (lent st.old mem.now ls.old) (Set (slot n) (Enable l value))) }
{
    answer_number(set(st, mem, ls, Slot(n), Setting::Enable(l, value)))
}

#[unsafe(no_mangle)]
pub extern "C" fn tarvelgyo_hello(
    st: &mut [u32],
    mem: &[u16],
    ls: &mut [u16],
    n: usize,
    l: usize,
) -> u64
    ensures { crossing result (lent st.new mem.now ls.new) ≡ crossed (apply (lent st.old mem.now ls.old) (Set (slot n) (Hello l))) }
{
    answer_number(set(st, mem, ls, Slot(n), Setting::Hello(l)))
}

// A channel-end aimed at a channel, 0..31 or 255, of a number.
#[unsafe(no_mangle)]
pub extern "C" fn tarvelgyo_aim_channel(
    st: &mut [u32],
    mem: &[u16],
    ls: &[u16],
    n: usize,
    c: usize,
    number: u32,
    channel: u32,
    network: u32,
) -> u64
    ensures { crossing result (lent st.new mem.now ls.now) ≡ crossed (apply (lent st.old mem.now ls.now) (Aim (slot n) c (Goals.Channel number channel) network)) }
{
    answer_number(aim(
        st,
        mem,
        ls,
        Slot(n),
        c,
        Goal::Channel(number, channel),
        network,
    ))
}

// A channel-end aimed at a number's control unit.
#[unsafe(no_mangle)]
pub extern "C" fn tarvelgyo_aim_unit(
    st: &mut [u32],
    mem: &[u16],
    ls: &[u16],
    n: usize,
    c: usize,
    number: u32,
    network: u32,
) -> u64
    ensures { crossing result (lent st.new mem.now ls.now) ≡ crossed (apply (lent st.old mem.now ls.now) (Aim (slot n) c (Goals.Unit number) network)) }
{
    answer_number(aim(st, mem, ls, Slot(n), c, Goal::Unit(number), network))
}

#[unsafe(no_mangle)]
pub extern "C" fn tarvelgyo_output_data(
    st: &mut [u32],
    mem: &mut [u16],
    ls: &[u16],
    n: usize,
    c: usize,
    value: u8,
) -> u64
    ensures { crossing result (lent st.new mem.new ls.now) ≡ crossed (apply (lent st.old mem.old ls.now) (Output (slot n) c (Tokens.Data value))) }
{
    answer_number(output(st, mem, ls, Slot(n), c, Token::Data(value)))
}

#[unsafe(no_mangle)]
pub extern "C" fn tarvelgyo_output_control(
    st: &mut [u32],
    mem: &mut [u16],
    ls: &[u16],
    n: usize,
    c: usize,
    value: u8,
) -> u64
    ensures { crossing result (lent st.new mem.new ls.now) ≡ crossed (apply (lent st.old mem.old ls.now) (Output (slot n) c (Tokens.Control value))) }
{
    answer_number(output(st, mem, ls, Slot(n), c, Token::Control(value)))
}

#[unsafe(no_mangle)]
pub extern "C" fn tarvelgyo_input_data(
    st: &mut [u32],
    mem: &[u16],
    ls: &[u16],
    n: usize,
    c: usize,
) -> u64
    ensures { crossing result (lent st.new mem.now ls.now) ≡ crossed (apply (lent st.old mem.now ls.now) (Input (slot n) c Wants.Data)) }
{
    answer_number(input(st, mem, ls, Slot(n), c, Wanted::Data))
}

#[unsafe(no_mangle)]
pub extern "C" fn tarvelgyo_input_control(
    st: &mut [u32],
    mem: &[u16],
    ls: &[u16],
    n: usize,
    c: usize,
) -> u64
    ensures { crossing result (lent st.new mem.now ls.now) ≡ crossed (apply (lent st.old mem.now ls.now) (Input (slot n) c Wants.Control)) }
{
    answer_number(input(st, mem, ls, Slot(n), c, Wanted::Control))
}

// One Step of port p of slot n.
#[unsafe(no_mangle)]
pub extern "C" fn tarvelgyo_step(
    st: &mut [u32],
    mem: &mut [u16],
    ls: &mut [u16],
    n: usize,
    p: usize,
) -> u64
    ensures { crossing result (lent st.new mem.new ls.new) ≡ crossed (apply (lent st.old mem.old ls.old) (Step (slot n) p)) }
{
    answer_number(step(st, mem, ls, Slot(n), p))
}

// One off the far end of the line that starts at link l of slot n.
#[unsafe(no_mangle)]
pub extern "C" fn tarvelgyo_line_step(
    st: &mut [u32],
    mem: &mut [u16],
    ls: &mut [u16],
    n: usize,
    l: usize,
) -> u64
    ensures { crossing result (lent st.new mem.new ls.new) ≡ crossed (apply (lent st.old mem.old ls.old) (Line (slot n) l)) }
{
    answer_number(line(st, mem, ls, Slot(n), l))
}
