// Output (document 01, "Calls"): what is to be done is planned, then carried out.
ghost use Rattle.std.specs.Prelude.{◌≡◌, ◌<◌};
ghost use Rattle.names.specs.Size.{ports, ends};
ghost use Rattle.answers.specs.Out.{out, attempt};
ghost use Rattle.answers.specs.Answered.{Done};
ghost use Rattle.acts.specs.Acts.{pushed, pushed_all};
ghost use Rattle.acts.specs.Needs.{Room, Given};
ghost use Rattle.tokens.specs.Header.{words};
ghost use Rattle.cells.specs.View.{view};
ghost use Rattle.cells.specs.World.{world};
ghost use Rattle.ends.specs.Plan.{target_of, destination_of};
ghost use Rattle.ends.specs.Needs.{AimFits, Fits, OutputPossible, SoundBy, Sends};
ghost use Rattle.ends.specs.Output.{word_of, is_unit, token_checked, goes_by, opens_by, goes_behind};
ghost use Rattle.ends.specs.Output.{goes_straight, output_performed, plan_rows, send_rows, token_sent, output};

use crate::plan::{Plan, plan_of};
use crate::{Token, end_at};
use acts::circuit::claim;
use acts::{give, push, push_header, set_network, set_sender, set_sending, still, width_at};
use answers::Answer;
use cells::end::{Aim, End};
use cells::record::Record;
use circuits::Peer;
use names::no::No;
use names::{NodeNumber, Slot};
use tokens::control::check_output;
use tokens::header::{Header, Target, make_header};
use tokens::word::{of_control, of_data};

fn target_of(k: Aim) -> Target
    requires { AimFits k }
    ensures { result ≡ target_of k }
{
    let n = NodeNumber(k.number as u16);
    if k.kind == 1 {
        return Target::Channel(n, k.channel as u8);
    }
    Target::Unit(n)
}

// A channel-end's destination, if it is aimed.
fn destination_of(k: Aim) -> Option<Target>
    requires { Fits k }
    ensures { result ≡ destination_of k }
{
    if k.kind == 0 {
        return None;
    }
    Some(target_of(k))
}

fn word_of(x: Token) -> u16
    ensures { result ≡ word_of x }
{
    match x {
        Token::Data(v) => of_data(v),
        Token::Control(v) => of_control(v),
    }
}

fn is_unit(g: Target) -> bool
    ensures { result ≡ is_unit g }
{
    match g {
        Target::Channel(_, _) => false,
        Target::Unit(_) => true,
    }
}

// Whether a token is refused towards a destination.
fn check_token(x: Token, g: Target) -> Result<(), No>
    ensures { result ≡ token_checked x g }
{
    match x {
        Token::Data(_) => Ok(()),
        Token::Control(v) => check_output(v, is_unit(g)),
    }
}

// The circuit of channel-end c goes by port p, until this word closes it.
fn go_by(st: &mut [u32], slot: Slot, c: usize, p: usize, word: u16)
    requires { (slot.0 < (view st.old).nodes) × (c < ends) × (p < ports) }
    ensures { view st.new ≡ goes_by (view st.old) slot.0 c p word }
{
    set_sender(st, slot, p, still(word, Peer::End(c as u32)));
    set_sending(st, slot, c, still(word, Peer::Port(p as u32)));
}

// Header and token into the port that is taken.
fn fill(st: &mut [u32], mem: &mut [u16], slot: Slot, p: usize, h: Header, word: u16)
    requires { Room (world st.old mem.old) slot.0 p 4 }
    ensures { world st.new mem.new
        ≡ pushed (pushed_all (world st.old mem.old) slot.0 p (words h)) slot.0 p word }
{
    push_header(st, mem, slot, p, h);
    push(st, mem, slot, p, word);
}

// "the lowest free port 8..11 is taken and receives header and token"
fn open_by(st: &mut [u32], mem: &mut [u16], slot: Slot, c: usize, g: Target, p: usize, word: u16)
    requires { (c < ends) × Room (world st.old mem.old) slot.0 p 4 }
    ensures { world st.new mem.new
        ≡ opens_by (world st.old mem.old) slot.0 c g p word }
{
    let k = End::at(st, slot, c);
    let h = make_header(g, width_at(st, slot));
    fill(st, mem, slot, p, h, word);
    set_network(st, slot, p, k.aim.network);
    go_by(st, slot, c, p, word);
}

// Behind the circuit's tokens in its port.
fn go_behind(st: &mut [u32], mem: &mut [u16], slot: Slot, c: usize, p: usize, word: u16)
    requires { (c < ends) × Room (world st.old mem.old) slot.0 p 1 }
    ensures { world st.new mem.new
        ≡ goes_behind (world st.old mem.old) slot.0 c p word }
{
    push(st, mem, slot, p, word);
    go_by(st, slot, c, p, word);
}

// Straight to channel d, which is claimed until this word closes the circuit.
fn go_straight(st: &mut [u32], slot: Slot, c: usize, d: usize, word: u16)
    requires { (slot.0 < (view st.old).nodes) × (c < ends) × Given (view st.old) slot.0 d word }
    ensures { view st.new ≡ goes_straight (view st.old) slot.0 c d word }
{
    give(st, slot, d, word);
    claim(st, slot, d, still(word, Peer::End(c as u32)));
    set_sending(st, slot, c, still(word, Peer::End(d as u32)));
}

// A plan carried out.
fn carry(
    st: &mut [u32],
    mem: &mut [u16],
    slot: Slot,
    c: usize,
    g: Target,
    word: u16,
    plan: Plan,
) -> Result<Answer, No>
    requires { (slot.0 < (view st.old).nodes) × (c < ends) × OutputPossible (world st.old mem.old) slot.0 word plan }
    ensures { out result (world st.new mem.new)
        ≡ attempt (plan_rows plan) (world st.old mem.old)
        (out Done (output_performed (world st.old mem.old) slot.0 c g word plan)) }
{
    match plan {
        Plan::Narrow => return Err(No::Narrow),
        Plan::Full => return Err(No::Full),
        Plan::Opens(p) => open_by(st, mem, slot, c, g, p, word),
        Plan::Behind(p) => go_behind(st, mem, slot, c, p, word),
        Plan::Straight(d) => go_straight(st, slot, c, d, word),
    }
    Ok(Answer::Done)
}

// A token towards a destination.
fn send(
    st: &mut [u32],
    mem: &mut [u16],
    slot: Slot,
    c: usize,
    g: Target,
    x: Token,
) -> Result<Answer, No>
    requires { Sends (world st.old mem.old) slot.0 c g }
    ensures { out result (world st.new mem.new)
        ≡ attempt (send_rows (view st.old) slot.0 c g x) (world st.old mem.old)
        (out Done (token_sent (world st.old mem.old) slot.0 c g x)) }
{
    check_token(x, g)?;
    let word = word_of(x);
    let plan = plan_of(st, slot, c, g, word);
    carry(st, mem, slot, c, g, word, plan)
}

// Output, whole: refused by its number with nothing changed, or done.
pub fn output(st: &mut [u32], mem: &mut [u16], slot: Slot, c: usize, x: Token) -> Result<Answer, No>
    requires { SoundBy (world st.old mem.old) }
    ensures { out result (world st.new mem.new)
        ≡ output (world st.old mem.old) slot.0 c x }
{
    if !end_at(st, slot, c) {
        return Err(No::NoSuch);
    }
    let k = End::at(st, slot, c);
    let Some(g) = destination_of(k.aim) else {
        return Err(No::Unaimed);
    };
    send(st, mem, slot, c, g, x)
}
