// A blank network of two nodes, and what is changed in it.
use cells::end::End;
use cells::layout::{LINE_WORDS, STRIDE, TOKEN_WORDS};
use cells::line::Line;
use cells::link::{Cable, Flow, Link};
use cells::node;
use cells::node::Node;
use cells::port::{Leg, Port};
use cells::record::Record;
use cells::tile::Tile;
use cells::unit::Unit;
use circuits::Circuit;
use names::Slot;
use names::size::{LINKS, NODES, PORTS};
use ports::Counters;

pub const WORDS: usize = 2 * STRIDE;

pub const TOKENS: usize = 2 * TOKEN_WORDS;

pub const LINES: usize = 2 * LINE_WORDS;

// One record changed, where there is one.
fn change<R: Record, F: FnOnce(&mut R)>(st: &mut [u32], n: usize, i: usize, edit: F)
    requires { F.IsAlwaysCallable edit }
{
    if n < node::count(st) {
        if i < R::KIND.many {
            R::change(st, Slot(n), i, edit);
        }
    }
}

pub fn set_width(st: &mut [u32], n: usize, width: u32) {
    change(st, n, 0, move |k: &mut Node| k.width = width);
}

// How much is on a line, and what its link has issued.
fn set_line(st: &mut [u32], n: usize, l: usize, held: u32, issued: u32) {
    let ring = Counters { head: 0, held };
    change(st, n, l, move |k: &mut Line| *k = Line { ring, issued });
}

pub fn set_heard(st: &mut [u32], n: usize, heard: u32, token: u32) {
    change(st, n, 0, move |k: &mut Unit| {
        k.hearing.heard = heard;
        k.hearing.tokens[0] = token;
    });
}

pub fn set_serves(st: &mut [u32], n: usize, kind: u32, index: u32) {
    change(
        st,
        n,
        0,
        move |k: &mut Unit| k.serves = Circuit { kind, index },
    );
}

// A link that is wired to link k of slot m.
pub fn set_wired(st: &mut [u32], n: usize, l: usize, m: u32, k: u32) {
    let cable = Cable {
        wired: 1,
        far_slot: m,
        far_link: k,
    };
    change(st, n, l, move |x: &mut Link| x.cable = cable);
}

pub fn set_credit(st: &mut [u32], n: usize, l: usize, enabled: u32, greeted: u32, credit: u32) {
    change(st, n, l, move |k: &mut Link| {
        k.setup.enabled = enabled;
        k.flow = Flow { greeted, credit };
    });
}

pub fn set_user(st: &mut [u32], n: usize, l: usize, kind: u32, index: u32) {
    change(
        st,
        n,
        l,
        move |k: &mut Link| k.user = Circuit { kind, index },
    );
}

pub fn set_tile_user(st: &mut [u32], n: usize, t: usize, kind: u32, index: u32) {
    change(
        st,
        n,
        t,
        move |k: &mut Tile| k.user = Circuit { kind, index },
    );
}

pub fn set_hop(st: &mut [u32], n: usize, p: usize, kind: u32, index: u32, tile: u32) {
    let circuit = Circuit { kind, index };
    change(st, n, p, move |k: &mut Port| k.leg = Leg { circuit, tile });
}

pub fn set_sender(st: &mut [u32], n: usize, p: usize, kind: u32, index: u32) {
    change(
        st,
        n,
        p,
        move |k: &mut Port| k.sender = Circuit { kind, index },
    );
}

pub fn set_claim(st: &mut [u32], n: usize, c: usize, kind: u32, index: u32) {
    change(
        st,
        n,
        c,
        move |k: &mut End| k.claim = Circuit { kind, index },
    );
}

pub fn set_sending(st: &mut [u32], n: usize, c: usize, aim: u32, kind: u32, index: u32) {
    change(st, n, c, move |k: &mut End| {
        k.aim.kind = aim;
        k.sending = Circuit { kind, index };
    });
}

pub fn set_held(st: &mut [u32], n: usize, c: usize, held: u32, token: u32) {
    change(st, n, c, move |k: &mut End| {
        k.buffer.held = held;
        k.buffer.tokens[0] = token;
    });
}

// A word of the token memory, at a place of a port's stretch.
fn set_memory(mem: &mut [u16], n: usize, p: usize, place: usize, word: u16) {
    if n < NODES {
        if p < PORTS {
            if place < Counters::CAPACITY as usize {
                let at = (n * PORTS + p) * Counters::CAPACITY as usize + place;
                if at < mem.len() {
                    mem[at] = word;
                }
            }
        }
    }
}

// A port of slot 1 that holds so many of these words.
pub fn set_words(st: &mut [u32], mem: &mut [u16], p: usize, held: u32, a: u16, b: u16, c: u16) {
    change(st, 1, p, move |k: &mut Port| k.counters.held = held);
    set_memory(mem, 1, p, 0, a);
    set_memory(mem, 1, p, 1, b);
    set_memory(mem, 1, p, 2, c);
}

// A port that holds one word, or none.
pub fn set_word(st: &mut [u32], mem: &mut [u16], n: usize, p: usize, held: u32, word: u16) {
    change(st, n, p, move |k: &mut Port| k.counters.held = held);
    set_memory(mem, n, p, 0, word);
}

// A word of the lines' memory, at a place of a line's stretch.
fn set_line_memory(ls: &mut [u16], n: usize, l: usize, place: usize, word: u16) {
    if n < NODES {
        if l < LINKS {
            if place < lines::CAPACITY as usize {
                let at = (n * LINKS + l) * lines::CAPACITY as usize + place;
                if at < ls.len() {
                    ls[at] = word;
                }
            }
        }
    }
}

// A line that starts at a link of a slot, with one or two words on it, or none.
pub fn set_on(st: &mut [u32], ls: &mut [u16], n: usize, l: usize, held: u32, a: u16, b: u16) {
    let x = Line::at(st, Slot(n), l);
    set_line(st, n, l, held, x.issued);
    set_line_memory(ls, n, l, 0, a);
    set_line_memory(ls, n, l, 1, b);
}

// What a link has issued, with its line as it is.
pub fn set_issued(st: &mut [u32], n: usize, l: usize, issued: u32) {
    let x = Line::at(st, Slot(n), l);
    set_line(st, n, l, x.ring.held, issued);
}

pub fn blank(st: &mut [u32]) {
    set_width(st, 0, 3);
    set_width(st, 1, 3);
}

// Link 0 of slot 0 and link 3 of slot 1, joined and enabled, the first greeted with some credit, which the
// second has issued.
pub fn join(st: &mut [u32], greeted: u32, credit: u32) {
    set_wired(st, 0, 0, 1, 3);
    set_wired(st, 1, 3, 0, 0);
    set_credit(st, 0, 0, 1, greeted, credit);
    set_credit(st, 1, 3, 1, 0, 0);
    set_issued(st, 1, 3, credit);
}
