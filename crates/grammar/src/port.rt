// The walk over what a port holds. Callers have its counters from a state whose counts are within
// their limits.
ghost use Rattle.std.specs.Prelude.{◌≡◌, length};
ghost use Rattle.ports.specs.Queue.{capacity, Fair, contents};
ghost use Rattle.grammar.specs.Walk.{walk, threes, begins_one, lead, front_of, stages_of};

use crate::stage::{Stage, due, next, of_one, of_three};
use circuits::Hop;
use ports::words::Words;
use ports::{Counters, PortWords};

fn walk(words: &PortWords, s: Stage) -> Stage
    ensures { result ≡ walk s words.now }
{
    words.iter().fold(s, next)
}

fn threes(words: &PortWords) -> u32
    ensures { result ≡ threes words.now }
{
    words.iter().take_while(|word| of_three(*word)).count() as u32
}

// What shape the token at the front has; a port that holds none has none of a header.
fn begins_one(words: &PortWords) -> bool
    ensures { result ≡ begins_one words.now }
{
    match words.iter().next() {
        Some(word) => of_one(word),
        None => false,
    }
}

// Where a circuit is that is sent on, or dropped, with what is left of its header.
fn lead(words: &PortWords) -> Stage
    ensures { result ≡ lead words.now }
{
    due(threes(words), begins_one(words))
}

fn front(h: Hop, words: &PortWords) -> Stage
    ensures { result ≡ front_of h words.now }
{
    match h {
        Hop::Shut => Stage::Fresh,
        Hop::Out(_) => lead(words),
        Hop::Channel(_, _) => Stage::Body,
        Hop::Unit => Stage::Body,
        Hop::Dropped(_) => lead(words),
    }
}

// Where a port's circuit stands before the first token, and past the last.
#[derive(Clone, Copy)]
pub struct Stages {
    pub front: Stage,
    pub back: Stage,
}

pub fn stages_in(h: Hop, words: &PortWords) -> Stages
    ensures { result ≡ stages_of h words.now }
{
    let at = front(h, words);
    Stages {
        front: at,
        back: walk(words, at),
    }
}

// The same, of a port's own stretch of the token memory, which the caller has cut.
pub fn stages_of(h: Hop, stretch: &[u16], c: Counters) -> Stages
    requires { Fair c × (length stretch.now ≡ capacity) }
    ensures { result ≡ stages_of h (contents c stretch.now) }
{
    stages_in(h, &Words::new(c, stretch))
}
