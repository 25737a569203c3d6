// What the two calls answer: so many words of the buffer were filled, or a refusal, which leaves the buffer as it was.
ghost use Rattle.std.specs.Prelude.{◌≡◌};
ghost use Rattle.probe.specs.Answer.{answer_number, answer_value};

use names::no::No;

#[derive(Clone, Copy)]
pub enum Refusal {
    // the word or the sequence at this place has no form or no meaning
    Bad(usize),
    // the capture ends within a sequence
    Cut,
    // the buffer is too short for the whole result
    NoSuch,
}

// The numbers of Bad and Cut, which the paper does not give.
pub const BAD: u8 = 14;

pub const CUT: u8 = 15;

pub fn number(answer: Result<usize, Refusal>) -> u8
    ensures { result ≡ answer_number answer }
{
    match answer {
        Ok(_) => 0,
        Err(Refusal::Bad(_)) => BAD,
        Err(Refusal::Cut) => CUT,
        Err(Refusal::NoSuch) => No::NoSuch.number(),
    }
}

// The count or the place that an answer bears.
pub fn bears(answer: Result<usize, Refusal>) -> usize
    ensures { result ≡ answer_value answer }
{
    match answer {
        Ok(count) => count,
        Err(Refusal::Bad(place)) => place,
        Err(Refusal::Cut | Refusal::NoSuch) => 0,
    }
}
