// What comes of a call that is not refused: a call answers this or the name by which it is refused, with nothing changed. One type serves
// all calls: a list of calls has then a list of answers, and there is one number for an answer wherever words are lent for it.
#![tactic(auto)]

ghost use Rattle.std.specs.Prelude.{◌≡◌};
ghost use Rattle.answers.specs.Answer.{case_of, cause_of, answer_value, packed, answer_number};

use circuits::Cause;
use names::no::No;

#[derive(Clone, Copy)]
pub enum Answer {
    // Fresh, Wire, Set (but for HELLO), Aim and Output
    Done,
    // "The answer to HELLO gives the grant."
    Granted(u32),
    // Input: the value of the token
    Token(u8),
    // Step, and so are all below: nothing is held
    Idle,
    // nothing can be done now
    Waiting,
    // one token moved, was handed or was heard
    Moved,
    // a circuit opened outward, by this link
    OpenedLink(u32),
    // .. to a channel of this node
    OpenedChannel,
    // .. to this node's control unit
    OpenedUnit,
    // a circuit was refused: this speaks of the circuit and not of the call
    Refused(Cause),
    // one token of a refused circuit was dropped
    Dropped(Cause),
    // a message ended that has no known reply address, or by PAUSE: it is not replied to
    Malformed,
    // a message was obeyed, and the node's width can't carry its reply
    Unheard,
    // a line's step took one off, and it brought this grant (document 02, Ask 4: "Moved, with any grant")
    Arrived(u32),
}

// Which case an answer is.
pub fn case_of(a: Result<Answer, No>) -> u32
    ensures { result ≡ case_of a }
{
    match a {
        Err(_) => 0,
        Ok(Answer::Done) => 1,
        Ok(Answer::Granted(_)) => 2,
        Ok(Answer::Token(_)) => 3,
        Ok(Answer::Idle) => 4,
        Ok(Answer::Waiting) => 5,
        Ok(Answer::Moved) => 6,
        Ok(Answer::OpenedLink(_)) => 7,
        Ok(Answer::OpenedChannel) => 8,
        Ok(Answer::OpenedUnit) => 9,
        Ok(Answer::Refused(_)) => 10,
        Ok(Answer::Dropped(_)) => 11,
        Ok(Answer::Malformed) => 12,
        Ok(Answer::Unheard) => 13,
        Ok(Answer::Arrived(_)) => 14,
    }
}

// No From: the numbers are the host's, of `cause_of` in specs/Answer.antt, and `Cause` stands in a crate below.
fn cause_of(c: Cause) -> u32
    ensures { result ≡ cause_of c }
{
    match c {
        Cause::Split => 0,
        Cause::NoRoute => 1,
    }
}

// The number that its case bears.
pub fn value_of(a: Result<Answer, No>) -> u32
    ensures { result ≡ answer_value a }
{
    match a {
        Err(no) => no.number() as u32,
        Ok(Answer::Done) => 0,
        Ok(Answer::Granted(credit)) => credit,
        Ok(Answer::Token(value)) => value as u32,
        Ok(Answer::Idle) => 0,
        Ok(Answer::Waiting) => 0,
        Ok(Answer::Moved) => 0,
        Ok(Answer::OpenedLink(l)) => l,
        Ok(Answer::OpenedChannel) => 0,
        Ok(Answer::OpenedUnit) => 0,
        Ok(Answer::Refused(c)) => cause_of(c),
        Ok(Answer::Dropped(c)) => cause_of(c),
        Ok(Answer::Malformed) => 0,
        Ok(Answer::Unheard) => 0,
        Ok(Answer::Arrived(credit)) => credit,
    }
}

// A case and the number that it bears, as one.
pub fn packed(case: u32, value: u32) -> u64
    ensures { result ≡ packed case value }
{
    case as u64 * 0x1_0000_0000 + value as u64
}

// The whole answer as one number.
pub fn answer_number(a: Result<Answer, No>) -> u64
    ensures { result ≡ answer_number a }
{
    packed(case_of(a), value_of(a))
}
