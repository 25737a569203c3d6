// Where a walk over a port's tokens is, and where the next token takes it.
ghost use Rattle.std.specs.Prelude.{◌≡◌};
ghost use Rattle.laws.specs.Pick.{pick};
ghost use Rattle.tokens.specs.Shape.{shape_of};
ghost use Rattle.tokens.specs.Shape as S;
ghost use Rattle.grammar.specs.Stage.{of_one, is_byte, is_last, of_three, next_stage, due, crossed};
ghost use Rattle.grammar.specs.declared.stage.Stage.TheVariants.{Bad, Fresh, Body};

#[derive(Clone, Copy, PartialEq, Eq)]
pub enum Stage {
    // a rule was broken: a stage as the others, of which `next` answers too, and so no Option
    Bad,
    // between circuits: nothing comes next, or a header
    Fresh,
    // past a header: tokens up to END or PAUSE
    Body,
    // a one-byte header that is still to be sent
    OneDue,
    // all three tokens of a three-byte header
    ThreeDue,
    // two of them
    TwoDue,
    // the last: a channel, or SSCTRL
    LastDue,
}

// A one-byte header.
pub fn of_one(word: u16) -> bool
    ensures { result ≡ of_one (shape_of word) }
{
    matches!(word, 0x0200..=0x02FF)
}

// A byte of a three-byte header.
fn is_byte(word: u16) -> bool
    ensures { result ≡ is_byte (shape_of word) }
{
    matches!(word, 0x0600..=0x06FF)
}

// What may be the last token of one: a channel, or SSCTRL.
fn is_last(word: u16) -> bool
    ensures { result ≡ is_last (shape_of word) }
{
    // range by range: with `matches!` over these three the proof did not close
    match word {
        0x0000..=0x05FF => false,
        0x0600..=0x061F => true,
        0x0620..=0x06FE => false,
        0x06FF => true,
        0x0700..=0x07C2 => false,
        0x07C3 => true,
        0x07C4..=0xFFFF => false,
    }
}

// A token of a three-byte header.
pub fn of_three(word: u16) -> bool
    ensures { result ≡ of_three (shape_of word) }
{
    is_byte(word) | is_last(word)
}

// Plain data stands past a header and nowhere else.
fn plain_next(s: Stage) -> Stage
    ensures { result ≡ next_stage s S.Body }
{
    match s {
        Stage::Bad => Stage::Bad,
        Stage::Fresh => Stage::Bad,
        Stage::Body => Stage::Body,
        Stage::OneDue => Stage::Bad,
        Stage::ThreeDue => Stage::Bad,
        Stage::TwoDue => Stage::Bad,
        Stage::LastDue => Stage::Bad,
    }
}

#[tactic(auto, using(crate::proofs::Nexts::breaks, crate::proofs::Nexts::closed, tokens::proofs::Words::open_word, crate::proofs::Nexts::stays))]
fn body_next(word: u16) -> Stage
    ensures { result ≡ next_stage Body (shape_of word) }
{
    match word {
        0x0000..=0x0100 => Stage::Body,
        0x0101..=0x0102 => Stage::Fresh,
        0x0103..=0x01C1 => Stage::Body,
        0x01C2..=0xFFFF => Stage::Bad,
    }
}

fn fresh_next(word: u16) -> Stage
    ensures { result ≡ next_stage Fresh (shape_of word) }
{
    if of_one(word) {
        return Stage::Body;
    }
    only(is_byte(word), Stage::TwoDue)
}

// One kind of token may come.
fn only(comes: bool, to: Stage) -> Stage
    ensures { result ≡ pick comes to Bad }
{
    if comes {
        return to;
    }
    Stage::Bad
}

// Where the next word takes a walk: it need not be given a shape first. Most words are plain data.
#[tactic(auto, using(crate::proofs::Nexts::plain))]
pub fn next(s: Stage, word: u16) -> Stage
    ensures { result ≡ next_stage s (shape_of word) }
{
    if word <= 0x0100 {
        return plain_next(s);
    }
    match s {
        Stage::Bad => Stage::Bad,
        Stage::Fresh => fresh_next(word),
        Stage::Body => body_next(word),
        Stage::OneDue => only(of_one(word), Stage::Body),
        Stage::ThreeDue => only(is_byte(word), Stage::TwoDue),
        Stage::TwoDue => only(is_byte(word), Stage::LastDue),
        Stage::LastDue => only(is_last(word), Stage::Body),
    }
}

// Where a circuit is with so many tokens of a three-byte header at its front; one tells whether it
// begins with a one-byte header.
pub fn due(threes: u32, one: bool) -> Stage
    ensures { result ≡ due threes one }
{
    match threes {
        0 => {
            if one {
                return Stage::OneDue;
            }
            Stage::Body
        }
        1 => Stage::LastDue,
        2 => Stage::TwoDue,
        3 => Stage::ThreeDue,
        _ => Stage::Bad,
    }
}

// What the far end of a cable has seen of a circuit that stands here: of a header of which nothing
// has left yet, nothing.
pub fn crossed(s: Stage) -> Stage
    ensures { result ≡ crossed s }
{
    match s {
        Stage::Bad => Stage::Bad,
        Stage::Fresh => Stage::Fresh,
        Stage::Body => Stage::Body,
        Stage::OneDue => Stage::Fresh,
        Stage::ThreeDue => Stage::Fresh,
        Stage::TwoDue => Stage::TwoDue,
        Stage::LastDue => Stage::LastDue,
    }
}
