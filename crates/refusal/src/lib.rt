// What a check, a move or the reading of a text answers: how many bytes it wrote out, and that it is done or why it is refused.
#![tactic(auto)]

ghost use Rattle.std.specs.Prelude.{◌≡◌};
ghost use Rattle.refusal.specs.Refusal.{number_of, place_of, outcome_number, outcome_place, done_with, refused_by};

// The kinds of refusal in the papers' order. A place in a file or text is a byte's, a row is counted from 0 in its section.
#[derive(Clone, Copy, PartialEq, Eq, Debug)]
pub enum Refusal {
    BufferSize,
    FileLayout,
    SectionCount,
    BrokenField(usize),
    TooLarge(usize),
    WrongOperation(u16),
    PathNotFirm(u16),
    OperandType(u16),
    TypeMisfit(u16),
    EnvironmentsDiffer(u16),
    SharedRoot(u16),
    EnvironmentTooLarge(u16),
    OutputMismatch(u16),
    NoState,
    MoveNotAllowed,
    QueueFull,
    NoMessage,
    Stuck,
    MessageMisfit,
    UnknownByte(usize),
    BrokenText(usize),
    OutOfRange,
    UnfitKey(u16),
}

#[derive(Clone, Copy)]
pub struct Outcome {
    pub bytes: usize,
    pub verdict: Result<(), Refusal>,
}

pub fn done(bytes: usize) -> Outcome
    ensures { result ≡ done_with bytes }
{
    Outcome {
        bytes,
        verdict: Ok(()),
    }
}

pub fn refused(why: Refusal) -> Outcome
    ensures { result ≡ refused_by why }
{
    Outcome {
        bytes: 0,
        verdict: Err(why),
    }
}

pub fn number_of(why: Refusal) -> u8
    ensures { result ≡ number_of why }
{
    match why {
        Refusal::BufferSize => 1,
        Refusal::FileLayout => 2,
        Refusal::SectionCount => 3,
        Refusal::BrokenField(_) => 4,
        Refusal::TooLarge(_) => 5,
        Refusal::WrongOperation(_) => 6,
        Refusal::PathNotFirm(_) => 7,
        Refusal::OperandType(_) => 8,
        Refusal::TypeMisfit(_) => 9,
        Refusal::EnvironmentsDiffer(_) => 10,
        Refusal::SharedRoot(_) => 11,
        Refusal::EnvironmentTooLarge(_) => 12,
        Refusal::OutputMismatch(_) => 13,
        Refusal::NoState => 14,
        Refusal::MoveNotAllowed => 15,
        Refusal::QueueFull => 16,
        Refusal::NoMessage => 17,
        Refusal::Stuck => 18,
        Refusal::MessageMisfit => 19,
        Refusal::UnknownByte(_) => 20,
        Refusal::BrokenText(_) => 21,
        Refusal::OutOfRange => 22,
        Refusal::UnfitKey(_) => 23,
    }
}

pub fn place_of(why: Refusal) -> usize
    ensures { result ≡ place_of why }
{
    match why {
        Refusal::BrokenField(at)
        | Refusal::TooLarge(at)
        | Refusal::UnknownByte(at)
        | Refusal::BrokenText(at) => at,
        Refusal::WrongOperation(row)
        | Refusal::PathNotFirm(row)
        | Refusal::OperandType(row)
        | Refusal::TypeMisfit(row)
        | Refusal::EnvironmentsDiffer(row)
        | Refusal::SharedRoot(row)
        | Refusal::EnvironmentTooLarge(row)
        | Refusal::OutputMismatch(row)
        | Refusal::UnfitKey(row) => usize::from(row),
        Refusal::BufferSize
        | Refusal::FileLayout
        | Refusal::SectionCount
        | Refusal::NoState
        | Refusal::MoveNotAllowed
        | Refusal::QueueFull
        | Refusal::NoMessage
        | Refusal::Stuck
        | Refusal::MessageMisfit
        | Refusal::OutOfRange => 0,
    }
}

pub fn number(answer: Outcome) -> u8
    ensures { result ≡ outcome_number answer }
{
    match answer.verdict {
        Ok(()) => 0,
        Err(why) => number_of(why),
    }
}

pub fn place(answer: Outcome) -> usize
    ensures { result ≡ outcome_place answer }
{
    match answer.verdict {
        Ok(()) => 0,
        Err(why) => place_of(why),
    }
}
