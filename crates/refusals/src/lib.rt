// The refusals of the paper's list, each with its number and its place.
#![tactic(auto)]

ghost use Rattle.std.specs.Prelude.{◌≡◌};
ghost use Rattle.refusals.specs.Listed.{number_of, place_of};

// Why the desk says no. What a variant holds is the place: a line, a variable, a step or a length.
#[derive(Clone, Copy, Debug, PartialEq, Eq)]
pub enum Refusal {
    TextTooLong,
    OffForm(u32),
    OutOfRange(u32),
    NotRising(u32),
    ClassMissing(u32),
    SharesAboveCost(u32),
    TooManyStates(u32),
    TableTooShort,
    ValueOutside(u32),
    NoSuchOperator(u32),
    SequenceTooLong,
    MayNotRun(u32),
    NotTheNext(u32),
    OtherOperator(u32),
    RunFull(u32),
    NoGoal(u32),
    NotARun,
    IdleOperator(u32),
    BeyondQuota(u32),
}

// The refusal's number on the paper's list.
pub fn number(r: Refusal) -> u32
    ensures { result ≡ number_of r }
{
    match r {
        Refusal::TextTooLong => 1,
        Refusal::OffForm(_) => 2,
        Refusal::OutOfRange(_) => 3,
        Refusal::NotRising(_) => 4,
        Refusal::ClassMissing(_) => 5,
        Refusal::SharesAboveCost(_) => 6,
        Refusal::TooManyStates(_) => 7,
        Refusal::TableTooShort => 8,
        Refusal::ValueOutside(_) => 9,
        Refusal::NoSuchOperator(_) => 10,
        Refusal::SequenceTooLong => 11,
        Refusal::MayNotRun(_) => 12,
        Refusal::NotTheNext(_) => 13,
        Refusal::OtherOperator(_) => 14,
        Refusal::RunFull(_) => 15,
        Refusal::NoGoal(_) => 16,
        Refusal::NotARun => 17,
        Refusal::IdleOperator(_) => 18,
        Refusal::BeyondQuota(_) => 19,
    }
}

// The refusal's place.
pub fn place(r: Refusal) -> u32
    ensures { result ≡ place_of r }
{
    match r {
        Refusal::TextTooLong
        | Refusal::TableTooShort
        | Refusal::SequenceTooLong
        | Refusal::NotARun => 0,
        Refusal::OffForm(line)
        | Refusal::OutOfRange(line)
        | Refusal::NotRising(line)
        | Refusal::ClassMissing(line)
        | Refusal::SharesAboveCost(line)
        | Refusal::TooManyStates(line)
        | Refusal::IdleOperator(line) => line,
        Refusal::ValueOutside(variable) => variable,
        Refusal::NoSuchOperator(step)
        | Refusal::MayNotRun(step)
        | Refusal::NotTheNext(step)
        | Refusal::OtherOperator(step)
        | Refusal::RunFull(step)
        | Refusal::BeyondQuota(step) => step,
        Refusal::NoGoal(steps) => steps,
    }
}
