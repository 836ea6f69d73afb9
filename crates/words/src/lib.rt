// One word an answer, for C: a kind below 256 and a number above it. A refusal's kind is its number on the paper's list, and the number its place.
#![tactic(auto)]

ghost use Rattle.std.specs.Prelude.{ℕ, ◌≡◌, ◌≤◌, ◌<◌, IfOk, IfSome, ⊤};
ghost use Rattle.meaning.specs.Limits.{most_steps};
ghost use Rattle.sequences.specs.Choosing.{steps_of};
ghost use Rattle.words.specs.Words.{word, done_word, number_word, or_nowhere, named_word, booked_word, FitsAbove, refused_word, or_refused, opening_word};

use ledger::Answer;
use refusals::{Refusal, number, place};
use sequences::choosing::{Cheaper, Choice};

// The kinds of the answers that are no refusals. With `DONE` goes a number where there is one to tell. Numbers and no enum: C reads them (include/desk.h), and a
// refusal's kind is its own number.
pub const DONE: u32 = 0;

pub const NOWHERE: u32 = 128;

pub const REPEATED: u32 = 129;

pub const FIRST: u32 = 130;

pub const SECOND: u32 = 131;

pub const NEITHER: u32 = 132;

// A kind and a number.
pub fn word(kind: u32, x: u32) -> u64
    ensures { result ≡ word kind x }
{
    u64::from(kind) + 256 * u64::from(x)
}

// What C is told by one word, if it fits.
pub trait Tell {
    ghost told: { Self → ℕ };

    ghost fits: { Self → Type 0 };

    fn word(self) -> u64
        requires { fits self }
        ensures { result ≡ told self };
}

// Done, and no number to tell.
impl Tell for () {
    ghost told = { done_word };

    ghost fits = { λ _. ⊤ };

    fn word(self) -> u64 {
        word(DONE, 0)
    }
}

// A number: a count of bytes or rounds, a cost, a distance, an operator.
impl Tell for u32 {
    ghost told = { number_word };

    ghost fits = { λ _. ⊤ };

    fn word(self) -> u64 {
        word(DONE, self)
    }
}

// A sum is above 32 bits, and has its own way into a word.
impl Tell for u64 {
    ghost told = { number_word };

    ghost fits = { FitsAbove };

    fn word(self) -> u64 {
        256 * self
    }
}

// What may be none.
impl<T: Tell> Tell for Option<T> {
    ghost told = { or_nowhere T.told };

    ghost fits = { λ x. IfSome x T.fits };

    fn word(self) -> u64 {
        match self {
            Some(x) => x.word(),
            None => word(NOWHERE, 0),
        }
    }
}

// Which list is the cheaper, with its cost.
impl Tell for Cheaper {
    ghost told = { named_word };

    ghost fits = { λ _. ⊤ };

    fn word(self) -> u64 {
        match self {
            Cheaper::First(p) => word(FIRST, p),
            Cheaper::Second(p) => word(SECOND, p),
            Cheaper::Neither => word(NEITHER, 0),
        }
    }
}

// What an offer, or a start, is answered.
impl Tell for Answer {
    ghost told = { booked_word };

    ghost fits = { λ _. ⊤ };

    fn word(self) -> u64 {
        match self {
            Answer::Accepted => word(DONE, 0),
            Answer::Repeated => word(REPEATED, 0),
        }
    }
}

// A refusal.
impl Tell for Refusal {
    ghost told = { refused_word };

    ghost fits = { λ _. ⊤ };

    fn word(self) -> u64 {
        word(number(self), place(self))
    }
}

// An answer that may be refused.
impl<T: Tell> Tell for Result<T, Refusal> {
    ghost told = { or_refused T.told };

    ghost fits = { λ x. IfOk x T.fits };

    fn word(self) -> u64 {
        match self {
            Ok(x) => x.word(),
            Err(r) => r.word(),
        }
    }
}

// Of which list the opening part is, and how many steps it has; for neither, or refused input, the empty part of the first: no refusal is told, so this is no `Tell`.
#[tactic(auto, unfolding(meaning::specs::Limits::most_steps))]
pub fn opening_word(d: Result<Choice, Refusal>) -> u64
    requires { steps_of d ≤ most_steps }
    ensures { result ≡ opening_word d }
{
    match d {
        Ok(Choice::FirstPart(part)) => word(FIRST, part.steps as u32),
        Ok(Choice::SecondPart(part)) => word(SECOND, part.steps as u32),
        Ok(Choice::NoPart) | Err(_) => word(FIRST, 0),
    }
}
