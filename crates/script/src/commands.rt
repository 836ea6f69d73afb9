// A line of the script taken apart: one letter, followed by up to 16 numbers, each after a single space; and the commands that such lines are.
use crate::arrays::{Array, Lent};
use std::str;
use tables::Counts;

// The most numbers of a line.
const NUMBERS: usize = 16;

// The most digits of a number.
const DIGITS: usize = 10;

// The letter of a line and its numbers.
#[derive(Clone, Copy)]
pub struct Words {
    letter: u8,
    numbers: Lent<u32, NUMBERS>,
}

// The number that digits spell. Without the look at each byte a sign in front would be taken too.
fn number(digits: &[u8]) -> Option<u32> {
    if DIGITS < digits.len() || !digits.iter().all(|b| b.is_ascii_digit()) {
        return None;
    }
    str::from_utf8(digits).ok()?.parse().ok()
}

impl Words {
    // The words of a line that is of the form.
    pub fn of(line: &[u8]) -> Option<Words> {
        let mut words = line.split(|b| *b == b' ');
        let [letter] = words.next()? else {
            return None;
        };
        let mut numbers = Lent::of(0, 0);
        for word in words {
            if !numbers.push(number(word)?) {
                return None;
            }
        }
        Some(Words {
            letter: *letter,
            numbers,
        })
    }
}

// What a line tells the program to do, each with its letter. The number of an array may be that of none.
#[derive(Clone, Copy)]
pub enum Command<'a> {
    // `z`
    Reset,
    // `t`
    Text(u32),
    // `b`
    CopyText,
    // `u`
    TakeCopy(u32),
    // `n`
    Counts(Counts),
    // `l`, how many places
    Lend(Option<Array>, usize),
    // `s`, from a place on
    Set(Option<Array>, usize, &'a [u32]),
    // `e`, with a value
    Fill(Option<Array>, u32),
    // `p`, at a place
    Show(Option<Array>, usize),
    // `q`
    ShowCounts,
    // `R`
    Read,
    // `S`
    BeginText,
    // `I`
    TakePiece(u32),
    // `F`
    EndText,
    // `V`, in pieces of these lengths
    ReadCut(&'a [u32]),
    // `T`
    Write,
    // `K`
    Check,
    // `D`
    Distances(u32),
    // `A`
    DistanceAt(u32),
    // `N`
    BestAt(u32),
    // `B`
    Bound,
    // `M`
    BoundNow,
    // `J`
    Judge,
    // `W`
    JudgeRow,
    // `C`
    Cheaper,
    // `P`
    Opening,
    // `G`
    Begin,
    // `O`, the step's number and the operator
    Offer(u32, u32),
}

// The counts that are told: with an edition and a quota, or else of edition 1.
fn counts_of(numbers: &[u32]) -> Option<Counts> {
    let (vars, ops, maps, edition, quota) = match numbers {
        [vars, ops, maps] => (*vars, *ops, *maps, 1, 0),
        [vars, ops, maps, edition, quota] => (*vars, *ops, *maps, *edition, *quota),
        _ => return None,
    };
    Some(Counts {
        vars,
        ops,
        maps,
        edition,
        quota,
    })
}

fn array_of(k: u32) -> Option<Array> {
    Array::try_from(k).ok()
}

impl<'a> Command<'a> {
    // The command of words whose letter is one of the script's and has as many numbers as it takes.
    pub fn of(words: &'a Words) -> Option<Command<'a>> {
        let letter = words.letter;
        let numbers = words.numbers.lent();
        Command::that_sets(letter, numbers).or(Command::that_calls(letter, numbers))
    }

    // A command that sets or shows what the program holds.
    fn that_sets(letter: u8, numbers: &'a [u32]) -> Option<Command<'a>> {
        let command = match (letter, numbers) {
            (b'z', []) => Command::Reset,
            (b't', [n]) => Command::Text(*n),
            (b'b', []) => Command::CopyText,
            (b'u', [n]) => Command::TakeCopy(*n),
            (b'n', counts) => Command::Counts(counts_of(counts)?),
            (b'l', [k, n]) => Command::Lend(array_of(*k), *n as usize),
            (b's', [k, from, values @ ..]) if !values.is_empty() => {
                Command::Set(array_of(*k), *from as usize, values)
            }
            (b'e', [k, x]) => Command::Fill(array_of(*k), *x),
            (b'p', [k, i]) => Command::Show(array_of(*k), *i as usize),
            (b'q', []) => Command::ShowCounts,
            _ => return None,
        };
        Some(command)
    }

    // A command that calls an entry.
    fn that_calls(letter: u8, numbers: &'a [u32]) -> Option<Command<'a>> {
        let command = match (letter, numbers) {
            (b'R', []) => Command::Read,
            (b'S', []) => Command::BeginText,
            (b'I', [n]) => Command::TakePiece(*n),
            (b'F', []) => Command::EndText,
            (b'V', lengths) if !lengths.is_empty() => Command::ReadCut(lengths),
            (b'T', []) => Command::Write,
            (b'K', []) => Command::Check,
            (b'D', [map]) => Command::Distances(*map),
            (b'A', [map]) => Command::DistanceAt(*map),
            (b'N', [map]) => Command::BestAt(*map),
            (b'B', []) => Command::Bound,
            (b'M', []) => Command::BoundNow,
            (b'J', []) => Command::Judge,
            (b'W', []) => Command::JudgeRow,
            (b'C', []) => Command::Cheaper,
            (b'P', []) => Command::Opening,
            (b'G', []) => Command::Begin,
            (b'O', [number, op]) => Command::Offer(*number, *op),
            _ => return None,
        };
        Some(command)
    }
}
