// The desk's answers in the script's words.
use refusals::{Refusal, number, place};
use sequences::choosing::Cheaper;
use std::fmt::Display;
use std::io;

pub fn say_refused(rt: &impl Print, r: Refusal) -> io::Result<()> {
    println!(rt; "refused {} {}", number(r), place(r))
}

// An answer: what it is as told, or the refusal.
pub fn say<T, F: FnOnce(T) -> io::Result<()> + Drop>(
    rt: &impl Print,
    answer: Result<T, Refusal>,
    tell: F,
) -> io::Result<()>
    requires { F.IsAlwaysCallable tell }
{
    match answer {
        Ok(value) => tell(value),
        Err(r) => say_refused(rt, r),
    }
}

// A word and the number, or none.
pub fn say_some(rt: &impl Print, word: &str, x: Option<impl Display + Drop>) -> io::Result<()> {
    match x {
        Some(x) => println!(rt; "{word} {x}"),
        None => println!(rt; "none"),
    }
}

pub fn say_cheaper(rt: &impl Print, answer: Cheaper) -> io::Result<()> {
    match answer {
        Cheaper::First(c) => println!(rt; "first {c}"),
        Cheaper::Second(c) => println!(rt; "second {c}"),
        Cheaper::Neither => println!(rt; "neither"),
    }
}

// An opening part: its list, the second exactly if that is the cheaper, its length and its entries, on one line that is written piece by piece.
pub fn say_opening(
    rt: &impl Print,
    answer: Result<Cheaper, Refusal>,
    part: &[u32],
) -> io::Result<()> {
    let list = match answer {
        Ok(Cheaper::Second(_)) => 2,
        _ => 1,
    };
    print!(rt; "opening {list} {}", part.len())?;
    for op in part {
        print!(rt; " {op}")?;
    }
    println!(rt)
}
