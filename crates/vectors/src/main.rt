// The vectors: a script on standard input is carried out against the desk's entries, and what they answer and change is printed.
// The form of a script and of what is printed is in docs/VECTORS.md.
#![tactic(auto)]

mod answers;
mod calls;
mod reading;
mod running;

use crate::calls::call;
use script::arrays::Array;
use script::changes::say_place;
use script::commands::{Command, Words};
use script::held::Held;
use script::input::{Buffered, Line, MOST, TURNS, next_line, next_text};
use std::io;
use std::io::Read;
use tables::Counts;

// What a line is answered that is off the form.
const BAD: &[u8] = b"bad\n";

// A word and the counts; edition and quota only where there is something to tell.
fn say_counts(rt: &impl Print, word: &str, c: Counts) -> io::Result<()> {
    if c.edition == 1 && c.quota == 0 {
        return println!(rt; "{word} {} {} {}", c.vars, c.ops, c.maps);
    }
    println!(rt;
        "{word} {} {} {} {} {}",
        c.vars, c.ops, c.maps, c.edition, c.quota
    )
}

// A place that is there is printed.
fn show(rt: &impl Print, held: &mut Held, array: Array, i: usize) -> io::Result<()> {
    match held.place(array, i) {
        Some(place) => say_place(rt, array, i, place.value()),
        None => Ok(()),
    }
}

// A command of the form. An array that isn't there is passed over.
fn obey(
    rt: &impl Print,
    from: &mut impl Read,
    held: &mut Held,
    command: Command<'_>,
) -> io::Result<()> {
    match command {
        Command::Reset => held.reset(),
        Command::Text(n) => {
            next_text(from, &mut held.text, n)?;
            held.taken = 0;
        }
        Command::CopyText => held.copy_text(),
        Command::TakeCopy(n) => held.take_copy(n as usize),
        Command::Counts(c) => held.counts = c,
        Command::Lend(Some(array), n) => held.lend(array, n),
        Command::Set(Some(array), from, values) => held.set(array, from, values),
        Command::Fill(Some(array), x) => held.fill(array, x),
        Command::Show(Some(array), i) => show(rt, held, array, i)?,
        Command::Lend(None, _)
        | Command::Set(None, ..)
        | Command::Fill(None, _)
        | Command::Show(None, _) => {}
        Command::ShowCounts => say_counts(rt, "counts", held.counts)?,
        _ => call(rt, held, command)?,
    }
    Ok(())
}

// A line: a comment is printed as it stands, and one that is off the form is bad.
fn carry_out(
    rt: &impl Print,
    from: &mut impl Read,
    held: &mut Held,
    mut line: Line,
) -> io::Result<()> {
    if MOST < line.lent().len() {
        return rt.write_all(BAD);
    }
    if line.lent().starts_with(b"#") {
        // with its end in one call of the system
        line.push(b'\n');
        return rt.write_all(line.lent());
    }
    let Some(words) = Words::of(line.lent()) else {
        return rt.write_all(BAD);
    };
    match Command::of(&words) {
        Some(command) => obey(rt, from, held, command),
        None => rt.write_all(BAD),
    }
}

// The script, line by line.
fn carry_out_all(rt: &impl Print, from: &mut impl Read) -> io::Result<()> {
    let mut held = Held::new();
    for _ in 0..TURNS {
        let Some(line) = next_line(from)? else {
            break;
        };
        carry_out(rt, from, &mut held, line)?;
    }
    Ok(())
}

fn main(rt: HostRuntime) -> io::Result<()> {
    carry_out_all(&rt, &mut Buffered::new(rt.stdin()))
}
