// What a call changed: each array is compared with what it was before, and the places that have changed are printed. Those that follow each other stand on one line.
use crate::arrays::Array;
use std::io;

// How many changed places are printed with their values.
const SHOWN: u64 = 64;

// How many values stand on a line at most.
const ON_A_LINE: u64 = 16;

// What the digest of the further ones is taken by.
const PRIME: u64 = 1_000_003;

// The changed places of an array so far: how many they are, how many values stand on the line that isn't ended (0 if there is none), and the digest of the places
// that aren't printed.
#[derive(Clone, Copy, Default)]
struct Tally {
    seen: u64,
    on_line: u64,
    digest: u64,
}

// A place of an array with its value, and what ends it; at once, since each call of the system takes its time. The one place of `len` goes without its number.
fn print_place(rt: &impl Print, array: Array, i: usize, x: u32, end: &str) -> io::Result<()> {
    match array {
        Array::Len => print!(rt; "{array} {x}{end}"),
        _ => print!(rt; "{array} {i} {x}{end}"),
    }
}

// A place with its value.
pub fn say_place(rt: &impl Print, array: Array, i: usize, x: u32) -> io::Result<()> {
    print_place(rt, array, i, x, "\n")
}

impl Tally {
    // One changed place more. It begins a line or goes on with one, and ends it if the line is full or the place is the last of those that are printed.
    fn say(&mut self, rt: &impl Print, array: Array, i: usize, x: u32) -> io::Result<()> {
        self.seen = self.seen.saturating_add(1);
        if SHOWN < self.seen {
            self.digest = (31 * (self.digest % PRIME) + i as u64 % PRIME + u64::from(x)) % PRIME;
            return Ok(());
        }
        if self.on_line == 0 {
            print_place(rt, array, i, x, "")?;
        } else {
            print!(rt; " {x}")?;
        }
        self.on_line = self.on_line.saturating_add(1);
        if self.on_line == ON_A_LINE || self.seen == SHOWN {
            self.end_line(rt)?;
        }
        Ok(())
    }

    // No line is left without its end.
    fn end_line(&mut self, rt: &impl Print) -> io::Result<()> {
        if 0 < self.on_line {
            println!(rt)?;
            self.on_line = 0;
        }
        Ok(())
    }

    // After the last place: the end of the line, and the line on the places that weren't printed, if there are any.
    fn say_rest(mut self, rt: &impl Print, array: Array) -> io::Result<()> {
        self.end_line(rt)?;
        if SHOWN < self.seen {
            println!(rt; "{array} more {} {}", self.seen - SHOWN, self.digest)?;
        }
        Ok(())
    }
}

// Prints the places of an array that aren't what they were.
pub fn say_changes<T: Copy + PartialEq + Into<u32>>(
    rt: &impl Print,
    array: Array,
    was: &[T],
    now: &[T],
) -> io::Result<()> {
    let mut tally = Tally::default();
    for (i, (before, after)) in was.iter().zip(now).enumerate() {
        if before == after {
            tally.end_line(rt)?;
        } else {
            tally.say(rt, array, i, (*after).into())?;
        }
    }
    tally.say_rest(rt, array)
}
