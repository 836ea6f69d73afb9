// What the programs that read a task share: the room for its text, how it is read, and their lines on standard output. Of the desk's answers it knows the refusals
// alone.
#![tactic(auto)]

ghost use Rattle.std.specs.Prelude.{◌≤◌, length, IfOk};

use meaning::limits::BYTES_MOST;
use refusals::{Refusal, number, place};
use std::fmt::Display;
use std::io;
use std::io::Read;

// Room for a text, and one byte more, so that a longer one is seen to be longer.
pub const TASK_ROOM: usize = BYTES_MOST + 1;

// Reads until the buffer is full or the input ends, and answers how many bytes it put at the buffer's start. Of std's methods `read_exact` fails where the input
// ends before, and `read_to_end` reads into the heap.
pub fn read_full(from: &mut impl Read, buffer: &mut [u8]) -> io::Result<usize>
    ensures { IfOk result (λ n. n ≤ length buffer.new) }
{
    let mut done = 0;
    while done < buffer.len() {
        let n = from.read(&mut buffer[done..])?;
        if n == 0 {
            break;
        }
        done += n;
    }
    Ok(done)
}

// A line: a name, which may be any bytes and ends with its '=', and the number or none.
pub fn say(rt: &impl Print, name: &[u8], x: Option<impl Display + Drop>) -> io::Result<()> {
    rt.write_all(name)?;
    match x {
        Some(x) => println!(rt; "{x}"),
        None => println!(rt; "none"),
    }
}

// A refusal's two lines.
pub fn say_refused(rt: &impl Print, r: Refusal) -> io::Result<()> {
    say(rt, b"refused=", Some(number(r)))?;
    say(rt, b"place=", Some(place(r)))
}
