// The input by lines and by raw texts. Nothing says how long a line is: of each as much is kept as there is room for.
ghost use Rattle.std.specs.Prelude.{◌≤◌};

use crate::arrays::Lent;
use console::read_full;
use std::io;
use std::io::Read;

// Nothing says that an input ends, so whoever reads to the end takes at most so many turns.
pub const TURNS: u64 = 4_000_000_000;

// The most bytes of a script's line, its line end not counted.
pub const MOST: usize = 200;

// Room for one byte more.
const ROOM: usize = MOST + 1;

// A line of the script without its line end. One that is too long is known by its length, and its further bytes aren't kept.
pub type Line = Lent<u8, ROOM>;

// A reader through a buffer that it holds, where std's `BufReader` has one on the heap: the bytes from `at` to `end` were read and aren't taken yet.
#[derive(Drop)]
pub struct Buffered<R> {
    from: R,
    buffer: [u8; 4096],
    at: usize,
    end: usize,
    ghost taken: { at ≤ end },
    ghost filled: { end ≤ 4096 },
}

impl<R: Read> Buffered<R> {
    pub fn new(from: R) -> Buffered<R> {
        Buffered {
            from,
            buffer: [0; 4096],
            at: 0,
            end: 0,
        }
    }
}

impl<R: Read> Read for Buffered<R> {
    fn read(&mut self, to: &mut [u8]) -> io::Result<usize> {
        if self.at == self.end {
            let end = self.from.read(&mut self.buffer)?;
            self.at = 0;
            self.end = end;
        }
        // One byte, as lines are read, is put by itself: as a slice it takes several times as long.
        if let [b] = to {
            if self.at == self.end {
                return Ok(0);
            }
            *b = self.buffer[self.at];
            self.at += 1;
            return Ok(1);
        }
        let ready = &self.buffer[self.at..self.end];
        let n = ready.len().min(to.len());
        to[..n].copy_from_slice(&ready[..n]);
        self.at += n;
        Ok(n)
    }
}

// The next line. A last line without its line end is none, nor is one whose end isn't among so many bytes.
pub fn next_line(from: &mut impl Read) -> io::Result<Option<Line>> {
    let mut line = Line::of(0, 0);
    // Byte by byte and not by `bytes`, by which a long line took a fifth longer.
    for _ in 0..TURNS {
        let mut byte = [0];
        if from.read(&mut byte)? == 0 {
            break;
        }
        match byte {
            [b'\n'] => return Ok(Some(line)),
            [b] => line.push(b),
        };
    }
    Ok(None)
}

// The next n bytes, as many of them as there is room for; then one byte is passed over. A text is read as a whole: byte by byte it took eight times as long.
pub fn next_text<const N: usize>(
    from: &mut impl Read,
    text: &mut Lent<u8, N>,
    n: u32,
) -> io::Result<()> {
    let kept = (n as usize).min(N);
    text.lend(kept);
    let read = read_full(from, text.lent_mut())?;
    text.lend(read);
    if read == kept {
        for b in from.bytes().take(n as usize - kept + 1) {
            b?;
        }
    }
    Ok(())
}
