// A text cut into pieces: by the lengths that a line tells, into single bytes with an empty piece before each, or by chance.

// So many of a text's first bytes tell, with its length, where it is cut by chance.
const FIRST_BYTES: usize = 64;

// The chances: each number is the one before times the factor, modulo the prime.
const PRIME: u64 = 2_147_483_647;

const FACTOR: u64 = 48_271;

// How long the pieces are, from the next one on.
#[derive(Clone, Copy)]
pub enum Cut<'a> {
    // The told lengths that haven't been, and the last of all told, which comes again after them; or all that is left if that is 0.
    Told { next: &'a [u32], last: u32 },
    // 0 and 1 by turns.
    Singly { empty: bool },
    // By chance 0 to 35, of which each third is 0.
    ByChance { number: u64 },
}

impl<'a> Cut<'a> {
    // The last told length is told, or there is one piece.
    pub fn told(lengths: &'a [u32]) -> Cut<'a> {
        Cut::Told {
            next: lengths,
            last: lengths.last().copied().unwrap_or(0),
        }
    }

    pub fn singly() -> Cut<'a> {
        Cut::Singly { empty: true }
    }

    // The first chance is of the text's length and its first bytes. It is never 0, and so none is.
    pub fn by_chance(text: &[u8]) -> Cut<'a> {
        let x = text
            .iter()
            .take(FIRST_BYTES)
            .fold(text.len() as u64 % PRIME, |x, b| {
                (31 * (x % PRIME) + u64::from(*b)) % PRIME
            });
        Cut::ByChance {
            number: x % (PRIME - 1) + 1,
        }
    }

    // Also at the end of a text there is a piece: a length that was told.
    fn has_told(&self) -> bool {
        match self {
            Cut::Told { next, .. } => !next.is_empty(),
            _ => false,
        }
    }

    // The length of the next piece.
    fn next_length(&mut self) -> usize {
        match self {
            Cut::Told { next, last } => match next.split_first() {
                Some((n, rest)) => {
                    *next = rest;
                    *n as usize
                }
                None if *last == 0 => usize::MAX,
                None => *last as usize,
            },
            Cut::Singly { empty } => {
                *empty = !*empty;
                usize::from(*empty)
            }
            Cut::ByChance { number } => {
                let x = *number;
                *number = x % PRIME * FACTOR % PRIME;
                if x % 3 == 0 { 0 } else { (x / 3 % 36) as usize }
            }
        }
    }
}

// The pieces of a text. Told lengths go on behind its end, with empty pieces.
#[derive(Drop)]
pub struct Pieces<'a> {
    rest: &'a [u8],
    cut: Cut<'a>,
}

impl<'a> Pieces<'a> {
    pub fn of(text: &'a [u8], cut: Cut<'a>) -> Pieces<'a> {
        Pieces { rest: text, cut }
    }
}

impl<'a> Iterator for Pieces<'a> {
    type Item = &'a [u8];

    fn next(&mut self) -> Option<&'a [u8]> {
        if self.rest.is_empty() && !self.cut.has_told() {
            return None;
        }
        let n = self.cut.next_length().min(self.rest.len());
        let (piece, rest) = self.rest.split_at(n);
        self.rest = rest;
        Some(piece)
    }
}
