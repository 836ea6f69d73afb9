// The arrays of the script by their numbers and names, and one array of which the first places count: those that a call is lent, or those that are taken so far.
use std::fmt;

// The arrays, in the order of their numbers; there is no array 12 or 16, and none above 18. The area can be lent with a length, and nothing else: its bytes are
// nobody's answer.
#[derive(Clone, Copy, PartialEq, Eq)]
pub enum Array {
    Facts,
    Costs,
    Shares,
    Out,
    State,
    First,
    Second,
    Start,
    Log,
    Len,
    Now,
    Column,
    Records,
    Buffer,
    Best,
    Area,
    Mark,
}

// A number that no array has.
#[derive(Clone, Copy, Debug, PartialEq, Eq)]
pub struct NoSuchArray;

impl TryFrom<u32> for Array {
    type Error = NoSuchArray;

    fn try_from(k: u32) -> Result<Array, NoSuchArray> {
        let array = match k {
            0 => Array::Facts,
            1 => Array::Costs,
            2 => Array::Shares,
            3 => Array::Out,
            4 => Array::State,
            5 => Array::First,
            6 => Array::Second,
            7 => Array::Start,
            8 => Array::Log,
            9 => Array::Len,
            10 => Array::Now,
            11 => Array::Column,
            13 => Array::Records,
            14 => Array::Buffer,
            15 => Array::Best,
            17 => Array::Area,
            18 => Array::Mark,
            _ => return Err(NoSuchArray),
        };
        Ok(array)
    }
}

impl Array {
    fn name(self) -> &'static str {
        match self {
            Array::Facts => "facts",
            Array::Costs => "costs",
            Array::Shares => "shares",
            Array::Out => "out",
            Array::State => "state",
            Array::First => "first",
            Array::Second => "second",
            Array::Start => "start",
            Array::Log => "log",
            Array::Len => "len",
            Array::Now => "now",
            Array::Column => "column",
            Array::Records => "records",
            Array::Buffer => "buffer",
            Array::Best => "best",
            Array::Area => "area",
            Array::Mark => "mark",
        }
    }
}

impl fmt::Display for Array {
    fn fmt<W: fmt::Write>(&self, f: &mut fmt::Formatter<W>) -> fmt::Result {
        let name = self.name();
        write!(f, "{name}")
    }
}

// An array of which a call is lent the first places, as many as were told, which are never more than there are. A line, its numbers and a text are kept so too.
#[derive(Clone, Copy, PartialEq)]
pub struct Lent<T, const N: usize> {
    pub places: [T; N],
    len: usize,
}

impl<T, const N: usize> Lent<T, N> {
    // The same at every place.
    pub fn of(x: T, len: usize) -> Self
    where
        T: Copy,
    {
        Lent {
            places: [x; N],
            len,
        }
    }

    // What a call is lent.
    pub fn lent(&self) -> &[T] {
        &self.places[..self.len.min(N)]
    }

    pub fn lent_mut(&mut self) -> &mut [T] {
        &mut self.places[..self.len.min(N)]
    }

    // The same at every place, in place.
    pub fn reset(&mut self, x: T, len: usize)
    where
        T: Copy,
    {
        for place in &mut self.places {
            *place = x;
        }
        self.len = len;
    }

    // One place more. Where there is none, nothing changes, and the answer says so.
    pub fn push(&mut self, x: T) -> bool
    where
        T: Copy,
    {
        let room = self.len < N;
        if room {
            self.places[self.len] = x;
            self.len += 1;
        }
        room
    }

    // So many places are lent from here on. More than there are is passed over.
    pub fn lend(&mut self, len: usize) {
        if len <= N {
            self.len = len;
        }
    }
}
