// The pen: bytes put into the buffer that it is lent, one after another. Past the buffer's end nothing is written, so that putting asks nothing of its caller; that
// every text has room is shown once, for the whole of it.
ghost use Rattle.std.specs.Prelude.{[], ◌∷◌, ◌≡◌, ◌+◌, ◌%◌, ◌≤◌};
ghost use Rattle.grammar.specs.Spelling.{digits, gap};
ghost use Rattle.writer.specs.Inside.Pen.{pen, held, Puts};
ghost use Rattle.tables.specs.Task.{was};

// The marks between numbers.
pub const LINE_END: u8 = b'\n';

pub const COMMA: u8 = b',';

pub const DASH: u8 = b'-';

pub const SLASH: u8 = b'/';

pub const COLON: u8 = b':';

pub const SEMICOLON: u8 = b';';

// The buffer, and the place of the next byte.
#[derive(Drop)]
pub struct Pen<'a> {
    out: &'a mut [u8],
    at: usize,
}

impl<'a> Pen<'a> {
    // At the buffer's first place.
    pub fn new(out: &'a mut [u8]) -> Pen<'a>
        ensures held { held result ≡ pen 0 out.old }
        ensures same_buffer { result.out.ghost_name ≡ out.entry.ghost_name }
    {
        Pen { out, at: 0 }
    }

    // The place after what was put down.
    pub fn place(&self) -> usize
        ensures { result ≡ self.now.at }
    {
        self.at
    }

    // A byte.
    pub fn put(&mut self, b: u8)
        ensures { Puts self.old (b ∷ []) self.new }
    {
        // By an index and no `get_mut`: what is written through an `Option` of a place in a field's slice, a proof doesn't learn. The place is read once, as the
        // compiler, which sees a byte written meanwhile, would read it again.
        let at = self.at;
        if at < self.out.len() {
            self.out[at] = b;
            self.at = at + 1;
        }
    }

    // The bytes of a word.
    pub fn put_word(&mut self, word: &[u8])
        ensures { Puts self.old (was word) self.new }
    {
        for b in word {
            self.put(*b);
        }
    }

    // The last digit of a number.
    fn put_digit(&mut self, v: u32)
        ensures { Puts self.old ((48 + v % 10) ∷ []) self.new }
    {
        self.put(b'0' + (v % 10) as u8);
    }

    // A number of two digits or more: what is before its last two, and those. By hand and no `itoa`, with which the text of a short task takes a tenth
    // longer (measured). Apart from the short way below, which else would be a call.
    #[inline(never)]
    #[cycle(number)]
    fn put_digits(&mut self, v: u32)
        requires { 10 ≤ v }
        ensures { Puts self.old (digits v) self.new }
    {
        let long = 100 <= v;
        if long {
            self.put_number(v / 100);
        }
        self.put_digit(v / 10);
        self.put_digit(v);
    }

    // A number in decimal. One of a single digit, as most are, is put down where it is asked for.
    #[inline(always)]
    #[cycle(number)]
    pub fn put_number(&mut self, v: u32)
        ensures { Puts self.old (digits v) self.new }
    {
        if v < 10 {
            self.put_digit(v);
        } else {
            self.put_digits(v);
        }
    }

    // The mark between two things of a row, if some are left.
    pub fn put_gap(&mut self, mark: u8, rest: u32)
        ensures { Puts self.old (gap mark rest) self.new }
    {
        let more = rest != 0;
        if more {
            self.put(mark);
        }
    }
}
