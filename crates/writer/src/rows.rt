// Rows of numbers and lists of facts, as the tables hold them.
ghost use Rattle.std.specs.Prelude.{ℕ};
ghost use Rattle.tables.specs.Layout.{row_at, share_at};
ghost use Rattle.tables.specs.Task.{was};
ghost use Rattle.grammar.specs.Spelling.{numbers, fact, some_facts};
ghost use Rattle.writer.specs.Inside.Pen.{Puts, Gives, comma_if, said_of};

use crate::pen::{COLON, COMMA, DASH, Pen};
use meaning::OpNo;
use tables::classes::word_of;
use tables::readers::{row_at, share_at};

impl Pen<'_> {
    // The first n numbers that are given.
    fn put_numbers<F: Fn(u32) -> u32>(&mut self, n: u32, number_at: F)
        requires { F.IsAlwaysCallable number_at }
        ensures { (f : ℕ → ℕ) → Gives (F.post number_at) n f → Puts self.old (numbers f n) self.new }
    {
        for i in 0..n {
            self.put_number(number_at(i));
            self.put_gap(COMMA, n - i - 1);
        }
    }

    // The first n numbers of a row of the facts.
    pub fn put_row(&mut self, facts: &[u8], row: u32, n: u32)
        ensures { Puts self.old (numbers (row_at (was facts) row) n) self.new }
    {
        self.put_numbers(n, |i| word_of(facts, row, i));
    }

    // What a map charges for the first n operators.
    pub fn put_shares(&mut self, shares: &[u32], m: u32, n: u32)
        ensures { Puts self.old (numbers (share_at (was shares) m) n) self.new }
    {
        self.put_numbers(n, |o| share_at(shares, m, OpNo(o)));
    }

    // A fact: a variable and its value.
    pub fn put_fact(&mut self, v: u32, x: u32)
        ensures { Puts self.old (fact v x) self.new }
    {
        self.put_number(v);
        self.put(COLON);
        self.put_number(x);
    }

    // The comma before a fact, where some were written.
    fn put_comma(&mut self, some: bool)
        ensures { Puts self.old (comma_if some) self.new }
    {
        if some {
            self.put(COMMA);
        }
    }

    // What a row says of a variable, if anything; after a comma where some facts were written. A byte and no `Option`, since the tables that are lent hold it so.
    fn put_said(&mut self, some: bool, said: u8, v: u32)
        ensures { Puts self.old (said_of some said v) self.new }
    {
        if let Some(x) = said.checked_sub(1) {
            self.put_comma(some);
            self.put_fact(v, x as u32);
        }
    }

    // The facts of a row about the first n variables: a dash if there is none.
    pub fn put_facts(&mut self, facts: &[u8], row: u32, n: u32)
        ensures { Puts self.old (some_facts (row_at (was facts) row) n 0) self.new }
    {
        let mut some = false;
        for v in 0..n {
            let said = row_at(facts, row, v);
            self.put_said(some, said, v);
            some |= said != 0;
        }
        if !some {
            self.put(DASH);
        }
    }
}
