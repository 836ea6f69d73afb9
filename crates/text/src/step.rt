// One byte of the text.
ghost use Rattle.std.specs.Prelude.{false, ◌≡◌, ◌-◌};
ghost use Rattle.text.specs.Inside.Control.{mk};
ghost use Rattle.text.specs.Inside.Steps.{in_key, more, run_with, digit_read, run_fault, run_kept, part_closed, nothing_read, dash_here, in_value, live, byte_read, feed, ended};

use crate::after::{after_part, expect};
use crate::ahead::{items_ahead, number_due};
use crate::control::{await_number, goes_on, grow, next_key, open_line, stop, take_dash};
use crate::fields::{Kind, fault_of, key_byte, kind_of, note, store};
use crate::names::{
    DASH, EQUALS, FIELD_END, PART_AFTER_DASH, PART_KEY, PART_NUMBER, RUN_NONE, RUN_ON, RUN_ZERO,
    digit_of, is_digit,
};
use crate::{Ctrl, Halt};

#[tactic(auto, unfolding(crate::specs::Inside::Steps::in_key))]
pub fn in_key(c: Ctrl, b: u32) -> Ctrl
    ensures { result ≡ in_key c b }
{
    if b != key_byte(c.spot.field, c.spot.key) {
        return stop(c, Halt::Form);
    }
    if b == EQUALS {
        open_line(c)
    } else {
        next_key(c)
    }
}

// A digit run's value, however long, capped above every range.
#[tactic(auto, unfolding(crate::specs::Inside::Steps::more))]
pub fn longer(v: u32, d: u32) -> u32
    ensures { result ≡ more v d }
{
    v.saturating_mul(10).saturating_add(d)
}

pub fn run_after(r: u32, d: u32) -> u32
    ensures { result ≡ run_with r d }
{
    if r == RUN_NONE && d == 0 {
        RUN_ZERO
    } else {
        RUN_ON
    }
}

#[tactic(auto, unfolding(crate::specs::Inside::Steps::digit_read))]
pub fn add_digit(c: Ctrl, d: u32) -> Ctrl
    ensures { result ≡ digit_read c d }
{
    if c.digits.run == RUN_ZERO {
        return stop(c, Halt::Form);
    }
    grow(c, run_after(c.digits.run, d), longer(c.digits.val, d))
}

// The fault of the digit run that ends here, if one does.
#[tactic(auto, unfolding(crate::specs::Inside::Steps::run_fault))]
pub fn run_fault(c: Ctrl, w: &[u8]) -> Halt
    ensures { result ≡ run_fault c w.now }
{
    if c.spot.part == PART_NUMBER {
        fault_of(c, w)
    } else {
        Halt::Going
    }
}

// The number of that run is kept.
#[tactic(auto, unfolding(crate::specs::Inside::Steps::run_kept))]
pub fn keep_run(c: Ctrl, w: &mut [u8]) -> Ctrl
    ensures { mk result w.new ≡ run_kept c w.old }
{
    if c.spot.part == PART_NUMBER {
        store(c, w);
        note(c)
    } else {
        c
    }
}

// A byte that is no digit ends the run, or what follows a dash.
pub fn close_part(c: Ctrl, b: u32, w: &mut [u8]) -> Ctrl
    ensures { mk result w.new ≡ part_closed c w.old b }
{
    let fault = run_fault(c, w);
    if goes_on(fault) {
        after_part(keep_run(c, w), w, b)
    } else {
        stop(c, fault)
    }
}

// Neither a digit of the number nor a fact of the list stands before.
pub fn nothing_read(c: Ctrl) -> bool
    ensures { result ≡ nothing_read c }
{
    c.digits.run == RUN_NONE && c.turn.least == 0
}

// A dash where a list of facts may begin.
#[tactic(auto, unfolding(crate::specs::Inside::Steps::dash_here))]
pub fn dash_here(c: Ctrl, b: u32) -> bool
    ensures { result ≡ dash_here c b }
{
    b == DASH && matches!(kind_of(c.spot.field), Kind::Var) && nothing_read(c)
}

// At a number or after a dash.
#[tactic(auto, unfolding(crate::specs::Inside::Steps::in_value, crate::specs::Inside::Steps::at_number))]
pub fn in_value(c: Ctrl, b: u32, w: &mut [u8]) -> Ctrl
    ensures { mk result w.new ≡ in_value c w.old b }
{
    if c.spot.part == PART_NUMBER {
        if is_digit(b) {
            return add_digit(c, digit_of(b));
        }
        if dash_here(c, b) {
            return take_dash(c);
        }
    }
    close_part(c, b, w)
}

#[tactic(auto, using(crate::proofs::Parts::live_value), unfolding(crate::specs::Inside::Steps::live))]
pub fn live_step(c: Ctrl, b: u32, w: &mut [u8]) -> Ctrl
    ensures { mk result w.new ≡ live c w.old b }
{
    if c.spot.part == PART_KEY {
        return in_key(c, b);
    }
    if c.spot.part <= PART_AFTER_DASH {
        return in_value(c, b, w);
    }
    expect(c, b, DASH, take_dash(c))
}

// One byte; a reading that has stopped stays as it is.
#[tactic(auto, unfolding(crate::specs::Inside::Steps::byte_read))]
pub fn step_byte(c: Ctrl, b: u32, w: &mut [u8]) -> Ctrl
    ensures { mk result w.new ≡ byte_read (mk c w.old) b }
{
    if goes_on(c.halt) {
        live_step(c, b, w)
    } else {
        c
    }
}

// A piece of the text: a byte at a time, after what can be read ahead. The place is a cursor that moves on by as much as was read, so the loop is a `while`.
pub fn feed_piece(c: Ctrl, s: &[u8], w: &mut [u8]) -> Ctrl
    ensures { mk result w.new ≡ feed (mk c w.old) s.now }
{
    let mut k = c;
    let mut i = 0;
    while i < s.len() {
        if number_due(k) {
            let n = items_ahead(k, s, i, w);
            k = await_number(k, k.spot.field, n.turn, n.seen);
            i = n.at;
        }
        k = step_byte(k, u32::from(s[i]), w);
        i += 1;
    }
    k
}

// The end of the text: where not all lines were read it is as a byte that fits nowhere. It goes by a piece of one byte, so that `step_byte` is called from one place.
#[tactic(auto, unfolding(crate::specs::Inside::Steps::ended, crate::specs::Inside::Steps::feed))]
pub fn end_text(c: Ctrl, w: &mut [u8]) -> Ctrl
    ensures { mk result w.new ≡ ended (mk c w.old) }
{
    if c.spot.field == FIELD_END {
        return c;
    }
    feed_piece(c, b"\xff", w)
}
