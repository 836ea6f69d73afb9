// Digits and whole numbers of a piece.
ghost use Rattle.std.specs.Prelude.{◌≡◌, ◌≤◌, ◌<◌, length, IfSome, MatchOption};
ghost use Rattle.text.specs.Inside.Ahead.{digit_at, DigitHere, Longer, Numbered};

use crate::names::{digit_of, is_digit};
use meaning::limits::COST_MOST;

// Where the digits of a number end, and their value.
#[derive(Clone, Copy)]
pub struct Run {
    pub at: usize,
    pub val: u32,
}

// The digit at a place, if one stands there.
#[tactic(auto, using(grammar::proofs::Runs::digit_both), unfolding(crate::specs::Inside::Ahead::digit_at))]
pub fn digit_at(s: &[u8], i: usize) -> Option<u32>
    requires { i < length s.now }
    ensures { MatchOption result (digit_at s.now i ≡ 10) (λ d. (digit_at s.now i ≡ d) × (d < 10)) }
{
    let b = u32::from(s[i]);
    if is_digit(b) { Some(digit_of(b)) } else { None }
}

// The digit at a place, if one stands there and the value v leaves room for it.
pub fn digit_here(s: &[u8], i: usize, v: u32) -> Option<u32>
    ensures { IfSome result (λ d. DigitHere s.now i v × (digit_at s.now i ≡ d)) }
{
    if s.len() <= i || COST_MOST < v {
        return None;
    }
    digit_at(s, i)
}

// The digits from i on, after one that is no 0 and whose value is v; past every range they need not be read to their end. The place is a cursor, so the loop is a `while`.
pub fn longer_from(s: &[u8], i: usize, v: u32) -> Run
    requires { i ≤ length s.now }
    ensures { Longer s.now i v result.at result.val }
{
    let mut run = Run { at: i, val: v };
    while let Some(d) = digit_here(s, run.at, run.val) {
        run.val = 10 * run.val + d;
        run.at += 1;
    }
    run
}

// The number from i on, if one stands there.
pub fn number_from(s: &[u8], i: usize) -> Option<Run>
    requires { i < length s.now }
    ensures { IfSome result (λ r. (i < r.at) × Numbered s.now i r.at r.val) }
{
    let d = digit_at(s, i)?;
    if d == 0 {
        Some(Run { at: i + 1, val: 0 })
    } else {
        Some(longer_from(s, i + 1, d))
    }
}
