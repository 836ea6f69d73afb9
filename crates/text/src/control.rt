// The controls that the machine goes on with.
ghost use Rattle.std.specs.Prelude.{cond, ◌≡◌, eqb};
ghost use Rattle.text.specs.Inside.Control.{
  going,
  up,
  start,
  stopped,
  part_begun,
  due,
  next_key,
  first_part,
  opened,
  with_digit,
  dashed,
  to_line,
  row_or,
  next_line,
  list_no,
  goal_list,
  pre_list,
  eff_list,
  ends_operator,
  field_maps,
  field_cost,
  field_ops,
  field_quota,
};
ghost use Rattle.tables.specs.Editions.{has_quota};

use crate::names::{
    COUNT_CAP, FIELD_CLASS, FIELD_COST, FIELD_EDITION, FIELD_EFF_VAL, FIELD_EFF_VAR, FIELD_END,
    FIELD_GOAL_VAL, FIELD_GOAL_VAR, FIELD_MAPS, FIELD_MARK, FIELD_OPS, FIELD_PRE_VAL,
    FIELD_PRE_VAR, FIELD_QUOTA, FIELD_SHARE, PART_AFTER_DASH, PART_DASH_DUE, PART_KEY, PART_NUMBER,
    RUN_NONE,
};
use crate::{Ctrl, Digits, Halt, Seen, Spot, Turn};
use meaning::limits::QUOTA_EDITION;
use tables::Counts;

// Before the first digit; the first of a row or a list; before the first class.
pub const NO_DIGITS: Digits = Digits {
    run: RUN_NONE,
    val: 0,
};

pub const FIRST_TURN: Turn = Turn {
    var: 0,
    least: 0,
    item: 0,
};

pub const NONE_SEEN: Seen = Seen { mask: 0, prod: 1 };

pub fn goes_on(k: Halt) -> bool
    ensures { result ≡ going k }
{
    matches!(k, Halt::Going)
}

// One more, for counts that stay far below a cap.
pub fn one_more(x: u32) -> u32
    ensures { result ≡ up x }
{
    if x < COUNT_CAP { x + 1 } else { COUNT_CAP }
}

// The control before the first byte.
#[tactic(auto, unfolding(crate::specs::Inside::Control::start))]
pub fn start_of_text() -> Ctrl
    ensures { result ≡ start }
{
    Ctrl {
        line: 1,
        spot: Spot {
            part: PART_KEY,
            field: FIELD_EDITION,
            key: 0,
            row: 0,
        },
        digits: NO_DIGITS,
        turn: FIRST_TURN,
        seen: NONE_SEEN,
        counts: Counts {
            vars: 0,
            ops: 0,
            maps: 0,
            edition: 0,
            quota: 0,
        },
        halt: Halt::Going,
    }
}

#[tactic(auto, unfolding(crate::specs::Inside::Control::stopped))]
pub fn stop(c: Ctrl, k: Halt) -> Ctrl
    ensures { result ≡ stopped c k }
{
    Ctrl { halt: k, ..c }
}

#[tactic(auto, unfolding(crate::specs::Inside::Control::part_begun))]
pub fn begin_part(c: Ctrl, l: u32, p: u32, f: u32, r: u32) -> Ctrl
    ensures { result ≡ part_begun c l p f r }
{
    Ctrl {
        line: l,
        spot: Spot {
            part: p,
            field: f,
            key: 0,
            row: r,
        },
        digits: NO_DIGITS,
        turn: FIRST_TURN,
        seen: NONE_SEEN,
        halt: Halt::Going,
        ..c
    }
}

#[tactic(auto, unfolding(crate::specs::Inside::Control::due))]
pub fn await_number(c: Ctrl, f: u32, t: Turn, s: Seen) -> Ctrl
    ensures { result ≡ due c f t s }
{
    Ctrl {
        spot: Spot {
            part: PART_NUMBER,
            field: f,
            key: 0,
            ..c.spot
        },
        digits: NO_DIGITS,
        turn: t,
        seen: s,
        halt: Halt::Going,
        ..c
    }
}

#[tactic(auto, unfolding(crate::specs::Inside::Control::next_key))]
pub fn next_key(c: Ctrl) -> Ctrl
    ensures { result ≡ next_key c }
{
    Ctrl {
        spot: Spot {
            part: PART_KEY,
            key: one_more(c.spot.key),
            ..c.spot
        },
        digits: NO_DIGITS,
        turn: FIRST_TURN,
        seen: NONE_SEEN,
        halt: Halt::Going,
        ..c
    }
}

// After the '=': a number, or the dash of a share line without operators.
pub fn first_part(c: Ctrl) -> u32
    ensures { result ≡ first_part c }
{
    if c.spot.field == FIELD_SHARE && c.counts.ops == 0 {
        PART_DASH_DUE
    } else {
        PART_NUMBER
    }
}

#[tactic(auto, unfolding(crate::specs::Inside::Control::opened))]
pub fn open_line(c: Ctrl) -> Ctrl
    ensures { result ≡ opened c }
{
    begin_part(c, c.line, first_part(c), c.spot.field, c.spot.row)
}

#[tactic(auto, unfolding(crate::specs::Inside::Control::with_digit))]
pub fn grow(c: Ctrl, r: u32, v: u32) -> Ctrl
    ensures { result ≡ with_digit c r v }
{
    Ctrl {
        spot: Spot {
            part: PART_NUMBER,
            key: 0,
            ..c.spot
        },
        digits: Digits { run: r, val: v },
        halt: Halt::Going,
        ..c
    }
}

#[tactic(auto, unfolding(crate::specs::Inside::Control::dashed))]
pub fn take_dash(c: Ctrl) -> Ctrl
    ensures { result ≡ dashed c }
{
    begin_part(c, c.line, PART_AFTER_DASH, c.spot.field, c.spot.row)
}

#[tactic(auto, unfolding(crate::specs::Inside::Control::to_line))]
pub fn to_line(c: Ctrl, f: u32, r: u32) -> Ctrl
    ensures { result ≡ to_line c f r }
{
    begin_part(c, one_more(c.line), PART_KEY, f, r)
}

// Another row of field f, or field g after the last of n rows.
#[tactic(auto, unfolding(crate::specs::Inside::Control::row_or))]
pub fn row_or(c: Ctrl, n: u32, f: u32, g: u32) -> Ctrl
    ensures { result ≡ row_or c n f g }
{
    let r = one_more(c.spot.row);
    if r < n {
        to_line(c, f, r)
    } else {
        to_line(c, g, 0)
    }
}

// The list that a field is of, by its number.
pub fn list_of(f: u32) -> u32
    ensures { result ≡ list_no f }
{
    f / 2
}

// The field is of the goal's facts, of an operator's preconditions, of its effects.
pub fn in_goal(f: u32) -> bool
    ensures { result ≡ eqb (list_no f) goal_list }
{
    f == FIELD_GOAL_VAR || f == FIELD_GOAL_VAL
}

pub fn in_preconditions(f: u32) -> bool
    ensures { result ≡ eqb (list_no f) pre_list }
{
    f == FIELD_PRE_VAR || f == FIELD_PRE_VAL
}

pub fn in_effects(f: u32) -> bool
    ensures { result ≡ eqb (list_no f) eff_list }
{
    f == FIELD_EFF_VAR || f == FIELD_EFF_VAL
}

// After ops=: the first operator's line, or the maps where there is none.
pub fn after_ops(c: Ctrl) -> Ctrl
    ensures { result ≡ to_line c (cond (eqb c.counts.ops 0) field_maps field_cost) 0 }
{
    if c.counts.ops == 0 {
        to_line(c, FIELD_MAPS, 0)
    } else {
        to_line(c, FIELD_COST, 0)
    }
}

// After the goal: the quota's line in edition 2, and else that of the operators' number.
pub fn after_goal(c: Ctrl) -> Ctrl
    ensures { result ≡ to_line c (cond (has_quota c.counts.edition) field_quota field_ops) 0 }
{
    if c.counts.edition == QUOTA_EDITION {
        to_line(c, FIELD_QUOTA, 0)
    } else {
        to_line(c, FIELD_OPS, 0)
    }
}

// The field ends an operator's line.
pub fn ends_operator(f: u32) -> bool
    ensures { result ≡ ends_operator f }
{
    in_effects(f) || f == FIELD_MARK
}

#[tactic(auto, unfolding(crate::specs::Inside::Control::next_line))]
pub fn next_line(c: Ctrl) -> Ctrl
    ensures { result ≡ next_line c }
{
    match c.spot.field {
        FIELD_OPS => after_ops(c),
        FIELD_CLASS => row_or(c, c.counts.maps, FIELD_CLASS, FIELD_SHARE),
        FIELD_SHARE => row_or(c, c.counts.maps, FIELD_SHARE, FIELD_END),
        FIELD_QUOTA => to_line(c, FIELD_OPS, 0),
        f if in_goal(f) => after_goal(c),
        f if ends_operator(f) => row_or(c, c.counts.ops, FIELD_COST, FIELD_MAPS),
        f => to_line(c, one_more(f), 0),
    }
}
