// The fields of the text: keywords, ranges, what a number is to the control, and where it is kept.
ghost use Rattle.std.specs.Prelude.{◌≡◌, get_or};
ghost use Rattle.text.specs.Inside.Fields.{
  key_byte,
  leasts,
  limit,
  in_range,
  number_fault,
  counts_with,
  seen_with,
  noted,
  last_class,
  last_var,
  class_fault,
  before,
  fault,
  stored,
  kind,
  kind_no,
};

use crate::area::{put_byte, put_word, values_of};
use crate::control::one_more;
use crate::mask::{add_class, multiply, none_missing, width_of};
use crate::names::{
    FIELD_CLASS, FIELD_COST, FIELD_DOM, FIELD_EDITION, FIELD_EFF_VAL, FIELD_EFF_VAR,
    FIELD_GOAL_VAL, FIELD_GOAL_VAR, FIELD_INIT, FIELD_MAPS, FIELD_MARK, FIELD_OPS, FIELD_PRE_VAL,
    FIELD_PRE_VAR, FIELD_QUOTA, FIELD_SHARE, FIELD_VARS, RUN_NONE,
};
use crate::places::{
    class_place, cost_byte, eff_place, goal_place, init_place, mark_place, pre_place, share_byte,
};
use crate::{Ctrl, Halt, Seen};
use meaning::limits::{
    COST_MOST, EDITION_MOST, MAPS_MOST, MARK_MOST, OPS_MOST, QUOTA_MOST, STATES_MOST, VALUES_MOST,
    VARS_MOST,
};
use tables::Counts;
use tables::readers::get_or;

// Of the functions below, the first takes its bytes from a literal that is lent, and the others match: a constant array that is indexed is made anew each time.

// The keywords of the fields that begin a line, 8 bytes a field; past the last 256, which is no byte. A number and no Option of one: `in_key` may be handed 256 too, and
// goes on with it there (`in_key` of Steps). A test and no `get` on the literal: what that look-up ensures couldn't be read in a proof.
#[tactic(auto, unfolding(crate::specs::Inside::Fields::key_byte))]
pub fn key_byte(f: u32, k: u32) -> u32
    ensures { result ≡ key_byte f k }
{
    let i = f as usize * 8 + k as usize;
    if i < 136 {
        u32::from(get_or(
            b"edition=vars=   dom=    init=   goal=           ops=    op=                                     maps=   map=    share=  quota=          ",
            i,
            0,
        ))
    } else {
        256
    }
}

pub fn least_of(f: u32) -> u32
    ensures { result ≡ get_or leasts f 0 }
{
    match f {
        FIELD_EDITION | FIELD_VARS | FIELD_DOM | FIELD_MAPS => 1,
        _ => 0,
    }
}

// What a number is to the control: what follows it is its line's end, the next of a row over the variables, a fact's colon, more facts or their end, the
// preconditions, the next class, the next share, the operator's end.
#[derive(Clone, Copy)]
pub enum Kind {
    Line,
    Row,
    Var,
    Val,
    Cost,
    Class,
    Share,
    Mark,
}

#[tactic(auto, unfolding(crate::specs::Inside::Fields::kind))]
pub fn kind_of(f: u32) -> Kind
    ensures { kind_no result ≡ kind f }
{
    match f {
        FIELD_DOM | FIELD_INIT => Kind::Row,
        FIELD_GOAL_VAR | FIELD_PRE_VAR | FIELD_EFF_VAR => Kind::Var,
        FIELD_GOAL_VAL | FIELD_PRE_VAL | FIELD_EFF_VAL => Kind::Val,
        FIELD_COST => Kind::Cost,
        FIELD_CLASS => Kind::Class,
        FIELD_SHARE => Kind::Share,
        FIELD_MARK => Kind::Mark,
        _ => Kind::Line,
    }
}

// The first number beyond a field's range: a constant, the number of variables, or the variable's number of values.
#[tactic(auto, unfolding(crate::specs::Inside::Fields::limit))]
pub fn limit_of(c: Ctrl, w: &[u8]) -> u32
    ensures { result ≡ limit c w.now }
{
    match c.spot.field {
        FIELD_EDITION => EDITION_MOST + 1,
        FIELD_VARS => VARS_MOST + 1,
        FIELD_DOM => VALUES_MOST + 1,
        FIELD_OPS => OPS_MOST + 1,
        FIELD_COST | FIELD_SHARE => COST_MOST + 1,
        FIELD_MAPS => MAPS_MOST + 1,
        FIELD_QUOTA => QUOTA_MOST + 1,
        FIELD_MARK => MARK_MOST + 1,
        FIELD_GOAL_VAR | FIELD_PRE_VAR | FIELD_EFF_VAR => c.counts.vars,
        _ => values_of(w, c.turn.var),
    }
}

#[tactic(auto, unfolding(crate::specs::Inside::Fields::in_range))]
pub fn in_range(c: Ctrl, w: &[u8]) -> bool
    ensures { result ≡ in_range c w.now }
{
    least_of(c.spot.field) <= c.digits.val && c.digits.val < limit_of(c, w)
}

// A finished number's own fault: range, then order.
#[tactic(auto, unfolding(crate::specs::Inside::Fields::number_fault))]
pub fn judge(c: Ctrl, w: &[u8]) -> Halt
    ensures { result ≡ number_fault c w.now }
{
    if !in_range(c, w) {
        Halt::Range
    } else if c.digits.val < c.turn.least {
        Halt::Order
    } else {
        Halt::Going
    }
}

// The counts with the number just read.
#[tactic(auto, unfolding(crate::specs::Inside::Fields::counts_with))]
pub fn counts_with(c: Ctrl) -> Counts
    ensures { result ≡ counts_with c }
{
    let read = c.digits.val;
    match c.spot.field {
        FIELD_VARS => Counts {
            vars: read,
            ..c.counts
        },
        FIELD_OPS => Counts {
            ops: read,
            ..c.counts
        },
        FIELD_MAPS => Counts {
            maps: read,
            ..c.counts
        },
        FIELD_EDITION => Counts {
            edition: read,
            ..c.counts
        },
        FIELD_QUOTA => Counts {
            quota: read,
            ..c.counts
        },
        _ => c.counts,
    }
}

#[tactic(auto, unfolding(crate::specs::Inside::Fields::seen_with))]
pub fn seen_with(c: Ctrl) -> Seen
    ensures { result ≡ seen_with c }
{
    if c.spot.field == FIELD_CLASS {
        Seen {
            mask: add_class(c.seen.mask, c.digits.val),
            ..c.seen
        }
    } else {
        c.seen
    }
}

#[tactic(auto, unfolding(crate::specs::Inside::Fields::noted))]
pub fn note(c: Ctrl) -> Ctrl
    ensures { result ≡ noted c }
{
    Ctrl {
        seen: seen_with(c),
        counts: counts_with(c),
        ..c
    }
}

#[tactic(auto, unfolding(crate::specs::Inside::Fields::last_class))]
pub fn last_class(c: Ctrl, w: &[u8]) -> bool
    ensures { result ≡ last_class c w.now }
{
    c.spot.field == FIELD_CLASS && one_more(c.turn.item) == values_of(w, c.turn.var)
}

#[tactic(auto, unfolding(crate::specs::Inside::Fields::last_var))]
pub fn last_var(c: Ctrl) -> bool
    ensures { result ≡ last_var c }
{
    one_more(c.turn.var) == c.counts.vars
}

// At the end of a variable's classes: a missing one, and after the last variable too many abstract states.
#[tactic(auto, unfolding(crate::specs::Inside::Fields::class_fault))]
pub fn class_fault(c: Ctrl) -> Halt
    ensures { result ≡ class_fault c }
{
    if !none_missing(c.seen.mask) {
        return Halt::Missing;
    }
    if last_var(c) && STATES_MOST < multiply(c.seen.prod, width_of(c.seen.mask)) {
        Halt::States
    } else {
        Halt::Going
    }
}

#[tactic(auto, unfolding(crate::specs::Inside::Fields::before))]
pub fn before_byte(c: Ctrl, w: &[u8]) -> Halt
    ensures { result ≡ before c w.now }
{
    if last_class(c, w) {
        class_fault(c)
    } else {
        Halt::Going
    }
}

// The fault of the digit run that ends here.
#[tactic(auto, unfolding(crate::specs::Inside::Fields::fault))]
pub fn fault_of(c: Ctrl, w: &[u8]) -> Halt
    ensures { result ≡ fault c w.now }
{
    if c.digits.run == RUN_NONE {
        return Halt::Form;
    }
    match judge(c, w) {
        Halt::Going => before_byte(note(c), w),
        fault => fault,
    }
}

// The number goes to its place in the area; a fact as value and one, counts not at all.
#[tactic(auto, unfolding(crate::specs::Inside::Fields::stored))]
pub fn store(c: Ctrl, w: &mut [u8])
    ensures { w.new ≡ stored c w.old }
{
    let f = c.spot.field;
    match f {
        FIELD_DOM => put_byte(w, c.turn.var as usize, c.digits.val),
        FIELD_INIT => put_byte(w, init_place(c.turn.var), c.digits.val),
        FIELD_GOAL_VAL => put_byte(w, goal_place(c.turn.var), one_more(c.digits.val)),
        FIELD_COST => put_word(w, cost_byte(c.spot.row), c.digits.val),
        FIELD_PRE_VAL => put_byte(w, pre_place(c.spot.row, c.turn.var), one_more(c.digits.val)),
        FIELD_EFF_VAL => put_byte(w, eff_place(c.spot.row, c.turn.var), one_more(c.digits.val)),
        FIELD_CLASS => put_byte(
            w,
            class_place(c.spot.row, c.turn.var, c.turn.item),
            c.digits.val,
        ),
        FIELD_SHARE => put_word(w, share_byte(c.spot.row, c.turn.item), c.digits.val),
        FIELD_MARK => put_byte(w, mark_place(c.spot.row), c.digits.val),
        _ => (),
    }
}
