// Numbers read ahead: those that stand whole in the piece, without a fault, each with the comma after it and a byte more. They are read in loops over a few
// words; what is in doubt, a fault or the last of a list, is left to the step of one byte.
ghost use Rattle.std.specs.Prelude.{true, ◌≡◌, ◌+◌, ◌<◌, length, IfSome, MatchOption};
ghost use Rattle.text.specs.Inside.Ahead.{digit_at, Onward, Due, NoneSeen, facts_place, FactsRead, FactHere, ClassesRead, ClassHere, SharesRead, Numbered, ShareHere};
ghost use Rattle.text.specs.Inside.Control.{mk, due, field_class, field_share};

use crate::area::{put_byte, put_word, values_of};
use crate::control::{NONE_SEEN, goes_on, one_more};
use crate::mask::add_class;
use crate::names::{
    COLON, COMMA, FIELD_CLASS, FIELD_EFF_VAR, FIELD_GOAL_VAR, FIELD_PRE_VAR, FIELD_SHARE,
    PART_NUMBER, RUN_NONE,
};
use crate::numbers::{Run, digit_at, number_from};
use crate::places::{class_place, eff_place, goal_place, pre_place, share_byte};
use crate::{Ctrl, Seen, Turn};
use meaning::limits::COST_MOST;

// How far was read ahead, and whose number is due there.
#[derive(Clone, Copy)]
pub struct Ahead {
    pub at: usize,
    pub turn: Turn,
    pub seen: Seen,
}

// How far the items of a loop reach, and the next of them.
#[derive(Clone, Copy)]
pub struct Items {
    pub at: usize,
    pub next: u32,
}

// The same of classes, and those seen.
#[derive(Clone, Copy)]
pub struct Classes {
    pub items: Items,
    pub mask: u32,
}

// A fact of a list: the variable and its value.
#[derive(Clone, Copy)]
pub struct Fact {
    pub var: u32,
    pub val: u32,
}

// A number is due, and nothing of it is read.
pub fn number_due(c: Ctrl) -> bool
    ensures { result ≡ true → Due c }
{
    goes_on(c.halt)
        && c.spot.part == PART_NUMBER
        && c.digits.run == RUN_NONE
        && c.digits.val == 0
        && c.spot.key == 0
}

// No variable's classes are read.
pub fn none_seen(c: Ctrl) -> bool
    ensures { result ≡ true → NoneSeen c }
{
    c.turn.var == 0 && c.seen.mask == 0 && c.seen.prod == 1
}

// Nothing was read ahead.
pub fn stay(c: Ctrl, i: usize) -> Ahead
    ensures { (result.at ≡ i) × (result.turn ≡ c.turn) × (result.seen ≡ c.seen) }
{
    Ahead {
        at: i,
        turn: c.turn,
        seen: c.seen,
    }
}

// Where the facts of a list begin in the area, by the field of its variables.
#[tactic(auto, unfolding(crate::specs::Inside::Ahead::facts_place))]
pub fn facts_place(f: u32, o: u32) -> Option<usize>
    ensures { MatchOption result (facts_place f o ≡ 0) (λ p. (facts_place f o ≡ p) × (0 < p) × (p < 1099511627776)) }
{
    match f {
        FIELD_GOAL_VAR => Some(goal_place(0)),
        FIELD_PRE_VAR => Some(pre_place(o, 0)),
        FIELD_EFF_VAR => Some(eff_place(o, 0)),
        _ => None,
    }
}

// A fact of one digit each, in range and order, its comma, and a byte more.
pub fn fact_here(s: &[u8], i: usize, w: &[u8], vars: u32, least: u32) -> Option<Fact>
    requires { i < length s.now }
    ensures { IfSome result (λ f. FactHere s.now i w.now vars least × (digit_at s.now i ≡ f.var) × (digit_at s.now (i + 2) ≡ f.val)) }
{
    if s.len() - i < 5 {
        return None;
    }
    let var = digit_at(s, i)?;
    let val = digit_at(s, i + 2)?;
    if u32::from(s[i + 1]) != COLON || u32::from(s[i + 3]) != COMMA {
        return None;
    }
    if vars <= var || var < least || values_of(w, var) <= val {
        return None;
    }
    Some(Fact { var, val })
}

// The facts of a list from i on, the first of them of a variable from `least` on. Here and below the loop has words of its own, and not the control: so they
// stay in registers; and it is a `while` over a cursor, which moves on by as many bytes as an item has.
pub fn facts_ahead(s: &[u8], i: usize, w: &mut [u8], place: usize, vars: u32, least: u32) -> Items
    requires { (i < length s.now) × (place < 1099511627776) }
    ensures { FactsRead s.now place vars i least w.old result.at result.next w.new }
{
    let mut at = i;
    let mut next = least;
    while let Some(f) = fact_here(s, at, w, vars, next) {
        put_byte(w, place + f.var as usize, one_more(f.val));
        next = one_more(f.var);
        at += 4;
    }
    Items { at, next }
}

pub fn facts_due(c: Ctrl, s: &[u8], i: usize, w: &mut [u8]) -> Ahead
    requires { Due c × NoneSeen c × (i < length s.now) }
    ensures { Onward s.now (mk c w.old) i (mk (due c c.spot.field result.turn result.seen) w.new) result.at }
{
    let Some(place) = facts_place(c.spot.field, c.spot.row) else {
        return stay(c, i);
    };
    if c.turn.item != 0 {
        return stay(c, i);
    }
    let n = facts_ahead(s, i, w, place, c.counts.vars, c.turn.least);
    Ahead {
        at: n.at,
        turn: Turn {
            var: 0,
            least: n.next,
            item: 0,
        },
        seen: NONE_SEEN,
    }
}

// A class of one digit, in range and not its variable's last, its comma, and a byte more.
pub fn class_here(s: &[u8], i: usize, values: u32, item: u32) -> Option<u32>
    requires { i < length s.now }
    ensures { IfSome result (λ x. ClassHere s.now i values item × (digit_at s.now i ≡ x)) }
{
    if s.len() - i < 3 {
        return None;
    }
    let class = digit_at(s, i)?;
    if u32::from(s[i + 1]) != COMMA || values <= class || values <= one_more(item) {
        return None;
    }
    Some(class)
}

// The classes of a variable from that of value `item` on, after those of the mask `seen`.
pub fn classes_ahead(
    s: &[u8],
    i: usize,
    w: &mut [u8],
    row: u32,
    var: u32,
    item: u32,
    seen: u32,
) -> Classes
    requires { i < length s.now }
    ensures { ClassesRead s.now row var i item seen w.old result.items.at result.items.next result.mask w.new }
{
    let mut at = i;
    let mut next = item;
    let mut mask = seen;
    while let Some(x) = class_here(s, at, values_of(w, var), next) {
        put_byte(w, class_place(row, var, next), x);
        mask = add_class(mask, x);
        next = one_more(next);
        at += 2;
    }
    Classes {
        items: Items { at, next },
        mask,
    }
}

pub fn classes_due(c: Ctrl, s: &[u8], i: usize, w: &mut [u8]) -> Ahead
    requires { Due c × (c.spot.field ≡ field_class) × (i < length s.now) }
    ensures { Onward s.now (mk c w.old) i (mk (due c c.spot.field result.turn result.seen) w.new) result.at }
{
    if c.turn.least != 0 {
        return stay(c, i);
    }
    let n = classes_ahead(s, i, w, c.spot.row, c.turn.var, c.turn.item, c.seen.mask);
    Ahead {
        at: n.items.at,
        turn: Turn {
            var: c.turn.var,
            least: 0,
            item: n.items.next,
        },
        seen: Seen {
            mask: n.mask,
            ..c.seen
        },
    }
}

// The number from i on, if it is a share and not its row's last, with its comma and a byte more.
pub fn share_here(s: &[u8], i: usize, item: u32, ops: u32) -> Option<Run>
    requires { i < length s.now }
    ensures { IfSome result (λ r. Numbered s.now i r.at r.val × ShareHere s.now i r.at r.val item ops) }
{
    let r = number_from(s, i)?;
    if s.len() - r.at < 2 || u32::from(s[r.at]) != COMMA {
        return None;
    }
    if COST_MOST < r.val || ops <= one_more(item) {
        return None;
    }
    Some(r)
}

// The shares of a row from that of operator `item` on.
pub fn shares_ahead(s: &[u8], i: usize, w: &mut [u8], row: u32, ops: u32, item: u32) -> Items
    requires { i < length s.now }
    ensures { SharesRead s.now row ops i item w.old result.at result.next w.new }
{
    let mut at = i;
    let mut next = item;
    while let Some(r) = share_here(s, at, next, ops) {
        put_word(w, share_byte(row, next), r.val);
        next = one_more(next);
        at = r.at + 1;
    }
    Items { at, next }
}

pub fn shares_due(c: Ctrl, s: &[u8], i: usize, w: &mut [u8]) -> Ahead
    requires { Due c × NoneSeen c × (c.spot.field ≡ field_share) × (i < length s.now) }
    ensures { Onward s.now (mk c w.old) i (mk (due c c.spot.field result.turn result.seen) w.new) result.at }
{
    if c.turn.least != 0 {
        return stay(c, i);
    }
    let n = shares_ahead(s, i, w, c.spot.row, c.counts.ops, c.turn.item);
    Ahead {
        at: n.at,
        turn: Turn {
            var: 0,
            least: 0,
            item: n.next,
        },
        seen: NONE_SEEN,
    }
}

// What can be read ahead where a number is due.
pub fn items_ahead(c: Ctrl, s: &[u8], i: usize, w: &mut [u8]) -> Ahead
    requires { Due c × (i < length s.now) }
    ensures { Onward s.now (mk c w.old) i (mk (due c c.spot.field result.turn result.seen) w.new) result.at }
{
    if c.spot.field == FIELD_CLASS {
        return classes_due(c, s, i, w);
    }
    if !none_seen(c) {
        return stay(c, i);
    }
    if c.spot.field == FIELD_SHARE {
        shares_due(c, s, i, w)
    } else {
        facts_due(c, s, i, w)
    }
}
