// The byte after a number or a dash: the sign that must stand there, and what follows it.
ghost use Rattle.std.specs.Prelude.{false, ◌≡◌, ◌-◌};
ghost use Rattle.grammar.specs.Fields.{line_end};
ghost use Rattle.text.specs.Inside.Control.{next_line};
ghost use Rattle.text.specs.Inside.Steps.{sign, mark_due, idle_here, list_end, after_class, after_var, next_fact, after_share, after_number, list_over, after_part};

use crate::control::{
    FIRST_TURN, NONE_SEEN, await_number, ends_operator, in_effects, in_preconditions, next_line,
    one_more, stop,
};
use crate::fields::{Kind, kind_of, last_class, last_var};
use crate::mask::{multiply, width_of};
use crate::names::{
    COLON, COMMA, FIELD_CLASS, FIELD_EFF_VAR, FIELD_MARK, FIELD_PRE_VAR, FIELD_SHARE, LINE_END,
    PART_AFTER_DASH, SEMICOLON, SLASH,
};
use crate::{Ctrl, Halt, Seen, Turn};
use meaning::OpNo;
use meaning::limits::QUOTA_EDITION;
use tables::steps::is_idle;

// The sign x must stand here.
#[tactic(auto, unfolding(crate::specs::Inside::Steps::sign))]
pub fn expect(c: Ctrl, b: u32, x: u32, n: Ctrl) -> Ctrl
    ensures { result ≡ sign c b x n }
{
    if b == x { n } else { stop(c, Halt::Form) }
}

// The line must end here. The next line's control is made where it does, and not handed to `expect`: so the control stays in registers.
#[tactic(auto, unfolding(crate::specs::Inside::Steps::sign))]
pub fn end_line(c: Ctrl, b: u32) -> Ctrl
    ensures { result ≡ sign c b line_end (next_line c) }
{
    if b == LINE_END {
        next_line(c)
    } else {
        stop(c, Halt::Form)
    }
}

// An operator's effects are over, and its mark is due.
#[tactic(auto, unfolding(crate::specs::Inside::Steps::mark_due))]
pub fn mark_due(c: Ctrl) -> bool
    ensures { result ≡ mark_due c }
{
    in_effects(c.spot.field) && c.counts.edition == QUOTA_EDITION
}

// An operator's last field is over, and it is idle.
#[tactic(auto, unfolding(crate::specs::Inside::Steps::idle_here))]
pub fn idle_here(c: Ctrl, w: &[u8]) -> bool
    ensures { result ≡ idle_here c w.now }
{
    ends_operator(c.spot.field) && is_idle(c.counts.vars, w, OpNo(c.spot.row))
}

// The end of a list of facts, or of a mark: an operator's preconditions end in a semicolon, in edition 2 its effects too, all others with their line; an idle
// operator is told before that.
#[tactic(auto, unfolding(crate::specs::Inside::Steps::list_end, crate::specs::Inside::Steps::sign))]
pub fn list_end(c: Ctrl, w: &[u8], b: u32) -> Ctrl
    ensures { result ≡ list_end c w.now b }
{
    if in_preconditions(c.spot.field) {
        expect(
            c,
            b,
            SEMICOLON,
            await_number(c, FIELD_EFF_VAR, FIRST_TURN, NONE_SEEN),
        )
    } else if mark_due(c) {
        expect(
            c,
            b,
            SEMICOLON,
            await_number(c, FIELD_MARK, FIRST_TURN, NONE_SEEN),
        )
    } else if idle_here(c, w) {
        stop(c, Halt::Idle)
    } else {
        end_line(c, b)
    }
}

#[tactic(auto, unfolding(crate::specs::Inside::Steps::after_class, crate::specs::Inside::Steps::sign))]
pub fn after_class(c: Ctrl, w: &[u8], b: u32) -> Ctrl
    ensures { result ≡ after_class c w.now b }
{
    if last_class(c, w) {
        if last_var(c) {
            end_line(c, b)
        } else {
            let p = multiply(c.seen.prod, width_of(c.seen.mask));
            let n = await_number(
                c,
                FIELD_CLASS,
                Turn {
                    var: one_more(c.turn.var),
                    least: 0,
                    item: 0,
                },
                Seen { mask: 0, prod: p },
            );
            expect(c, b, SLASH, n)
        }
    } else {
        let n = await_number(
            c,
            FIELD_CLASS,
            Turn {
                var: c.turn.var,
                least: 0,
                item: one_more(c.turn.item),
            },
            c.seen,
        );
        expect(c, b, COMMA, n)
    }
}

#[tactic(auto, unfolding(crate::specs::Inside::Steps::after_var))]
pub fn after_var(c: Ctrl, b: u32) -> Ctrl
    ensures { result ≡ after_var c b }
{
    if last_var(c) {
        end_line(c, b)
    } else {
        expect(
            c,
            b,
            COMMA,
            await_number(
                c,
                c.spot.field,
                Turn {
                    var: one_more(c.turn.var),
                    least: 0,
                    item: 0,
                },
                NONE_SEEN,
            ),
        )
    }
}

// The field before this one: of a fact's value that is the variable.
pub fn field_before(f: u32) -> u32
    ensures { result ≡ f - 1 }
{
    f.saturating_sub(1)
}

pub fn next_fact(c: Ctrl) -> Ctrl
    ensures { result ≡ next_fact c }
{
    await_number(
        c,
        field_before(c.spot.field),
        Turn {
            var: 0,
            least: one_more(c.turn.var),
            item: 0,
        },
        NONE_SEEN,
    )
}

#[tactic(auto, unfolding(crate::specs::Inside::Steps::after_share))]
pub fn after_share(c: Ctrl, b: u32) -> Ctrl
    ensures { result ≡ after_share c b }
{
    let i = one_more(c.turn.item);
    if i == c.counts.ops {
        end_line(c, b)
    } else {
        expect(
            c,
            b,
            COMMA,
            await_number(
                c,
                FIELD_SHARE,
                Turn {
                    var: 0,
                    least: 0,
                    item: i,
                },
                NONE_SEEN,
            ),
        )
    }
}

// A list of facts is over: after its dash, or after a value that no comma follows; or an operator's mark is.
#[tactic(auto, unfolding(crate::specs::Inside::Steps::list_over))]
pub fn list_over(c: Ctrl, b: u32) -> bool
    ensures { result ≡ list_over c b }
{
    if c.spot.part == PART_AFTER_DASH {
        return true;
    }
    match kind_of(c.spot.field) {
        Kind::Val => b != COMMA,
        Kind::Mark => true,
        _ => false,
    }
}

// The byte after a number, which is kept in the area, where neither a list of facts nor a mark is over.
#[tactic(auto, using(crate::proofs::Parts::comma_next, crate::proofs::Parts::no_mark), unfolding(crate::specs::Inside::Steps::after_number, crate::specs::Inside::Steps::after_value))]
pub fn after_number(c: Ctrl, w: &[u8], b: u32) -> Ctrl
    requires { list_over c b ≡ false }
    ensures { result ≡ after_number c w.now b }
{
    match kind_of(c.spot.field) {
        Kind::Row => after_var(c, b),
        Kind::Var => expect(
            c,
            b,
            COLON,
            await_number(
                c,
                one_more(c.spot.field),
                Turn {
                    var: c.digits.val,
                    least: 0,
                    item: 0,
                },
                NONE_SEEN,
            ),
        ),
        Kind::Val => next_fact(c),
        Kind::Cost => expect(
            c,
            b,
            SEMICOLON,
            await_number(c, FIELD_PRE_VAR, FIRST_TURN, NONE_SEEN),
        ),
        Kind::Class => after_class(c, w, b),
        Kind::Share => after_share(c, b),
        Kind::Line | Kind::Mark => end_line(c, b),
    }
}

// The byte after a number or a dash. The end of a list is asked for here alone: called from one place, it is inlined, and the control stays in registers.
#[tactic(auto, using(crate::proofs::Parts::over_list, crate::proofs::Parts::more_number))]
pub fn after_part(c: Ctrl, w: &[u8], b: u32) -> Ctrl
    ensures { result ≡ after_part c w.now b }
{
    if list_over(c, b) {
        list_end(c, w, b)
    } else {
        after_number(c, w, b)
    }
}
