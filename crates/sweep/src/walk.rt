// One step among numbered states.
ghost use Rattle.std.specs.Prelude.{◌≡◌, ◌≤◌, ◌<◌};
ghost use Rattle.meaning.specs.Limits.{most_vars, most_states};
ghost use Rattle.meaning.specs.Numbering.{size, Positive, Digits};
ghost use Rattle.tables.specs.Layout.{dom_at};
ghost use Rattle.tables.specs.Task.{state_of, was};
ghost use Rattle.tables.specs.Steps.{value_after};
ghost use Rattle.sweep.specs.Inside.Walks.{Walkable, HasDigits, next_of, number_after, next_from};

use crate::number::Number;
use meaning::{OpNo, StateNo};
use tables::Counts;
use tables::readers::{DOM_ROW, eff_row, get_or, row_at};
use tables::steps::{may_run, value_after};

// The room for a value of each variable.
const VALUES_ROOM: usize = 8;

// The number of the state that a row of effects makes of the values s.
pub fn number_after(vars: u32, facts: &[u8], row: u32, s: &[u8]) -> u32
    requires positive { Positive (dom_at facts.now) vars × (size (dom_at facts.now) vars ≤ most_states) }
    requires digits { Digits (dom_at facts.now) (value_after facts.now row s.now) vars }
    ensures { result ≡ number_after vars (was facts) row (was s) }
{
    let mut n = Number::ZERO;
    for v in 0..vars {
        let x = value_after(row_at(facts, row, v), get_or(s, v as usize, 0));
        n = n.with_place(x, row_at(facts, DOM_ROW, v));
    }
    n.value
}

// A state's values by its number.
pub fn digits(vars: u32, facts: &[u8], a: StateNo) -> [u8; VALUES_ROOM]
    requires { (vars ≤ most_vars) × Positive (dom_at facts.now) vars }
    ensures { HasDigits vars (was facts) a.0 result }
{
    let mut s = [0u8; VALUES_ROOM];
    let mut rest = a.0;
    // By number: v is the variable that the facts are asked for, and its place.
    for v in 0..vars {
        let k = u32::from(row_at(facts, DOM_ROW, v));
        s[v as usize] = (rest % k) as u8;
        rest /= k;
    }
    s
}

// Where an operator leads from a state's values, if it may run there.
pub fn step_from(c: Counts, facts: &[u8], s: &[u8], o: OpNo) -> Option<StateNo>
    requires { Walkable c facts.now × (o.0 < c.ops) × Digits (dom_at facts.now) (state_of s.now) c.vars }
    ensures { next_of result ≡ next_from c (was facts) (was s) o.0 }
{
    if may_run(c, facts, s, o) {
        Some(StateNo(number_after(c.vars, facts, eff_row(o), s)))
    } else {
        None
    }
}
