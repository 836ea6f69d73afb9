// Whether an operator may run in a state, whether it may store a test, whether a state meets the goal, the state after a step, and whether an operator is idle.
ghost use Rattle.std.specs.Prelude.{◌≡◌, ◌≤◌, ◌<◌};
ghost use Rattle.meaning.specs.Limits.{most_vars, most_ops};
ghost use Rattle.meaning.specs.Sas.{put};
ghost use Rattle.meaning.specs.Views.{holds, asked};
ghost use Rattle.tables.specs.Steps.{row_holds, may_run, can_store, meets_goal, stepped, is_idle};
ghost use Rattle.tables.specs.Task.{was};

use crate::Counts;
use crate::readers::{
    EFF_ROWS, GOAL_ROW, PRE_ROWS, eff_row, get_or, known_byte, mark_of, pre_row, quota_of,
};
use meaning::OpNo;

// What is said of a variable holds of the value x.
pub fn fact_holds(fact: u8, x: u8) -> bool
    ensures { result ≡ holds fact x }
{
    fact == 0 || x == fact - 1
}

// The value of a variable after an effect on it.
pub fn value_after(fact: u8, x: u8) -> u8
    ensures { result ≡ put fact x }
{
    if fact == 0 { x } else { fact - 1 }
}

// What a row of facts says of the first variables holds in the state. Whether both have all places is asked once, so that a turn looks at no length:
// `all` over reads that look each time takes twice as long.
pub fn row_holds(vars: u32, facts: &[u8], row: u32, s: &[u8]) -> bool
    ensures { result ≡ row_holds vars (was facts) row (was s) }
{
    let n = vars as usize;
    let at = row as usize * 8;
    let there = at + n <= facts.len() && n <= s.len();
    for v in 0..n {
        if !fact_holds(known_byte(facts, at + v, there), known_byte(s, v, there)) {
            return false;
        }
    }
    true
}

// Each precondition of the operator holds in the state.
#[tactic(auto, unfolding(crate::specs::Steps::may_run))]
pub fn may_run(c: Counts, facts: &[u8], s: &[u8], o: OpNo) -> bool
    requires { o.0 < most_ops }
    ensures { result ≡ may_run c (was facts) (was s) o.0 }
{
    row_holds(c.vars, facts, pre_row(o), s)
}

// After so many stored tests the operator doesn't store beyond the quota.
pub fn can_store(c: Counts, facts: &[u8], stored: u32, o: OpNo) -> bool
    ensures { result ≡ can_store c (was facts) stored o.0 }
{
    let quota = quota_of(c);
    stored <= quota && mark_of(c, facts, o) <= quota - stored
}

// The state meets the goal.
#[tactic(auto, unfolding(crate::specs::Steps::meets_goal))]
pub fn meets_goal(c: Counts, facts: &[u8], s: &[u8]) -> bool
    ensures { result ≡ meets_goal c (was facts) (was s) }
{
    row_holds(c.vars, facts, GOAL_ROW, s)
}

// The state after the operator: each effect holds and all else stays.
pub fn state_after(c: Counts, facts: &[u8], s: [u8; 8], o: OpNo) -> [u8; 8]
    requires { (c.vars ≤ most_vars) × (o.0 < most_ops) }
    ensures { result ≡ stepped c (was facts) s o.0 }
{
    let n = c.vars as usize;
    let at = eff_row(o) as usize * 8;
    let there = at + n <= facts.len();
    let mut t = s;
    // A variable's number names a place of the row and of the state: no one list is gone through.
    for v in 0..n {
        t[v] = value_after(known_byte(facts, at + v, there), t[v]);
    }
    t
}

// An effect that is none, or stands among the preconditions.
pub fn is_asked(pre: u8, eff: u8) -> bool
    ensures { result ≡ asked pre eff }
{
    eff == 0 || eff == pre
}

// The operator is idle: each of its effects stands among its preconditions.
pub fn is_idle(vars: u32, facts: &[u8], o: OpNo) -> bool
    ensures { result ≡ is_idle vars (was facts) o.0 }
{
    let pre = (PRE_ROWS as usize + usize::from(o)) * 8;
    let eff = (EFF_ROWS as usize + usize::from(o)) * 8;
    (0..vars as usize).all(|v| is_asked(get_or(facts, pre + v, 0), get_or(facts, eff + v, 0)))
}
