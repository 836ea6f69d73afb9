// The scan for the first fault of handed-in tables, and of a handed-in state.
#![tactic(auto)]

ghost use Rattle.scan.specs.Found.{clean};
ghost use Rattle.std.specs.Prelude.{◌≡◌, ◌≤◌, ◌<◌, leb, ltb};
ghost use Rattle.meaning.specs.Limits.{most_ops, most_maps, most_cost};
ghost use Rattle.meaning.specs.Views.{every};
ghost use Rattle.meaning.specs.Split.{sum};
ghost use Rattle.refusals.specs.declared.Refusal.TheVariants.{OutOfRange};
ghost use Rattle.tables.specs.Layout.{row_at, dom_at, share_at};
ghost use Rattle.tables.specs.Task.{held, task_of, lent, was};
ghost use Rattle.scan.specs.Scan.{unless, each, within, map_fault, shares_fault, split_fault, task_fault, roomy, tables_fault, state_fault, input_fault};
ghost use Rattle.scan.specs.Inside.Parts.{facts_fit, head_fault, lines_fault, charges_fault, body_fault};

use meaning::OpNo;
use meaning::limits::{
    COST_MOST, EDITION_MOST, MAPS_MOST, MARK_MOST, OPS_MOST, QUOTA_MOST, STATES_MOST, VALUES_MOST,
    VARS_MOST,
};
use refusals::Refusal;
use tables::LentTables;
use tables::classes::{ClassFault, classes_of, word_of};
use tables::lines::{
    DOM_LINE, EDITION_LINE, GOAL_LINE, INIT_LINE, QUOTA_LINE, VARS_LINE, map_line, maps_line,
    op_line, ops_line, shares_line,
};
use tables::readers::{
    COSTS_ROOM, DOM_ROW, FACTS_ROOM, GOAL_ROW, INIT_ROW, SHARES_ROOM, class_row, cost_at, eff_row,
    get_or, mark_of, pre_row, quota_of, row_at, share_at,
};
use tables::steps::is_idle;

// A row of facts names a value of the variable, or nothing.
fn fact_fits(facts: &[u8], row: u32, v: u32) -> bool
    ensures { result ≡ leb (row_at (was facts) row v) (dom_at (was facts) v) }
{
    row_at(facts, row, v) <= row_at(facts, DOM_ROW, v)
}

// What an operator asks of a variable, and what it does to it, is a value of the variable, or nothing.
fn facts_fit(facts: &[u8], o: OpNo, v: u32) -> bool
    requires { o.0 < most_ops }
    ensures { result ≡ facts_fit (was facts) o.0 v }
{
    fact_fits(facts, pre_row(o), v) && fact_fits(facts, eff_row(o), v)
}

// The variable has the value x.
fn value_fits(facts: &[u8], v: u32, x: u8) -> bool
    ensures { result ≡ ltb x (dom_at (was facts) v) }
{
    x < row_at(facts, DOM_ROW, v)
}

// The number lies from lo to hi.
fn lies_within(lo: u32, hi: u32, x: u32) -> bool
    ensures { result ≡ within lo hi x }
{
    lo <= x && x <= hi
}

// The lines before the operators: which edition, how many variables, how many values each has (1 to 8), its initial value and the goal's, which are
// among them, how many tests may be stored, and how many operators.
fn head_fault(t: LentTables) -> Result<(), Refusal>
    ensures { result ≡ head_fault (task_of (lent t)) }
{
    if !lies_within(1, EDITION_MOST, t.counts.edition) {
        return Err(Refusal::OutOfRange(EDITION_LINE));
    }
    if !lies_within(1, VARS_MOST, t.counts.vars) {
        return Err(Refusal::OutOfRange(VARS_LINE));
    }
    // `for` and no `all`, and one function for these lines: with `all` a whole scan took 28 % more instructions, with a function for each line 41 %.
    for v in 0..t.counts.vars {
        if !lies_within(1, VALUES_MOST, word_of(t.facts, DOM_ROW, v)) {
            return Err(Refusal::OutOfRange(DOM_LINE));
        }
    }
    for v in 0..t.counts.vars {
        if !value_fits(t.facts, v, row_at(t.facts, INIT_ROW, v)) {
            return Err(Refusal::OutOfRange(INIT_LINE));
        }
    }
    for v in 0..t.counts.vars {
        if !fact_fits(t.facts, GOAL_ROW, v) {
            return Err(Refusal::OutOfRange(GOAL_LINE));
        }
    }
    if QUOTA_MOST < quota_of(t.counts) {
        return Err(Refusal::OutOfRange(QUOTA_LINE));
    }
    if OPS_MOST < t.counts.ops {
        return Err(Refusal::OutOfRange(ops_line(t.counts.edition)));
    }
    Ok(())
}

// The line of a map: its variables' classes, and at its end not too many abstract states.
fn map_fault(t: LentTables, m: u32) -> Result<(), Refusal>
    requires { (head_fault (task_of (held t)) ≡ clean) × (m < most_maps) }
    ensures { result ≡ map_fault (task_of (lent t)) m }
{
    let line = map_line(t.counts.edition, t.counts.ops, m);
    let mut states = 1u32;
    for v in 0..t.counts.vars {
        match classes_of(t.facts, word_of(t.facts, DOM_ROW, v), class_row(m, v)) {
            Ok(k) => states *= k,
            Err(ClassFault::Missing) => return Err(Refusal::ClassMissing(line)),
            Err(ClassFault::Outside) => return Err(Refusal::OutOfRange(line)),
        }
    }
    if STATES_MOST < states {
        return Err(Refusal::TooManyStates(line));
    }
    Ok(())
}

// From the first operator's line to the last map's: the walks over operators, facts and maps are left at once with the first fault.
fn lines_fault(t: LentTables) -> Result<(), Refusal>
    requires { head_fault (task_of (held t)) ≡ clean }
    ensures { result ≡ lines_fault (task_of (lent t)) }
{
    'scan: {
        for o in 0..t.counts.ops {
            let line = op_line(t.counts.edition, OpNo(o));
            if COST_MOST < cost_at(t.costs, OpNo(o)) {
                break 'scan Err(Refusal::OutOfRange(line));
            }
            // both lists in one walk: whichever fact is outside, it is the same number at the same line
            for v in 0..t.counts.vars {
                if !facts_fit(t.facts, OpNo(o), v) {
                    break 'scan Err(Refusal::OutOfRange(line));
                }
            }
            if MARK_MOST < mark_of(t.counts, t.facts, OpNo(o)) {
                break 'scan Err(Refusal::OutOfRange(line));
            }
            if is_idle(t.counts.vars, t.facts, OpNo(o)) {
                break 'scan Err(Refusal::IdleOperator(line));
            }
        }
        if !lies_within(1, MAPS_MOST, t.counts.maps) {
            break 'scan Err(Refusal::OutOfRange(maps_line(t.counts.edition, t.counts.ops)));
        }
        for m in 0..t.counts.maps {
            if let Err(fault) = map_fault(t, m) {
                break 'scan Err(fault);
            }
        }
        Ok(())
    }
}

// What the operators cost in a map is in range.
fn shares_fit(ops: u32, shares: &[u32], m: u32) -> bool
    ensures { result ≡ every (λ o. leb (share_at (was shares) m o) most_cost) ops }
{
    (0..ops).all(|o| share_at(shares, m, OpNo(o)) <= COST_MOST)
}

// The lines of the shares: the walk over the maps is left at once with the first fault.
fn shares_fault(t: LentTables) -> Result<(), Refusal>
    requires { (t.counts.ops ≤ most_ops) × (t.counts.maps ≤ most_maps) }
    ensures { result ≡ each (shares_fault (task_of (lent t))) (lent t).counts.maps 0 }
{
    for m in 0..t.counts.maps {
        if !shares_fit(t.counts.ops, t.shares, m) {
            return Err(Refusal::OutOfRange(shares_line(
                t.counts.edition,
                t.counts.ops,
                t.counts.maps,
                m,
            )));
        }
    }
    Ok(())
}

// What the maps charge for an operator in all.
fn share_total(maps: u32, shares: &[u32], o: OpNo) -> u64
    ensures { result ≡ sum (λ m. share_at (was shares) m o.0) maps }
{
    // A `for` and no `sum()`: what is asked of a sum, that the total fits, is what the loop keeps.
    let mut total = 0u64;
    for m in 0..maps {
        total += u64::from(share_at(shares, m, o));
    }
    total
}

// The split, after all else: an operator's shares total at most its cost.
fn split_fault(t: LentTables) -> Result<(), Refusal>
    requires { t.counts.ops ≤ most_ops }
    ensures { result ≡ each (split_fault (task_of (lent t))) (lent t).counts.ops 0 }
{
    for o in 0..t.counts.ops {
        let cost = u64::from(cost_at(t.costs, OpNo(o)));
        if cost < share_total(t.counts.maps, t.shares, OpNo(o)) {
            return Err(Refusal::SharesAboveCost(op_line(t.counts.edition, OpNo(o))));
        }
    }
    Ok(())
}

// The lent tables have room for the largest task.
#[tactic(auto, unfolding(crate::specs::Scan::roomy))]
fn has_room(t: LentTables) -> bool
    ensures { result ≡ roomy (lent t) }
{
    FACTS_ROOM <= t.facts.len() && COSTS_ROOM <= t.costs.len() && SHARES_ROOM <= t.shares.len()
}

// What the maps charge: the lines of the shares, then the split.
#[tactic(auto, unfolding(crate::specs::Scan::shares_fault, crate::specs::Scan::split_fault))]
fn charges_fault(t: LentTables) -> Result<(), Refusal>
    requires { (t.counts.ops ≤ most_ops) × (t.counts.maps ≤ most_maps) }
    ensures { result ≡ charges_fault (task_of (lent t)) }
{
    shares_fault(t)?;
    split_fault(t)
}

// The lines of operators and maps, then what the maps charge.
fn body_fault(t: LentTables) -> Result<(), Refusal>
    requires { head_fault (task_of (held t)) ≡ clean }
    ensures { result ≡ body_fault (task_of (lent t)) }
{
    lines_fault(t)?;
    charges_fault(t)
}

// The whole task: the lines before the operators, then all others.
#[tactic(auto, using(crate::proofs::Rules::in_parts), unfolding(crate::specs::Inside::Parts::head_fault, crate::specs::Scan::facts_fault))]
fn task_fault(t: LentTables) -> Result<(), Refusal>
    ensures { result ≡ task_fault (task_of (lent t)) }
{
    head_fault(t)?;
    body_fault(t)
}

// The first fault of handed-in tables, with the line that the same task's text would have.
#[tactic(auto, unfolding(crate::specs::Scan::roomy, crate::specs::Scan::tables_fault))]
pub fn tables_fault(t: LentTables) -> Result<(), Refusal>
    ensures { result ≡ tables_fault (lent t) }
{
    if !has_room(t) {
        return Err(Refusal::TableTooShort);
    }
    task_fault(t)
}

// The first fault of a handed-in state: too short (8), or the lowest variable whose value is outside (9).
pub fn state_fault(t: LentTables, s: &[u8]) -> Result<(), Refusal>
    ensures { result ≡ state_fault (lent t).counts (lent t).facts (was s) }
{
    if s.len() < t.counts.vars as usize {
        return Err(Refusal::TableTooShort);
    }
    for v in 0..t.counts.vars {
        if !value_fits(t.facts, v, get_or(s, v as usize, 0)) {
            return Err(Refusal::ValueOutside(v));
        }
    }
    Ok(())
}

// The first fault of the tables, or else of the state.
#[tactic(auto, unfolding(crate::specs::Scan::input_fault))]
pub fn input_fault(t: LentTables, s: &[u8]) -> Result<(), Refusal>
    ensures { result ≡ input_fault (lent t) (was s) }
{
    tables_fault(t)?;
    state_fault(t, s)
}
