// What each value of each variable puts into the lanes of a row: into an operator's what it adds to the number of the state after a step, and 4,096 where the
// precondition fails; into the goal's 4,096 where the goal fails. So a lane of a row that is laid of them is below 4,096 exactly if nothing fails.
ghost use Rattle.std.specs.Prelude.{◌≡◌, ◌+◌, ◌*◌, ◌≤◌, ◌<◌, length};
ghost use Rattle.meaning.specs.Limits.{most_states};
ghost use Rattle.meaning.specs.Sas.{put};
ghost use Rattle.tables.specs.Layout.{dom_at};
ghost use Rattle.tables.specs.Task.{was};
ghost use Rattle.maps.specs.Inside.Walks.{Walkable, states_of};
ghost use Rattle.maps.specs.Inside.Rows.{lanes};
ghost use Rattle.maps.specs.Inside.Parts.{part_of, OpParts, ValueParts, VariableParts, Parted, Stepped};

use crate::rows::{GOAL_LANE, LANES, PartTable, lay};
use meaning::OpNo;
use tables::Counts;
use tables::readers::{DOM_ROW, GOAL_ROW, eff_row, pre_row, row_at};
use tables::steps::{fact_holds, value_after};

// What stands for a fact that fails: more than any state's number. A number and no `Option`: a lane is a sum of parts, and below this one exactly if none fails.
const FAILS: u32 = 4096;

// What the value x of a variable puts into a lane, where the variable's values are `stride` apart.
fn part_of(pre: u8, eff: u8, x: u8, stride: u32) -> u16
    requires { put eff x * stride < most_states }
    ensures { result ≡ part_of pre eff x stride }
{
    let on = u32::from(value_after(eff, x)) * stride;
    if fact_holds(pre, x) {
        on as u16
    } else {
        (on + FAILS) as u16
    }
}

// Sets the operators' parts of the value x of variable v, from place `at` on.
fn op_parts(c: Counts, facts: &[u8], v: u32, x: u8, stride: u32, at: usize, parts: &mut PartTable)
    requires walkable { Walkable c facts.now × (v < c.vars) × (x < dom_at facts.now v) × (dom_at facts.now v * stride ≤ most_states) }
    requires parts { at + lanes ≤ length parts.old.places }
    ensures { OpParts c.ops (was facts) v x stride at parts.old.places parts.new.places }
{
    // By number: o is the operator that the facts are asked for, and its lane.
    for o in 0..c.ops {
        let pre = row_at(facts, pre_row(OpNo(o)), v);
        let eff = row_at(facts, eff_row(OpNo(o)), v);
        parts.places[at + o as usize] = part_of(pre, eff, x, stride);
    }
}

// Sets all parts of the value x of variable v.
fn value_parts(c: Counts, facts: &[u8], v: u32, x: u8, stride: u32, parts: &mut PartTable)
    requires { Walkable c facts.now × (v < c.vars) × (x < dom_at facts.now v) × (dom_at facts.now v * stride ≤ most_states) }
    ensures { ValueParts c (was facts) v x stride parts.old.places parts.new.places }
{
    let at = (v as usize * 8 + x as usize) * LANES;
    op_parts(c, facts, v, x, stride, at, parts);
    parts.places[at + GOAL_LANE] = part_of(row_at(facts, GOAL_ROW, v), 0, x, 0);
}

// Sets the parts of the k values of variable v.
fn variable_parts(c: Counts, facts: &[u8], v: u32, k: u8, stride: u32, parts: &mut PartTable)
    requires { Walkable c facts.now × (v < c.vars) × (k ≡ dom_at facts.now v) × (dom_at facts.now v * stride ≤ most_states) }
    ensures { VariableParts c (was facts) v k stride parts.old.places parts.new.places }
{
    for x in 0..k {
        value_parts(c, facts, v, x, stride, parts);
    }
}

// Sets the parts of all values. The values of variable 0 are `unit` apart: 1 for the numbers of the states after the steps, 0 to learn only whether facts fail.
fn parts_of(c: Counts, facts: &[u8], unit: u32, parts: &mut PartTable)
    requires { Walkable c facts.now × (unit ≤ 1) }
    ensures { Parted c (was facts) unit c.vars parts.new.places }
{
    let mut stride = unit;
    for v in 0..c.vars {
        let k = row_at(facts, DOM_ROW, v);
        variable_parts(c, facts, v, k, stride, parts);
        stride *= u32::from(k);
    }
}

// Lays a row for each state: where each operator leads, if it may run, and whether the goal is met.
pub fn lay_steps(c: Counts, facts: &[u8], unit: u32, t: &mut [u16])
    requires { Walkable c facts.now × (unit ≤ 1) × (states_of c facts.now * lanes ≤ length t.old) }
    ensures stepped { Stepped c (was facts) unit t.new }
    ensures t_len { length t.new ≡ length t.old }
{
    let mut parts = PartTable::none();
    parts_of(c, facts, unit, &mut parts);
    lay(c, facts, &parts.places, t);
}
