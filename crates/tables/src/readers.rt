// The readers: the code that knows the layout. A place past a table's end reads as 0, so a reading asks nothing of its caller; `known_byte` alone may be told that its place is there.
ghost use Rattle.std.specs.Prelude.{◌≡◌, true, ◌<◌, length, get_or};
ghost use Rattle.meaning.specs.Limits.{most_vars, most_ops, most_maps};
ghost use Rattle.tables.specs.Layout.{row_at, pre_row, eff_row, class_row, cost_at, share_at, quota_of, mark_of};
ghost use Rattle.tables.specs.Task.{was};

use crate::Counts;
use meaning::OpNo;
use meaning::limits::QUOTA_EDITION;

// The row of the variables' numbers of values, of the initial state, of the goal.
pub const DOM_ROW: u32 = 0;

pub const INIT_ROW: u32 = 1;

pub const GOAL_ROW: u32 = 2;

// The first row of the operators' preconditions, of their effects, of the maps' classes, and of the operators' marks.
pub const PRE_ROWS: u32 = 3;

pub const EFF_ROWS: u32 = 67;

pub const CLASS_ROWS: u32 = 131;

pub const MARK_ROW: u32 = 195;

// The room for the largest task, in places.
pub const FACTS_ROOM: usize = 1624;

pub const COSTS_ROOM: usize = 64;

pub const SHARES_ROOM: usize = 512;

// The row of an operator's preconditions, and below of its effects: a function each, as each has a definition and callers ask for one of them by name.
pub fn pre_row(o: OpNo) -> u32
    requires { o.0 < most_ops }
    ensures { result ≡ pre_row o.0 }
{
    PRE_ROWS + o.0
}

// The row of an operator's effects.
pub fn eff_row(o: OpNo) -> u32
    requires { o.0 < most_ops }
    ensures { result ≡ eff_row o.0 }
{
    EFF_ROWS + o.0
}

// The row of a variable's classes in a map.
pub fn class_row(m: u32, v: u32) -> u32
    requires { (m < most_maps) × (v < most_vars) }
    ensures { result ≡ class_row m v }
{
    CLASS_ROWS + (m * 8 + v)
}

// What stands at a place, or `none` past the table's end.
pub fn get_or<T: Copy>(table: &[T], at: usize, none: T) -> T
    ensures { result ≡ get_or (was table) at none }
{
    table.get(at).copied().unwrap_or(none)
}

// The byte at a place; where it is known to be there, it isn't looked for: the steps ask once for all their places, and take half the time.
pub fn known_byte(table: &[u8], at: usize, known: bool) -> u8
    requires { known ≡ true → at < length table.now }
    ensures { result ≡ get_or (was table) at 0 }
{
    if known {
        table[at]
    } else {
        get_or(table, at, 0)
    }
}

// What a row of the facts says at a variable, or in a row of classes at a value.
pub fn row_at(facts: &[u8], row: u32, v: u32) -> u8
    ensures { result ≡ row_at (was facts) row v }
{
    get_or(facts, row as usize * 8 + v as usize, 0)
}

// What an operator costs.
pub fn cost_at(costs: &[u32], o: OpNo) -> u32
    ensures { result ≡ cost_at (was costs) o.0 }
{
    get_or(costs, usize::from(o), 0)
}

// What an operator costs in a map.
pub fn share_at(shares: &[u32], m: u32, o: OpNo) -> u32
    ensures { result ≡ share_at (was shares) m o.0 }
{
    get_or(shares, m as usize * 64 + usize::from(o), 0)
}

// The quota of stored tests: edition 2 alone has one.
pub fn quota_of(c: Counts) -> u32
    ensures { result ≡ quota_of c }
{
    if c.edition == QUOTA_EDITION {
        c.quota
    } else {
        0
    }
}

// How many tests an operator stores: edition 2 alone has marks.
pub fn mark_of(c: Counts, facts: &[u8], o: OpNo) -> u32
    ensures { result ≡ mark_of c (was facts) o.0 }
{
    if c.edition == QUOTA_EDITION {
        u32::from(row_at(facts, MARK_ROW, o.0))
    } else {
        0
    }
}
