// A row of numbers for each state of a numbered space, laid variable by variable: what stands in a lane is the sum of the parts that the state's values put there.
// A state's row is made of that of the state before it in the variable, so that no state's values are worked out.
ghost use Rattle.std.specs.Prelude.{◌≡◌, ℕ, ◌+◌, ◌*◌, ◌≤◌, ◌<◌, length, get_or, replicate};
ghost use Rattle.meaning.specs.Limits.{most_vars, most_values, most_states};
ghost use Rattle.meaning.specs.Numbering.{size};
ghost use Rattle.tables.specs.Layout.{dom_at};
ghost use Rattle.tables.specs.Task.{was};
ghost use Rattle.maps.specs.Inside.Walks.{Walkable};
ghost use Rattle.maps.specs.Inside.Rows.{lanes, most_laid, most_part, lane_at, Parts, RowLaid, ValueLaid, VariableLaid, Laid};

use tables::Counts;
use tables::readers::{DOM_ROW, row_at};

// The lanes of a row: one for each operator that there may be, and the last for the goal. The rows of a table stand in one slice, one after the other, since what
// is said of a table reads it so (`lane_at`).
pub const LANES: usize = 65;

pub const GOAL_LANE: usize = 64;

// The room for the parts of each value of each variable, and for a row of each state of the largest map.
pub const PARTS_ROOM: usize = 4160;

pub const ROWS_ROOM: usize = 266240;

// What each value of each variable puts into the lanes of a row, 8 values a variable. A part is so small that 8 of them fit in a lane.
#[derive(Drop)]
pub struct PartTable {
    pub places: [u16; PARTS_ROOM],
    ghost parts: { Parts places },
}

impl PartTable {
    pub fn none() -> PartTable
        ensures { result.places ≡ replicate 4160 0 }
    {
        PartTable {
            places: [0; PARTS_ROOM],
        }
    }
}

// Adds to each lane of a row its part.
fn add_parts(row: &mut [u16], part: &[u16])
    requires { (length row.old ≡ length part.now) × ((o : ℕ) → o < length row.old → get_or row.old o 0 + get_or part.now o 0 ≤ most_laid) }
    ensures row_len { length row.new ≡ length row.old }
    ensures by_index { (o : ℕ) → o < length row.old → get_or row.new o 0 ≡ get_or row.old o 0 + get_or (was part) o 0 }
{
    // By index, since of what a `zip` with the lanes hands on nothing is known.
    for (o, lane) in row.iter_mut().enumerate() {
        *lane += part[o];
    }
}

// Sets the row of state b to that of state a and a value's parts.
fn lay_row(t: &mut [u16], a: usize, b: usize, part: &[u16])
    requires lanes_in_bounds { (a * lanes + lanes ≤ length t.old) × (b * lanes + lanes ≤ length t.old) × (a < most_states) × (b < most_states) × (length part.now ≡ lanes) }
    requires by_index { (o : ℕ) → o < lanes → lane_at t.old a o + get_or part.now o 0 ≤ most_laid }
    ensures { RowLaid a b (was part) 0 t.old t.new }
{
    let from = a * LANES;
    let to = b * LANES;
    let mut row = [0; LANES];
    row.copy_from_slice(&t[from..from + LANES]);
    add_parts(&mut row, part);
    t[to..to + LANES].copy_from_slice(&row);
}

// Sets the rows from `base` on to the first `len` rows and a value's parts.
fn lay_value(t: &mut [u16], len: usize, base: usize, part: &[u16])
    requires len_le_base { (1 ≤ base → len ≤ base) × (base + len ≤ most_states) × ((base + len) * lanes ≤ length t.old) × (length part.now ≡ lanes) }
    requires by_index { (i o : ℕ) → i < len → o < lanes → lane_at t.old i o + get_or part.now o 0 ≤ most_laid }
    ensures { ValueLaid len base (was part) 0 len t.old t.new }
{
    for i in 0..len {
        lay_row(t, i, base + i, part);
    }
}

// Sets the rows of all values of variable v: to the first `len` rows, once for each of its k values, and the value's parts. The first rows come last, since
// the others are made of them.
fn lay_variable(t: &mut [u16], len: usize, k: usize, parts: &[u16], v: usize)
    requires le_len { (1 ≤ len) × (k ≤ most_values) × (v < most_vars) × (len * k ≤ most_states) × (len * k * lanes ≤ length t.old) × Parts parts.now }
    requires by_index { (i o : ℕ) → i < len → o < lanes → lane_at t.old i o + most_part ≤ most_laid }
    ensures { VariableLaid len k (was parts) v 0 t.old t.new }
{
    for x in (0..k).rev() {
        let at = (v * 8 + x) * LANES;
        lay_value(t, len, x * len, &parts[at..at + LANES]);
    }
}

// Lays the rows of all states of the facts' variables.
pub fn lay(c: Counts, facts: &[u8], parts: &[u16], t: &mut [u16])
    requires { Walkable c facts.now × Parts parts.now × (size (dom_at facts.now) c.vars * lanes ≤ length t.old) }
    ensures laid { Laid (dom_at (was facts)) (was parts) c.vars t.new }
    ensures t_len { length t.new ≡ length t.old }
{
    t[..LANES].fill(0);
    let mut len = 1;
    for v in 0..c.vars {
        let k = usize::from(row_at(facts, DOM_ROW, v));
        lay_variable(t, len, k, parts, v as usize);
        len *= k;
    }
}
