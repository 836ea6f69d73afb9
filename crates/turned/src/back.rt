// The operators turned round: for each of them, the numbers of the states from which it leads to a state. The number before a step is the number after it without
// the effects' values, with the preconditions' values there, and with what the values can be where an effect has no precondition: the operator's offsets, listed once.
ghost use Rattle.std.specs.Prelude.{◌≡◌, ℕ, ◌*◌, ◌≤◌, ◌<◌, length, get_or};
ghost use Rattle.meaning.specs.Limits.{most_values, most_states};
ghost use Rattle.tables.specs.Task.{was};
ghost use Rattle.maps.specs.Inside.Walks.{Walkable, states_of};
ghost use Rattle.turned.specs.Inside.Backs.{Backs};
ghost use Rattle.turned.specs.Inside.Turns.{lift_of, ways_of, Spread, Listed, TurnedTo};

use meaning::OpNo;
use tables::Counts;
use tables::readers::{DOM_ROW, eff_row, pre_row, row_at};
use tables::steps::value_after;

// The room for what is found of each operator.
pub const TURNS_ROOM: usize = 64;

// An operator turned round: what is taken off the number of the state after it, what is put on, and how many offsets there are. A count and no slice of them:
// all operators' offsets stand in one table that is lent for writing.
#[derive(Clone, Copy)]
pub struct Turned {
    pub drop: u32,
    pub lift: u32,
    pub count: u32,
}

// The value before a step that has an effect.
fn lift_of(pre: u8, eff: u8) -> u8
    ensures { result ≡ lift_of pre eff }
{
    if eff == 0 { 0 } else { pre.saturating_sub(1) }
}

// How many values will do before it.
fn ways_of(pre: u8, eff: u8, k: u32) -> u32
    ensures { result ≡ ways_of pre eff k }
{
    if eff == 0 {
        return 1;
    }
    if pre == 0 { k } else { 1 }
}

// Lists the first places again and again, each time with a stride more. By index, since each place is made of the one `len` before it in the same list.
fn spread(list: &mut [u16], len: usize, ways: usize, stride: u32)
    requires le_len { (1 ≤ len) × (1 ≤ ways) × (ways ≤ most_values) × (len * ways ≤ most_states) × (len * ways ≤ length list.old) × (stride ≤ most_states) }
    requires by_index { (i : ℕ) → i < len → get_or list.old i 0 < most_states }
    ensures { Spread len (len * ways) stride list.old list.new }
{
    for j in len..len * ways {
        list[j] = (u32::from(list[j - len]) + stride) as u16;
    }
}

// The offsets of an operator, with what is taken off and put on.
fn turn_lists(c: Counts, facts: &[u8], o: OpNo, list: &mut [u16]) -> Turned
    requires { Walkable c facts.now × (o.0 < c.ops) × (states_of c facts.now ≤ length list.old) }
    ensures turned_to { TurnedTo c (was facts) o.0 result }
    ensures listed { Listed (was facts) o.0 c.vars result.count list.old list.new }
{
    let mut stride = 1;
    let mut count = 1;
    let mut drop = 0;
    let mut lift = 0;
    list[0] = 0;
    for v in 0..c.vars {
        let k = u32::from(row_at(facts, DOM_ROW, v));
        let pre = row_at(facts, pre_row(o), v);
        let eff = row_at(facts, eff_row(o), v);
        drop += u32::from(value_after(eff, 0)) * stride;
        lift += u32::from(lift_of(pre, eff)) * stride;
        let ways = ways_of(pre, eff, k);
        spread(list, count as usize, ways as usize, stride);
        count *= ways;
        stride *= k;
    }
    Turned { drop, lift, count }
}

// Turns every operator round; of the n states' numbers each has n places in `back`.
pub fn turn_all(c: Counts, facts: &[u8], n: usize, back: &mut [u16]) -> [Turned; TURNS_ROOM]
    requires { Walkable c facts.now × (n ≡ states_of c facts.now) × (c.ops * n ≤ length back.old) }
    ensures backs { Backs c (was facts) n result back.new }
    ensures turns_len { length result ≡ 64 }
    ensures back_len { length back.new ≡ length back.old }
{
    let none = Turned {
        drop: 0,
        lift: 0,
        count: 0,
    };
    let mut turns = [none; TURNS_ROOM];
    // By number: o is the operator that is turned round, its place, and where its offsets begin.
    for o in 0..c.ops {
        let at = o as usize * n;
        turns[o as usize] = turn_lists(c, facts, OpNo(o), &mut back[at..at + n]);
    }
    turns
}
