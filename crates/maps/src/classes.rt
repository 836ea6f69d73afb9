// The task of a map's classes, in the lent tables' layout: worked out once a map, before the rounds.
ghost use Rattle.std.specs.Prelude.{◌≡◌, ℕ, ◌-◌, ◌<◌, length, get_or};
ghost use Rattle.meaning.specs.Limits.{most_vars, most_maps};
ghost use Rattle.meaning.specs.Numbering.{size};
ghost use Rattle.meaning.specs.Sas.{IsState};
ghost use Rattle.meaning.specs.Views.{seen};
ghost use Rattle.meaning.specs.Split.{count_of, Valid};
ghost use Rattle.tables.specs.Layout.{dom_at, class_at};
ghost use Rattle.tables.specs.Task.{state_of, was};
ghost use Rattle.maps.specs.Inside.Walks.{Walkable};
ghost use Rattle.maps.specs.Inside.Classes.{unpriced, seen_places, SeenAt, Classed, image_of};

use meaning::StateNo;
use tables::Counts;
use tables::classes::count_of;
use tables::readers::{DOM_ROW, class_row, get_or, row_at};

// The places of the rows from the numbers of values to the last operator's effects: 131 rows of 8.
pub const SEEN: usize = 1048;

// What is said of a variable, seen by the classes of map m. No accepted fact has a class of 255. A byte and no `Option`: it goes into a row of facts, where 0 says
// nothing (`seen`).
fn seen_fact(facts: &[u8], m: u32, v: u32, fact: u8) -> u8
    requires { (m < most_maps) × (v < most_vars) }
    ensures { class_at (was facts) m v (fact - 1) < 255 → result ≡ seen (class_at (was facts) m v) fact }
{
    if fact == 0 {
        return 0;
    }
    let class = row_at(facts, class_row(m, v), u32::from(fact - 1));
    if class < 255 { class + 1 } else { 0 }
}

// The rows of facts seen by the classes of map m, place by place.
fn seen_facts(facts: &[u8], m: u32) -> [u8; SEEN]
    requires { m < most_maps }
    ensures { (length result ≡ seen_places) × ((i : ℕ) → i < seen_places → SeenAt (was facts) m i (get_or result i 0)) }
{
    let mut t = [0; SEEN];
    for (i, place) in t.iter_mut().enumerate() {
        *place = seen_fact(facts, m, (i % 8) as u32, get_or(facts, i, 0));
    }
    t
}

// How many classes a variable has in map m.
fn class_count(c: Counts, facts: &[u8], m: u32, v: u32) -> u8
    requires { Valid (unpriced c facts.now) × (m < c.maps) × (v < c.vars) }
    ensures { result ≡ count_of (class_at (was facts) m v) (dom_at (was facts) v) }
{
    count_of(facts, u32::from(row_at(facts, DOM_ROW, v)), class_row(m, v)) as u8
}

// The task of the classes of map m.
pub fn class_facts(c: Counts, facts: &[u8], m: u32) -> [u8; SEEN]
    requires { Valid (unpriced c facts.now) × (m < c.maps) }
    ensures { Classed c (was facts) m result }
{
    let mut t = seen_facts(facts, m);
    // By number: v is the variable whose classes are counted, and its place.
    for v in 0..c.vars {
        t[v as usize] = class_count(c, facts, m, v);
    }
    t
}

// How many states the facts' variables have: the product of their numbers of values.
pub fn states_of(c: Counts, facts: &[u8]) -> u32
    requires { Walkable c facts.now }
    ensures { result ≡ size (dom_at (was facts)) c.vars }
{
    let mut n = 1;
    for v in 0..c.vars {
        n *= u32::from(row_at(facts, DOM_ROW, v));
    }
    n
}

// The abstract state of map m that a state is seen as.
pub fn image_of(c: Counts, facts: &[u8], m: u32, s: &[u8]) -> StateNo
    requires { Valid (unpriced c facts.now) × (m < c.maps) × IsState (unpriced c facts.now).sas (state_of s.now) }
    ensures { result.0 ≡ image_of c (was facts) m (state_of (was s)) }
{
    let mut stride = 1;
    let mut b = 0;
    for v in 0..c.vars {
        let value = u32::from(get_or(s, v as usize, 0));
        b += u32::from(row_at(facts, class_row(m, v), value)) * stride;
        stride *= u32::from(class_count(c, facts, m, v));
    }
    StateNo(b)
}
