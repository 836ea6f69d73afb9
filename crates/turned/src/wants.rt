// What is wanted of the state after an operator: its effects, and where it has none its preconditions. Rows that are laid of it tell of each state which
// operators may have led there.
ghost use Rattle.std.specs.Prelude.{◌≡◌, ◌*◌, ◌≤◌, ◌<◌, length};
ghost use Rattle.meaning.specs.Limits.{most_ops};
ghost use Rattle.tables.specs.Task.{was};
ghost use Rattle.maps.specs.Inside.Walks.{Walkable, states_of};
ghost use Rattle.maps.specs.Inside.Rows.{lanes};
ghost use Rattle.turned.specs.Inside.Wants.{want_of, want_at, Wants, Fits};

use maps::classes::SEEN;
use maps::parts::lay_steps;
use tables::Counts;
use tables::readers::get_or;

// Where the preconditions begin, 8 an operator.
const PRES: usize = 24;

// What is wanted of a variable after a step.
fn want_of(pre: u8, eff: u8) -> u8
    ensures { result ≡ want_of pre eff }
{
    if eff == 0 { pre } else { eff }
}

// What stands at a place up to the preconditions' last, with what is wanted for them.
fn want_at(facts: &[u8], i: usize) -> u8
    requires { i < 536 }
    ensures { result ≡ want_at (was facts) i }
{
    if PRES <= i {
        want_of(get_or(facts, i, 0), get_or(facts, i + 512, 0))
    } else {
        get_or(facts, i, 0)
    }
}

// The facts with what is wanted for the operators' preconditions, and no effects.
fn wants(c: Counts, facts: &[u8]) -> [u8; SEEN]
    requires { c.ops ≤ most_ops }
    ensures { Wants c.ops (was facts) result }
{
    let end = PRES + c.ops as usize * 8;
    let mut t = [0; SEEN];
    // By number: i is the place that the facts are asked for, and the one that is written.
    for i in 0..end {
        t[i] = want_at(facts, i);
    }
    t
}

// Lays a row for each state: 0 stands for each operator that may have led there, and for the goal where it is met.
pub fn lay_fits(c: Counts, facts: &[u8], t: &mut [u16])
    requires { Walkable c facts.now × (states_of c facts.now * lanes ≤ length t.old) }
    ensures fits { Fits c (was facts) t.new }
    ensures t_len { length t.new ≡ length t.old }
{
    let w = wants(c, facts);
    lay_steps(c, &w, 0, t);
}
