// Least costs to a goal, round by round: one table read and another written, until a round changes nothing. Wherever a number falls, the operator that
// makes it fall is noted, and at the last fall that is the best step.
ghost use Rattle.std.specs.Prelude.{◌≡◌, ◌+◌, ◌≤◌, ◌<◌, length};
ghost use Rattle.graph.specs.Cost.{plus};
ghost use Rattle.graph.specs.Least.{at_goal, after_step};
ghost use Rattle.graph.specs.Noted.{under, choose};
ghost use Rattle.sweep.specs.Said.{NONE, said, said_at, advised};
ghost use Rattle.sweep.specs.Inside.Walks.{next_of};
ghost use Rattle.sweep.specs.Inside.Spaces.{graph_of};
ghost use Rattle.sweep.specs.Inside.Sweeps.{Addable, Filled, Cleared, Copied, Picks, Swept, Noted, Counted};
ghost use Rattle.tables.specs.Task.{was};

use crate::space::Space;
use crate::walk::{digits, step_from};
use meaning::{OpNo, StateNo};
use tables::readers::{cost_at, get_or};
use tables::steps::meets_goal;

// Stands for no distance in a table. A word and no Option, as is all that is compared here: the tables that are lent hold it (`said`).
pub const NO_COST: u32 = 4294967295;

// Stands for no operator in a table of best steps, likewise (`advised`).
pub const NO_OP: u8 = 255;

// A least cost, and the lowest operator that attains it, as the two tables hold them.
#[derive(Clone, Copy)]
pub struct Pick {
    pub cost: u32,
    pub op: u8,
}

// The cost over no steps: 0 at a goal, else none.
#[tactic(auto, unfolding(crate::specs::Said::said))]
fn start(goal: bool) -> u32
    ensures { said result ≡ at_goal goal }
{
    if goal { 0 } else { NO_COST }
}

// A price and what it costs beyond; none is never added like a number.
#[tactic(auto, using(crate::proofs::Saids::price_none, crate::proofs::Saids::price_added))]
fn with_price(price: u32, beyond: u32) -> u32
    requires { beyond < NONE → price + beyond < NONE }
    ensures { said result ≡ plus price (said beyond) }
{
    if beyond == NO_COST {
        NO_COST
    } else {
        price + beyond
    }
}

// What a table says of where a step leads.
#[tactic(auto, unfolding(crate::specs::Said::said))]
fn beyond(old: &[u32], next: Option<StateNo>) -> u32
    ensures { said result ≡ after_step (said_at (was old)) (next_of next) }
{
    match next {
        Some(b) => get_or(old, usize::from(b), 0),
        None => NO_COST,
    }
}

// The operator noted at a state: the pick's where its cost is below that of before.
#[tactic(auto, using(crate::proofs::Picking::note_fallen, crate::proofs::Picking::note_kept))]
fn note(noted: u8, before: u32, p: Pick) -> u8
    ensures { advised result ≡ choose (under (said p.cost) (said before)) (advised p.op) (advised noted) }
{
    if p.cost < before { p.op } else { noted }
}

// Sets the first n places to no operator. n beside the table: the contract tells of the places past them too, that they stay (`Made`).
fn clear(n: u32, best: &mut [u8])
    requires { n ≤ length best.old }
    ensures { Cleared n best.old best.new }
{
    best[..n as usize].fill(NO_OP);
}

// Sets the first n places of `to` to those of `from`, and those past them stay.
fn copy(n: u32, from: &[u32], to: &mut [u32])
    requires { (n ≤ length from.now) × (n ≤ length to.old) }
    ensures { Copied n (was from) to.old to.new }
{
    to[..n as usize].copy_from_slice(&from[..n as usize]);
}

impl Space<'_> {
    // The least cost from a state over one step more than `old` has, and the lowest operator that attains it.
    fn cell(&self, old: &[u32], a: StateNo) -> Pick
        requires { (a.0 < self.now.states) × Addable self.now.states old.now }
        ensures { Picks (graph_of self.now) (said_at (was old)) a.0 self.now.c.ops result }
    {
        let s = digits(self.c.vars, self.facts, a);
        let mut least = Pick {
            cost: start(meets_goal(self.c, self.facts, &s)),
            op: NO_OP,
        };
        for o in 0..self.c.ops {
            let next = step_from(self.c, self.facts, &s, OpNo(o));
            let cost = with_price(cost_at(self.prices, OpNo(o)), beyond(old, next));
            if cost < least.cost {
                least = Pick { cost, op: o as u8 };
            }
        }
        least
    }

    // Sets `new` to the round after that of `old`, notes in `best` the operators that make a number fall, and says whether the two tables differ.
    fn sweep(&self, old: &[u32], new: &mut [u32], best: &mut [u8]) -> bool
        requires { (self.now.states ≤ length old.now) × (self.now.states ≤ length new.old) × (self.now.states ≤ length best.old) × Addable self.now.states old.now }
        ensures swept { Swept self.now.states (graph_of self.now) (was old) new.old new.new result }
        ensures noted { Noted self.now.states (graph_of self.now) (was old) best.old best.new }
    {
        let mut changed = false;
        // By number: a is the state that is asked for, and its place in three tables, two of which are written.
        for a in 0..self.states {
            let p = self.cell(old, StateNo(a));
            let before = old[a as usize];
            if p.cost != before {
                changed = true;
            }
            new[a as usize] = p.cost;
            best[a as usize] = note(best[a as usize], before, p);
        }
        changed
    }

    // Sets the places of the states to the costs over no steps.
    fn fill(&self, t: &mut [u32])
        requires { self.now.states ≤ length t.old }
        ensures { Filled self.now.states (graph_of self.now) t.old t.new }
    {
        // By number: a is the state whose values are asked for.
        for a in 0..self.states {
            let s = digits(self.c.vars, self.facts, StateNo(a));
            t[a as usize] = start(meets_goal(self.c, self.facts, &s));
        }
    }

    // The count of rounds: the first that changes nothing; `t` holds the distances then, and `best` the best steps. `w` is a table to work in.
    pub fn count_rounds(&self, t: &mut [u32], best: &mut [u8], w: &mut [u32]) -> u32
        requires { (self.now.states ≤ length t.old) × (self.now.states ≤ length best.old) × (self.now.states ≤ length w.old) }
        ensures { Counted (graph_of self.now) t.old t.new best.old best.new result }
    {
        self.fill(t);
        clear(self.states, best);
        let mut rounds = 0u32;
        // A loop and no range: that it ends is because each round but the last changes something.
        loop {
            let changed = self.sweep(t, w, best);
            rounds += 1;
            if !changed {
                return rounds;
            }
            copy(self.states, w, t);
        }
    }
}
