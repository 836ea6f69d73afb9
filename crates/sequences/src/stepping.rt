// One step of a sequence: whether it can be taken, how far a walk has come after it, and the state that a sequence starts from.
ghost use Rattle.std.specs.Prelude.{◌≡◌, ◌+◌, ◌≤◌, ◌<◌};
ghost use Rattle.meaning.specs.Limits.{most_vars, most_ops};
ghost use Rattle.tables.specs.Layout.{mark_of};
ghost use Rattle.tables.specs.Task.{state_of, was, lent, task_of};
ghost use Rattle.tables.specs.Steps.{copied, stepped};
ghost use Rattle.sequences.specs.Stepping.{refusal_of, step_of};

use meaning::OpNo;
use refusals::Refusal;
use tables::LentTables;
use tables::readers::{cost_at, mark_of};
use tables::steps::{can_store, may_run, state_after};

// Why a step can't be taken: there is no such operator; it may not run; it stores beyond the quota.
#[derive(Clone, Copy, PartialEq, Eq)]
pub enum Hitch {
    NoSuch,
    MayNot,
    Beyond,
}

impl Hitch {
    // The refusal of step k.
    pub fn at_step(self, k: u32) -> Refusal
        ensures { result ≡ refusal_of self k }
    {
        match self {
            Hitch::NoSuch => Refusal::NoSuchOperator(k),
            Hitch::MayNot => Refusal::MayNotRun(k),
            Hitch::Beyond => Refusal::BeyondQuota(k),
        }
    }
}

// How far a walk over a list of operators has come: the state that it is in, how many tests it has stored, and what it has paid.
#[derive(Clone, Copy)]
pub struct Way {
    pub state: [u8; 8],
    pub stored: u32,
    pub paid: u32,
}

impl Way {
    // Before the first step.
    pub fn new(state: [u8; 8]) -> Way
        ensures state { result.state ≡ state }
        ensures stored { result.stored ≡ 0 }
        ensures paid { result.paid ≡ 0 }
    {
        Way {
            state,
            stored: 0,
            paid: 0,
        }
    }

    // Goes on by a step, which is taken at that cost.
    pub fn go(&mut self, t: LentTables, o: OpNo, cost: u32)
        requires vars { t.counts.vars ≤ most_vars }
        requires op { o.0 < most_ops }
        requires stored { self.old.stored + mark_of t.counts t.facts.now o.0 < 4294967296 }
        requires paid { self.old.paid + cost < 4294967296 }
        ensures state { self.new.state ≡ stepped (lent t).counts (lent t).facts self.old.state o.0 }
        ensures stored { self.new.stored ≡ self.old.stored + mark_of (lent t).counts (lent t).facts o.0 }
        ensures paid { self.new.paid ≡ self.old.paid + cost }
    {
        self.state = state_after(t.counts, t.facts, self.state, o);
        self.stored += mark_of(t.counts, t.facts, o);
        self.paid += cost;
    }
}

// Whether the operator can be the next step in the state, after so many stored tests: then at what cost. This is the one test of a step.
pub fn step(t: LentTables, stored: u32, s: &[u8], o: OpNo) -> Result<u32, Hitch>
    requires { t.counts.ops ≤ most_ops }
    ensures { result ≡ step_of (task_of (lent t)) stored (state_of (was s)) o.0 }
{
    if t.counts.ops <= o.0 {
        return Err(Hitch::NoSuch);
    }
    if !may_run(t.counts, t.facts, s, o) {
        return Err(Hitch::MayNot);
    }
    if !can_store(t.counts, t.facts, stored, o) {
        return Err(Hitch::Beyond);
    }
    Ok(cost_at(t.costs, o))
}

// The lent state by value: a place for each of 8 variables, those beyond the task's, or beyond the list's end, 0.
pub fn copy(vars: u32, s: &[u8]) -> [u8; 8]
    requires { vars ≤ most_vars }
    ensures { result ≡ copied (was s) vars }
{
    let n = s.len().min(vars as usize);
    let mut t = [0u8; 8];
    t[..n].copy_from_slice(&s[..n]);
    t
}
