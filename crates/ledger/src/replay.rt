// Replaying a log: where its steps lead from a start. Only what a step changes is carried, and it is changed in place: the state now and the columns. The
// tables were judged before, so their places are read as they are, without a look at the table's length for each.
ghost use Rattle.std.specs.Prelude.{◌≡◌, ◌≤◌, ◌<◌, length};
ghost use Rattle.meaning.specs.Limits.{most_steps};
ghost use Rattle.tables.specs.Steps.{stepped};
ghost use Rattle.tables.specs.Task.{was};
ghost use Rattle.ledger.specs.Ledger.{at_start, onward, can_run, within_quota, can_follow, replayed};
ghost use Rattle.ledger.specs.Inside.Bounded.{HasRoom};
ghost use Rattle.ledger.specs.Inside.Judged.{its_tables};

use crate::judged::Judged;
use crate::{COLUMNS, STORED};
use meaning::OpNo;
use tables::readers::{eff_row, pre_row};
use tables::steps::{can_store, fact_holds, value_after};

// Where a run stands: the state now and the columns.
#[derive(Clone, Copy, PartialEq, Eq)]
pub struct Standing {
    pub now: [u8; 8],
    pub columns: [u32; COLUMNS],
}

impl Judged<'_> {
    // The operator exists and may run in the state.
    pub fn can_run(&self, state: &[u8; 8], op: OpNo) -> bool
        ensures { result ≡ can_run (was self).tables.counts (was self).tables.facts.now (was state) op.0 }
    {
        if self.tables.counts.ops <= op.0 {
            return false;
        }
        let row = pre_row(op) as usize * 8;
        // Row and state by one index: a `zip` looks for two ends in each turn, by which an offer to a full run took 8 % longer.
        for (v, x) in state[..self.tables.counts.vars as usize].iter().enumerate() {
            if !fact_holds(self.tables.facts[row + v], *x) {
                return false;
            }
        }
        true
    }

    // The operator doesn't store beyond the quota, after as many stored tests as the columns tell.
    pub fn within_quota(&self, columns: &[u32; COLUMNS], op: OpNo) -> bool
        ensures { result ≡ within_quota (was self).tables.counts (was self).tables.facts.now (was columns) op.0 }
    {
        can_store(self.tables.counts, self.tables.facts, columns[STORED], op)
    }

    // The operator can be the next step: it can run, and doesn't store beyond the quota.
    fn can_follow(&self, at: &Standing, op: OpNo) -> bool
        ensures { result ≡ can_follow (was self).tables.counts (was self).tables.facts.now (was at) op.0 }
    {
        self.can_run(&at.now, op) && self.within_quota(&at.columns, op)
    }

    // The state after the operator: each effect holds and all else stays.
    fn run(&self, state: &mut [u8; 8], op: OpNo)
        requires { op.0 < self.now.tables.counts.ops }
        ensures { state.new ≡ stepped (was self).tables.counts (was self).tables.facts.now state.old op.0 }
    {
        let row = eff_row(op) as usize * 8;
        for (v, x) in state[..self.tables.counts.vars as usize]
            .iter_mut()
            .enumerate()
        {
            *x = value_after(self.tables.facts[row + v], *x);
        }
    }

    // Where a run stands after the operator.
    pub fn go_on(&self, at: &mut Standing, op: OpNo)
        requires { (op.0 < self.now.tables.counts.ops) × HasRoom at.old.columns }
        ensures { at.new ≡ onward (its_tables (was self)) at.old op.0 }
    {
        self.run(&mut at.now, op);
        self.book(&mut at.columns, op);
    }

    // Where steps lead from a start; nowhere, if one of them can't be the next.
    pub fn replay(&self, start: [u8; 8], steps: &[u32]) -> Option<Standing>
        requires { length steps.now ≤ most_steps }
        ensures { result ≡ replayed (its_tables (was self)) (at_start start) (was steps) }
    {
        let mut at = Standing {
            now: start,
            columns: [0; COLUMNS],
        };
        for step in steps {
            let op = OpNo(*step);
            if !self.can_follow(&at, op) {
                return None;
            }
            self.go_on(&mut at, op);
        }
        Some(at)
    }
}
