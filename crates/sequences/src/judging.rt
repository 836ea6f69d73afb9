// Judging a lent list of operators.
ghost use Rattle.std.specs.Prelude.{◌≡◌, ◌≤◌, length};
ghost use Rattle.tables.specs.Task.{state_of, was, held, lent, task_of};
ghost use Rattle.sequences.specs.Inside.Steps.{Usable};
ghost use Rattle.meaning.specs.Limits.{most_steps};
ghost use Rattle.sequences.specs.Judging.{walked, limited};

use crate::stepping::{Way, copy, step};
use meaning::OpNo;
use meaning::limits::STEPS_MOST;
use refusals::Refusal;
use tables::LentTables;
use tables::steps::meets_goal;

// The steps in order from a state; the goal last: passed at that cost, or the first refusal.
// Beside `reach`, and no second instance of one walk: a goal on the way doesn't end this one, and a step that can't be taken is told with its number.
pub fn walk(t: LentTables, start: [u8; 8], ops: &[u32]) -> Result<u32, Refusal>
    requires { Usable (task_of (held t)) × (length ops.now ≤ most_steps) }
    ensures { result ≡ walked (task_of (lent t)) 0 0 0 (state_of start) (was ops) }
{
    let mut way = Way::new(start);
    for (i, o) in ops.iter().enumerate() {
        let stepped = step(t, way.stored, &way.state, OpNo(*o));
        let Ok(cost) = stepped else {
            let k = i as u32 + 1;
            return stepped.map_err(|hitch| hitch.at_step(k));
        };
        way.go(t, OpNo(*o), cost);
    }
    if meets_goal(t.counts, t.facts, &way.state) {
        Ok(way.paid)
    } else {
        Err(Refusal::NoGoal(ops.len() as u32))
    }
}

// The list from the lent state, once tables and state are accepted: its length first, then its steps.
#[tactic(auto, unfolding(crate::specs::Judging::limited, meaning::specs::Limits::most_steps))]
pub fn judge_list(t: LentTables, s: &[u8], ops: &[u32]) -> Result<u32, Refusal>
    requires { Usable (task_of (held t)) }
    ensures { result ≡ limited (task_of (lent t)) (state_of (was s)) (was ops) }
{
    if ops.len() > STEPS_MOST {
        return Err(Refusal::SequenceTooLong);
    }
    walk(t, copy(t.counts.vars, s), ops)
}
