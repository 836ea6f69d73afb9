// The cheaper of two lent lists of operators, each judged up to the first moment a goal holds.
ghost use Rattle.std.specs.Prelude.{◌≡◌, ◌≤◌, length};
ghost use Rattle.tables.specs.Task.{state_of, lent, was, held, task_of};
ghost use Rattle.sequences.specs.Inside.Steps.{Usable};
ghost use Rattle.meaning.specs.Limits.{most_steps};
ghost use Rattle.sequences.specs.Choosing.{reached_from, reached_of, choice_of, chosen_from, chosen_of, named_of};
ghost use Rattle.sequences.specs.Opening.{Opening};

use crate::stepping::{Way, copy, step};
use meaning::OpNo;
use meaning::limits::STEPS_MOST;
use refusals::Refusal;
use scan::input_fault;
use tables::LentTables;
use tables::steps::meets_goal;

// An opening part of a list: its first steps, and what they cost.
#[derive(Clone, Copy)]
pub struct Part {
    pub steps: usize,
    pub cost: u32,
}

// The opening part that is chosen of two lists, and of which; or no part.
#[derive(Clone, Copy)]
pub enum Choice {
    FirstPart(Part),
    SecondPart(Part),
    NoPart,
}

// The cheaper list, with the cost up to its first goal moment; or neither.
// Beside `Choice`, and no instance of one type: this one names a list, that one a part to be cut out of it, and as one they would still be turned into each other.
#[derive(Clone, Copy)]
pub enum Cheaper {
    First(u32),
    Second(u32),
    Neither,
}

// What a choice names, with its cost.
impl From<Choice> for Cheaper {
    ghost from_gives = { λ d e. e ≡ named_of d };

    fn from(d: Choice) -> Cheaper {
        match d {
            Choice::FirstPart(part) => Cheaper::First(part.cost),
            Choice::SecondPart(part) => Cheaper::Second(part.cost),
            Choice::NoPart => Cheaper::Neither,
        }
    }
}

// The steps in order from a state, up to the first moment a goal holds; none where the list is out.
pub fn reach(t: LentTables, start: [u8; 8], ops: &[u32]) -> Option<Part>
    requires { Usable (task_of (held t)) × (length ops.now ≤ most_steps) }
    ensures { result ≡ reached_from (task_of (lent t)) 0 0 0 (state_of start) (was ops) }
{
    let mut way = Way::new(start);
    for (i, o) in ops.iter().enumerate() {
        if meets_goal(t.counts, t.facts, &way.state) {
            return Some(Part {
                steps: i,
                cost: way.paid,
            });
        }
        let cost = step(t, way.stored, &way.state, OpNo(*o)).ok()?;
        way.go(t, OpNo(*o), cost);
    }
    let whole = Part {
        steps: ops.len(),
        cost: way.paid,
    };
    meets_goal(t.counts, t.facts, &way.state).then_some(whole)
}

// The same for a list of any length: one above the step limit is out.
#[tactic(auto, unfolding(crate::specs::Choosing::reached_of, meaning::specs::Limits::most_steps))]
pub fn reach_within(t: LentTables, start: [u8; 8], ops: &[u32]) -> Option<Part>
    requires { Usable (task_of (held t)) }
    ensures { result ≡ reached_of (task_of (lent t)) (state_of start) (was ops) }
{
    if ops.len() > STEPS_MOST {
        return None;
    }
    reach(t, start, ops)
}

// The cheaper of two lists that were judged so; equal costs name the first.
pub fn choose(a: Option<Part>, b: Option<Part>) -> Choice
    ensures { result ≡ choice_of a b }
{
    match (a, b) {
        (Some(p), Some(q)) if q.cost < p.cost => Choice::SecondPart(q),
        (Some(p), _) => Choice::FirstPart(p),
        (None, Some(q)) => Choice::SecondPart(q),
        (None, None) => Choice::NoPart,
    }
}

// The two lists from the lent state, once tables and state are accepted.
pub fn choose_lists(t: LentTables, s: &[u8], a: &[u32], b: &[u32]) -> Choice
    requires { Usable (task_of (held t)) }
    ensures { result ≡ chosen_from (task_of (lent t)) (state_of (was s)) (was a) (was b) }
{
    let start = copy(t.counts.vars, s);
    let first = reach_within(t, start, a);
    let second = reach_within(t, start, b);
    choose(first, second)
}

// The opening part of a list: the caller's own list, its first n places, or all of it where it is shorter.
// By a range and not by `get`, whose contract doesn't say where the part lies (`Opening`).
pub fn front<'a>(a: &'a [u32], n: usize) -> &'a [u32]
    ensures { Opening result a.entry n }
{
    &a[..a.len().min(n)]
}

// The choice between two lent lists, from a lent state.
#[tactic(auto, unfolding(crate::specs::Choosing::chosen_of))]
pub fn choice_of(t: LentTables, s: &[u8], a: &[u32], b: &[u32]) -> Result<Choice, Refusal>
    ensures { result ≡ chosen_of (lent t) (was s) (was a) (was b) }
{
    input_fault(t, s)?;
    Ok(choose_lists(t, s, a, b))
}
