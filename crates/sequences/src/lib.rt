// Step sequences: judging a lent list of operators, the cheaper of two lists, and the opening part of the cheaper one.
#![tactic(auto)]

ghost use Rattle.std.specs.Prelude.{◌≡◌};
ghost use Rattle.tables.specs.Task.{lent, was};
ghost use Rattle.sequences.specs.Judging.{judged_of};
ghost use Rattle.sequences.specs.Choosing.{cheaper_of};
ghost use Rattle.sequences.specs.Opening.{OpeningOf};

use crate::choosing::{Cheaper, Choice, choice_of, front};
use crate::judging::judge_list;
use refusals::Refusal;
use scan::input_fault;
use tables::LentTables;

pub mod choosing;
pub mod judging;
pub mod stepping;

// JUDGING a lent list of operators from a lent state: passed at its cost, or the first refusal in the paper's order.
#[tactic(auto, unfolding(crate::specs::Judging::judged_of))]
pub fn judge(t: LentTables, s: &[u8], ops: &[u32]) -> Result<u32, Refusal>
    ensures { result ≡ judged_of (lent t) (was s) (was ops) }
{
    input_fault(t, s)?;
    judge_list(t, s, ops)
}

// THE CHEAPER OF TWO lent lists, each judged up to the first moment a goal holds: the first, the second or neither, with the cost; or why the input is refused.
pub fn cheaper(t: LentTables, s: &[u8], a: &[u32], b: &[u32]) -> Result<Cheaper, Refusal>
    ensures { result ≡ cheaper_of (lent t) (was s) (was a) (was b) }
{
    let choice = choice_of(t, s, a, b)?;
    Ok(Cheaper::from(choice))
}

// THE OPENING PART of the cheaper list, of the caller's own memory; for neither, or refused input, the empty part at the start of the first list.
pub fn opening<'a>(t: LentTables, s: &[u8], a: &'a [u32], b: &'a [u32]) -> &'a [u32]
    ensures { OpeningOf (lent t) (was s) a.entry b.entry result }
{
    match choice_of(t, s, a, b) {
        Ok(Choice::FirstPart(part)) => front(a, part.steps),
        Ok(Choice::SecondPart(part)) => front(b, part.steps),
        Ok(Choice::NoPart) | Err(_) => front(a, 0),
    }
}
