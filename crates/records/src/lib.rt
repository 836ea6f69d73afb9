// Judging a sequence with the operators taken from one lent row of records, cost and facts together.
#![tactic(auto)]

ghost use Rattle.std.specs.Prelude.{◌≡◌};
ghost use Rattle.sequences.specs.Judging.{judged_of};
ghost use Rattle.records.specs.Records.{records_tables};
ghost use Rattle.tables.specs.Task.{was};

use crate::laying::{Laid, judge_laid};
use crate::rows::gather;
use refusals::Refusal;
use tables::Counts;

pub mod laying;
pub mod rows;

// An operator: its cost, a place a variable for its preconditions and its effects (0 for nothing, k + 1 for the value k), and how many tests it stores.
// Bytes and no `Option` for the places: they are laid into the tables as they are, where 0 and k + 1 are document 01's (`laid_one`).
#[derive(Clone, Copy)]
pub struct OpRecord {
    pub cost: u32,
    pub pre: [u8; 8],
    pub eff: [u8; 8],
    pub mark: u8,
}

// JUDGING a lent list of operators where the operators stand in a lent row of records: the row's length is their number; the count of operators, and of the facts
// the operators' rows and marks, aren't read.
pub fn judge_records(
    c: Counts,
    facts: &[u8],
    shares: &[u32],
    rows: &[OpRecord],
    s: &[u8],
    ops: &[u32],
) -> Result<u32, Refusal>
    ensures { result ≡ judged_of (records_tables c (was facts) (was shares) (was rows)) (was s) (was ops) }
{
    judge_laid(
        c,
        facts.len(),
        rows.len(),
        &gather(rows, Laid::copied(facts)),
        shares,
        s,
        ops,
    )
}
