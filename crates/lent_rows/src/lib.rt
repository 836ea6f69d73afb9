// Judging by the first records of a row that is held by value. The row may have more records than there may be operators, so that rows that are too long can be lent too.
#![tactic(auto)]

ghost use Rattle.std.specs.Prelude.{◌≡◌, ◌≤◌, take};
ghost use Rattle.sequences.specs.Judging.{judged_of};
ghost use Rattle.records.specs.Records.{records_tables};
ghost use Rattle.tables.specs.Task.{was};

use records::{OpRecord, judge_records};
use refusals::Refusal;
use tables::Counts;

// Judging by the first n records of a row, which are lent here.
pub fn judge_first<const N: usize>(
    c: Counts,
    facts: &[u8],
    shares: &[u32],
    rows: [OpRecord; N],
    n: usize,
    s: &[u8],
    ops: &[u32],
) -> Result<u32, Refusal>
    requires { n ≤ N }
    ensures { result ≡ judged_of (records_tables c (was facts) (was shares) (take n rows.entry)) (was s) (was ops) }
{
    judge_records(c, facts, shares, &rows[..n], s, ops)
}
