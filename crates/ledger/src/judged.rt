// A task's tables once they were judged and found clean, so that nothing behind the two entries judges them again.
ghost use Rattle.scan.specs.Found.{clean};
ghost use Rattle.std.specs.Prelude.{◌≡◌, MatchResult};
ghost use Rattle.tables.specs.Task.{held, lent};
ghost use Rattle.scan.specs.Scan.{tables_fault};

use refusals::Refusal;
use scan::tables_fault;
use tables::LentTables;

// The tables as they were lent, and that they are clean.
#[derive(Clone, Copy)]
pub struct Judged<'a> {
    pub tables: LentTables<'a>,
    pub ghost is_clean: { tables_fault (held tables) ≡ clean },
}

impl<'a> Judged<'a> {
    // The tables if they are clean, else their first fault.
    pub fn new(tables: LentTables<'a>) -> Result<Judged<'a>, Refusal>
        ensures { MatchResult result (λ t. held t.tables ≡ lent tables) (λ f. tables_fault (lent tables) ≡ Err f) }
    {
        tables_fault(tables)?;
        Ok(Judged { tables })
    }
}
