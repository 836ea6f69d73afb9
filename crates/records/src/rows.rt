// The lent row, read record by record.
ghost use Rattle.std.specs.Prelude.{◌≡◌, length, min};
ghost use Rattle.meaning.specs.Limits.{most_ops};
ghost use Rattle.records.specs.Records.{laid_of};
ghost use Rattle.tables.specs.Task.{was};

use crate::OpRecord;
use crate::laying::Laid;
use meaning::limits::OPS_MOST;

// The row's records in their places of the tables, one after the other; as many as there are places for.
pub fn gather(rows: &[OpRecord], t: Laid) -> Laid
    ensures { result ≡ laid_of (was rows) (min (length (was rows)) most_ops) t }
{
    let held = &rows[..rows.len().min(OPS_MOST as usize)];
    let mut laid = t;
    for (o, r) in held.iter().enumerate() {
        laid.lay(o, r);
    }
    laid
}
