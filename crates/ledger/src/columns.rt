// What a step books.
ghost use Rattle.std.specs.Prelude.{◌≡◌, ◌<◌};
ghost use Rattle.tables.specs.Task.{task_of, was};
ghost use Rattle.ledger.specs.Ledger.{booked};
ghost use Rattle.ledger.specs.Inside.Bounded.{HasRoom};
ghost use Rattle.ledger.specs.Inside.Judged.{its_tables};

use crate::judged::Judged;
use crate::{COLUMNS, STORED, UNSHARED};
use meaning::OpNo;
use tables::readers::mark_of;

impl Judged<'_> {
    // Adds the operator's share to each map's column, what it costs beyond its shares to the unshared one, and its mark to the stored tests.
    pub fn book(&self, columns: &mut [u32; COLUMNS], op: OpNo)
        requires { (op.0 < self.now.tables.counts.ops) × HasRoom columns.old }
        ensures { columns.new ≡ booked (task_of (its_tables (was self))) columns.old op.0 }
    {
        let o = usize::from(op);
        let maps = self.tables.counts.maps as usize;
        let mut shared = 0;
        for (m, column) in columns[..maps].iter_mut().enumerate() {
            let share = self.tables.shares[m * 64 + o];
            *column += share;
            shared += share;
        }
        columns[UNSHARED] += self.tables.costs[o] - shared;
        columns[STORED] += mark_of(self.tables.counts, self.tables.facts, op);
    }
}
