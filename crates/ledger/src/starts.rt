// Whether a run's own start is one.
ghost use Rattle.std.specs.Prelude.{◌≡◌};
ghost use Rattle.ledger.specs.Ledger.{start_at, start_in};
ghost use Rattle.tables.specs.Task.{was};

use crate::judged::Judged;
use tables::readers::{DOM_ROW, row_at};

impl Judged<'_> {
    // A value of a start: in its variable, or 0 beyond the variables.
    fn has_value(&self, v: u32, x: u8) -> bool
        ensures { result ≡ start_at (was self).tables.counts (was self).tables.facts.now v x }
    {
        if v < self.tables.counts.vars {
            x < row_at(self.tables.facts, DOM_ROW, v)
        } else {
            x == 0
        }
    }

    // Each value in its variable, and 0 beyond the variables.
    pub fn has_start(&self, start: &[u8; 8]) -> bool
        ensures { result ≡ start_in (was self).tables.counts (was self).tables.facts.now (was start) }
    {
        // A `for` and no `all`: of a closure's argument nothing says that it is below 8, and so that `v as u32` fits.
        for (v, x) in start.iter().enumerate() {
            if !self.has_value(v as u32, *x) {
                return false;
            }
        }
        true
    }
}
