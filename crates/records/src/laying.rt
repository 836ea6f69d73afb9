// The tables of a row of records, by value: the lent facts with the operators' rows and marks laid over them, and the costs.
ghost use Rattle.std.specs.Prelude.{◌≡◌, ◌<◌};
ghost use Rattle.meaning.specs.Limits.{most_vars, most_ops};
ghost use Rattle.records.specs.Records.{counted, row_laid, laid_one};
ghost use Rattle.records.specs.Inside.Parts.{copy_of, laid_judged};
ghost use Rattle.tables.specs.Task.{was};

use crate::OpRecord;
use meaning::OpNo;
use meaning::limits::OPS_MOST;
use refusals::Refusal;
use sequences::judge;
use tables::readers::{COSTS_ROOM, FACTS_ROOM, MARK_ROW, eff_row, pre_row};
use tables::{Counts, LentTables};

// The facts and the costs of a task.
#[derive(Clone, Copy)]
pub struct Laid {
    pub facts: [u8; FACTS_ROOM],
    pub costs: [u32; COSTS_ROOM],
}

impl Laid {
    // The lent facts by value, and no costs yet.
    pub fn copied(facts: &[u8]) -> Laid
        ensures { result ≡ copy_of (was facts) }
    {
        let n = facts.len().min(FACTS_ROOM);
        let mut copy = [0u8; FACTS_ROOM];
        copy[..n].copy_from_slice(&facts[..n]);
        Laid {
            facts: copy,
            costs: [0u32; COSTS_ROOM],
        }
    }

    // Lays a record's 8 places at a row.
    pub fn lay_row(&mut self, row: u32, values: &[u8; 8])
        requires { row < 203 }
        ensures facts { self.new.facts ≡ row_laid self.old.facts row values.now most_vars }
        ensures costs { self.new.costs ≡ self.old.costs }
    {
        let at = row as usize * 8;
        self.facts[at..at + 8].copy_from_slice(values);
    }

    // Lays an operator's record in its places.
    #[tactic(auto, unfolding(crate::specs::Records::laid_one))]
    pub fn lay(&mut self, o: usize, r: &OpRecord)
        requires { o < most_ops }
        ensures { self.new ≡ laid_one self.old o r.now }
    {
        let at = OpNo(o as u32);
        self.lay_row(pre_row(at), &r.pre);
        self.lay_row(eff_row(at), &r.eff);
        self.facts[MARK_ROW as usize * 8 + o] = r.mark;
        self.costs[o] = r.cost;
    }
}

// The counts with the row's length for the number of operators: any number above the limit stands as one above it.
pub fn counted(c: Counts, n: usize) -> Counts
    ensures { result ≡ counted c n }
{
    Counts {
        ops: n.min(OPS_MOST as usize + 1) as u32,
        ..c
    }
}

// Judging over the laid tables. The lent facts must have had their room, since a copy has it always.
#[tactic(auto, unfolding(crate::specs::Inside::Parts::laid_judged))]
pub fn judge_laid(
    c: Counts,
    room: usize,
    n: usize,
    t: &Laid,
    shares: &[u32],
    s: &[u8],
    ops: &[u32],
) -> Result<u32, Refusal>
    ensures { result ≡ laid_judged c room n t.now (was shares) (was s) (was ops) }
{
    if room < FACTS_ROOM {
        return Err(Refusal::TableTooShort);
    }
    let laid = LentTables {
        counts: counted(c, n),
        facts: &t.facts,
        costs: &t.costs,
        shares,
    };
    judge(laid, s, ops)
}
