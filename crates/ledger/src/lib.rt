// The run and its ledger: a run goes in by value and comes back advanced or unchanged, with the answer beside it.
#![tactic(auto)]

ghost use Rattle.std.specs.Prelude.{◌≡◌, ◌≤◌, ◌<◌};
ghost use Rattle.meaning.specs.Limits.{most_steps};
ghost use Rattle.tables.specs.Task.{lent, was};
ghost use Rattle.ledger.specs.Ledger.{fresh, advanced, standing, alike, zeros, is_run, old_step, next_step, offer_judged, run_answered, moved, offered, begun};
ghost use Rattle.ledger.specs.Inside.Bounded.{Bounded};
ghost use Rattle.ledger.specs.Inside.Judged.{its_tables};

mod columns;
mod judged;
mod replay;
mod starts;

use crate::judged::Judged;
use crate::replay::Standing;
use meaning::OpNo;
use meaning::limits::STEPS_MOST;
use refusals::Refusal;
use scan::input_fault;
use sequences::stepping::copy;
use tables::LentTables;

// The unshared column, after those of 8 maps.
pub const UNSHARED: usize = 8;

// The columns that together are the steps' cost: what each map was paid, and the unshared one.
pub const COST_COLUMNS: usize = UNSHARED + 1;

// The stored tests, a count and no payment; and all columns that a run has.
pub const STORED: usize = COST_COLUMNS;

pub const COLUMNS: usize = COST_COLUMNS + 1;

// A run: its start, the operators of its steps, how many they are, the state now, and the columns. Unused places are 0. A length beside the log, since C lends the
// two so, and hands in what it likes (`run_in`).
#[derive(Clone, Copy)]
pub struct Run {
    pub start: [u8; 8],
    pub log: [u32; STEPS_MOST],
    pub len: u32,
    pub now: [u8; 8],
    pub columns: [u32; COLUMNS],
}

// What an offer, or a start, is answered that isn't refused.
#[derive(Clone, Copy, PartialEq, Eq)]
pub enum Answer {
    Accepted,
    Repeated,
}

// The run after an offer or a start, with the answer.
#[derive(Clone, Copy)]
pub struct Offered {
    pub run: Run,
    pub answer: Result<Answer, Refusal>,
}

// No number but 0 stands there. Each is looked at whatever stood before it, since so several can be at once: by `all`, which stops, an offer to a fresh run took
// 18 % longer.
fn all_zero(words: &[u32]) -> bool
    ensures { result ≡ zeros (was words) }
{
    let mut zero = true;
    for x in words {
        zero &= *x == 0;
    }
    zero
}

impl Run {
    // An empty log, columns of 0 and the start as the state now.
    fn fresh(start: [u8; 8]) -> Run
        ensures { result ≡ fresh start }
    {
        Run {
            start,
            log: [0; STEPS_MOST],
            len: 0,
            now: start,
            columns: [0; COLUMNS],
        }
    }

    // Where the run stands.
    fn standing(&self) -> Standing
        ensures { result ≡ standing (was self) }
    {
        Standing {
            now: self.now,
            columns: self.columns,
        }
    }

    // Runs the operator once more. In place: a run that is handed on by value is copied, log and all, and a call in C wants as much more stack.
    fn advance(&mut self, t: &Judged<'_>, op: OpNo)
        requires { (op.0 < t.now.tables.counts.ops) × (self.old.len < most_steps) × Bounded self.old.len self.old.columns }
        ensures { self.new ≡ advanced (its_tables (was t)) self.old op.0 }
    {
        let mut at = self.standing();
        t.go_on(&mut at, op);
        self.log[self.len as usize] = op.0;
        self.len += 1;
        self.now = at.now;
        self.columns = at.columns;
    }

    // The run stands where replaying its log led.
    fn stands_at(&self, at: &Standing) -> bool
        ensures { result ≡ alike (was at) (standing (was self)) }
    {
        at.now == self.now && at.columns == self.columns
    }

    // The run is what its start and log give.
    fn is_run(&self, t: &Judged<'_>) -> bool
        ensures { result ≡ is_run (its_tables (was t)) (was self) }
    {
        let len = self.len as usize;
        if STEPS_MOST < len || !t.has_start(&self.start) {
            return false;
        }
        let (_, unused) = self.log.split_at(len);
        if !all_zero(unused) {
            return false;
        }
        let Some(at) = t.replay(self.start, &self.log[..len]) else {
            return false;
        };
        self.stands_at(&at)
    }

    // An old number: repeated with the logged operator, refused with another.
    fn old_step(&self, number: u32, op: OpNo) -> Result<Answer, Refusal>
        requires { (1 ≤ number) × (number ≤ self.now.len) × (self.now.len ≤ most_steps) }
        ensures { result ≡ old_step (was self) number op.0 }
    {
        if self.log[number as usize - 1] != op.0 {
            return Err(Refusal::OtherOperator(number));
        }
        Ok(Answer::Repeated)
    }

    // The next number: refused if the run is full, the operator may not run, or it stores beyond the quota, else accepted.
    fn next_step(&self, t: &Judged<'_>, number: u32, op: OpNo) -> Result<Answer, Refusal>
        ensures { result ≡ next_step (was t).tables.counts (was t).tables.facts.now (was self) number op.0 }
    {
        if STEPS_MOST <= self.len as usize {
            return Err(Refusal::RunFull(number));
        }
        if !t.can_run(&self.now, op) {
            return Err(Refusal::MayNotRun(number));
        }
        if !t.within_quota(&self.columns, op) {
            return Err(Refusal::BeyondQuota(number));
        }
        Ok(Answer::Accepted)
    }

    // What an offer to a run is answered.
    fn judge(&self, t: &Judged<'_>, number: u32, op: OpNo) -> Result<Answer, Refusal>
        requires { self.now.len ≤ most_steps }
        ensures { result ≡ offer_judged (was t).tables.counts (was t).tables.facts.now (was self) number op.0 }
    {
        if t.tables.counts.ops <= op.0 {
            return Err(Refusal::NoSuchOperator(number));
        }
        if number == 0 || self.len + 1 < number {
            return Err(Refusal::NotTheNext(number));
        }
        if number <= self.len {
            return self.old_step(number, op);
        }
        self.next_step(t, number, op)
    }

    // The answer to an offer once the tables were judged: 17, then the offer itself.
    fn answer(&self, t: &Judged<'_>, number: u32, op: OpNo) -> Result<Answer, Refusal>
        ensures { result ≡ run_answered (its_tables (was t)) (was self) number op.0 }
    {
        if !self.is_run(t) {
            return Err(Refusal::NotARun);
        }
        self.judge(t, number, op)
    }

    // What an offer is answered, once the tables were judged. Only an accepted one moves the run.
    fn offer_to(&mut self, t: &Judged<'_>, number: u32, op: OpNo) -> Result<Answer, Refusal>
        ensures { record { run = self.new; answer = result } ≡ offered (its_tables (was t)) self.old number op.0 }
    {
        let answer = self.answer(t, number, op);
        // Each answer has an arm of its own, as in `moved`: where two share one, the proof isn't told which was taken.
        match answer {
            Ok(Answer::Accepted) => self.advance(t, op),
            Ok(Answer::Repeated) => {}
            Err(_) => {}
        }
        answer
    }

    // An offer of a step: the run after it together with the answer.
    pub fn offer(mut self, t: LentTables, number: u32, op: OpNo) -> Offered
        ensures { result ≡ offered (lent t) self number op.0 }
    {
        let answer = match Judged::new(t) {
            Ok(judged) => self.offer_to(&judged, number, op),
            Err(f) => Err(f),
        };
        Offered { run: self, answer }
    }

    // A fresh run from a lent state; or a run of zeros beside the refusal.
    pub fn begin(t: LentTables, start: &[u8]) -> Offered
        ensures { result ≡ begun (lent t) (was start) }
    {
        // One run for both answers: with one in each arm it was cleared and copied once more, and beginning took three times as long.
        let (now, answer) = match input_fault(t, start) {
            Ok(()) => (copy(t.counts.vars, start), Ok(Answer::Accepted)),
            Err(f) => ([0; 8], Err(f)),
        };
        Offered {
            run: Run::fresh(now),
            answer,
        }
    }
}
