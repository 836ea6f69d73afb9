// What is done with a label that is offered to a state.
ghost use Rattle.std.specs.Prelude.{◌≡◌, ◌≤◌, ◌<◌, length, get_or};
ghost use Rattle.waiting.specs.Trees.{Tree};
ghost use Rattle.waiting.specs.Offers.{NOLABEL, Shaped, Offered};

use crate::tree::{Waiting, put};

// The label that stands for none: above every cost × 4096 + steps that there may be. A number, so that any label that is offered is below it.
pub const NO_LABEL: u64 = 17592186044416;

// What is known of each state so far: its label, whether it waits, and the operator that gave it the label.
#[derive(Drop)]
pub struct Found<const STATES: usize> {
    pub labels: [u64; STATES],
    pub waiting: Waiting,
    pub best: [u8; STATES],
    ghost rooms: { (length labels ≡ STATES) × (length best ≡ STATES) },
}

// Takes the label if it is lower, and the operator if the label is as good.
pub fn offer(labels: &mut [u64], keys: &mut [u64], best: &mut [u8], a: usize, o: u8, new: u64)
    requires a_in_bounds { (a < length labels.old) × (a < length best.old) × (length keys.old ≡ 4368) × (a < 4096) }
    requires tree { Tree keys.old × (get_or labels.old a 0 ≤ NOLABEL) × Shaped labels.old keys.old a }
    ensures { Offered a o new labels.old keys.old best.old labels.new keys.new best.new }
{
    let old = labels[a];
    if new < old {
        labels[a] = new;
        best[a] = o;
        put(keys, a, new * 4096 + a as u64);
        return;
    }
    if new == old {
        best[a] = best[a].min(o);
    }
}

impl<const STATES: usize> Found<STATES> {
    // Takes the label if it is lower, and the operator if the label is as good.
    pub fn offer(&mut self, a: usize, o: u8, new: u64)
        requires a_in_bounds { (a < STATES) × (a < 4096) }
        requires shaped { (get_or self.old.labels a 0 ≤ NOLABEL) × Shaped self.old.labels self.old.waiting.keys a }
        ensures { Offered a o new self.old.labels self.old.waiting.keys self.old.best self.new.labels self.new.waiting.keys self.new.best }
    {
        offer(
            &mut self.labels,
            &mut self.waiting.keys,
            &mut self.best,
            a,
            o,
            new,
        );
    }
}
