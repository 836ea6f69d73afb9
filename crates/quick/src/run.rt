// The worklist: of the states that wait the one of the least key is taken, and its label offered to all states from which a step leads to it.
// What is shown is that nobody waits in the end, and that the labels are right then; that the least key comes first is for speed alone.
ghost use Rattle.std.specs.Prelude.{◌≡◌, List, ℕ, ◌+◌, ◌*◌, ◌≤◌, ◌<◌, length};
ghost use Rattle.meaning.specs.Limits.{most_cost};
ghost use Rattle.maps.specs.Inside.Walks.{Walkable, states_of};
ghost use Rattle.maps.specs.Inside.Rows.{lanes};
ghost use Rattle.turned.specs.Inside.Wants.{Fits};
ghost use Rattle.waiting.specs.Trees.{NOKEY, leaf};
ghost use Rattle.quick.specs.Inside.Runs.{scaled_of, Run, Every, Nothing, From};
ghost use Rattle.quick.specs.Inside.Works.{ReadyMap, graph_of, Held, Into, Relaxed};

use maps::NO_OP;
use maps::rows::{GOAL_LANE, LANES};
use meaning::OpNo;
use tables::Counts;
use tables::readers::cost_at;
use turned::back::Turned;
use waiting::offers::{Found, offer};
use waiting::tree::{NO_KEY, low, take};

// A map made ready to be walked backwards: the task of its classes and how many states that has, a row of prices, the rows that tell which operators may have led
// to a state, and the operators turned round. What they say of each other is asked of every call (`ReadyMap`) and is no ghost field: it finds a state among those
// that are listed, and a ghost field has only facts with one proof.
#[derive(Clone, Copy)]
pub struct Backwards<'a> {
    pub c: Counts,
    pub facts: &'a [u8],
    pub prices: &'a [u32],
    pub n: usize,
    pub fits: &'a [u16],
    pub turns: &'a [Turned],
    pub back: &'a [u16],
}

// A price with a step counted: price × 4096 + 1.
fn scaled_price(price: u32) -> u64
    requires { price ≤ most_cost }
    ensures { result ≡ price * 4096 + 1 }
{
    u64::from(price) * 4096 + 1
}

impl Backwards<'_> {
    // Offers a label to every state from which the operator leads to b.
    fn relax_op(
        &self,
        b: usize,
        o: u32,
        label: u64,
        labels: &mut [u64],
        keys: &mut [u64],
        best: &mut [u8],
    )
        requires ready { ReadyMap self.now × Into self.now.c self.now.facts.now o b × Held b label labels.old keys.old }
        requires run { Run (graph_of self.now) (graph_of self.now).states b (From o) labels.old keys.old best.old }
        ensures { Relaxed (graph_of self.now) b label (From (o + 1)) labels.old keys.old best.old labels.new keys.new best.new }
    {
        let new = label + scaled_price(cost_at(self.prices, OpNo(o)));
        let turned = self.turns[o as usize];
        let base = b - turned.drop as usize + turned.lift as usize;
        let at = o as usize * self.n;
        for offset in &self.back[at..at + turned.count as usize] {
            offer(
                labels,
                keys,
                best,
                base + usize::from(*offset),
                o as u8,
                new,
            );
        }
    }

    // Offers the label of b to every state from which a step leads to it.
    fn relax_into(
        &self,
        b: usize,
        label: u64,
        labels: &mut [u64],
        keys: &mut [u64],
        best: &mut [u8],
    )
        requires ready { ReadyMap self.now × (b < self.now.n) × Held b label labels.old keys.old }
        requires run { Run (graph_of self.now) (graph_of self.now).states b Every labels.old keys.old best.old }
        ensures { Relaxed (graph_of self.now) b label Nothing labels.old keys.old best.old labels.new keys.new best.new }
    {
        // By number: o is the operator, and its lane.
        for o in 0..self.c.ops {
            let fits = self.fits[b * LANES + o as usize] == 0;
            if fits {
                self.relax_op(b, o, label, labels, keys, best);
            }
        }
    }

    // The same as the function of that name, over what is known of each state so far.
    pub fn run<const STATES: usize>(&self, found: &mut Found<STATES>)
        requires ready { ReadyMap self.now }
        requires run { Run (graph_of self.now) (graph_of self.now).states 0 Nothing found.old.labels found.old.waiting.keys found.old.best }
        ensures ran { Run (graph_of self.now) (graph_of self.now).states 0 Nothing found.new.labels found.new.waiting.keys found.new.best }
        ensures none_waits { (a : ℕ) → a < 4096 → NOKEY ≤ leaf found.new.waiting.keys a }
    {
        run(
            self,
            &mut found.labels,
            &mut found.waiting.keys,
            &mut found.best,
        );
    }

    // The same as the function of that name, over what is known of each state so far.
    pub fn start<const STATES: usize>(&self, found: &mut Found<STATES>)
        requires walkable { Walkable self.now.c self.now.facts.now × (self.now.n ≡ states_of self.now.c self.now.facts.now) }
        requires fits { Fits self.now.c self.now.facts.now self.now.fits.now × (self.now.n * lanes ≤ length self.now.fits.now) }
        requires runs { (prices : List ℕ) → Run (scaled_of self.now.c self.now.facts.now prices) 0 0 Nothing found.old.labels found.old.waiting.keys found.old.best }
        ensures { (prices : List ℕ) → Run (scaled_of self.now.c self.now.facts.now prices) self.now.n 0 Nothing found.new.labels found.new.waiting.keys found.new.best }
    {
        start(
            self,
            &mut found.labels,
            &mut found.waiting.keys,
            &mut found.best,
        );
    }
}

// Takes states until none waits. Inlined where it is called, without which a view of 64 states took a sixth longer (measured); so too `start`.
#[inline(always)]
pub fn run(map: &Backwards, labels: &mut [u64], keys: &mut [u64], best: &mut [u8])
    requires ready { ReadyMap map.now }
    requires run { Run (graph_of map.now) (graph_of map.now).states 0 Nothing labels.old keys.old best.old }
    ensures ran { Run (graph_of map.now) (graph_of map.now).states 0 Nothing labels.new keys.new best.new }
    ensures none_waits { (a : ℕ) → a < 4096 → NOKEY ≤ leaf keys.new a }
{
    // Over a lent row the least key is a number, `NO_KEY` where nobody waits (`low`).
    let mut key = low(keys, 0);
    while key < NO_KEY {
        let b = (key % 4096) as usize;
        take(keys, b);
        let label = labels[b];
        map.relax_into(b, label, labels, keys, best);
        key = low(keys, 0);
    }
}

// Sets the labels of the goals, whatever operators cost.
#[inline(always)]
pub fn start(map: &Backwards, labels: &mut [u64], keys: &mut [u64], best: &mut [u8])
    requires walkable { Walkable map.now.c map.now.facts.now × (map.now.n ≡ states_of map.now.c map.now.facts.now) × Fits map.now.c map.now.facts.now map.now.fits.now × (map.now.n * lanes ≤ length map.now.fits.now) }
    requires runs { (prices : List ℕ) → Run (scaled_of map.now.c map.now.facts.now prices) 0 0 Nothing labels.old keys.old best.old }
    ensures { (prices : List ℕ) → Run (scaled_of map.now.c map.now.facts.now prices) map.now.n 0 Nothing labels.new keys.new best.new }
{
    // By number: a is the state that is labelled, and its row.
    for a in 0..map.n {
        let met = map.fits[a * LANES + GOAL_LANE] == 0;
        if met {
            offer(labels, keys, best, a, NO_OP, 0);
        }
    }
}
