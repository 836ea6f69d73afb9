// The distances and best steps of a map at any row of prices without a sweep: from the goals backwards, the state of the least label first.
#![tactic(auto)]

pub mod run;

ghost use Rattle.std.specs.Prelude.{◌≡◌, [], ℕ, ◌*◌, ◌≤◌, ◌<◌, length, get_or};
ghost use Rattle.meaning.specs.Limits.{most_states};
ghost use Rattle.meaning.specs.Sas.{IsState};
ghost use Rattle.meaning.specs.Split.{Valid};
ghost use Rattle.tables.specs.Task.{task_of, tables, state_of, was};
ghost use Rattle.maps.specs.Inside.Walks.{Walkable, states_of, space_of, PricesSmall};
ghost use Rattle.maps.specs.Inside.Classes.{unpriced, view_graph_of, SharesSmall};
ghost use Rattle.maps.specs.Inside.Rows.{lanes};
ghost use Rattle.maps.specs.Inside.Made.{Made};
ghost use Rattle.waiting.specs.Offers.{NOLABEL};
ghost use Rattle.quick.specs.Inside.Answers.{shown, Distances, BestSteps, AtImage};

use crate::run::Backwards;
use maps::classes::{class_facts, image_of, states_of};
use maps::rows::ROWS_ROOM;
use maps::{NO_COST, NO_OP, Pick, share_row};
use meaning::limits::STATES_ROOM;
use tables::Counts;
use turned::back::turn_all;
use turned::wants::lay_fits;
use waiting::offers::{Found, NO_LABEL};
use waiting::tree::Waiting;

// The room for a small map's states, for their rows, and for the operators' offsets among them; and the room for those of the largest map.
const SMALL_ROOM: usize = 64;

const SMALL_ROWS: usize = 4160;

const SMALL_BACK: usize = 4096;

const BACK_ROOM: usize = 262144;

// A label as a distance table has it.
fn show(label: u64) -> u32
    requires { label ≤ NOLABEL }
    ensures { result ≡ shown label }
{
    if label < NO_LABEL {
        (label / 4096) as u32
    } else {
        NO_COST
    }
}

// Sets the places of a distance table to what the labels show.
fn write_distances(labels: &[u64], out: &mut [u32])
    requires { (length out.old ≡ length labels.now) × ((a : ℕ) → a < length labels.now → get_or labels.now a 0 ≤ NOLABEL) }
    ensures { Made (λ a x. x ≡ shown (get_or (was labels) a 0)) (length (was labels)) out.old out.new }
{
    // By index, since of what a `zip` with the places hands on nothing is known.
    for (a, place) in out.iter_mut().enumerate() {
        *place = show(labels[a]);
    }
}

// The distances of all states to a goal, and the best steps, in room for so many states, for their rows, and for the operators' offsets among them.
fn quick_of<const STATES: usize, const ROWS: usize, const BACK: usize>(
    c: Counts,
    facts: &[u8],
    prices: &[u32],
    n: usize,
    out: &mut [u32],
    best: &mut [u8],
)
    requires walkable { Walkable c facts.now × PricesSmall c prices.now × (n ≡ states_of c facts.now) }
    requires room { (n ≤ STATES) × (n * lanes ≤ ROWS) × (c.ops * n ≤ BACK) }
    requires sizes { (STATES ≤ 4096) × (ROWS ≤ 266240) × (BACK ≤ 262144) }
    requires n_in_bounds { (n ≤ length out.old) × (n ≤ length best.old) }
    ensures distances { Distances (space_of c (was facts) (was prices)) out.old out.new }
    ensures best_steps { BestSteps (space_of c (was facts) (was prices)) best.old best.new }
{
    let mut fits = [0; ROWS];
    lay_fits(c, facts, &mut fits);
    let mut back = [0; BACK];
    let turns = turn_all(c, facts, n, &mut back);
    let map = Backwards {
        c,
        facts,
        prices,
        n,
        fits: &fits,
        turns: &turns,
        back: &back,
    };
    let mut found = Found {
        labels: [NO_LABEL; STATES],
        waiting: Waiting::none(),
        best: [NO_OP; STATES],
    };
    map.start(&mut found);
    map.run(&mut found);
    write_distances(&found.labels[..n], &mut out[..n]);
    best[..n].copy_from_slice(&found.best[..n]);
}

// The distances of a map at a row of prices at all its abstract states, and the best steps.
pub fn view_quick(
    c: Counts,
    facts: &[u8],
    prices: &[u32],
    map: u32,
    out: &mut [u32],
    best: &mut [u8],
)
    requires valid { Valid (unpriced c facts.now) × (map < c.maps) × PricesSmall c prices.now }
    requires most_states_in_bounds { (most_states ≤ length out.old) × (most_states ≤ length best.old) }
    ensures distances { Distances (view_graph_of c (was facts) map (was prices)) out.old out.new }
    ensures best_steps { BestSteps (view_graph_of c (was facts) map (was prices)) best.old best.new }
{
    let seen = class_facts(c, facts, map);
    let n = states_of(c, &seen) as usize;
    if n <= SMALL_ROOM {
        quick_of::<SMALL_ROOM, SMALL_ROWS, SMALL_BACK>(c, &seen, prices, n, out, best);
    } else {
        quick_of::<STATES_ROOM, ROWS_ROOM, BACK_ROOM>(c, &seen, prices, n, out, best);
    }
}

// What a map has at a state's image, as its tables have it: the distance, and the best step.
pub fn at_image(c: Counts, facts: &[u8], shares: &[u32], map: u32, s: &[u8]) -> Pick
    requires { Valid (unpriced c facts.now) × (map < c.maps) × SharesSmall c shares.now map × IsState (unpriced c facts.now).sas (state_of s.now) }
    ensures { AtImage (task_of (tables c (was facts) [] (was shares))) (state_of (was s)) map result }
{
    let prices = share_row(shares, map);
    let mut out = [0u32; STATES_ROOM];
    let mut best = [0u8; STATES_ROOM];
    view_quick(c, facts, &prices, map, &mut out, &mut best);
    let a = usize::from(image_of(c, facts, map, s));
    Pick {
        cost: out[a],
        op: best[a],
    }
}
