// The distances and best steps of a map at any row of prices, and what the map has at a state with its shares for prices.
ghost use Rattle.std.specs.Prelude.{◌≡◌, [], ℕ, ◌+◌, ◌≤◌, ◌<◌, length, get_or};
ghost use Rattle.meaning.specs.Limits.{most_ops, most_states};
ghost use Rattle.meaning.specs.Sas.{IsState};
ghost use Rattle.meaning.specs.Split.{Valid};
ghost use Rattle.tables.specs.Layout.{share_at};
ghost use Rattle.tables.specs.Task.{task_of, tables, state_of, was};
ghost use Rattle.sweep.specs.Inside.Sweeps.{PricesSmall, Counted};
ghost use Rattle.sweep.specs.Inside.Classes.{unpriced, view_graph_of, SharesSmall, AtImage};

use crate::classes::{class_facts, image_of, states_of};
use crate::rounds::Pick;
use crate::space::Space;
use meaning::OpNo;
use meaning::limits::STATES_ROOM;
use tables::Counts;
use tables::readers::share_at;

// The room for a price of each operator.
const PRICES_ROOM: usize = 64;

// The count of rounds of a map at a row of prices; `out` holds its distances then, and `best` its best steps.
pub fn view_rounds(
    c: Counts,
    facts: &[u8],
    prices: &[u32],
    map: u32,
    out: &mut [u32],
    best: &mut [u8],
) -> u32
    requires valid { Valid (unpriced c facts.now) × (map < c.maps) × PricesSmall c prices.now }
    requires most_states_in_bounds { (most_states ≤ length out.old) × (most_states ≤ length best.old) }
    ensures { Counted (view_graph_of c (was facts) map (was prices)) out.old out.new best.old best.new result }
{
    let seen = class_facts(c, facts, map);
    let space = Space {
        c,
        facts: &seen,
        prices,
        states: states_of(c, &seen),
    };
    let mut work = [0u32; STATES_ROOM];
    space.count_rounds(out, best, &mut work)
}

// A map's row of shares.
pub fn share_row(shares: &[u32], map: u32) -> [u32; PRICES_ROOM]
    ensures { (o : ℕ) → o < most_ops → get_or result o 0 ≡ share_at (was shares) map o }
{
    let mut prices = [0u32; PRICES_ROOM];
    for (o, price) in prices.iter_mut().enumerate() {
        *price = share_at(shares, map, OpNo(o as u32));
    }
    prices
}

// What a map has at a state's image, in the words of its two tables: the distance, and the best step. The entries tell none by None (`told`, crates/views/src/sums.rt).
pub fn at_image(c: Counts, facts: &[u8], shares: &[u32], map: u32, s: &[u8]) -> Pick
    requires { Valid (unpriced c facts.now) × (map < c.maps) × SharesSmall c shares.now map × IsState (unpriced c facts.now).sas (state_of s.now) }
    ensures { AtImage (task_of (tables c (was facts) [] (was shares))) (state_of (was s)) map result }
{
    let prices = share_row(shares, map);
    let mut out = [0u32; STATES_ROOM];
    let mut best = [0u8; STATES_ROOM];
    view_rounds(c, facts, &prices, map, &mut out, &mut best);
    let a = usize::from(image_of(c, facts, map, s));
    Pick {
        cost: out[a],
        op: best[a],
    }
}
