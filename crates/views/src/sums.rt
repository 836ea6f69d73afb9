// The sum of the maps' distances at a state.
ghost use Rattle.std.specs.Prelude.{◌≡◌, [], ℕ, ◌+◌, ◌≤◌, ◌<◌, ◌==◌, if◌then◌else◌, IfSome};
ghost use Rattle.graph.specs.Cost.{fin};
ghost use Rattle.meaning.specs.Sas.{IsState};
ghost use Rattle.meaning.specs.Split.{Valid};
ghost use Rattle.meaning.specs.Bound.{bound, join};
ghost use Rattle.tables.specs.Task.{task_of, tables, state_of, was};
ghost use Rattle.sweep.specs.Said.{NONE};
ghost use Rattle.sweep.specs.Inside.Classes.{unpriced, SharesSmall};
ghost use Rattle.views.specs.Inside.Sums.{sum_said, most_total};

use sweep::maps::at_image;
use sweep::rounds::NO_COST;
use tables::Counts;

// What a table's word tells: none where it is the word that stands for none.
pub fn told(word: u32, none: u32) -> Option<u32>
    ensures { result ≡ (if word == none then None else Some word) }
{
    if word == none { None } else { Some(word) }
}

// With one map's distance more; none settles it.
fn with_distance(total: u64, distance: Option<u32>) -> Option<u64>
    requires { total ≤ most_total }
    ensures sum { sum_said result ≡ join (fin total) (sum_said distance) }
    ensures grows { IfSome result (λ t. t ≤ total + NONE) }
{
    distance.map(|d| total + u64::from(d))
}

// The sum over all maps; once a map says none, those after it are not looked at.
pub fn sum_of(c: Counts, facts: &[u8], shares: &[u32], s: &[u8]) -> Option<u64>
    requires { Valid (unpriced c facts.now) × ((m : ℕ) → m < c.maps → SharesSmall c shares.now m) × IsState (unpriced c facts.now).sas (state_of s.now) }
    ensures { sum_said result ≡ bound (task_of (tables c (was facts) [] (was shares))) (state_of (was s)) }
{
    let mut total = 0u64;
    for m in 0..c.maps {
        let p = at_image(c, facts, shares, m, s);
        total = with_distance(total, told(p.cost, NO_COST))?;
    }
    Some(total)
}
