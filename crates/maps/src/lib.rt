// A map's classes as a task of their own, at any row of prices; what its tables say; and rows of numbers, one for each of its states.
#![tactic(auto)]

pub mod classes;
pub mod parts;
pub mod rows;

ghost use Rattle.std.specs.Prelude.{◌≡◌, ℕ, ◌<◌, get_or};
ghost use Rattle.meaning.specs.Limits.{most_ops};
ghost use Rattle.tables.specs.Layout.{share_at};
ghost use Rattle.tables.specs.Task.{was};

use meaning::OpNo;
use tables::readers::share_at;

// Stands for no distance in a table: a number as the others are, since callers lend tables of numbers (`view_quick`) and `said` reads them.
pub const NO_COST: u32 = 4294967295;

// Stands for no operator in a table of best steps, for the same reason (`advised`).
pub const NO_OP: u8 = 255;

// The room for a price of each operator.
const PRICES_ROOM: usize = 64;

// A cost, and an operator by which it is attained, as a table's places have them: what `at_image` promises is said of these numbers (`AtImage`).
#[derive(Clone, Copy)]
pub struct Pick {
    pub cost: u32,
    pub op: u8,
}

// A map's row of shares.
pub fn share_row(shares: &[u32], map: u32) -> [u32; PRICES_ROOM]
    ensures { (o : ℕ) → o < most_ops → get_or result o 0 ≡ share_at (was shares) map o }
{
    let mut prices = [0; PRICES_ROOM];
    for (o, price) in prices.iter_mut().enumerate() {
        *price = share_at(shares, map, OpNo(o as u32));
    }
    prices
}
