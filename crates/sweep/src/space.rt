// The numbered states of a task and what its operators cost. The facts stand in the lent tables' layout; their values may be classes.
ghost use Rattle.std.specs.Prelude.{◌≡◌};
ghost use Rattle.meaning.specs.Numbering.{size};
ghost use Rattle.tables.specs.Layout.{dom_at};
ghost use Rattle.sweep.specs.Inside.Walks.{Walkable};
ghost use Rattle.sweep.specs.Inside.Sweeps.{PricesSmall};

use tables::Counts;

// A task whose steps stay among its states, with how many these are.
#[derive(Clone, Copy)]
pub struct Space<'a> {
    pub c: Counts,
    pub facts: &'a [u8],
    pub prices: &'a [u32],
    pub states: u32,
    pub ghost walkable: { Walkable c facts.now },
    pub ghost small: { PricesSmall c prices.now },
    pub ghost counted: { states ≡ size (dom_at facts.now) c.vars },
}
