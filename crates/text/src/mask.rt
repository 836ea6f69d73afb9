// The classes of a variable, kept as a mask: its width by leading zeros equals its count of ones exactly when no class is missing. The module `classes` of crates/tables
// looks at a whole row of lent tables; here the mask goes from byte to byte, and may be any word that C hands in.
ghost use Rattle.std.specs.Prelude.{◌≡◌};
ghost use Rattle.text.specs.Inside.Fields.{with_class, width, gapless, times};

use crate::names::STATES_OVER;
use meaning::limits::STATES_MOST;

#[tactic(auto, using(tables::proofs::Masks::one_shl), unfolding(crate::specs::Inside::Fields::with_class))]
pub fn add_class(m: u32, x: u32) -> u32
    ensures { result ≡ with_class m x }
{
    if x < 32 { m | (1u32 << x) } else { m }
}

#[tactic(auto, unfolding(crate::specs::Inside::Fields::width))]
pub fn width_of(m: u32) -> u32
    ensures { result ≡ width m }
{
    32 - u32::leading_zeros(m)
}

#[tactic(auto, unfolding(crate::specs::Inside::Fields::gapless))]
pub fn none_missing(m: u32) -> bool
    ensures { result ≡ gapless m }
{
    width_of(m) == u32::count_ones(m)
}

// The abstract states with one variable more, which has n classes; counted up to one too many.
#[tactic(auto, unfolding(crate::specs::Inside::Fields::times))]
pub fn multiply(p: u32, n: u32) -> u32
    ensures { result ≡ times p n }
{
    if STATES_MOST < p {
        return STATES_OVER;
    }
    p.saturating_mul(n).min(STATES_OVER)
}
