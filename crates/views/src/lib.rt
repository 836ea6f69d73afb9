// Goal distances and best steps in simplified views, and the summed bound of a state.
#![tactic(auto)]

pub mod sums;

ghost use Rattle.std.specs.Prelude.{◌≡◌, MatchResult};
ghost use Rattle.tables.specs.Task.{lent, was};
ghost use Rattle.views.specs.Inside.Asked.{AskedImage};
ghost use Rattle.views.specs.Entries.{asked_fault, distance_fault, DistancesGiven, DistanceGiven, BestGiven, BoundGiven};

use crate::sums::{sum_of, told};
use meaning::limits::STATES_ROOM;
use refusals::Refusal;
use scan::{input_fault, state_fault, tables_fault};
use sweep::maps::{at_image, share_row, view_rounds};
use sweep::rounds::{NO_COST, NO_OP, Pick};
use tables::LentTables;

// The first fault where a map is asked for: the tables', or a map that the task hasn't.
#[tactic(auto, unfolding(crate::specs::Entries::asked_fault))]
fn asked_fault(t: LentTables, map: u32) -> Result<(), Refusal>
    ensures { result ≡ asked_fault (lent t) map }
{
    tables_fault(t)?;
    if map < t.counts.maps {
        Ok(())
    } else {
        Err(Refusal::OutOfRange(0))
    }
}

// The first fault where a state's distance or best step in a map is asked for.
#[tactic(auto, unfolding(crate::specs::Entries::distance_fault))]
fn distance_fault(t: LentTables, map: u32, s: &[u8]) -> Result<(), Refusal>
    ensures { result ≡ distance_fault (lent t) map (was s) }
{
    asked_fault(t, map)?;
    state_fault(t, s)
}

// What a map's tables have at a state's image; or why not. In place: as a call, tables that are refused at once took half as long again.
#[inline(always)]
fn asked_image(t: LentTables, map: u32, s: &[u8]) -> Result<Pick, Refusal>
    ensures { MatchResult result (λ p. AskedImage (lent t) map (was s) p) (λ f. distance_fault (lent t) map (was s) ≡ Err f) }
{
    distance_fault(t, map, s)?;
    Ok(at_image(t.counts, t.facts, t.shares, map, s))
}

// The distances and best steps of a map at all its abstract states, with the count of rounds; or why not.
pub fn distances(t: LentTables, map: u32, out: &mut [u32], best: &mut [u8]) -> Result<u32, Refusal>
    ensures { DistancesGiven (lent t) map out.old best.old result out.new best.new }
{
    if out.len() < STATES_ROOM || best.len() < STATES_ROOM {
        return Err(Refusal::TableTooShort);
    }
    asked_fault(t, map)?;
    let prices = share_row(t.shares, map);
    Ok(view_rounds(t.counts, t.facts, &prices, map, out, best))
}

// The distance of a state's image in a map, or none; or why not.
pub fn distance_at(t: LentTables, map: u32, s: &[u8]) -> Result<Option<u32>, Refusal>
    ensures { DistanceGiven (lent t) map (was s) result }
{
    let p = asked_image(t, map, s)?;
    Ok(told(p.cost, NO_COST))
}

// The best step of a state's image in a map, or none; or why not.
pub fn best_at(t: LentTables, map: u32, s: &[u8]) -> Result<Option<u32>, Refusal>
    ensures { BestGiven (lent t) map (was s) result }
{
    let p = asked_image(t, map, s)?;
    Ok(told(u32::from(p.op), u32::from(NO_OP)))
}

// The summed bound of a state, or none; or why not.
pub fn bound(t: LentTables, s: &[u8]) -> Result<Option<u64>, Refusal>
    ensures { BoundGiven (lent t) (was s) result }
{
    input_fault(t, s)?;
    Ok(sum_of(t.counts, t.facts, t.shares, s))
}
