// What the end of the text says.
ghost use Rattle.std.specs.Prelude.{◌≡◌, ◌≤◌, length};
ghost use Rattle.meaning.specs.Limits.{most_maps};
ghost use Rattle.tables.specs.Layout.{facts_room, costs_room, shares_room};
ghost use Rattle.meaning.specs.Split.{sum};
ghost use Rattle.grammar.specs.Fields.{leaves};
ghost use Rattle.text.specs.Inside.Area.{area_room, share_in};
ghost use Rattle.text.specs.Inside.Control.{mk};
ghost use Rattle.text.specs.Inside.End.{over, refusal_of, last_fault, settled_as, machine_end};

use crate::area::word_at;
use crate::fill::{fill_bytes, fill_words};
use crate::names::{AREA_ROOM, COSTS_BYTE, SHARES_BYTE};
use crate::places::{cost_byte, share_byte};
use crate::step::end_text;
use crate::{Ctrl, Halt};
use meaning::OpNo;
use meaning::limits::{MAPS_MOST, OPS_MOST};
use refusals::Refusal;
use tables::Counts;
use tables::lines::op_line;
use tables::readers::{COSTS_ROOM, FACTS_ROOM, SHARES_ROOM};

// What a reading that stopped in line l is refused with; nothing while it goes on.
pub fn refusal_of(k: Halt, l: u32) -> Result<(), Refusal>
    ensures { result ≡ refusal_of k l }
{
    match k {
        Halt::Going => Ok(()),
        Halt::Form => Err(Refusal::OffForm(l)),
        Halt::Range => Err(Refusal::OutOfRange(l)),
        Halt::Order => Err(Refusal::NotRising(l)),
        Halt::Missing => Err(Refusal::ClassMissing(l)),
        Halt::States => Err(Refusal::TooManyStates(l)),
        Halt::Idle => Err(Refusal::IdleOperator(l)),
    }
}

// An operator's shares in all maps together.
pub fn share_total(w: &[u8], maps: u32, o: u32) -> u32
    requires { maps ≤ most_maps }
    ensures { result ≡ sum (λ m. share_in w.now m o) maps }
{
    let mut total = 0;
    for m in 0..maps {
        total += word_at(w, share_byte(m, o));
    }
    total
}

// The lowest operator whose shares total above its cost.
pub fn over_fault(c: Ctrl, w: &[u8]) -> Result<(), Refusal>
    ensures { result ≡ over (mk c w.now) }
{
    let maps = c.counts.maps.min(MAPS_MOST);
    let ops = c.counts.ops.min(OPS_MOST);
    for o in 0..ops {
        if word_at(w, cost_byte(o)) < share_total(w, maps, o) {
            return Err(Refusal::SharesAboveCost(op_line(c.counts.edition, OpNo(o))));
        }
    }
    Ok(())
}

// What the text is refused with at its end, if anything.
#[tactic(auto, unfolding(crate::specs::Inside::End::last_fault))]
pub fn last_fault(c: Ctrl, w: &[u8]) -> Result<(), Refusal>
    ensures { result ≡ last_fault (mk c w.now) }
{
    refusal_of(c.halt, c.line)?;
    over_fault(c, w)
}

// What a reading that is over leaves behind: the answer, and the lent tables on acceptance only.
pub fn settle(
    e: Ctrl,
    w: &[u8],
    facts: &mut [u8],
    costs: &mut [u32],
    shares: &mut [u32],
) -> Result<Counts, Refusal>
    requires { (facts_room ≤ length w.now) × (facts_room ≤ length facts.old) × (costs_room ≤ length costs.old) × (shares_room ≤ length shares.old) }
    ensures { leaves result facts.new costs.new shares.new ≡ settled_as (mk e w.now) facts.old costs.old shares.old }
{
    last_fault(e, w)?;
    fill_bytes(w, FACTS_ROOM, facts);
    fill_words(w, COSTS_ROOM, COSTS_BYTE, costs);
    fill_words(w, SHARES_ROOM, SHARES_BYTE, shares);
    Ok(e.counts)
}

// The end of the text. It is read in a copy of the area, so that the area itself stays as it was; and `settle` is called from one place, where the copy's length is
// known, so that it is inlined.
pub fn finish(
    c: Ctrl,
    w: &[u8],
    facts: &mut [u8],
    costs: &mut [u32],
    shares: &mut [u32],
) -> Result<Counts, Refusal>
    requires { (length w.now ≡ area_room) × (facts_room ≤ length facts.old) × (costs_room ≤ length costs.old) × (shares_room ≤ length shares.old) }
    ensures { leaves result facts.new costs.new shares.new ≡ machine_end (mk c w.now) facts.old costs.old shares.old }
{
    let mut cut = [0u8; AREA_ROOM];
    fill_bytes(w, AREA_ROOM, &mut cut);
    let e = end_text(c, &mut cut);
    settle(e, &cut, facts, costs, shares)
}
