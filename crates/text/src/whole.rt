// A whole text at once.
ghost use Rattle.std.specs.Prelude.{◌≡◌, ◌≤◌, length};
ghost use Rattle.tables.specs.Layout.{facts_room, costs_room, shares_room};
ghost use Rattle.grammar.specs.Fields.{leaves};
ghost use Rattle.text.specs.Inside.End.{machine_read, read_all};

use crate::control::start_of_text;
use crate::end::finish;
use crate::names::AREA_ROOM;
use crate::step::feed_piece;
use meaning::limits::BYTES_MOST;
use refusals::Refusal;
use tables::Counts;
use tables::readers::{COSTS_ROOM, FACTS_ROOM, SHARES_ROOM};

// What the machine answers to a text, where there is room for every task.
pub fn run_machine(
    text: &[u8],
    facts: &mut [u8],
    costs: &mut [u32],
    shares: &mut [u32],
) -> Result<Counts, Refusal>
    requires { (facts_room ≤ length facts.old) × (costs_room ≤ length costs.old) × (shares_room ≤ length shares.old) }
    ensures { leaves result facts.new costs.new shares.new ≡ machine_read text.now facts.old costs.old shares.old }
{
    let mut w = [0u8; AREA_ROOM];
    let c = feed_piece(start_of_text(), text, &mut w);
    finish(c, &w, facts, costs, shares)
}

// What the machine answers: 8 for a short table, then 1 for a long text, then the text's own answer.
#[tactic(auto, unfolding(crate::specs::Inside::End::read_all, grammar::specs::Fields::admitted))]
pub fn read_by_machine(
    text: &[u8],
    facts: &mut [u8],
    costs: &mut [u32],
    shares: &mut [u32],
) -> Result<Counts, Refusal>
    ensures { leaves result facts.new costs.new shares.new ≡ read_all text.now facts.old costs.old shares.old }
{
    if facts.len() < FACTS_ROOM || costs.len() < COSTS_ROOM || shares.len() < SHARES_ROOM {
        return Err(Refusal::TableTooShort);
    }
    if BYTES_MOST < text.len() {
        return Err(Refusal::TextTooLong);
    }
    run_machine(text, facts, costs, shares)
}
