// THE DESK: its public entries over lent tables and nothing else; judging with the operators in a lent row of records is `records::judge_records`.
// No entry asks anything of its caller: whatever is handed in, there is an answer.
// Beside each entry stands the theorem that no second outcome could meet its contract (proofs/Unique.antt).
//
// The lent tables of a task, `task`: `counts` has the numbers of its variables, operators and maps, its edition and, in edition 2, its quota of stored tests;
// `facts` has at least 1,624 bytes, `costs` 64 words and `shares` 512 words, laid out as crates/tables/specs/Layout.antt says. A lent state has a byte for each
// variable. A list of operators holds their numbers.
// A refusal is one of the paper's list: `refusals::number` and `refusals::place` tell its number and its place.
#![tactic(auto)]

ghost use Rattle.std.specs.Prelude.{◌≡◌};
ghost use Rattle.tables.specs.Task.{lent, was};
ghost use Rattle.scan.specs.Scan.{tables_fault};
ghost use Rattle.grammar.specs.Fields.{leaves};
ghost use Rattle.grammar.specs.Grammar.{read_text};
ghost use Rattle.grammar.specs.Writing.{page, write_text};
ghost use Rattle.pieces.specs.Pieces.{begun_text, piece_left, piece_taken, end_left, text_ended};
ghost use Rattle.views.specs.Entries.{DistancesGiven, DistanceGiven, BestGiven, BoundGiven};
ghost use Rattle.sequences.specs.Judging.{judged_of};
ghost use Rattle.sequences.specs.Choosing.{cheaper_of};
ghost use Rattle.sequences.specs.Opening.{OpeningOf};
ghost use Rattle.ledger.specs.Ledger.{begun, offered};

use ledger::{Offered, Run};
use meaning::OpNo;
use pieces::{Ended, SoFar, Taken};
use refusals::Refusal;
use sequences::choosing::Cheaper;
use tables::{Counts, LentTables};

// READS a task text into the lent tables: the task's counts, or why not.
// Accepted: the tables hold the task's numbers, and 0 in every place beyond. Refused: every lent place is as it was.
// `read_unique`.
pub fn read(
    task: &[u8],
    facts: &mut [u8],
    costs: &mut [u32],
    shares: &mut [u32],
) -> Result<Counts, Refusal>
    ensures { leaves result facts.new costs.new shares.new ≡ read_text (was task) facts.old costs.old shares.old }
{
    text::read(task, facts, costs, shares)
}

// BEGINS A TEXT that comes in pieces: the text so far, without a byte.
// `begin_text_unique`.
pub fn begin_text() -> SoFar
    ensures { result ≡ begun_text }
{
    pieces::begin_text()
}

// TAKES A PIECE of a text, of any length: the text so far, and whether the piece was taken or why not. What has been read stands in a lent work area of at least
// 8,192 bytes, which are nobody's answer; before the first byte they may hold anything. Refused: nothing changes.
// `take_piece_unique`.
pub fn take_piece(text: SoFar, area: &mut [u8], piece: &[u8]) -> Taken
    ensures { piece_left result.text result.found area.new ≡ piece_taken text area.old (was piece) }
{
    pieces::take_piece(text, area, piece)
}

// ENDS A TEXT that came in pieces, and answers as `read` does. However it was cut, the answer and the tables are those of the whole text (`in_pieces`).
// Nothing is written to the area; the tables are written on acceptance only. A second end is refused, and so is a piece after it: 2 at place 0.
// `end_text_unique`.
pub fn end_text(
    text: SoFar,
    area: &[u8],
    facts: &mut [u8],
    costs: &mut [u32],
    shares: &mut [u32],
) -> Ended
    ensures { end_left result.text result.reading facts.new costs.new shares.new ≡ text_ended text (was area) facts.old costs.old shares.old }
{
    pieces::end_text(text, area, facts, costs, shares)
}

// WRITES the text of handed-in tables into a lent buffer of at least 16,384 bytes: how many bytes it has, or why there is none.
// Written: the text stands in the buffer's first places, and every place after it is as it was. Refused: so is every place.
// Each accepted task has one text, and reading it gives the same tables (proofs/RoundTrips.antt).
// `write_unique`.
pub fn write(task: LentTables, buffer: &mut [u8]) -> Result<u32, Refusal>
    ensures { page result buffer.new ≡ write_text (lent task) buffer.old }
{
    writer::write(task, buffer)
}

// CHECKS handed-in tables by the text's rules: clean, or the first fault with the line that the same task's text would have.
// `check_unique`.
pub fn check(task: LentTables) -> Result<(), Refusal>
    ensures { result ≡ tables_fault (lent task) }
{
    scan::tables_fault(task)
}

// The DISTANCES of a map at all its abstract states, into a lent table of at least 4,096 places (4,294,967,295 for none), with the count of rounds; and the best
// step at each, into another of as many bytes (255 for none): the operator to take, of the cheapest sequences to a goal and of those with fewest steps the lowest
// first one. Following them reaches a goal at exactly the distance (crates/views/proofs/Promises.antt). Refused: both tables are as they were.
// `distances_unique`.
pub fn distances(
    task: LentTables,
    map: u32,
    out: &mut [u32],
    best: &mut [u8],
) -> Result<u32, Refusal>
    ensures { DistancesGiven (lent task) map out.old best.old result out.new best.new }
{
    views::distances(task, map, out, best)
}

// The DISTANCE of a state's image in one map, or none.
// `distance_at_unique`.
pub fn distance_at(task: LentTables, map: u32, state: &[u8]) -> Result<Option<u32>, Refusal>
    ensures { DistanceGiven (lent task) map (was state) result }
{
    views::distance_at(task, map, state)
}

// The BEST STEP of a state's image in one map, or none: at a goal of the map, and where its distance is none.
// `best_at_unique`.
pub fn best_at(task: LentTables, map: u32, state: &[u8]) -> Result<Option<u32>, Refusal>
    ensures { BestGiven (lent task) map (was state) result }
{
    views::best_at(task, map, state)
}

// The summed BOUND of a state: at most the cost of every sequence from there to the goal, of any length; none exactly if some map
// says none, and then there is no such sequence. Along a run it falls by at most what the maps are paid (crates/watched_runs).
// `bound_unique`.
pub fn bound(task: LentTables, state: &[u8]) -> Result<Option<u64>, Refusal>
    ensures { BoundGiven (lent task) (was state) result }
{
    views::bound(task, state)
}

// JUDGES a sequence of operators from a state: passed with its cost, or the first refusal. It counts its own storing steps from 0, against the quota.
// `judge_unique`.
pub fn judge(task: LentTables, state: &[u8], ops: &[u32]) -> Result<u32, Refusal>
    ensures { result ≡ judged_of (lent task) (was state) (was ops) }
{
    sequences::judge(task, state, ops)
}

// The CHEAPER of two lists of operators, each judged up to the first moment a goal holds: the first, the second or neither, with the cost.
// `cheaper_unique`.
pub fn cheaper(task: LentTables, state: &[u8], a: &[u32], b: &[u32]) -> Result<Cheaper, Refusal>
    ensures { result ≡ cheaper_of (lent task) (was state) (was a) (was b) }
{
    sequences::cheaper(task, state, a, b)
}

// The OPENING PART of the cheaper list, of the caller's own memory; for neither, or refused input, the empty part at the start of the first list.
// `opening_unique`.
pub fn opening<'a>(task: LentTables, state: &[u8], a: &'a [u32], b: &'a [u32]) -> &'a [u32]
    ensures { OpeningOf (lent task) (was state) a.entry b.entry result }
{
    sequences::opening(task, state, a, b)
}

// BEGINS a run from a state: a fresh run, or a run of zeros with the refusal.
// `begin_unique`.
pub fn begin(task: LentTables, start: &[u8]) -> Offered
    ensures { result ≡ begun (lent task) (was start) }
{
    Run::begin(task, start)
}

// OFFERS a step to a run: its number and its operator. The run comes back advanced if the step is accepted, and else as it was; a repeat changes nothing. The
// stored tests that it tells are the storing steps really run, at most the quota (`TellsStored`, crates/ledger/specs/History.antt).
// `offer_unique`.
pub fn offer(run: Run, task: LentTables, number: u32, op: OpNo) -> Offered
    ensures { result ≡ offered (lent task) run number op.0 }
{
    run.offer(task, number, op)
}
