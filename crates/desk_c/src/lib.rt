// THE DESK FOR C: each entry of the desk under a name that C can call, with numbers and slices of numbers alone. A slice crosses as a pointer and a length.
// No entry asks anything of its caller: what is lent too short, a length of 0 too, is 8 and nothing else;
// only `desk_opening` never refuses, and answers the empty part then. The answer is one word (crates/words/specs/Words.antt).
// Beside each entry stands the theorem that no second outcome could meet its contract (proofs/Unique.antt). include/desk.h tells C the same.
#![tactic(auto)]

ghost use Rattle.std.specs.Prelude.{◌≡◌, ◌≤◌, length};
ghost use Rattle.scan.specs.Scan.{tables_fault};
ghost use Rattle.sequences.specs.Judging.{judged_of};
ghost use Rattle.sequences.specs.Choosing.{cheaper_of, chosen_of};
ghost use Rattle.words.specs.Words.{found_word, reading_word, judged_word, cheaper_word, opening_word};
ghost use Rattle.lent_runs.specs.Left.{run_left, begin_handed, offer_handed};
ghost use Rattle.desk_c.specs.Handing.{counts_row, counts_in, counts_put, counts_after, facts_beside, lent_task};
ghost use Rattle.desk_c.specs.Handing.{read_left, read_handed, write_left, write_handed, DistancesHanded, DistanceHanded, BestHanded, BoundHanded};
ghost use Rattle.lent_texts.specs.Lent.{text_words};
ghost use Rattle.desk_c.specs.Pieces.{begin_after, begin_text_handed, piece_after, take_piece_handed, ended_by, end_after, end_text_handed};
ghost use Rattle.tables.specs.Task.{held, was};

use lent_runs::{hand_back, run_in, run_short};
use lent_texts::{put_ended, put_text, text_in, text_short};
use meaning::OpNo;
use refusals::Refusal;
use sequences::choosing::choice_of;
use tables::readers::get_or;
use tables::{Counts, LentTables};
use words::{DONE, Tell, opening_word, word};

// The places of a lent row of counts: variables, operators, maps, edition, quota.
const COUNTS_ROW: usize = 5;

// The counts of a lent row.
fn counts_in(row: &[u32]) -> Counts
    ensures { result ≡ counts_in (was row) }
{
    Counts {
        vars: get_or(row, 0, 0),
        ops: get_or(row, 1, 0),
        maps: get_or(row, 2, 0),
        edition: get_or(row, 3, 0),
        quota: get_or(row, 4, 0),
    }
}

// Puts counts into a lent row.
fn put_counts(row: &mut [u32], c: Counts)
    requires { counts_row ≤ length row.old }
    ensures { row.new ≡ counts_put c row.old }
{
    row[0] = c.vars;
    row[1] = c.ops;
    row[2] = c.maps;
    row[3] = c.edition;
    row[4] = c.quota;
}

// The facts beside a lent row of counts: none where the row is too short, so that it is refused as a table that is too short.
fn facts_beside<'a>(row: &[u32], facts: &'a [u8]) -> &'a [u8]
    ensures { result.now ≡ facts_beside (was row) (was facts) }
{
    if row.len() < COUNTS_ROW {
        return &facts[..0];
    }
    facts
}

// The task that C lends: its counts from the row, and the three tables.
fn lent_task<'a>(
    counts: &[u32],
    facts: &'a [u8],
    costs: &'a [u32],
    shares: &'a [u32],
) -> LentTables<'a>
    ensures { held result ≡ lent_task counts facts costs shares }
{
    LentTables {
        counts: counts_in(counts),
        facts: facts_beside(counts, facts),
        costs,
        shares,
    }
}

// READS a task text into the lent tables, and its counts (variables, operators, maps, edition, quota) into a lent row of at least 5 places.
// `read_unique`.
#[unsafe(no_mangle)]
pub extern "C" fn desk_read(
    task: &[u8],
    counts: &mut [u32],
    facts: &mut [u8],
    costs: &mut [u32],
    shares: &mut [u32],
) -> u64
    ensures { read_left result counts.new facts.new costs.new shares.new ≡ read_handed (was task) counts.old facts.old costs.old shares.old }
{
    if counts.len() < COUNTS_ROW {
        return Refusal::TableTooShort.word();
    }
    let reading = desk::read(task, facts, costs, shares);
    hand_reading(reading, counts)
}

// Hands back a reading: its counts go into the lent row if it was accepted.
fn hand_reading(r: Result<Counts, Refusal>, counts: &mut [u32]) -> u64
    requires { counts_row ≤ length counts.old }
    ensures { (result ≡ reading_word r) × (counts.new ≡ counts_after r counts.old) }
{
    match r {
        Ok(c) => {
            put_counts(counts, c);
            word(DONE, 0)
        }
        Err(f) => f.word(),
    }
}

// Ends the text in lent words if it has ended now and had not before.
#[tactic(auto, unfolding(crate::specs::Pieces::ended_by))]
fn hand_ended(before: bool, ended: bool, text: &mut [u32])
    requires { text_words ≤ length text.old }
    ensures { text.new ≡ ended_by before ended text.old }
{
    if ended && !before {
        put_ended(text);
    }
}

// BEGINS A TEXT that comes in pieces, in at least 20 lent words.
// `begin_text_unique`.
#[unsafe(no_mangle)]
pub extern "C" fn desk_begin_text(text: &mut [u32]) -> u64
    ensures { begin_after result text.new ≡ begin_text_handed text.old }
{
    if text_short(text) {
        return Refusal::TableTooShort.word();
    }
    put_text(desk::begin_text(), text);
    word(DONE, 0)
}

// TAKES A PIECE of the text in lent words, by a lent work area of at least 8,192 bytes.
// `take_piece_unique`.
#[unsafe(no_mangle)]
pub extern "C" fn desk_take_piece(text: &mut [u32], area: &mut [u8], piece: &[u8]) -> u64
    ensures { piece_after result text.new area.new ≡ take_piece_handed text.old area.old (was piece) }
{
    if text_short(text) {
        return Refusal::TableTooShort.word();
    }
    let taken = desk::take_piece(text_in(text), area, piece);
    if let Ok(()) = taken.found {
        put_text(taken.text, text);
    }
    taken.found.word()
}

// ENDS THE TEXT in lent words, and answers as `desk_read` does.
// `end_text_unique`.
#[unsafe(no_mangle)]
pub extern "C" fn desk_end_text(
    text: &mut [u32],
    area: &[u8],
    counts: &mut [u32],
    facts: &mut [u8],
    costs: &mut [u32],
    shares: &mut [u32],
) -> u64
    ensures { end_after (read_left result counts.new facts.new costs.new shares.new) text.new ≡ end_text_handed text.old (was area) counts.old facts.old costs.old shares.old }
{
    if text_short(text) {
        return Refusal::TableTooShort.word();
    }
    if counts.len() < COUNTS_ROW {
        return Refusal::TableTooShort.word();
    }
    let so_far = text_in(text);
    let ended = desk::end_text(so_far, area, facts, costs, shares);
    hand_ended(so_far.ended, ended.text.ended, text);
    hand_reading(ended.reading, counts)
}

// WRITES the text of handed-in tables into a lent buffer of at least 16,384 bytes; the word tells how many bytes it has.
// `write_unique`.
#[unsafe(no_mangle)]
pub extern "C" fn desk_write(
    counts: &[u32],
    facts: &[u8],
    costs: &[u32],
    shares: &[u32],
    buffer: &mut [u8],
) -> u64
    ensures { write_left result buffer.new ≡ write_handed (lent_task counts facts costs shares) buffer.old }
{
    let task = lent_task(counts, facts, costs, shares);
    desk::write(task, buffer).word()
}

// CHECKS handed-in tables.
// `check_unique`.
#[unsafe(no_mangle)]
pub extern "C" fn desk_check(counts: &[u32], facts: &[u8], costs: &[u32], shares: &[u32]) -> u64
    ensures { result ≡ found_word (tables_fault (lent_task counts facts costs shares)) }
{
    let task = lent_task(counts, facts, costs, shares);
    desk::check(task).word()
}

// The DISTANCES and BEST STEPS of a map into two lent tables of at least 4,096 places; the word tells the rounds.
// `distances_unique`.
#[unsafe(no_mangle)]
pub extern "C" fn desk_distances(
    counts: &[u32],
    facts: &[u8],
    costs: &[u32],
    shares: &[u32],
    map: u32,
    out: &mut [u32],
    best: &mut [u8],
) -> u64
    ensures { DistancesHanded (lent_task counts facts costs shares) map out.old best.old result out.new best.new }
{
    let task = lent_task(counts, facts, costs, shares);
    desk::distances(task, map, out, best).word()
}

// The DISTANCE of a state's image in one map, or none.
// `distance_at_unique`.
#[unsafe(no_mangle)]
pub extern "C" fn desk_distance_at(
    counts: &[u32],
    facts: &[u8],
    costs: &[u32],
    shares: &[u32],
    map: u32,
    state: &[u8],
) -> u64
    ensures { DistanceHanded (lent_task counts facts costs shares) map (was state) result }
{
    let task = lent_task(counts, facts, costs, shares);
    desk::distance_at(task, map, state).word()
}

// The BEST STEP of a state's image in one map, or none.
// `best_at_unique`.
#[unsafe(no_mangle)]
pub extern "C" fn desk_best_at(
    counts: &[u32],
    facts: &[u8],
    costs: &[u32],
    shares: &[u32],
    map: u32,
    state: &[u8],
) -> u64
    ensures { BestHanded (lent_task counts facts costs shares) map (was state) result }
{
    let task = lent_task(counts, facts, costs, shares);
    desk::best_at(task, map, state).word()
}

// The summed BOUND of a state, or none: exactly if some map says none.
// `bound_unique`.
#[unsafe(no_mangle)]
pub extern "C" fn desk_bound(
    counts: &[u32],
    facts: &[u8],
    costs: &[u32],
    shares: &[u32],
    state: &[u8],
) -> u64
    ensures { BoundHanded (lent_task counts facts costs shares) (was state) result }
{
    let task = lent_task(counts, facts, costs, shares);
    desk::bound(task, state).word()
}

// JUDGES a sequence of operators from a state; the word tells its cost.
// `judge_unique`.
#[unsafe(no_mangle)]
pub extern "C" fn desk_judge(
    counts: &[u32],
    facts: &[u8],
    costs: &[u32],
    shares: &[u32],
    state: &[u8],
    list: &[u32],
) -> u64
    ensures { result ≡ judged_word (judged_of (lent_task counts facts costs shares) (was state) (was list)) }
{
    let task = lent_task(counts, facts, costs, shares);
    desk::judge(task, state, list).word()
}

// The CHEAPER of two lists of operators, with its cost.
// `cheaper_unique`.
#[unsafe(no_mangle)]
pub extern "C" fn desk_cheaper(
    counts: &[u32],
    facts: &[u8],
    costs: &[u32],
    shares: &[u32],
    state: &[u8],
    a: &[u32],
    b: &[u32],
) -> u64
    ensures { result ≡ cheaper_word (cheaper_of (lent_task counts facts costs shares) (was state) (was a) (was b)) }
{
    let task = lent_task(counts, facts, costs, shares);
    desk::cheaper(task, state, a, b).word()
}

// The OPENING PART of the cheaper list: of which list, and how many steps from its start. A part of the caller's own list doesn't cross as one; its place and its
// length do.
// `opening_unique`.
#[unsafe(no_mangle)]
pub extern "C" fn desk_opening(
    counts: &[u32],
    facts: &[u8],
    costs: &[u32],
    shares: &[u32],
    state: &[u8],
    a: &[u32],
    b: &[u32],
) -> u64
    ensures { result ≡ opening_word (chosen_of (lent_task counts facts costs shares) (was state) (was a) (was b)) }
{
    let task = lent_task(counts, facts, costs, shares);
    opening_word(choice_of(task, state, a, b))
}

// BEGINS a run from a state, in lent memory.
// `begin_unique`.
#[unsafe(no_mangle)]
pub extern "C" fn desk_begin(
    counts: &[u32],
    facts: &[u8],
    costs: &[u32],
    shares: &[u32],
    start: &[u8],
    bytes: &mut [u8],
    words: &mut [u32],
) -> u64
    ensures { run_left result bytes.new words.new ≡ begin_handed (lent_task counts facts costs shares) (was start) bytes.old words.old }
{
    if run_short(bytes, words) {
        return Refusal::TableTooShort.word();
    }
    let task = lent_task(counts, facts, costs, shares);
    let o = desk::begin(task, start);
    hand_back(o, bytes, words)
}

// OFFERS a step to the run in lent memory: its number and its operator.
// `offer_unique`.
#[unsafe(no_mangle)]
pub extern "C" fn desk_offer(
    counts: &[u32],
    facts: &[u8],
    costs: &[u32],
    shares: &[u32],
    bytes: &mut [u8],
    words: &mut [u32],
    number: u32,
    op: u32,
) -> u64
    ensures { run_left result bytes.new words.new ≡ offer_handed (lent_task counts facts costs shares) bytes.old words.old number op }
{
    if run_short(bytes, words) {
        return Refusal::TableTooShort.word();
    }
    let task = lent_task(counts, facts, costs, shares);
    let run = run_in(bytes, words);
    let o = desk::offer(run, task, number, OpNo(op));
    hand_back(o, bytes, words)
}
