// A run in lent memory: taken out of it, and handed back into it.
#![tactic(auto)]

ghost use Rattle.std.specs.Prelude.{◌≡◌, ◌≤◌, length};
ghost use Rattle.lent_runs.specs.Lent.{run_bytes, run_words, run_in, bytes_with, words_with};
ghost use Rattle.lent_runs.specs.Left.{run_short, run_left, handed};
ghost use Rattle.tables.specs.Task.{was};

use ledger::{Answer, COLUMNS, Offered, Run};
use meaning::limits::STEPS_MOST;
use words::Tell;

// A state of a run: a byte for each variable that there may be.
const STATE: usize = 8;

// The lent bytes of a run: its start and its state now.
const RUN_BYTES: usize = STATE + STATE;

// The lent words of a run: its log, the number of its steps, and its columns.
const COLUMNS_FROM: usize = STEPS_MOST + 1;

const RUN_WORDS: usize = COLUMNS_FROM + COLUMNS;

// The memory of a run is too short.
pub fn run_short(bytes: &[u8], words: &[u32]) -> bool
    ensures { result ≡ run_short (was bytes) (was words) }
{
    bytes.len() < RUN_BYTES || words.len() < RUN_WORDS
}

// The run that stands in lent memory.
#[tactic(auto, unfolding(meaning::specs::Limits::most_steps))]
pub fn run_in(bytes: &[u8], words: &[u32]) -> Run
    requires { (run_bytes ≤ length bytes.now) × (run_words ≤ length words.now) }
    ensures { result ≡ run_in (was bytes) (was words) }
{
    Run {
        start: <[u8; STATE]>::try_from(&bytes[..STATE]).unwrap(),
        log: <[u32; STEPS_MOST]>::try_from(&words[..STEPS_MOST]).unwrap(),
        len: words[STEPS_MOST],
        now: <[u8; STATE]>::try_from(&bytes[STATE..RUN_BYTES]).unwrap(),
        columns: <[u32; COLUMNS]>::try_from(&words[COLUMNS_FROM..RUN_WORDS]).unwrap(),
    }
}

// Writes a run's start and state now into lent memory.
fn put_bytes(run: &Run, bytes: &mut [u8])
    requires { run_bytes ≤ length bytes.old }
    ensures { bytes.new ≡ bytes_with (was run) bytes.old }
{
    bytes[..STATE].copy_from_slice(&run.start);
    bytes[STATE..RUN_BYTES].copy_from_slice(&run.now);
}

// Writes a run's log, number of steps and columns into lent memory.
#[tactic(auto, unfolding(meaning::specs::Limits::most_steps))]
fn put_words(run: &Run, words: &mut [u32])
    requires { run_words ≤ length words.old }
    ensures { words.new ≡ words_with (was run) words.old }
{
    words[..STEPS_MOST].copy_from_slice(&run.log);
    words[STEPS_MOST] = run.len;
    words[COLUMNS_FROM..RUN_WORDS].copy_from_slice(&run.columns);
}

// Hands back the answer to a start or an offer, with the run in lent memory if it was accepted; else nothing there moves. In place, so that the run is put there as
// it is made: by a call it is kept and cleared apart first, even where the memory is too short, and a start takes twice as long.
#[inline(always)]
pub fn hand_back(o: Offered, bytes: &mut [u8], words: &mut [u32]) -> u64
    requires { (run_bytes ≤ length bytes.old) × (run_words ≤ length words.old) }
    ensures { run_left result bytes.new words.new ≡ handed o bytes.old words.old }
{
    // Each answer has an arm of its own, as in `left_by`: where two share one, the proof isn't told which was taken.
    match o.answer {
        Ok(Answer::Accepted) => {
            put_bytes(&o.run, bytes);
            put_words(&o.run, words);
        }
        Ok(Answer::Repeated) => {}
        Err(_) => {}
    }
    o.answer.word()
}
