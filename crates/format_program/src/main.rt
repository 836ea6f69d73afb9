// The formatter: a task text on standard input; the text of the task that it spells on standard output, or the refusal.
#![tactic(auto)]

use console::{TASK_ROOM, read_full, say_refused};
use desk::{read, write};
use meaning::limits::BYTES_MOST;
use std::io;
use tables::LentTables;
use tables::readers::{COSTS_ROOM, FACTS_ROOM, SHARES_ROOM};

// The text of the tables.
fn say_text(rt: &impl Print, task: LentTables) -> io::Result<()> {
    let mut buffer = [0u8; BYTES_MOST];
    match write(task, &mut buffer) {
        Ok(n) => rt.write_all(&buffer[..BYTES_MOST.min(n as usize)]),
        Err(r) => say_refused(rt, r),
    }
}

// The tables are read here and in desk_program alike: `console` holds nothing of the desk.
fn main(rt: HostRuntime) -> io::Result<()> {
    let mut text = [0u8; TASK_ROOM];
    let n = read_full(&mut rt.stdin(), &mut text)?;
    let mut facts = [0u8; FACTS_ROOM];
    let mut costs = [0u32; COSTS_ROOM];
    let mut shares = [0u32; SHARES_ROOM];
    match read(&text[..n], &mut facts, &mut costs, &mut shares) {
        Ok(counts) => say_text(
            &rt,
            LentTables {
                counts,
                facts: &facts,
                costs: &costs,
                shares: &shares,
            },
        ),
        Err(r) => say_refused(&rt, r),
    }
}
