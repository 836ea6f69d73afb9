// The desk as a program: a task text on standard input; the bound of the initial state and each map's distance there on standard output, or the refusal.
#![tactic(auto)]

use console::{TASK_ROOM, read_full, say, say_refused};
use desk::{bound, distance_at, read};
use std::{array, io};
use tables::LentTables;
use tables::readers::{COSTS_ROOM, FACTS_ROOM, INIT_ROW, SHARES_ROOM, row_at};

// Room for a state: a byte for each variable that there may be.
const STATE_ROOM: usize = 8;

// The task's initial state.
fn init_of(facts: &[u8]) -> [u8; STATE_ROOM] {
    array::from_fn(|v| row_at(facts, INIT_ROW, v as u32))
}

// The bound of the initial state, then each map's distance there, in order.
fn say_task(rt: &impl Print, task: LentTables) -> io::Result<()> {
    let init = init_of(task.facts);
    match bound(task, &init) {
        Ok(b) => say(rt, b"bound=", b)?,
        Err(r) => return say_refused(rt, r),
    }
    for map in 0..task.counts.maps {
        match distance_at(task, map, &init) {
            Ok(d) => say(rt, b"map=", d)?,
            Err(r) => say_refused(rt, r)?,
        }
    }
    Ok(())
}

// The tables are read here and in format_program alike: `console` holds nothing of the desk.
fn main(rt: HostRuntime) -> io::Result<()> {
    let mut text = [0u8; TASK_ROOM];
    let n = read_full(&mut rt.stdin(), &mut text)?;
    let mut facts = [0u8; FACTS_ROOM];
    let mut costs = [0u32; COSTS_ROOM];
    let mut shares = [0u32; SHARES_ROOM];
    match read(&text[..n], &mut facts, &mut costs, &mut shares) {
        Ok(counts) => say_task(
            &rt,
            LentTables {
                counts,
                facts: &facts,
                costs: &costs,
                shares: &shares,
            },
        ),
        Err(r) => say_refused(&rt, r),
    }
}
