// The entry over a lent row of records, run: case A with its operators in a row, and what is answered for some lists of operators; then the same in edition 2,
// at a quota that is too small, and at one that is just reached.
#![tactic(auto)]

use lent_rows::judge_first;
use records::OpRecord;
use refusals::{number, place};
use std::io;
use tables::Counts;
use tables::readers::{FACTS_ROOM, SHARES_ROOM};

// Case A's facts without its operators: the numbers of values, the goal, and the classes of variable m in map m.
fn facts_of_a() -> [u8; FACTS_ROOM] {
    let mut facts = [0u8; FACTS_ROOM];
    facts[..3].copy_from_slice(&[2, 3, 3]);
    facts[16..19].copy_from_slice(&[2, 3, 3]);
    facts[1049] = 1;
    facts[1121..1123].copy_from_slice(&[1, 2]);
    facts[1193..1195].copy_from_slice(&[1, 2]);
    facts
}

// Case A's split: operator 0 in map 0, operators 1 and 2 in map 1, operator 3 in map 2.
fn shares_of_a() -> [u32; SHARES_ROOM] {
    let mut shares = [0u32; SHARES_ROOM];
    for at in [0, 65, 66, 131] {
        shares[at] = 1;
    }
    shares
}

// Case A's operators as a row. Operators 1 and 2 store a test, which edition 1 doesn't read.
fn row_of_a() -> [OpRecord; 4] {
    [
        OpRecord {
            cost: 1,
            pre: [1, 0, 0, 0, 0, 0, 0, 0],
            eff: [2, 0, 0, 0, 0, 0, 0, 0],
            mark: 0,
        },
        OpRecord {
            cost: 1,
            pre: [0, 1, 1, 0, 0, 0, 0, 0],
            eff: [0, 2, 2, 0, 0, 0, 0, 0],
            mark: 1,
        },
        OpRecord {
            cost: 1,
            pre: [0, 2, 0, 0, 0, 0, 0, 0],
            eff: [0, 3, 0, 0, 0, 0, 0, 0],
            mark: 1,
        },
        OpRecord {
            cost: 1,
            pre: [0, 0, 2, 0, 0, 0, 0, 0],
            eff: [0, 0, 3, 0, 0, 0, 0, 0],
            mark: 0,
        },
    ]
}

// A line: a name, '=' and a number.
fn say(rt: &impl Print, name: &[u8], x: u32) -> io::Result<()> {
    rt.write_all(name)?;
    println!(rt; "{x}")
}

// What is answered for a list of operators from the initial state, by the counts of case A in an edition, with a quota; the count of operators isn't read.
fn say_judged(
    rt: &impl Print,
    edition: u32,
    quota: u32,
    facts: &[u8],
    ops: &[u32],
) -> io::Result<()> {
    let c = Counts {
        vars: 3,
        ops: 0,
        maps: 3,
        edition,
        quota,
    };
    match judge_first(c, facts, &shares_of_a(), row_of_a(), 4, &[0; 3], ops) {
        Ok(cost) => say(rt, b"passed=", cost),
        Err(r) => {
            say(rt, b"refused=", number(r))?;
            say(rt, b"place=", place(r))
        }
    }
}

fn main(rt: HostRuntime) -> io::Result<()> {
    let facts = facts_of_a();
    let whole = [0, 1, 2, 3];
    let lists: [&[u32]; 5] = [&whole, &[0, 2], &[0, 4], &[0], &[]];
    for ops in lists {
        say_judged(&rt, 1, 0, &facts, ops)?;
    }
    // facts that lack a place
    say_judged(&rt, 1, 0, &[0; FACTS_ROOM - 1], &whole)?;
    // two storing steps in edition 2: beyond the quota, and at it
    say_judged(&rt, 2, 1, &facts, &whole)?;
    say_judged(&rt, 2, 2, &facts, &whole)
}
