// The lent tables of a task: counts by value, facts as bytes, costs and shares as words; their readers, a row of classes, and one step of a state.
#![tactic(auto)]

pub mod classes;
pub mod lines;
pub mod readers;
pub mod steps;

// How many variables, operators and maps the task has; the edition of its text, and the quota of stored tests, which edition 1 hasn't: there it isn't read.
#[derive(Clone, Copy, PartialEq, Eq)]
pub struct Counts {
    pub vars: u32,
    pub ops: u32,
    pub maps: u32,
    pub edition: u32,
    pub quota: u32,
}

// The lent tables of a task: its counts, and the three slices that its numbers stand in.
#[derive(Clone, Copy)]
pub struct LentTables<'a> {
    pub counts: Counts,
    pub facts: &'a [u8],
    pub costs: &'a [u32],
    pub shares: &'a [u32],
}
