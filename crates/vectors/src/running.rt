// The calls that begin and advance the run that is held.
use crate::answers::say;
use desk::{begin, offer};
use ledger::{Answer, Run};
use meaning::OpNo;
use script::arrays::Array;
use script::changes::say_changes;
use script::held::Held;
use std::io;

// What a call changed of the run.
fn say_run(rt: &impl Print, was: &Run, now: &Run) -> io::Result<()> {
    say_changes(rt, Array::Start, &was.start, &now.start)?;
    say_changes(rt, Array::Log, &was.log, &now.log)?;
    say_changes(rt, Array::Len, &[was.len], &[now.len])?;
    say_changes(rt, Array::Now, &was.now, &now.now)?;
    say_changes(rt, Array::Column, &was.columns, &now.columns)
}

// `G`: begins a run.
pub fn call_begin(rt: &impl Print, held: &mut Held) -> io::Result<()> {
    let was = held.run;
    let begun = begin(held.tables.lent(held.counts), held.state.lent());
    held.run = begun.run;
    say(rt, begun.answer, |_| println!(rt; "fresh"))?;
    say_run(rt, &was, &held.run)
}

// `O`: offers a step to the run.
pub fn call_offer(rt: &impl Print, held: &mut Held, number: u32, op: u32) -> io::Result<()> {
    let was = held.run;
    let offered = offer(was, held.tables.lent(held.counts), number, OpNo(op));
    held.run = offered.run;
    say(rt, offered.answer, |answer| match answer {
        Answer::Accepted => println!(rt; "accepted"),
        Answer::Repeated => println!(rt; "repeated"),
    })?;
    say_run(rt, &was, &held.run)
}
