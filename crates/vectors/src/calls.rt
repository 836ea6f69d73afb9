// The calls of the desk's entries: each is lent what is held, its answer is printed, and what it has changed.
use crate::answers::{say, say_cheaper, say_opening, say_some};
use crate::reading::{call_end_text, call_read, call_read_cut};
use crate::running::{call_begin, call_offer};
use cut_texts::from_lines::{begin_held, take_held};
use desk::{best_at, bound, cheaper, check, distance_at, distances, judge, opening, write};
use lent_rows::judge_first;
use refusals::Refusal;
use script::arrays::Array;
use script::changes::say_changes;
use script::commands::Command;
use script::held::{Held, ROW_RECORDS};
use std::io;

// `T`: writes the text of the tables into the buffer.
fn call_write(rt: &impl Print, held: &mut Held) -> io::Result<()> {
    let was = held.buffer;
    let answer = write(held.tables.lent(held.counts), held.buffer.lent_mut());
    say(rt, answer, |n| println!(rt; "length {n}"))?;
    say_changes(rt, Array::Buffer, &was.places, &held.buffer.places)
}

// `D`: the distances and best steps of a map.
fn call_distances(rt: &impl Print, held: &mut Held, map: u32) -> io::Result<()> {
    let was_out = held.out;
    let was_best = held.best;
    let out = held.out.lent_mut();
    let best = held.best.lent_mut();
    let answer = distances(held.tables.lent(held.counts), map, out, best);
    say(rt, answer, |rounds| println!(rt; "rounds {rounds}"))?;
    say_changes(rt, Array::Out, &was_out.places, &held.out.places)?;
    say_changes(rt, Array::Best, &was_best.places, &held.best.places)
}

// What judging answers.
fn say_passed(rt: &impl Print, answer: Result<u32, Refusal>) -> io::Result<()> {
    say(rt, answer, |cost| println!(rt; "passed {cost}"))
}

// The calls that change nothing.
fn ask(rt: &impl Print, held: &Held, command: Command<'_>) -> io::Result<()> {
    let t = held.tables.lent(held.counts);
    let state = held.state.lent();
    let first = held.first.lent();
    let second = held.second.lent();
    match command {
        Command::DistanceAt(map) => {
            say(rt, distance_at(t, map, state), |d| say_some(rt, "of", d))
        }
        Command::BestAt(map) => say(rt, best_at(t, map, state), |o| say_some(rt, "take", o)),
        Command::Bound => say(rt, bound(t, state), |b| say_some(rt, "of", b)),
        Command::BoundNow => say(rt, bound(t, &held.run.now), |b| say_some(rt, "of", b)),
        Command::Judge => say_passed(rt, judge(t, state, first)),
        Command::JudgeRow => say_passed(
            rt,
            judge_first(
                t.counts,
                t.facts,
                t.shares,
                held.row.places,
                held.row.lent().len().min(ROW_RECORDS),
                state,
                first,
            ),
        ),
        Command::Cheaper => say(rt, cheaper(t, state, first, second), |answer| {
            say_cheaper(rt, answer)
        }),
        Command::Opening => say_opening(
            rt,
            cheaper(t, state, first, second),
            opening(t, state, first, second),
        ),
        _ => say(rt, check(t), |()| println!(rt; "clean")),
    }
}

// A command that calls an entry.
pub fn call(rt: &impl Print, held: &mut Held, command: Command<'_>) -> io::Result<()> {
    match command {
        Command::Read => call_read(rt, held),
        Command::BeginText => {
            begin_held(held);
            println!(rt; "begun")
        }
        Command::TakePiece(n) => say(rt, take_held(held, n), |()| println!(rt; "taken")),
        Command::EndText => call_end_text(rt, held),
        Command::ReadCut(lengths) => call_read_cut(rt, held, lengths),
        Command::Write => call_write(rt, held),
        Command::Distances(map) => call_distances(rt, held, map),
        Command::Begin => call_begin(rt, held),
        Command::Offer(number, op) => call_offer(rt, held, number, op),
        _ => ask(rt, held, command),
    }
}
