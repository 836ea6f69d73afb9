// The calls that read a text into the tables.
use crate::answers::say_refused;
use crate::say_counts;
use cut_texts::from_lines::end_held;
use cut_texts::whole::{is_alike_in_pieces, read_cut, read_whole};
use refusals::Refusal;
use script::arrays::Array;
use script::changes::say_changes;
use script::cuts::Cut;
use script::held::{Held, Tables};
use std::io;
use tables::Counts;

// The answer of a reading; the counts of an accepted text are kept.
fn keep_reading(
    rt: &impl Print,
    held: &mut Held,
    answer: Result<Counts, Refusal>,
) -> io::Result<()> {
    match answer {
        Ok(c) => {
            held.counts = c;
            say_counts(rt, "accepted", c)
        }
        Err(r) => say_refused(rt, r),
    }
}

// What a reading changed.
fn say_tables(rt: &impl Print, was: &Tables, now: &Tables) -> io::Result<()> {
    say_changes(rt, Array::Facts, &was.facts.places, &now.facts.places)?;
    say_changes(rt, Array::Costs, &was.costs.places, &now.costs.places)?;
    say_changes(rt, Array::Shares, &was.shares.places, &now.shares.places)
}

// `R`: the whole text. Something more is said only where the text in pieces gets another answer.
pub fn call_read(rt: &impl Print, held: &mut Held) -> io::Result<()> {
    let was = held.tables;
    let text = held.text.lent();
    let answer = read_whole(text, &mut held.tables);
    let is_alike = is_alike_in_pieces(text, &was, answer, &held.tables);
    keep_reading(rt, held, answer)?;
    if !is_alike {
        println!(rt; "in pieces otherwise")?;
    }
    say_tables(rt, &was, &held.tables)
}

// `F`: the end of the text that came in pieces.
pub fn call_end_text(rt: &impl Print, held: &mut Held) -> io::Result<()> {
    let was = held.tables;
    let answer = end_held(held);
    keep_reading(rt, held, answer)?;
    say_tables(rt, &was, &held.tables)
}

// `V`: the whole text, in pieces of these lengths.
pub fn call_read_cut(rt: &impl Print, held: &mut Held, lengths: &[u32]) -> io::Result<()> {
    let was = held.tables;
    let answer = read_cut(held.text.lent(), Cut::told(lengths), &mut held.tables);
    keep_reading(rt, held, answer)?;
    say_tables(rt, &was, &held.tables)
}
