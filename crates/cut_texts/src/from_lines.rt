// The text that comes in pieces from line to line: begun, taken piece by piece, and ended. The text so far and its area are held.
use desk::{begin_text, end_text, take_piece};
use refusals::Refusal;
use script::held::Held;
use tables::Counts;

// `S`: a text is begun, and its pieces are taken from the beginning of the text that is held.
pub fn begin_held(held: &mut Held) {
    held.so_far = begin_text();
    held.taken = 0;
}

// `I`: the next bytes of the text that is held are taken. Also where they are refused those after them come next.
pub fn take_held(held: &mut Held, n: u32) -> Result<(), Refusal> {
    let text = held.text.lent();
    let rest = &text[held.taken.min(text.len())..];
    let piece = &rest[..rest.len().min(n as usize)];
    let taken = take_piece(held.so_far, held.area.lent_mut(), piece);
    held.taken = held.taken.saturating_add(piece.len());
    held.so_far = taken.text;
    taken.found
}

// `F`: ends the text, into the lent tables.
pub fn end_held(held: &mut Held) -> Result<Counts, Refusal> {
    let tables = &mut held.tables;
    let ended = end_text(
        held.so_far,
        held.area.lent(),
        tables.facts.lent_mut(),
        tables.costs.lent_mut(),
        tables.shares.lent_mut(),
    );
    held.so_far = ended.text;
    ended.reading
}
