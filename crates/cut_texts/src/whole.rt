// A whole text in pieces, from begin to end, with a text so far and an area of its own; and whether reading it so does what reading it whole does.
use desk::{begin_text, end_text, read, take_piece};
use refusals::Refusal;
use script::cuts::{Cut, Pieces};
use script::held::Tables;
use tables::Counts;

// An area as long as it has to be, and what it holds before the first piece: it may be anything, so it isn't 0.
const AREA_LENT: usize = 8192;

const RUBBISH: u8 = 255;

// More pieces than a text is cut into: nothing says that chances that tell empty pieces end.
const PIECES_MOST: usize = 40_000;

// The answer of a text that is read whole.
pub fn read_whole(text: &[u8], tables: &mut Tables) -> Result<Counts, Refusal> {
    read(
        text,
        tables.facts.lent_mut(),
        tables.costs.lent_mut(),
        tables.shares.lent_mut(),
    )
}

// `V`, and behind each `R`: the answer of a text that is cut so.
pub fn read_cut(text: &[u8], cut: Cut<'_>, tables: &mut Tables) -> Result<Counts, Refusal> {
    let mut area = [RUBBISH; AREA_LENT];
    let mut so_far = begin_text();
    for piece in Pieces::of(text, cut).take(PIECES_MOST) {
        so_far = take_piece(so_far, &mut area, piece).text;
    }
    end_text(
        so_far,
        &area,
        tables.facts.lent_mut(),
        tables.costs.lent_mut(),
        tables.shares.lent_mut(),
    )
    .reading
}

// The text in single bytes, and cut by chance, gets the answer and leaves the tables that it got and left whole. The tables before are copied for each.
pub fn is_alike_in_pieces(
    text: &[u8],
    before: &Tables,
    whole: Result<Counts, Refusal>,
    after: &Tables,
) -> bool {
    [Cut::singly(), Cut::by_chance(text)].iter().all(|cut| {
        let mut tables = *before;
        read_cut(text, *cut, &mut tables) == whole && tables == *after
    })
}
