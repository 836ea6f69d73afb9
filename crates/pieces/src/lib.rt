// THE TEXT IN PIECES: a state by value goes from piece to piece, what has been read so far stands in a lent work area, and the end answers as a reading of the
// whole text does. The text itself is kept nowhere.
#![tactic(auto)]

ghost use Rattle.std.specs.Prelude.{◌≡◌};
ghost use Rattle.pieces.specs.Pieces.{begun_text, bytes_with, lent_short, piece_left, piece_taken, end_left, text_ended};

use meaning::limits::BYTES_MOST;
use refusals::Refusal;
use tables::Counts;
use tables::readers::{COSTS_ROOM, FACTS_ROOM, SHARES_ROOM};
use text::Ctrl;
use text::control::start_of_text;
use text::end::finish;
use text::names::AREA_ROOM;
use text::step::feed_piece;

// The least length of a lent work area.
pub const AREA_LENT: usize = 8192;

// A text so far: where its reading stands, how many bytes it has (one too many stands for all above the most), and whether it has ended.
#[derive(Clone, Copy)]
pub struct SoFar {
    pub at: Ctrl,
    pub bytes: u32,
    pub ended: bool,
}

// The text so far after a piece, and that the piece was taken, or why not.
#[derive(Clone, Copy)]
pub struct Taken {
    pub text: SoFar,
    pub found: Result<(), Refusal>,
}

// The text so far after its end, and the answer.
#[derive(Clone, Copy)]
pub struct Ended {
    pub text: SoFar,
    pub reading: Result<Counts, Refusal>,
}

// The bytes of a text so far, and n more; one too many stands for all above the most.
#[tactic(auto, unfolding(crate::specs::Pieces::bytes_with))]
fn more_bytes(bytes: u32, n: usize) -> u32
    ensures { result ≡ bytes_with bytes n }
{
    n.saturating_add(bytes as usize).min(BYTES_MOST + 1) as u32
}

// BEGINS a text.
#[tactic(auto, unfolding(crate::specs::Pieces::begun_text))]
pub fn begin_text() -> SoFar
    ensures { result ≡ begun_text }
{
    SoFar {
        at: start_of_text(),
        bytes: 0,
        ended: false,
    }
}

// TAKES A PIECE: its bytes are read one after the other in the lent area, which is cleared as long as no byte was read.
pub fn take_piece(s: SoFar, area: &mut [u8], piece: &[u8]) -> Taken
    ensures { piece_left result.text result.found area.new ≡ piece_taken s area.old piece.now }
{
    if area.len() < AREA_LENT {
        return Taken {
            text: s,
            found: Err(Refusal::TableTooShort),
        };
    }
    if s.ended {
        return Taken {
            text: s,
            found: Err(Refusal::OffForm(0)),
        };
    }
    let unread = s.bytes == 0;
    if unread {
        area[..AREA_ROOM].fill(0);
    }
    let on = feed_piece(s.at, piece, &mut area[..AREA_ROOM]);
    Taken {
        text: SoFar {
            at: on,
            bytes: more_bytes(s.bytes, piece.len()),
            ended: false,
        },
        found: Ok(()),
    }
}

// The area or a table is too short for the end.
#[tactic(auto, unfolding(crate::specs::Pieces::lent_short))]
fn lent_short(area: &[u8], facts: &[u8], costs: &[u32], shares: &[u32]) -> bool
    ensures { result ≡ lent_short area.now facts.now costs.now shares.now }
{
    area.len() < AREA_LENT
        || facts.len() < FACTS_ROOM
        || costs.len() < COSTS_ROOM
        || shares.len() < SHARES_ROOM
}

// ENDS a text: 1 before any fault in it, and else what was read says. The lent tables are written on acceptance only; the area stays as it is.
pub fn end_text(
    s: SoFar,
    area: &[u8],
    facts: &mut [u8],
    costs: &mut [u32],
    shares: &mut [u32],
) -> Ended
    ensures { end_left result.text result.reading facts.new costs.new shares.new ≡ text_ended s area.now facts.old costs.old shares.old }
{
    if lent_short(area, facts, costs, shares) {
        return Ended {
            text: s,
            reading: Err(Refusal::TableTooShort),
        };
    }
    if s.ended {
        return Ended {
            text: s,
            reading: Err(Refusal::OffForm(0)),
        };
    }
    let over = SoFar { ended: true, ..s };
    if BYTES_MOST < s.bytes as usize {
        return Ended {
            text: over,
            reading: Err(Refusal::TextTooLong),
        };
    }
    Ended {
        text: over,
        reading: finish(s.at, &area[..AREA_ROOM], facts, costs, shares),
    }
}
