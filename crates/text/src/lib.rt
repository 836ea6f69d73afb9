// The reader of the task text: a byte at a time, into a work area; the lent tables are written at the end, on acceptance only.
#![tactic(auto)]

ghost use Rattle.std.specs.Prelude.{◌≡◌};
ghost use Rattle.grammar.specs.Fields.{leaves};
ghost use Rattle.grammar.specs.Grammar.{read_text};

mod after;
mod ahead;
mod area;
pub mod control;
pub mod end;
mod fields;
pub mod fill;
mod mask;
pub mod names;
mod numbers;
mod places;
pub mod step;
mod whole;

use refusals::Refusal;
use tables::Counts;
use whole::read_by_machine;

// Whether a reading goes on, or why it stopped: off form, out of range, not rising, a class missing, too many states, an idle operator. One enum and no Option of one:
// an Option is a byte more in the control, and with it the longest text was read an eighth slower.
#[derive(Clone, Copy, PartialEq, Eq)]
pub enum Halt {
    Going,
    Form,
    Range,
    Order,
    Missing,
    States,
    Idle,
}

// Where in the text: the part of the line, the field, the place in its keyword, and the line's row among those of its kind. Part and field are numbers and no enums
// because C is lent them as words (names.rt).
#[derive(Clone, Copy)]
pub struct Spot {
    pub part: u32,
    pub field: u32,
    pub key: u32,
    pub row: u32,
}

// The digits read of a number: what kind of run they are, and their value.
#[derive(Clone, Copy)]
pub struct Digits {
    pub run: u32,
    pub val: u32,
}

// Whose number it is: the variable, the least variable allowed, the place in a row.
#[derive(Clone, Copy)]
pub struct Turn {
    pub var: u32,
    pub least: u32,
    pub item: u32,
}

// Of a map: the classes seen of the variable as a mask, and the abstract states of the variables before it.
#[derive(Clone, Copy)]
pub struct Seen {
    pub mask: u32,
    pub prod: u32,
}

// Where the reading stands between two bytes. The one field that is no word stands last: before others it would leave a gap, and each copy would be in pieces.
#[derive(Clone, Copy)]
pub struct Ctrl {
    pub line: u32,
    pub spot: Spot,
    pub digits: Digits,
    pub turn: Turn,
    pub seen: Seen,
    pub counts: Counts,
    pub halt: Halt,
}

// Reads a task text into the lent tables: the task's counts, or why not. What is left behind is what the grammar says.
pub fn read(
    text: &[u8],
    facts: &mut [u8],
    costs: &mut [u32],
    shares: &mut [u32],
) -> Result<Counts, Refusal>
    ensures { leaves result facts.new costs.new shares.new ≡ read_text text.now facts.old costs.old shares.old }
{
    read_by_machine(text, facts, costs, shares)
}
