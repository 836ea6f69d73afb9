// The names of what the control holds, and of the bytes that the text is made of.
ghost use Rattle.std.specs.Prelude.{◌≡◌, ◌-◌};
ghost use Rattle.grammar.specs.Fields.{is_digit};

use meaning::limits::STATES_MOST;

// The parts of a line. These, the fields and the runs are numbers and no enums: C is lent them as words, hands in any word, and gets it back as it was (`so_far_in`
// and `words_with` of crates/lent_texts).
pub const PART_KEY: u32 = 0;

pub const PART_NUMBER: u32 = 1;

pub const PART_AFTER_DASH: u32 = 2;

pub const PART_DASH_DUE: u32 = 3;

// The fields, by the number that is read there; of a fact, its variable and its value.
pub const FIELD_EDITION: u32 = 0;

pub const FIELD_VARS: u32 = 1;

pub const FIELD_DOM: u32 = 2;

pub const FIELD_INIT: u32 = 3;

pub const FIELD_GOAL_VAR: u32 = 4;

pub const FIELD_GOAL_VAL: u32 = 5;

pub const FIELD_OPS: u32 = 6;

pub const FIELD_COST: u32 = 7;

pub const FIELD_PRE_VAR: u32 = 8;

pub const FIELD_PRE_VAL: u32 = 9;

pub const FIELD_EFF_VAR: u32 = 10;

pub const FIELD_EFF_VAL: u32 = 11;

pub const FIELD_MAPS: u32 = 12;

pub const FIELD_CLASS: u32 = 13;

pub const FIELD_SHARE: u32 = 14;

pub const FIELD_QUOTA: u32 = 15;

pub const FIELD_MARK: u32 = 16;

pub const FIELD_END: u32 = 17;

// The digit run: before the first digit, after a single 0, after any other digits.
pub const RUN_NONE: u32 = 0;

pub const RUN_ZERO: u32 = 1;

pub const RUN_ON: u32 = 2;

// The bytes, as words and no u8: `step_byte` and what it calls take any word, and their contracts say what follows on one that is no byte.
pub const LINE_END: u32 = b'\n' as u32;

pub const EQUALS: u32 = b'=' as u32;

pub const COMMA: u32 = b',' as u32;

pub const DASH: u32 = b'-' as u32;

pub const SLASH: u32 = b'/' as u32;

pub const COLON: u32 = b':' as u32;

pub const SEMICOLON: u32 = b';' as u32;

pub const ZERO: u32 = b'0' as u32;

pub const NINE: u32 = b'9' as u32;

// The caps: of lines, rows and turns, above every count; of abstract states, one too many.
pub const COUNT_CAP: u32 = 1000000;

pub const STATES_OVER: u32 = STATES_MOST + 1;

// The work area: the costs follow the facts, the shares the costs.
pub const COSTS_BYTE: usize = 1624;

pub const SHARES_BYTE: usize = 1816;

pub const AREA_ROOM: usize = 3352;

// A byte that is a digit, and the number that it is.
#[tactic(auto, unfolding(grammar::specs::Fields::is_digit))]
pub fn is_digit(b: u32) -> bool
    ensures { result ≡ is_digit b }
{
    ZERO <= b && b <= NINE
}

pub fn digit_of(b: u32) -> u32
    ensures { result ≡ b - 48 }
{
    b.saturating_sub(ZERO)
}
