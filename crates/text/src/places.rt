// Where a task's numbers stand in the work area.
ghost use Rattle.std.specs.Prelude.{◌≡◌, ◌+◌, ◌*◌, ◌<◌};
ghost use Rattle.tables.specs.Layout.{init_place, goal_place, pre_place, eff_place, class_place, mark_place};
ghost use Rattle.text.specs.Inside.Area.{cost_byte, share_byte};

use crate::names::{COSTS_BYTE, SHARES_BYTE};
use tables::readers::{CLASS_ROWS, EFF_ROWS, GOAL_ROW, INIT_ROW, MARK_ROW, PRE_ROWS};

// A row of facts has a function of its own as it has a definition of its own (Layout of crates/tables): one function of the row's number would take the same line to
// each caller.
pub fn init_place(v: u32) -> usize
    ensures { result ≡ init_place v }
{
    INIT_ROW as usize * 8 + v as usize
}

pub fn goal_place(v: u32) -> usize
    ensures { result ≡ goal_place v }
{
    GOAL_ROW as usize * 8 + v as usize
}

pub fn pre_place(o: u32, v: u32) -> usize
    ensures { result ≡ pre_place o v }
{
    (PRE_ROWS as usize + o as usize) * 8 + v as usize
}

pub fn eff_place(o: u32, v: u32) -> usize
    ensures { result ≡ eff_place o v }
{
    (EFF_ROWS as usize + o as usize) * 8 + v as usize
}

pub fn class_place(m: u32, v: u32, x: u32) -> usize
    ensures { result ≡ class_place m v x }
{
    (CLASS_ROWS as usize + (m as usize * 8 + v as usize)) * 8 + x as usize
}

pub fn mark_place(o: u32) -> usize
    ensures { result ≡ mark_place o }
{
    MARK_ROW as usize * 8 + o as usize
}

pub fn cost_byte(o: u32) -> usize
    ensures { (result ≡ cost_byte o) × (result < 1099511627776) }
{
    COSTS_BYTE + 3 * o as usize
}

pub fn share_byte(m: u32, o: u32) -> usize
    ensures { (result ≡ share_byte m o) × (result < 1099511627776) }
{
    SHARES_BYTE + 3 * (m as usize * 64 + o as usize)
}
