// On which line of a task's text each thing stands.
ghost use Rattle.std.specs.Prelude.{◌≡◌, ◌≤◌};
ghost use Rattle.meaning.specs.Limits.{most_ops, most_maps};
ghost use Rattle.tables.specs.Lines.{quota_lines, line_of_ops, line_of_op, line_of_maps, line_of_map, line_of_shares};

use meaning::OpNo;
use meaning::limits::QUOTA_EDITION;

// The lines of the edition, of the number of variables and their values, of the initial state, of the goal, and of the quota where there is one.
pub const EDITION_LINE: u32 = 1;

pub const VARS_LINE: u32 = 2;

pub const DOM_LINE: u32 = 3;

pub const INIT_LINE: u32 = 4;

pub const GOAL_LINE: u32 = 5;

pub const QUOTA_LINE: u32 = 6;

// How many lines say the quota.
#[tactic(auto, using(crate::proofs::Editions::read_second, crate::proofs::Editions::read_first), unfolding(crate::specs::Lines::quota_lines))]
pub fn quota_lines(edition: u32) -> u32
    ensures { (result ≡ quota_lines edition) × (result ≤ 1) }
{
    if edition == QUOTA_EDITION { 1 } else { 0 }
}

// The line that says how many operators there are.
pub fn ops_line(edition: u32) -> u32
    ensures { result ≡ line_of_ops edition }
{
    6 + quota_lines(edition)
}

// An operator's line.
#[tactic(auto, using(crate::proofs::Editions::lines_most))]
pub fn op_line(edition: u32, o: OpNo) -> u32
    requires { o.0 ≤ most_ops }
    ensures { result ≡ line_of_op edition o.0 }
{
    ops_line(edition) + 1 + o.0
}

// The line that says how many maps there are: it follows the last operator's.
pub fn maps_line(edition: u32, ops: u32) -> u32
    requires { ops ≤ most_ops }
    ensures { result ≡ line_of_maps edition ops }
{
    op_line(edition, OpNo(ops))
}

// A map's line.
#[tactic(auto, using(crate::proofs::Editions::lines_most))]
pub fn map_line(edition: u32, ops: u32, m: u32) -> u32
    requires { (ops ≤ most_ops) × (m ≤ most_maps) }
    ensures { result ≡ line_of_map edition ops m }
{
    maps_line(edition, ops) + 1 + m
}

// The line of a map's shares: they follow the last map's line.
#[tactic(auto, using(crate::proofs::Editions::lines_most))]
pub fn shares_line(edition: u32, ops: u32, maps: u32, m: u32) -> u32
    requires { (ops ≤ most_ops) × (maps ≤ most_maps) × (m ≤ most_maps) }
    ensures { result ≡ line_of_shares edition ops maps m }
{
    map_line(edition, ops, maps) + m
}
