// The limits, as specs/Limits.antt has them: the most bytes of a text, variables, values of a variable, operators, maps,
// and steps of a sequence or a run.
pub const BYTES_MOST: usize = 16384;

pub const VARS_MOST: u32 = 8;

pub const VALUES_MOST: u32 = 8;

pub const OPS_MOST: u32 = 64;

pub const MAPS_MOST: u32 = 8;

pub const STEPS_MOST: usize = 1024;

// The most that an operator costs, or costs in a map, in seconds.
pub const COST_MOST: u32 = 1000000;

// The most abstract states of a map, and the room for their distances.
pub const STATES_MOST: u32 = 4096;

pub const STATES_ROOM: usize = STATES_MOST as usize;

// The highest edition, the one that has a quota and marks, the highest quota of stored tests, and the highest mark.
pub const EDITION_MOST: u32 = 2;

pub const QUOTA_EDITION: u32 = 2;

pub const QUOTA_MOST: u32 = 1024;

pub const MARK_MOST: u32 = 1;
