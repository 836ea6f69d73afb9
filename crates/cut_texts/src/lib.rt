// The texts in pieces of the script of the vectors: the one that goes on from line to line, and whole texts that are cut. Nothing is printed here.
#![tactic(auto)]

pub mod from_lines;
pub mod whole;
