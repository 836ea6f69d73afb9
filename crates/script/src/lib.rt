// The script of the vectors: what reads its lines and commands, holds its arrays, and prints what is shown and what has changed.
// It knows nothing of the desk's answers. The form of a script is in docs/VECTORS.md.
#![tactic(auto)]

pub mod arrays;
pub mod changes;
pub mod commands;
pub mod cuts;
pub mod held;
pub mod input;
