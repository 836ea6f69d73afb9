// The distances and best steps of a map at any row of prices: the task of its classes, one step among numbered states, and the rounds of the sweep.
#![tactic(auto)]

pub mod classes;
pub mod maps;
pub mod number;
pub mod rounds;
pub mod space;
pub mod walk;
