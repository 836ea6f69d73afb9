// States that wait to be looked at, the one of the least key first: a tree of least keys, and what is done with a label that is offered to a state.
#![tactic(auto)]

pub mod offers;
pub mod tree;
