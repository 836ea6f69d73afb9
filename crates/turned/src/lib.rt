// A map's operators turned round: which of them lead to a state, and from which states.
#![tactic(auto)]

pub mod back;
pub mod wants;
