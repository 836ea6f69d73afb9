// The two kinds of number that must not be swapped, and the limits. What tasks, sequences, views and bounds mean stands in specs/.
#![tactic(auto)]

ghost use Rattle.std.specs.Prelude.{◌≡◌};

pub mod limits;

// The number of an operator.
#[derive(Clone, Copy, Debug, PartialEq, Eq)]
pub struct OpNo(pub u32);

// The number of an abstract state.
#[derive(Clone, Copy, Debug, PartialEq, Eq)]
pub struct StateNo(pub u32);

// A number as an index: an operator's of costs and shares, an abstract state's of distances.
impl From<OpNo> for usize {
    fn from(o: OpNo) -> usize
        ensures { result ≡ o.0 }
    {
        o.0 as usize
    }
}

impl From<StateNo> for usize {
    fn from(a: StateNo) -> usize
        ensures { result ≡ a.0 }
    {
        a.0 as usize
    }
}
