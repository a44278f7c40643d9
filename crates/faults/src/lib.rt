// Faults: why a call declines, which layer was called, and one figure.
#![tactic(auto)]

ghost use Rattle.std.specs.Prelude.{◌≡◌};
ghost use Rattle.faults.specs.Faults.{number_of, fault};

// Why a call declines. The cases are numbered from 1, and a user reads these numbers.
#[derive(Clone, Copy, PartialEq, Eq, Debug)]
pub enum Refusal {
    // a capacity outside 1 to 1,000,000,000
    Capacity = 1,
    // a parameter or a kind outside its range
    Parameter,
    // an image capacity above 1,000,000,000
    ImageCapacity,
    // a size that the call does not take
    Size,
    // two capacities that should be equal
    CapacitiesDiffer,
    // more of something than is allowed
    TooMany,
    // what was asked for is not there
    NotThere,
    // a counting function beneath a symmetrisation
    CountingBeneath,
    // a number of steps, or an allowance of steps, outside its range
    Steps,
    // the search is finished
    Finished,
    // the search has spent its allowance
    Spent,
    // a text that is out of form
    Malformed,
}

// The layer that was called.
#[derive(Clone, Copy, PartialEq, Eq, Debug)]
pub enum Layer {
    Function,
    Pile,
    Bound,
    Job,
    Text,
}

// A declined call. It leaves everything as it found it.
#[derive(Clone, Copy, PartialEq, Eq, Debug)]
pub struct Fault {
    pub refusal: Refusal,
    pub layer: Layer,
    pub figure: u64,
}

impl From<Refusal> for u64 {
    ghost from_gives = { λ refusal n. n ≡ number_of refusal };

    // The refusal's number, from 1 to 12.
    fn from(refusal: Refusal) -> u64 {
        refusal as u64
    }
}

impl Fault {
    // A fault of a layer.
    pub fn new(refusal: Refusal, layer: Layer, figure: u64) -> Fault
        ensures { result ≡ fault refusal layer figure }
    {
        Fault {
            refusal,
            layer,
            figure,
        }
    }
}
