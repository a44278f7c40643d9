// The two interfaces that every function of sizes meets.
#![tactic(auto)]

ghost use Rattle.std.specs.Prelude.{◌≡◌, ℕ, ◌≤◌};
ghost use Rattle.dual_feasible.specs.Laws.{Limits, Lawful, Adds};
ghost use Rattle.dual_feasible.specs.Answers.{valued};

use faults::Fault;

pub mod checks;

// A dual feasible function, called lawful where a user reads of it: it weighs sizes from 0 to its capacity so that no
// list of sizes that fits into the capacity weighs more than the image capacity.
pub trait DualFeasible {
    ghost capacity: { Self → ℕ };

    ghost image: { Self → ℕ };

    // the value of each size up to the capacity; above it the map means nothing
    ghost map: { Self → ℕ → ℕ };

    // The capacity and the image capacity.
    fn capacities(&self) -> (u64, u64)
        ensures { result ≡ (capacity self.now, image self.now) };

    // The value of a size, or refusal 4 with the size where it is above the capacity.
    fn value(&self, size: u64) -> Result<u64, Fault>
        ensures { result ≡ valued (capacity self.now) (map self.now) size };

    ghost limits: { (f : Self) → Limits (capacity f) (image f) };

    ghost lawful: { (f : Self) → Lawful (capacity f) (image f) (map f) };
}

// A superadditive function: the parts of a size never weigh more than the whole. Its map and its capacities are its
// own, so that what is built on this interface can take its meaning from them. An implementation names them and the two
// common laws once more: the default of a ghost member sees no member, and a law's proof no law of another implementation.
pub trait Superadditive: DualFeasible {
    ghost capacity: { Self → ℕ };

    ghost image: { Self → ℕ };

    ghost map: { Self → ℕ → ℕ };

    // The two capacities. Those of this interface are those of the dual feasible function, and so is the map.
    fn own_capacities(&self) -> (u64, u64)
        ensures value { result ≡ (capacity self.now, image self.now) }
        ensures same { result ≡ (Self.DualFeasible.capacity self.now, Self.DualFeasible.image self.now) }
        ensures map { (s : ℕ) → s ≤ capacity self.now → map self.now s ≡ Self.DualFeasible.map self.now s };

    ghost limits: { (f : Self) → Limits (capacity f) (image f) };

    ghost lawful: { (f : Self) → Lawful (capacity f) (image f) (map f) };

    ghost superadditive: { (f : Self) → Adds (capacity f) (map f) };
}
