ghost use Rattle.std.specs.Prelude.{◌≡◌, ℕ, Bool};
ghost use Rattle.model.specs.Machines.{Meaning};

use crate::faults::Fault;
use crate::sides::CELLS;
use crate::threads::{Answer, Outcome};

/// A machine says what the threads of a side do. Using it does not change it.
pub trait Machine {
    /// What a thread does at a place, with its work numbers, the side's 64 cells and the answer to its last request.
    ghost meaning: { Self → Meaning };

    /// Whether a thread may start at a place.
    ghost admitted: { Self → ℕ → Bool };

    /// The outcome of one step.
    // Place and work numbers are no struct: a step may change the place alone, and would then update a struct within a struct.
    fn step(
        &self,
        place: u16,
        work: &[i32; 4],
        cells: &[i32; CELLS],
        answer: Answer,
    ) -> Result<Outcome, Fault>
        ensures { result ≡ meaning self.now place work.now cells.now answer };

    fn admits(&self, place: u16) -> bool
        ensures { result ≡ admitted self.now place };
}
