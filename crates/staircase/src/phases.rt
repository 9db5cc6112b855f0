ghost use Rattle.std.specs.Prelude.{◌≡◌};
ghost use Rattle.staircase.specs.Phases.{phase_at};

use crate::MOST_REVERSALS;
use crate::places::Place;
use crate::progress::Progress;
use model::faults::Fault;

/// What a staircase's thread is about to do, with its progress where it looks at it.
// Not one enum with `Place`: an outcome has the next place as a number, apart from the work numbers, and a phase would be taken apart into the two again.
#[derive(Clone, Copy)]
pub enum Phase {
    Begin,
    Show(Progress<MOST_REVERSALS>),
    Judge(Progress<MOST_REVERSALS>),
    Report(Progress<MOST_REVERSALS>),
    End,
}

impl Phase {
    /// The phase that a thread's place and work numbers stand for. A fault where the place is none, or a number is out of its range.
    // No `TryFrom`: it would take the two as one value, and `Phase::at(place, work)` reads as it is meant. No struct of the two: see `Machine::step`.
    pub(crate) fn at(place: u16, work: [i32; 4]) -> Result<Phase, Fault>
        ensures { result ≡ phase_at place work }
    {
        match Place::try_from(place)? {
            Place::Begin => Ok(Phase::Begin),
            Place::Show => Ok(Phase::Show(work.try_into()?)),
            Place::Judge => Ok(Phase::Judge(work.try_into()?)),
            Place::Report => Ok(Phase::Report(work.try_into()?)),
            Place::End => Ok(Phase::End),
        }
    }
}
