//! The staircase: a machine that finds the smallest line of letters that a customer can read.
#![tactic(auto)]

ghost use Rattle.std.specs.Prelude.{◌≤◌};

mod directions;
mod phases;
pub mod places;
mod progress;
mod stepping;
pub mod taps;

use model::refusals::Refusal;
use model::sides::CELLS;

/// The line of the smallest letters. The largest letters are line 0.
pub const LAST_LINE: u32 = 13;

/// The most reversals that can be wanted.
pub const MOST_REVERSALS: u32 = 15;

/// A staircase in its allowed ranges. Only `Staircase::new` makes one.
#[derive(Clone, Copy, PartialEq, Eq, Debug)]
pub struct Staircase {
    start_line: u32,
    wanted_reversals: u32,
    show_cell: usize,
    result_cell: usize,
    ghost line_exists: { start_line ≤ 13 },
    ghost some_wanted: { 1 ≤ wanted_reversals },
    ghost few_wanted: { wanted_reversals ≤ 15 },
    ghost show_exists: { show_cell ≤ 63 },
    ghost result_exists: { result_cell ≤ 63 },
}

impl Staircase {
    ghost use Rattle.std.specs.Prelude.{◌≡◌, IfOk};
    ghost use Rattle.staircase.specs.Laws.{Lawful};
    ghost use Rattle.staircase.specs.Making.{Made};

    /// A staircase that starts at a line, ends after a number of reversals, and writes to two cells. Refused where one of them is out of range.
    // Four numbers and no struct: this is the test that makes them one, a `Staircase`.
    pub fn new(
        start_line: u32,
        wanted_reversals: u32,
        show_cell: usize,
        result_cell: usize,
    ) -> Result<Staircase, Refusal>
        ensures value { Made start_line wanted_reversals show_cell result_cell result }
        ensures lawful { IfOk result Lawful }
    {
        if start_line > LAST_LINE
            || wanted_reversals == 0
            || wanted_reversals > MOST_REVERSALS
            || show_cell >= CELLS
            || result_cell >= CELLS
        {
            return Err(Refusal::StaircaseOutOfRange);
        }
        Ok(Staircase {
            start_line,
            wanted_reversals,
            show_cell,
            result_cell,
        })
    }

    /// The cell that the line to show is written to.
    pub fn show_cell(&self) -> usize
        ensures value { result ≡ self.now.show_cell }
        ensures bound { result ≤ 63 }
    {
        self.show_cell
    }
}
