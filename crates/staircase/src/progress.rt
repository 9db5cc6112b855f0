ghost use Rattle.std.specs.Prelude.{◌≡◌, ◌≤◌};
ghost use Rattle.staircase.specs.Progress.{out_of_range, up_to, progress_in, work_of, line_write, moved, judged};

use crate::directions::Direction;
use crate::taps::Tap;
use crate::{LAST_LINE, MOST_REVERSALS};
use model::faults::{Cause, Fault, Layer};
use model::threads::CellWrite;
use std::marker::Model;

/// The most reversals after a tap: it may add one.
const MOST_AFTER_TAP: u32 = MOST_REVERSALS + 1;

/// How far a measurement has come: the thread's four work numbers, in their ranges, with at most `MOST` reversals.
#[derive(Clone, Copy)]
pub struct Progress<const MOST: u32> {
    /// The line that is tried, from 0, the largest letters, to 13, the smallest.
    pub line: u32,
    /// How many lines in a row were seen since the last move: 0 or 1.
    pub run: u32,
    /// How often a move went the other way than the move before it.
    pub reversals: u32,
    pub last_move: Option<Direction>,
}

// A model and no ghost fields, so that the definitions make a course without proofs.
impl<const MOST: u32> Model for Progress<MOST> {
    ghost use Rattle.staircase.specs.Progress.{Course, Bounded, progress};

    ghost Value = { Course };

    ghost view = { λ p. progress p.line p.run p.reversals p.last_move };

    ghost invariant = { λ p. Bounded MOST (progress p.line p.run p.reversals p.last_move) };

    ghost inverse = { λ c. record { line = c.line; run = c.run; reversals = c.reversals; last_move = c.last_move } };
}

pub(crate) fn out_of_range() -> Fault
    ensures { result ≡ out_of_range }
{
    Fault::new(Cause::NumbersOutOfRange, Layer::Machine, 0)
}

/// A work number from 0 to `most`.
fn number_up_to(most: u32, number: i32) -> Result<u32, Fault>
    requires { most ≤ 15 }
    ensures { result ≡ up_to most number }
{
    u32::try_from(number)
        .ok()
        .filter(|&n| n <= most)
        .ok_or_else(out_of_range)
}

/// The progress that work numbers stand for, or a fault where one is out of its range.
impl TryFrom<[i32; 4]> for Progress<MOST_REVERSALS> {
    type Error = Fault;

    ghost try_from_gives = { λ work progress. progress ≡ progress_in work };

    fn try_from(work: [i32; 4]) -> Result<Progress<MOST_REVERSALS>, Fault> {
        let line = number_up_to(LAST_LINE, work[0])?;
        let run = number_up_to(1, work[1])?;
        let reversals = number_up_to(MOST_REVERSALS, work[2])?;
        // 0 for none: by the rules the fourth work number is 0 before the first move.
        let last_move = match work[3] {
            0 => None,
            number => Some(Direction::try_from(number)?),
        };
        Ok(Progress {
            line,
            run,
            reversals,
            last_move,
        })
    }
}

impl From<Progress<MOST_AFTER_TAP>> for [i32; 4] {
    ghost from_gives = { λ progress work. work ≡ work_of progress };

    fn from(progress: Progress<MOST_AFTER_TAP>) -> [i32; 4] {
        [
            progress.line as i32,
            progress.run as i32,
            progress.reversals as i32,
            progress.last_move.map_or(0, |direction| direction as i32),
        ]
    }
}

impl Progress<MOST_REVERSALS> {
    fn move_to(self, direction: Direction) -> Progress<MOST_AFTER_TAP>
        ensures { result ≡ moved direction self }
    {
        Progress {
            line: direction.next_line(self.line),
            run: 0,
            reversals: self.reversals + direction.reversal(self.last_move),
            last_move: Some(direction),
        }
    }

    /// The line, written to a cell.
    pub(crate) fn written_to(self, cell: usize) -> CellWrite
        ensures { result ≡ line_write cell self.line }
    {
        CellWrite {
            cell,
            value: self.line as i32,
        }
    }

    /// The progress after a tap.
    pub(crate) fn judge(self, tap: Tap) -> Progress<MOST_AFTER_TAP>
        ensures { result ≡ judged tap self }
    {
        match tap {
            Tap::NotSeen => self.move_to(Direction::ToLarger),
            Tap::Seen => {
                let run = self.run + 1;
                if run == 2 {
                    self.move_to(Direction::ToSmaller)
                } else {
                    // Field by field: `..self` keeps the type, and here the bound differs.
                    Progress {
                        line: self.line,
                        run,
                        reversals: self.reversals,
                        last_move: self.last_move,
                    }
                }
            }
        }
    }
}
