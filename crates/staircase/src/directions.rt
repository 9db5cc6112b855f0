ghost use Rattle.std.specs.Prelude.{◌≡◌, ◌≤◌};
ghost use Rattle.staircase.specs.Progress.{direction_in, next_line, reversal};

use crate::LAST_LINE;
use crate::progress::out_of_range;
use model::faults::Fault;

/// Which way a move goes along the lines of letters, with the number that stands for it.
#[derive(Clone, Copy, PartialEq, Eq, Debug)]
pub enum Direction {
    ToSmaller = 1,
    ToLarger = -1,
}

impl TryFrom<i32> for Direction {
    type Error = Fault;

    ghost try_from_gives = { λ number direction. direction ≡ direction_in number };

    fn try_from(number: i32) -> Result<Direction, Fault> {
        // The numbers again: a pattern can be no `Direction::ToSmaller as i32`.
        match number {
            1 => Ok(Direction::ToSmaller),
            -1 => Ok(Direction::ToLarger),
            _ => Err(out_of_range()),
        }
    }
}

impl Direction {
    pub(crate) fn next_line(self, line: u32) -> u32
        requires { line ≤ 13 }
        ensures { result ≡ next_line self line }
    {
        match self {
            Direction::ToSmaller => (line + 1).min(LAST_LINE),
            Direction::ToLarger => line.saturating_sub(1),
        }
    }

    /// 1 where a move goes the other way than the last one, else 0.
    pub(crate) fn reversal(self, last_move: Option<Direction>) -> u32
        ensures { result ≡ reversal last_move self }
    {
        u32::from(last_move.is_some_and(|last| last != self))
    }
}
