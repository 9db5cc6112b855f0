ghost use Rattle.std.specs.Prelude.{◌≡◌, ◌==◌};
ghost use Rattle.staircase.specs.Steps.{means, begun, answered};

use crate::phases::Phase;
use crate::places::Place;
use crate::progress::Progress;
use crate::taps::Tap;
use crate::{MOST_REVERSALS, Staircase};
use model::faults::Fault;
use model::machines::Machine;
use model::sides::CELLS;
use model::threads::{Answer, Outcome, Request};

impl Staircase {
    fn begin(&self) -> Outcome
        ensures { result ≡ begun self.now }
    {
        let start = Progress {
            line: self.start_line,
            run: 0,
            reversals: 0,
            last_move: None,
        };
        Outcome {
            place: Place::Show as u16,
            work: start.into(),
            write: None,
            request: Request::GoOn,
        }
    }

    fn judge(&self, progress: Progress<MOST_REVERSALS>, tap: Tap) -> Outcome
        ensures { result ≡ answered self.now progress tap }
    {
        let judged = progress.judge(tap);
        let place = if judged.reversals >= self.wanted_reversals {
            Place::Report
        } else {
            Place::Show
        };
        Outcome {
            place: place as u16,
            work: judged.into(),
            write: None,
            request: Request::GoOn,
        }
    }
}

impl Machine for Staircase {
    ghost meaning = { means };

    ghost admitted = { λ _ place. place == 0 };

    fn step(
        &self,
        place: u16,
        work: &[i32; 4],
        _cells: &[i32; CELLS],
        answer: Answer,
    ) -> Result<Outcome, Fault> {
        let kept = Outcome {
            place,
            work: *work,
            write: None,
            request: Request::Receive,
        };
        let phase = Phase::at(place, *work)?;
        // One match and no table of steps: by the rules a step hangs on place and answer together.
        // By reference: tried by value, and a pair that holds a `Progress` has no proof yet.
        match (&phase, answer) {
            (Phase::Begin, _) => Ok(self.begin()),
            (Phase::Show(progress), _) => Ok(Outcome {
                place: Place::Judge as u16,
                write: Some(progress.written_to(self.show_cell)),
                ..kept
            }),
            (Phase::Judge(progress), Answer::Got(message)) => Ok(self.judge(
                *progress,
                Tap::try_from(message)?,
            )),
            (Phase::Judge(_), _) => Ok(kept),
            (Phase::Report(progress), _) => {
                let write = progress.written_to(self.result_cell);
                Ok(Outcome {
                    place: Place::End as u16,
                    write: Some(write),
                    request: Request::Emit(write.value),
                    ..kept
                })
            }
            (Phase::End, _) => Ok(Outcome {
                request: Request::Stop,
                ..kept
            }),
        }
    }

    fn admits(&self, place: u16) -> bool {
        place == Place::Begin as u16
    }
}
