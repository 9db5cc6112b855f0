ghost use Rattle.std.specs.Prelude.{◌≡◌};
ghost use Rattle.model.specs.declared.threads.Answer.TheVariants.{Done, Got};
ghost use Rattle.staircase.specs.Taps.{message_of};
ghost use Rattle.measurement.specs.Threads.{started, written, stepped, asked, emitted, Waits};

use model::faults::Fault;
use model::machines::Machine;
use model::sides::CELLS;
use model::threads::{Answer, CellWrite, Outcome, Request};
use staircase::Staircase;
use staircase::places::Place;
use staircase::taps::Tap;

/// A staircase's thread, alone with the cells that it writes.
// Place and work numbers are no struct: see `Machine::step`.
#[derive(Clone, Copy)]
pub struct Thread {
    pub place: u16,
    pub work: [i32; 4],
    pub cells: [i32; CELLS],
}

#[tactic(auto, using(std::proofs::lemmas::List::set_past))]
fn write_cell(cells: &mut [i32; CELLS], write: Option<CellWrite>)
    ensures { cells.new ≡ written write cells.old }
{
    if let Some(CellWrite { cell, value }) = write
        && cell < CELLS
    {
        cells[cell] = value;
    }
}

// The staircase is no field of the thread: by the rules a machine belongs to a side, for all its threads, and a thread is plain data without a lifetime.
impl Thread {
    /// Takes one step of the staircase and answers what the thread then asks for.
    fn step(&mut self, staircase: &Staircase, answer: Answer) -> Result<Request, Fault>
        ensures value { result ≡ asked staircase.now answer self.old }
        ensures after { self.new ≡ stepped staircase.now answer self.old }
    {
        let Outcome {
            place,
            work,
            write,
            request,
        } = staircase.step(self.place, &self.work, &self.cells, answer)?;
        write_cell(&mut self.cells, write);
        self.place = place;
        self.work = work;
        Ok(request)
    }

    /// A new thread, after the steps that show the start line.
    pub(crate) fn begin(staircase: &Staircase) -> Thread
        ensures { result ≡ stepped staircase.now Done (stepped staircase.now Done started) }
    {
        let mut thread = Thread {
            place: Place::Begin as u16,
            work: [0; 4],
            cells: [0; CELLS],
        };
        thread.step(staircase, Answer::Done).unwrap();
        thread.step(staircase, Answer::Done).unwrap();
        thread
    }

    /// Hands a tap to a thread that waits for one. It then either shows the next line and waits again, or gives its result.
    pub(crate) fn hear(&mut self, staircase: &Staircase, tap: Tap) -> Option<i32>
        requires { Waits staircase.now self.old }
        ensures value { result ≡ emitted (asked staircase.now Done (stepped staircase.now (Got (message_of tap)) self.old)) }
        ensures after { self.new ≡ stepped staircase.now Done (stepped staircase.now (Got (message_of tap)) self.old) }
    {
        self.step(staircase, Answer::Got(tap.into())).unwrap();
        match self.step(staircase, Answer::Done).unwrap() {
            Request::Emit(line) => Some(line),
            _ => None,
        }
    }
}
