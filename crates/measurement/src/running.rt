ghost use Rattle.std.specs.Prelude.{IfOk};
ghost use Rattle.measurement.specs.Measuring.{Prepares, Measured, Reported};

use crate::complaints::{Argument, Complaint};
use crate::reports::Report;
use crate::settings::Settings;
use crate::threads::Thread;
use lines::readings::Reading;
use staircase::taps::Tap;
use staircase::{LAST_LINE, Staircase};
use std::alloc::{AllocError, Global};

/// The cells for the line that is shown and for the line that the staircase ends on.
const SHOW_CELL: usize = 0;

const RESULT_CELL: usize = 1;

/// The staircase that the settings ask for. The complaint names the argument that is out of range.
pub fn prepare(settings: Settings) -> Result<Staircase, Complaint>
    ensures { Prepares settings result }
{
    let Settings {
        start_line,
        wanted_reversals,
        ..
    } = settings;
    Staircase::new(start_line, wanted_reversals, SHOW_CELL, RESULT_CELL).map_err(|refusal| {
        let argument = if start_line > LAST_LINE {
            Argument::StartLine
        } else {
            Argument::WantedReversals
        };
        Complaint::Refused { argument, refusal }
    })
}

/// Hands the taps to a new thread of the staircase, until it gives its result or the taps run out. Answers the lines that it shows, and its result.
// Staircase and taps are no struct: see `measure`.
fn show_and_hear(
    heap: Global,
    staircase: &Staircase,
    taps: &[Tap],
) -> Result<(Vec<i32>, Option<i32>), AllocError>
    ensures { IfOk result (λ found. Measured staircase.now taps.now found.0.items found.1) }
{
    let show_cell = staircase.show_cell();
    let mut shown = Vec::new(heap);
    let mut thread = Thread::begin(staircase);
    for &tap in taps {
        shown.push(thread.cells[show_cell])?;
        if let Some(value) = thread.hear(staircase, tap) {
            return Ok((shown, Some(value)));
        }
    }
    shown.push(thread.cells[show_cell])?;
    Ok((shown, None))
}

/// Measures until the wanted reversals are reached or the taps run out.
// Staircase and taps are no struct: callers have them as two values, and nothing keeps the two together after the call.
pub fn measure(
    heap: Global,
    staircase: &Staircase,
    label: u16,
    taps: &[Tap],
) -> Result<Report, AllocError>
    ensures { IfOk result (Reported staircase.now label taps.now) }
{
    let (shown, value) = show_and_hear(heap, staircase, taps)?;
    let reading = value.map(|value| Reading { label, value });
    Ok(Report { shown, reading })
}
