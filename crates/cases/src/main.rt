//! The worked cases of the staircase, run.
#![tactic(auto)]

use measurement::running::{measure, prepare};
use measurement::settings::Settings;
use staircase::Staircase;
use staircase::taps::Tap;
use std::alloc::Global;
use worked::worked_cases;

/// Prints the line that a staircase shows after some taps.
// Staircase and taps are no struct: see `measure`.
fn print_shown(
    rt: &impl Print,
    heap: Global,
    staircase: &Staircase,
    taps: &[Tap],
) -> anyhow::Result<()> {
    let report = measure(heap, staircase, 9, taps)?;
    let count = taps.len();
    if let Some(line) = report.shown.last() {
        println!(rt; "after {count} taps: line {line}")?;
    }
    Ok(())
}

fn main(rt: HostRuntime) -> anyhow::Result<()> {
    let heap = rt.alloc();
    let proved = worked_cases();
    println!(rt; "worked cases proved: {proved}")?;
    let staircase = prepare(Settings {
        start_line: 5,
        wanted_reversals: 2,
        label: 9,
    })?;
    print_shown(&rt, heap, &staircase, &[Tap::Seen, Tap::Seen])?;
    print_shown(&rt, heap, &staircase, &[Tap::Seen, Tap::Seen, Tap::NotSeen])
}
