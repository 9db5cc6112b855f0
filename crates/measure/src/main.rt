//! A sight measurement: start line, wanted reversals and label as arguments, taps on standard input.
#![tactic(auto)]

use anyhow::anyhow;
use measurement::complaints::Complaint;
use measurement::reports::Report;
use measurement::running::{measure, prepare};
use measurement::settings::Settings;
use measurement::taps::add_tap;
use staircase::taps::Tap;
use std::env::{self, Env};
use std::io::{BufRead, BufReader};
use std::process::ExitCode;

fn read_settings(rt: &(impl Env + Alloc)) -> anyhow::Result<Settings> {
    let mut arguments = env::args(rt)
        .map_err(|_| anyhow!("the arguments are not text"))?
        .skip(1);
    let (Some(start_line), Some(wanted_reversals), Some(label), None) = (
        arguments.next(),
        arguments.next(),
        arguments.next(),
        arguments.next(),
    ) else {
        return Err(Complaint::ArgumentCount.into());
    };
    Ok(Settings::read(&start_line, &wanted_reversals, &label)?)
}

fn read_taps(rt: &HostRuntime) -> anyhow::Result<Vec<Tap>> {
    let heap = rt.alloc();
    let mut taps = Vec::new(heap);
    for line in BufReader::new(heap, rt.stdin())?.split(heap, b'\n') {
        add_tap(&mut taps, &line?)?;
    }
    Ok(taps)
}

fn print_report(rt: &impl Print, report: &Report) -> anyhow::Result<()> {
    for line in &report.shown {
        println!(rt; "line {line}")?;
    }
    match report.reading {
        Some(reading) => rt.write_all(&reading.line())?,
        None => println!(rt; "not finished")?,
    }
    Ok(())
}

/// Nothing is printed before all input is read and found good.
fn run(rt: &HostRuntime) -> anyhow::Result<()> {
    let settings = read_settings(rt)?;
    let staircase = prepare(settings)?;
    let taps = read_taps(rt)?;
    let measured = measure(rt.alloc(), &staircase, settings.label, &taps);
    let report = measured.map_err(|_| Complaint::Memory)?;
    print_report(rt, &report)
}

fn main(rt: HostRuntime) -> ExitCode {
    match run(&rt) {
        Ok(()) => ExitCode::SUCCESS,
        Err(error) => {
            let _ = eprintln!(rt; "measure: {error}");
            ExitCode::FAILURE
        }
    }
}
