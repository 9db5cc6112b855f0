ghost use Rattle.measurement.specs.Settings.{Reads, ReadsAs};

use crate::complaints::{Argument, Complaint};
use std::str::FromStr;

/// What a measurement is to be.
#[derive(Clone, Copy, PartialEq, Eq, Debug)]
pub struct Settings {
    pub start_line: u32,
    pub wanted_reversals: u32,
    pub label: u16,
}

/// The number that an argument writes. The complaint names the argument.
fn number<T: FromStr>(text: &str, argument: Argument) -> Result<T, Complaint>
where
    T: Drop,
    T::Err: Drop,
    ensures { ReadsAs T.from_str_gives text.now argument result }
{
    text.parse().map_err(|_| Complaint::NotANumber(argument))
}

impl Settings {
    /// Settings from three decimal numbers. The complaint names the first that is none or does not fit.
    // No `TryFrom`: it would take the three texts as one value, without the names that tell them apart.
    pub fn read(
        start_line: &str,
        wanted_reversals: &str,
        label: &str,
    ) -> Result<Settings, Complaint>
        ensures { Reads start_line.now wanted_reversals.now label.now result }
    {
        Ok(Settings {
            start_line: number(start_line, Argument::StartLine)?,
            wanted_reversals: number(wanted_reversals, Argument::WantedReversals)?,
            label: number(label, Argument::Label)?,
        })
    }
}
