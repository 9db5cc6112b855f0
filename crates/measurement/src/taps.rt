ghost use Rattle.measurement.specs.Input.{WrittenOn, Adds};

use crate::complaints::Complaint;
use staircase::taps::Tap;

/// The tap that a line writes, if it writes one.
// No `TryFrom`: it would have to stand beside `Tap`, and text belongs to the input and not to the machine.
fn tap_on(line: &[u8]) -> Option<Tap>
    ensures { WrittenOn line.now result }
{
    match line {
        b"1" => Some(Tap::Seen),
        b"0" => Some(Tap::NotSeen),
        _ => None,
    }
}

/// Adds the tap on the next line of the input. A line that is no tap is named in the complaint.
pub fn add_tap(taps: &mut Vec<Tap>, line: &[u8]) -> Result<(), Complaint>
    ensures { Adds taps.old.items line.now taps.new.items result }
{
    let Some(tap) = tap_on(line) else {
        let line = taps.len().saturating_add(1);
        return Err(Complaint::NoTap { line });
    };
    taps.push(tap)?;
    Ok(())
}
