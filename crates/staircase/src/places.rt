ghost use Rattle.std.specs.Prelude.{◌≡◌};
ghost use Rattle.staircase.specs.Phases.{place_in};

use model::faults::{Cause, Fault, Layer};

/// The places of a staircase's thread, with their numbers.
#[derive(Clone, Copy, PartialEq, Eq, Debug)]
pub enum Place {
    Begin = 0,
    Show = 1,
    Judge = 2,
    Report = 3,
    End = 4,
}

impl TryFrom<u16> for Place {
    type Error = Fault;

    ghost try_from_gives = { λ number place. place ≡ place_in number };

    fn try_from(number: u16) -> Result<Place, Fault> {
        // The numbers again: a pattern can be no `Place::Begin as u16`.
        match number {
            0 => Ok(Place::Begin),
            1 => Ok(Place::Show),
            2 => Ok(Place::Judge),
            3 => Ok(Place::Report),
            4 => Ok(Place::End),
            _ => Err(Fault::new(Cause::NoSuchPlace, Layer::Machine, 0)),
        }
    }
}
