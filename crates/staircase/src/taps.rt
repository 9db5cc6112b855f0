ghost use Rattle.std.specs.Prelude.{◌≡◌};
ghost use Rattle.staircase.specs.Taps.{tap_in, message_of};

use model::faults::{Cause, Fault, Layer};

/// Whether the customer could read the line that was shown, with the messages' numbers.
#[derive(Clone, Copy, PartialEq, Eq, Debug)]
pub enum Tap {
    Seen = 1,
    NotSeen = 0,
}

/// The tap that a message stands for, or a fault where it stands for none.
impl TryFrom<i32> for Tap {
    type Error = Fault;

    ghost try_from_gives = { λ message tap. tap ≡ tap_in message };

    fn try_from(message: i32) -> Result<Tap, Fault> {
        // The numbers again: a pattern can be no `Tap::Seen as i32`.
        match message {
            1 => Ok(Tap::Seen),
            0 => Ok(Tap::NotSeen),
            _ => Err(Fault::new(Cause::NotATap, Layer::Machine, 0)),
        }
    }
}

/// The message that stands for the tap.
impl From<Tap> for i32 {
    ghost from_gives = { λ tap message. message ≡ message_of tap };

    fn from(tap: Tap) -> i32 {
        tap as i32
    }
}
