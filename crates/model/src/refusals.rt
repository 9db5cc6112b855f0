ghost use Rattle.std.specs.Prelude.{◌≡◌};
ghost use Rattle.model.specs.Refusals.{number_of, item_of};

use thiserror::Error;

/// Why a call was refused, with the numbers of the rules' list. A refused call changes nothing.
#[derive(Clone, Copy, PartialEq, Eq, Debug, Error)]
#[error("refused ({number})", number = u8::from(*self))]
pub enum Refusal {
    /// A staircase's start line, wanted reversals, show cell or result cell is out of range.
    StaircaseOutOfRange = 6,
    /// A buffer is shorter than the line that is to be written into it.
    BufferTooShort = 14,
}

/// The refusal's number in the rules' list.
impl From<Refusal> for u8 {
    ghost from_gives = { λ refusal number. number ≡ number_of refusal };

    fn from(refusal: Refusal) -> u8 {
        refusal as u8
    }
}

impl Refusal {
    /// The item that the refusal is about, 0 where the rules name none.
    // A number and no `Option`: by the rules a refusal answers its number and an item.
    pub fn item(self) -> u32
        ensures { result ≡ item_of self }
    {
        match self {
            Refusal::StaircaseOutOfRange | Refusal::BufferTooShort => 0,
        }
    }
}
