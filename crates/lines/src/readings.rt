ghost use Rattle.std.specs.Prelude.{◌≡◌};
ghost use Rattle.lines.specs.Lines.{reading_line, ReadsBack};

use crate::forms::{LineForm, put_line};
use crate::hex::digits;
use model::refusals::Refusal;

/// A result of a measurement: the label of the thread that measured, and the value that it emitted.
#[derive(Clone, Copy, PartialEq, Eq, Debug)]
pub struct Reading {
    pub label: u16,
    pub value: i32,
}

impl Reading {
    fn bytes(self) -> [u8; 13]
        ensures { result ≡ reading_line self }
    {
        let mut line = [b'\n'; 13];
        line[..4].copy_from_slice(&digits::<4>(self.label.into()));
        line[4..12].copy_from_slice(&digits::<8>(self.value.cast_unsigned()));
        line
    }

    /// The reading's line: its label and its value.
    #[tactic(auto, using(crate::proofs::Digits::read_back))]
    pub fn line(self) -> [u8; 13]
        ensures value { result ≡ reading_line self }
        ensures back { ReadsBack self result }
    {
        self.bytes()
    }
}

impl LineForm for Reading {
    ghost line = { reading_line };

    fn write_line(&self, out: &mut [u8]) -> Result<usize, Refusal> {
        put_line(&self.bytes(), out)
    }
}
