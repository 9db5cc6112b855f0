ghost use Rattle.std.specs.Prelude.{◌≡◌};
ghost use Rattle.measurement.specs.declared.complaints.Complaint.TheVariants.{Memory};

use model::refusals::Refusal;
use std::alloc::AllocFailed;
use std::fmt;
use thiserror::Error;

/// What a user sets for a measurement.
#[derive(Clone, Copy, PartialEq, Eq, Debug)]
pub enum Argument {
    StartLine,
    WantedReversals,
    Label,
}

/// The argument's name, with the numbers that it may be.
// By hand: `thiserror` derives this only together with `Error`, and an argument is no error.
impl fmt::Display for Argument {
    fn fmt<W: fmt::Write>(&self, f: &mut fmt::Formatter<W>) -> fmt::Result {
        f.write_str(match self {
            Argument::StartLine => "start line (0 to 13)",
            Argument::WantedReversals => "wanted reversals (1 to 15)",
            Argument::Label => "label (0 to 65535)",
        })
    }
}

/// Why there is no report.
#[derive(Clone, Copy, PartialEq, Eq, Debug, Error)]
pub enum Complaint {
    #[error("three arguments are needed: start line, wanted reversals, label")]
    ArgumentCount,
    #[error("{0}: not a number, or too large a one")]
    NotANumber(Argument),
    /// The staircase refuses an argument.
    // The number and not `{refusal}`, which comes in one piece more: a writer without room for all would hold another beginning.
    #[error("{argument}: out of range, refused ({number})", number = u8::from(*.refusal))]
    Refused {
        argument: Argument,
        refusal: Refusal,
    },
    /// The line is counted from 1.
    #[error("line {line} of the input is no tap: 1 or 0 is expected")]
    NoTap {
        line: usize,
    },
    /// There is no memory for the taps or the lines shown.
    #[error("out of memory")]
    Memory,
}

// By hand: a derived `From` has no contract, which `add_tap` needs, and wants a variant that holds the library's error.
impl<T: Drop> From<AllocFailed<T>> for Complaint {
    ghost from_gives = { λ _ complaint. complaint ≡ Memory };

    fn from(_unplaced: AllocFailed<T>) -> Complaint {
        Complaint::Memory
    }
}
