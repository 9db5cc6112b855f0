ghost use Rattle.std.specs.Prelude.{◌≡◌};
ghost use Rattle.model.specs.Faults.{fault};

/// The causes that the rules name, with their numbers.
#[derive(Clone, Copy, PartialEq, Eq, Debug)]
pub enum Cause {
    NoSuchPlace = 2,
    NotATap = 3,
    NumbersOutOfRange = 4,
}

/// Where in the tablet a fault arose, with the layers' numbers.
#[derive(Clone, Copy, PartialEq, Eq, Debug)]
pub enum Layer {
    Expression = 1,
    Machine = 2,
    Kernel = 3,
}

/// Why a step has no outcome: a cause, the layer that it arose in, and the expression's node (0 in the other layers).
// Bytes, no enums and no `Option`: by the rules each of the three is a byte.
#[derive(Clone, Copy, PartialEq, Eq, Debug)]
pub struct Fault {
    pub cause: u8,
    pub layer: u8,
    pub node: u8,
}

impl Fault {
    /// The fault of a named cause.
    pub fn new(cause: Cause, layer: Layer, node: u8) -> Fault
        ensures { result ≡ fault cause layer node }
    {
        Fault {
            cause: cause as u8,
            layer: layer as u8,
            node,
        }
    }
}
