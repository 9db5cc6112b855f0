ghost use Rattle.std.specs.Prelude.{◌≡◌};
ghost use Rattle.model.specs.Frames.{fields_of};

use crate::faults::Fault;
use crate::sides::Side;

/// What came of a turn.
#[derive(Clone, Copy, PartialEq, Eq, Debug)]
pub enum Event {
    /// The policy picked no side.
    Rested,
    /// The picked side has no thread.
    NoThread,
    WentOn,
    Sent(i32),
    /// The thread waits for a message.
    Waits,
    Received(i32),
    /// 1 where the fork made a copy, -1 where the side had no room for one.
    // A number and no enum: by the rules the value of this event is 1 or -1, what the thread is answered.
    Forked(i32),
    Emitted(i32),
    Stopped,
    /// The thread is gone. It stood at `place` before the step.
    Faulted { fault: Fault, place: u16 },
}

/// What a turn answers: the side that was picked, if any, the label of the thread that was taken out, and what came of it.
#[derive(Clone, Copy, PartialEq, Eq, Debug)]
pub struct Frame {
    pub side: Option<Side>,
    /// 0 where no thread was taken out.
    // A number and no `Option`: by the rules a label is a number, and 0 is one of them.
    pub label: u16,
    pub event: Event,
}

/// A frame as the rules list it, field by field. What an event does not name is 0.
// Numbers, no enums and no `Option`: the rules list these, and `Frame` is the same with enums.
#[derive(Clone, Copy, PartialEq, Eq, Debug)]
pub struct Fields {
    pub side: u8,
    pub event: u8,
    pub label: u16,
    pub value: i32,
    pub layer: u8,
    pub node: u8,
    pub place: u16,
}

impl From<Frame> for Fields {
    ghost from_gives = { λ frame fields. fields ≡ fields_of frame };

    /// The frame's fields by the rules' numbers.
    fn from(frame: Frame) -> Fields {
        let side = frame.side.map_or(0, |side| side as u8);
        let plain = |event, value| Fields {
            side,
            event,
            label: frame.label,
            value,
            layer: 0,
            node: 0,
            place: 0,
        };
        // The numbers by hand: an event holds values, and `as` gives no number of it.
        match frame.event {
            Event::Rested => plain(0, 0),
            Event::NoThread => plain(1, 0),
            Event::WentOn => plain(2, 0),
            Event::Sent(value) => plain(3, value),
            Event::Waits => plain(4, 0),
            Event::Received(value) => plain(5, value),
            Event::Forked(value) => plain(6, value),
            Event::Emitted(value) => plain(7, value),
            Event::Stopped => plain(8, 0),
            Event::Faulted { fault, place } => Fields {
                layer: fault.layer,
                node: fault.node,
                place,
                ..plain(9, i32::from(fault.cause))
            },
        }
    }
}
