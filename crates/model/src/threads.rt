/// What a thread is told at its next step: that its last request is done, a message, or how its fork went.
#[derive(Clone, Copy, PartialEq, Eq, Debug)]
pub enum Answer {
    Done,
    Got(i32),
    /// 1 for the parent, 0 for the copy, -1 where there was no room for one.
    // A number and no enum: by the rules, and in the definitions, a machine means something at every number that it is handed here.
    Fork(i32),
}

/// What a thread asks for at the end of a step.
#[derive(Clone, Copy, PartialEq, Eq, Debug)]
pub enum Request {
    GoOn,
    Send(i32),
    Receive,
    Fork,
    Emit(i32),
    Stop,
}

/// A value for one cell of the thread's side.
#[derive(Clone, Copy, PartialEq, Eq, Debug)]
pub struct CellWrite {
    pub cell: usize,
    pub value: i32,
}

/// What a step comes to: where the thread then stands, with which work numbers, at most one cell to write, and a request.
// Place and work numbers are no struct: see `Machine::step`.
#[derive(Clone, Copy, PartialEq, Eq, Debug)]
pub struct Outcome {
    pub place: u16,
    pub work: [i32; 4],
    pub write: Option<CellWrite>,
    pub request: Request,
}
