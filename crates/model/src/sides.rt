/// The two sides of the tablet, with their numbers. The Shop runs the optician's scripts, the Patient measures sight.
#[derive(Clone, Copy, PartialEq, Eq, Debug)]
pub enum Side {
    Shop = 1,
    Patient = 2,
}

/// How many cells a side has. They are numbered from 0.
pub const CELLS: usize = 64;
