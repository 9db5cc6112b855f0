//! The words that all parts of Budzghari share: sides, threads' answers and requests, faults, frames and refusals, and the interface of a machine.
#![tactic(auto)]

pub mod faults;
pub mod frames;
pub mod machines;
pub mod refusals;
pub mod sides;
pub mod threads;
