//! A whole measurement: settings and taps in, the lines of letters that were shown and the reading out.
#![tactic(auto)]

pub mod complaints;
pub mod reports;
pub mod running;
pub mod settings;
pub mod taps;
mod threads;
