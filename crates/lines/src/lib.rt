//! Lines: records written as hexadecimal digits, capitals, the high byte first, with a line feed at the end.
#![tactic(auto)]

pub mod forms;
mod hex;
pub mod readings;
