// The bytes of a report: how many they are, and the bytes themselves.
#![tactic(auto)]

pub mod lengths;
pub mod lines;
