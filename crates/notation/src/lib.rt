// The letter notation: the alphabet and the lines of letters.
#![tactic(auto)]

pub mod alphabet;
pub mod lines;
