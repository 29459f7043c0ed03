// Letters: sets of base letters, held in bits; strings of them, and the limits of both.
#![tactic(auto)]

pub mod letter;
pub mod limits;
pub mod members;
pub mod strings;
