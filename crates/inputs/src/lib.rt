// What a search is given: the checks that refuse it, and what it answers.
#![tactic(auto)]

pub mod checks;
pub mod refusal;
pub mod rule;
pub mod starts;
pub mod steps;
pub mod twice;
