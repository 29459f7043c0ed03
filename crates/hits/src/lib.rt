// Hits, the scan that finds one, and what a search counts.
#![tactic(auto)]

pub mod scan;
pub mod work;
