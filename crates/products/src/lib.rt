// Letters as products of primes: the conversions there and back, and whether two products meet.
#![tactic(auto)]

pub mod c;
mod checks;
pub mod convert;
mod euclid;
pub mod meeting;
pub mod product;
mod table;
mod twice;
