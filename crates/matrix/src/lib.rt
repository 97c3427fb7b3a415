// Matrices of 9 by 9 codes over any semiring: the chain of runs that a station moves along, its product and figures.
#![tactic(auto)]

pub mod chain;
pub mod figures;
pub mod grid;
pub mod product;
mod stepwise;
pub mod threshold;
