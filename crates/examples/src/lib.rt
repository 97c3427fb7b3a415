// Examples: the rulebook's rows with the figures and joins that the definitions give, and a semiring whose product does not commute.
#![tactic(auto)]

pub mod first_decides;
pub mod row;
