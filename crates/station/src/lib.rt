// Stations: the record, its label, the words for statuses, and the weights that a status gives.
#![tactic(auto)]

pub mod label;
pub mod record;
pub mod same;
pub mod weights;
pub mod words;
