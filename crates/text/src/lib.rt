// Texts: records read as RFC 4180 has them, their columns, station lists and answers written.
#![tactic(auto)]

pub mod add;
pub mod answer;
pub mod column;
pub mod fault;
pub mod label;
mod number;
pub mod record;
mod scan;
pub mod sink;
pub mod station_text;
pub mod verb;
pub mod words;
pub mod written;
