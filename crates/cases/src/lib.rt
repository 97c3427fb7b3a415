// Tests on examples, in a crate of their own so that the libraries are not proved twice.
#![tactic(auto)]

#[cfg(test)]
mod calls;
#[cfg(test)]
mod fillings;
#[cfg(test)]
mod kinds;
#[cfg(test)]
mod lines;
#[cfg(test)]
mod lines_refused;
#[cfg(test)]
mod marked;
#[cfg(test)]
mod refused;
#[cfg(test)]
mod requests;
#[cfg(test)]
mod semirings;
#[cfg(test)]
mod stations;
#[cfg(test)]
mod stretches;
#[cfg(test)]
mod trees;
