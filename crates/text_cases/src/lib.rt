// Tests of texts on examples, in a crate of their own so that the library is not proved twice.
#![tactic(auto)]

#[cfg(test)]
mod records;
#[cfg(test)]
mod texts;
