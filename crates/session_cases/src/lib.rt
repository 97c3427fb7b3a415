// Tests of sessions, in a crate of their own so that the session is not proved twice.
#![tactic(auto)]

#[cfg(test)]
mod rows;
#[cfg(test)]
mod sessions;
