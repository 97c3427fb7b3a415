// Prints the figures of a small ring main, those of a long main with its tree, and then those of the example rows in
// docs/rules/examples.md.
#![tactic(auto)]

mod asked;
mod long_main;
mod report;
mod ring_main;
mod rows;
mod trouble;

use trouble::Trouble;

fn main(rt: HostRuntime) -> Result<(), Trouble> {
    ring_main::show(&rt)?;
    long_main::show(&rt)?;
    rows::show(&rt)
}
