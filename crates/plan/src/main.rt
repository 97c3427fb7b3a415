// Plays a maintenance plan of a dozen stations on a line of costs and on a line of runs, and prints call by call what each answered.
#![tactic(auto)]

mod lines;
mod report;
mod requests;
mod spaces;
mod trouble;

use trouble::Trouble;

fn main(rt: HostRuntime) -> Result<(), Trouble> {
    let plan = requests::plan();
    let costs = lines::costs(rt.alloc(), &plan)?;
    let runs = lines::runs(rt.alloc(), &plan)?;
    report::show(&rt, &plan, &costs, &runs)
}
