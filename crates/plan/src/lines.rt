// The two lines that the plan is played on.
use crate::spaces::Spaces;
use crate::trouble::Trouble;
use history::shipped::{play_runs, play_weights};
use kind::summary::RunCell;
use kind::weights::Weights;
use line::reply::Reply;
use line::request::Request;
use matrix::grid::Matrix;
use semiring::costs::Costs;
use std::alloc::Global;

// Neighbours down in a row that cut the supply.
pub(crate) const IN_A_ROW: u64 = 3;

// What a node of the line of costs holds at first: codes that are no costs.
const NO_MATRIX: Matrix = Matrix {
    rows: [[u64::MAX; 9]; 9],
};

// What a node of the line of runs holds at first: runs that no stretch has.
const NO_RUNS: RunCell = RunCell {
    all: true,
    first: 9,
    last: 5,
    longest: 2,
};

// What a line of costs answers.
pub(crate) fn costs(alloc: Global, plan: &[Request]) -> Result<Vec<Reply<Matrix>>, Trouble> {
    let kind = Weights::new(Costs, IN_A_ROW)?;
    let mut spaces = Spaces::new(alloc, NO_MATRIX, plan.len())?;
    let Spaces {
        list,
        nodes,
        journal,
        replies,
    } = &mut spaces;
    play_weights(kind, list, nodes, journal, plan, replies)?;
    Ok(spaces.replies)
}

// What a line of runs answers.
pub(crate) fn runs(alloc: Global, plan: &[Request]) -> Result<Vec<Reply<RunCell>>, Trouble> {
    let mut spaces = Spaces::new(alloc, NO_RUNS, plan.len())?;
    let Spaces {
        list,
        nodes,
        journal,
        replies,
    } = &mut spaces;
    play_runs(list, nodes, journal, plan, replies)?;
    Ok(spaces.replies)
}
