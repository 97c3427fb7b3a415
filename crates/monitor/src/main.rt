// Reads a text of calls from standard input, and prints the answers.
#![tactic(auto)]

mod answers;
mod input;
#[cfg(test)]
mod tests;
mod trouble;

use input::answered;
use std::io::{self, Write};
use trouble::Trouble;

fn main(rt: HostRuntime) -> Result<(), Trouble> {
    let answers = answered(rt.alloc(), rt.reader())?;
    Ok(io::writer(&rt).write_all(&answers)?)
}
