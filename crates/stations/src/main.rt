// Reads add records from standard input, and prints what it refused and then the stations as the monitor writes them.
#![tactic(auto)]

mod list;
mod report;
mod trouble;

use std::io::{self, Read, Write};
use trouble::Trouble;

fn main(rt: HostRuntime) -> Result<(), Trouble> {
    let mut text = Vec::new(rt.alloc());
    rt.reader().read_to_end(&mut text)?;
    let list = list::read(rt.alloc(), &text)?;
    let report = report::report(rt.alloc(), &list)?;
    Ok(io::writer(&rt).write_all(&report)?)
}
