// The example rows: small lines whose answers are known, asked of a tree.
ghost use Rattle.std.specs.Prelude.{◌≡◌, Ok, OnOk};
ghost use Rattle.refusal.specs.Refusals.{by_number};
ghost use Rattle.examples.specs.Rows.{defined};

use crate::trouble::Trouble;
use crate::{asked, report};
use examples::row::{Answer, Row};
use kind::Kind;
use kind::runs::Runs;
use kind::weights::Weights;
use refusal::Refusal;
use semiring::costs::Costs;
use semiring::counts::Counts;
use semiring::residues::Residues;
use station::record::{Station, Status};

// As many nodes as five stations need.
const ROOM: usize = 15;

// Ends the program where the monitor does not give the rulebook's answer.
fn compare(row: Row, answer: Result<Answer, Refusal>) -> Result<(), Trouble>
    ensures { OnOk result (by_number answer ≡ Ok (defined row)) }
{
    if answer? != row.answer() {
        return Err(Trouble::NotTheRulebook(row));
    }
    Ok(())
}

// What all of the stations give as a window and as the ring. A ring may be refused.
#[derive(Clone, Copy)]
struct Both {
    window: Result<Answer, Refusal>,
    ring: Result<Answer, Refusal>,
}

fn answers<K: Kind>(rt: &HostRuntime, kind: &K, list: &[Station]) -> Result<Both, Trouble> {
    let mut nodes = vec![in rt.alloc(); kind.to_cell(&kind.empty()); ROOM]?;
    let (tree, _) = asked::filled(*kind, list, &mut nodes)?;
    Ok(Both {
        window: asked::whole(&tree, &nodes),
        ring: asked::ring(&tree, &nodes),
    })
}

fn show_both<K: Kind>(
    rt: &HostRuntime,
    what: &str,
    kind: &K,
    list: &[Station],
) -> Result<Both, Trouble> {
    let both = answers(rt, kind, list)?;
    println!(rt; "{what}")?;
    report::answer(rt, "window", both.window)?;
    report::answer(rt, "ring", both.ring)?;
    Ok(both)
}

fn station(status: Status, up: u64, down: u64) -> Station {
    Station {
        label: [0; 24],
        status,
        up,
        down,
    }
}

fn judged(up: u64, down: u64) -> Station {
    station(Status::Judged, up, down)
}

fn of_status(status: Status) -> Station {
    station(status, 0, 0)
}

// Counts of stations with 1 and 1.
fn even_counts(rt: &HostRuntime) -> Result<(), Trouble> {
    let five = [judged(1, 1); 5];
    let one = Weights::new(Counts, 1)?;
    let two = Weights::new(Counts, 2)?;
    let three = Weights::new(Counts, 3)?;
    let row = show_both(rt, "counts, k 2, n 1, each 1 and 1", &two, &five[..1])?;
    compare(Row::OneForTwo, row.window)?;
    let row = show_both(rt, "counts, k 1, n 1, each 1 and 1", &one, &five[..1])?;
    compare(Row::OneForOne, row.window)?;
    let row = show_both(rt, "counts, k 2, n 4, each 1 and 1", &two, &five[..4])?;
    compare(Row::FourForTwo, row.window)?;
    compare(Row::RingOfFour, row.ring)?;
    let row = show_both(rt, "counts, k 3, n 5, each 1 and 1", &three, &five)?;
    compare(Row::FiveForThree, row.window)?;
    compare(Row::RingOfFive, row.ring)?;
    show_both(rt, "counts, k 3, n 2, each 1 and 1", &three, &five[..2])?;
    middle(rt, &three, &five)
}

fn middle<K: Kind>(rt: &HostRuntime, kind: &K, five: &[Station]) -> Result<(), Trouble> {
    let mut nodes = vec![in rt.alloc(); kind.to_cell(&kind.empty()); ROOM]?;
    let (tree, _) = asked::filled(*kind, five, &mut nodes)?;
    let answer = asked::window(&tree, &nodes, 2, 4);
    println!(rt; "counts, k 3, places 2 to 4 of 5, each 1 and 1")?;
    report::answer(rt, "window", answer)?;
    compare(Row::MiddleOfFive, answer)
}

fn full_counts(rt: &HostRuntime) -> Result<(), Trouble> {
    let one = Weights::new(Counts, 1)?;
    let full = [judged(1, 1_000_000_000); 2];
    let row = show_both(rt, "counts, k 1, n 2, each 1 and 1000000000", &one, &full)?;
    compare(Row::FullCount, row.window)
}

fn residues(rt: &HostRuntime) -> Result<(), Trouble> {
    let two = Weights::new(Residues::try_from(7u64)?, 2)?;
    let four = [judged(1, 1); 4];
    let row = show_both(rt, "residues by 7, k 2, n 4, each 1 and 1", &two, &four)?;
    compare(Row::ResiduesOfFour, row.window)?;
    compare(Row::ResiduesRing, row.ring)
}

fn costs(rt: &HostRuntime) -> Result<(), Trouble> {
    let mut four = [judged(0, 2), judged(0, 9), judged(0, 4), judged(0, 1)];
    let two = Weights::new(Costs, 2)?;
    let row = show_both(rt, "costs, k 2, n 4, up 0, down 2, 9, 4, 1", &two, &four)?;
    compare(Row::CheapestBreak, row.window)?;
    compare(Row::CheapestRingBreak, row.ring)?;
    four[0].status = Status::Up;
    let row = show_both(rt, "costs, k 2, the same with place 1 up", &two, &four)?;
    compare(Row::BreakWithoutFirst, row.ring)
}

fn runs(rt: &HostRuntime) -> Result<(), Trouble> {
    let [down, up] = [of_status(Status::Down), of_status(Status::Up)];
    let four = [down, down, up, down];
    let row = show_both(rt, "runs, n 4, down, down, up, down", &Runs, &four)?;
    compare(Row::Runs, row.window)?;
    compare(Row::RunsRing, row.ring)
}

pub(crate) fn show(rt: &HostRuntime) -> Result<(), Trouble> {
    println!(rt; "Example rows: failing, working and joins, or longest run, front run and joins")?;
    even_counts(rt)?;
    full_counts(rt)?;
    residues(rt)?;
    costs(rt)?;
    runs(rt)
}
