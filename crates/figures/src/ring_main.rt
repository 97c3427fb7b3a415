// A ring main of a dozen stations: what it costs at least to break it, and how long a run is down.
ghost use Rattle.std.specs.Prelude.{◌≡◌};
ghost use Rattle.refusal.specs.Refusals.{by_number, answered};
ghost use Rattle.semiring.specs.Models.{costs};
ghost use Rattle.states.specs.Runs.{longest, ring_longest};
ghost use Rattle.states.specs.States.{failing, ring_failing};
ghost use Rattle.kind.specs.Runs.{runs_kind, capped, marked};
ghost use Rattle.kind.specs.Stretch.{stretch_refusal, stretch_ring_refusal};
ghost use Rattle.kind.specs.Weights.{weights_kind};

use crate::report;
use crate::trouble::Trouble;
use kind::runs::Runs;
use kind::weights::Weights;
use refusal::Refusal;
use semiring::costs::Costs;
use station::record::{Station, Status};

// Neighbours down in a row that cut the supply.
const IN_A_ROW: u64 = 4;

// The codes are costs: nothing for a station to run, and what it takes to put it out.
fn stations() -> Result<[Station; 12], Refusal> {
    Ok([
        Station::new(b"Weir Lane", Status::Down, 0, 0)?,
        Station::new(b"Mill Race", Status::Judged, 0, 35)?,
        Station::new(b"Old Quarry", Status::Judged, 0, 42)?,
        Station::new(b"Chapel Hill", Status::Judged, 0, 18)?,
        Station::new(b"Market Cross", Status::Down, 0, 0)?,
        Station::new(b"Tannery", Status::Judged, 0, 27)?,
        Station::new(b"Station Road", Status::Down, 0, 0)?,
        Station::new(b"Bell Foundry", Status::Judged, 0, 61)?,
        Station::new(b"Canal Wharf", Status::Bypass, 0, 0)?,
        Station::new(b"East Gate", Status::Judged, 0, 54)?,
        Station::new(b"Reservoir", Status::Down, 0, 0)?,
        Station::new(b"Hilltop", Status::Down, 0, 0)?,
    ])
}

// The least that it costs to break a window: the least cost of a failing state.
fn cheapest_break(kind: &Weights<Costs>, stations: &[Station]) -> Result<u64, Refusal>
    ensures { by_number result ≡ answered (stretch_refusal (weights_kind costs kind.now.chain.threshold.k) stations.now) (failing costs kind.now.chain.threshold.k stations.now) }
{
    Ok(kind.window_of(stations)?.first)
}

// The same around a ring.
fn cheapest_ring_break(kind: &Weights<Costs>, stations: &[Station]) -> Result<u64, Refusal>
    ensures { by_number result ≡ answered (stretch_ring_refusal (weights_kind costs kind.now.chain.threshold.k) stations.now) (ring_failing costs kind.now.chain.threshold.k stations.now) }
{
    Ok(kind.ring_of(stations)?.first)
}

// How many stations in a row are marked down in a window.
fn longest_run(stations: &[Station]) -> Result<u64, Refusal>
    ensures { by_number result ≡ answered (stretch_refusal runs_kind stations.now) (capped (longest (marked stations.now))) }
{
    Ok(Runs.window_of(stations)?.first)
}

// The same around a ring.
fn longest_ring_run(stations: &[Station]) -> Result<u64, Refusal>
    ensures { by_number result ≡ answered (stretch_ring_refusal runs_kind stations.now) (capped (ring_longest (marked stations.now))) }
{
    Ok(Runs.ring_of(stations)?.first)
}

// The stations, and what is said of places 2 to 9 and of the whole ring.
fn figures(rt: &HostRuntime, list: &[Station; 12]) -> Result<(), Trouble> {
    let kind = Weights::new(Costs, IN_A_ROW)?;
    let stretch = &list[1..9];
    report::stations(rt, list)?;
    let broken = cheapest_break(&kind, stretch)?;
    println!(rt; "cheapest break of places 2 to 9: {broken}")?;
    let broken = cheapest_ring_break(&kind, list)?;
    println!(rt; "cheapest break of the ring: {broken}")?;
    let run = longest_run(stretch)?;
    println!(rt; "longest run down in places 2 to 9: {run}")?;
    let run = longest_ring_run(list)?;
    println!(rt; "longest run down on the ring: {run}")?;
    Ok(())
}

pub(crate) fn show(rt: &HostRuntime) -> Result<(), Trouble> {
    let mut list = stations()?;
    let k = IN_A_ROW;
    println!(rt; "Ring main, broken by {k} neighbours down in a row")?;
    figures(rt, &list)?;
    list[10].status = Status::Up;
    println!(rt; "The same with place 11 marked up")?;
    figures(rt, &list)
}
