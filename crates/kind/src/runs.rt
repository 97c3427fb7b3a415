// The kind of runs: how many stations in a row are down.
ghost use Rattle.std.specs.Prelude.{◌≡◌};
ghost use Rattle.refusal.specs.Refusals.{by_number};
ghost use Rattle.kind.specs.Meaning.{WindowSays, RingSays, meant_window, meant_ring};
ghost use Rattle.kind.specs.Runs.{runs_kind, runs_meaning, WindowExactly, RingExactly, WholeRingDown, summary, goes_on, longest_of, seam, joined_runs, Joined};
ghost use Rattle.kind.specs.Sound.{sound};
ghost use Rattle.kind.specs.Summaries.{runs_lawful};
ghost use Rattle.kind.specs.RunsMeant.{runs_meant};

use crate::Kind;
use crate::figures::Figures;
use crate::stretch::{ring_of, window_of};
use crate::summary::{RunCell, RunSummary};
use refusal::Refusal;
use station::record::{Station, Status};

#[derive(Clone, Copy, PartialEq, Eq, Debug)]
pub struct Runs;

impl Runs {
    // The longest run of stations with status down in a stretch, and the run at its front.
    pub fn window_of(&self, stations: &[Station]) -> Result<Figures, Refusal>
        ensures { by_number result ≡ meant_window runs_kind runs_meaning stations.now }
    {
        window_of(self, stations)
    }

    // The longest run around the ring, and the run across the seam.
    pub fn ring_of(&self, stations: &[Station]) -> Result<Figures, Refusal>
        ensures { by_number result ≡ meant_ring runs_kind runs_meaning stations.now }
    {
        ring_of(self, stations)
    }
}

// A run that `more` carries on where all of its stretch is down.
fn carried_on(all: bool, run: u32, more: u32) -> u32
    ensures { result ≡ goes_on all run more }
{
    if all { run.saturating_add(more) } else { run }
}

impl RunCell {
    // Whether the cell keeps what every summary keeps.
    fn is_sound(&self) -> bool
        ensures { result ≡ sound self.now.all self.now.first self.now.last self.now.longest }
    {
        if self.all {
            self.first == self.longest && self.last == self.longest
        } else {
            self.first <= self.longest && self.last <= self.longest
        }
    }

    // The longest run of this stretch and the next, the one across their border included.
    fn longest_with(&self, next: &RunCell) -> u32
        ensures { result ≡ longest_of self.now.longest next.now.longest self.now.last next.now.first }
    {
        let across = self.last.saturating_add(next.first);
        self.longest.max(next.longest).max(across)
    }
}

impl RunSummary {
    // The summary whose three runs are the same.
    fn even(all: bool, n: u32) -> RunSummary
        ensures { result ≡ summary all n n n }
    {
        RunSummary {
            cell: RunCell {
                all,
                first: n,
                last: n,
                longest: n,
            },
        }
    }

    // The run that crosses from the last station to the first; where all are down, each counts once.
    fn seam(&self) -> u32
        ensures { result ≡ seam self.now }
    {
        let cell = self.cell;
        if cell.all {
            cell.first
        } else {
            cell.last.saturating_add(cell.first)
        }
    }
}

impl Kind for Runs {
    type Element = RunSummary;

    type Cell = RunCell;

    ghost ops = { λ _. runs_kind };

    ghost meaning = { λ _. runs_meaning };

    ghost lawful = { λ k. runs_lawful };

    ghost meant = { λ k. runs_meant };

    fn takes(&self, _station: &Station) -> bool {
        true
    }

    fn single(&self, station: &Station) -> RunSummary {
        let down = station.status == Status::Down;
        RunSummary::even(down, u32::from(down))
    }

    fn empty(&self) -> RunSummary {
        RunSummary::even(true, 0)
    }

    #[tactic(auto, using(crate::specs::Summaries::joined_sound))]
    fn join(&self, left: &RunSummary, right: &RunSummary) -> RunSummary
        ensures value { result ≡ joined_runs left.now right.now }
        ensures parts { Joined left.now right.now result }
    {
        let (a, b) = (left.cell, right.cell);
        RunSummary {
            cell: RunCell {
                all: a.all & b.all,
                first: carried_on(a.all, a.first, b.first),
                last: carried_on(b.all, b.last, a.last),
                longest: a.longest_with(&b),
            },
        }
    }

    fn to_cell(&self, element: &RunSummary) -> RunCell {
        element.cell
    }

    // A cell that breaks what every summary keeps stands for the empty one.
    fn from_cell(&self, cell: &RunCell) -> RunSummary {
        if !cell.is_sound() {
            return self.empty();
        }
        RunSummary { cell: *cell }
    }

    // The longest run and the run at the front, of the stations that the summary was joined from.
    #[tactic(auto, using(crate::specs::RunsMeant::runs_meant, crate::specs::RunsMeant::window_exactly))]
    fn window_figures(&self, element: &RunSummary) -> Figures
        ensures value { result ≡ runs_kind.window element.now }
        ensures says { WindowSays runs_kind runs_meaning element.now result }
        ensures exactly { WindowExactly element.now result }
    {
        Figures {
            first: u64::from(element.cell.longest),
            second: u64::from(element.cell.first),
        }
    }

    // The longest run around the ring and the run across the seam. Where all are down, it has each station once.
    #[tactic(auto, using(crate::specs::RunsMeant::runs_meant, crate::specs::RunsMeant::ring_exactly, crate::specs::RunsMeant::whole_ring_down))]
    fn ring_figures(&self, element: &RunSummary) -> Figures
        ensures value { result ≡ runs_kind.ring element.now }
        ensures says { RingSays runs_kind runs_meaning element.now result }
        ensures exactly { RingExactly element.now result }
        ensures whole { WholeRingDown element.now result }
    {
        let seam = element.seam();
        Figures {
            first: u64::from(element.cell.longest.max(seam)),
            second: u64::from(seam),
        }
    }

    fn shortest_ring(&self) -> usize {
        1
    }
}
