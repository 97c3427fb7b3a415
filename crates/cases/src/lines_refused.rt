// Calls on a line that are refused: the first number in the order of the checks, and that a refused call changes nothing.
use crate::calls::{asks, backs, closed, keeps, rings, sets, tries};
use crate::lines::{DOWN, JUDGED, NO_ENTRY, NO_MATRIX, NO_RUNS, NO_STATION};
use kind::runs::Runs;
use kind::weights::Weights;
use line::lines::Standing;
use line::values::{Entry, Values};
use matrix::grid::Matrix;
use refusal::Refusal;
use semiring::Semiring;
use semiring::counts::Counts;
use semiring::residues::Residues;
use station::record::{Station, Status};
use std::process::Abort;
use std::test::Fail;

// Residues by 7, of which 7 is none.
fn by_seven() -> Result<Weights<Residues>, Refusal> {
    Weights::new(Residues::try_from(7u64)?, 2)
}

fn judged(down: u64) -> Values {
    Values {
        status: Status::Judged,
        up: 1,
        down,
    }
}

// The spaces of a line of two stations.
#[derive(Clone, Copy)]
struct Spaces {
    list: [Station; 2],
    nodes: [Matrix; 3],
    journal: [Entry; 2],
}

const SPACES: Spaces = Spaces {
    list: [NO_STATION; 2],
    nodes: [NO_MATRIX; 3],
    journal: [NO_ENTRY; 2],
};

impl Spaces {
    // A line in them with this down code at both places, and then a trial with one entry, in which it became 3 at place 1.
    fn tried<S: Semiring>(
        &mut self,
        weights: Weights<S>,
        down: u64,
    ) -> Result<Standing<Weights<S>>, Refusal> {
        let mut line = closed(weights, &mut self.list, &mut self.nodes, &[judged(down); 2])?;
        line.open_trial()?;
        line.set(
            &mut self.list,
            &mut self.nodes,
            &mut self.journal,
            1,
            judged(3),
        )?;
        Ok(line)
    }

    // Matrices have no ==.
    fn holds(&self, other: &Spaces) -> bool {
        for (matrix, other) in self.nodes.iter().zip(&other.nodes) {
            if matrix.rows != other.rows {
                return false;
            }
        }
        self.list == other.list && self.journal == other.journal
    }
}

// In a trial with one entry: how many records, nodes and entries there is room for, a place, a down code, and the joins or the panel's number.
fn set_is(
    rt: &impl Abort,
    (records, cells, entries): (usize, usize, usize),
    place: usize,
    down: u64,
    answer: Result<usize, u8>,
) -> Result<(), Fail> {
    let mut spaces = SPACES;
    let mut line = spaces.tried(by_seven()?, 1)?;
    let before = spaces;
    assert!(rt; records <= 2 && cells <= 3 && entries <= 2);
    sets(
        rt,
        &mut line,
        &mut spaces.list[..records],
        &mut spaces.nodes[..cells],
        &mut spaces.journal[..entries],
        place,
        judged(down),
        answer,
    );
    assert!(rt; answer.is_ok() || spaces.holds(&before));
    keeps(rt, &mut line, Ok(if answer.is_ok() { 2 } else { 1 }));
    Ok(())
}

#[test]
fn sets_that_are_refused(rt: HostRuntime) -> Result<(), Fail> {
    let rows = [
        ((1, 3, 2), 1, 6, Err(2)),
        ((2, 2, 2), 1, 6, Err(2)),
        ((2, 3, 0), 0, 7, Err(2)),
        ((2, 3, 1), 0, 7, Err(6)),
        ((2, 3, 1), 3, 7, Err(6)),
        ((2, 3, 1), 2, 7, Err(5)),
        ((2, 3, 1), 2, 6, Err(11)),
        ((2, 3, 2), 2, 6, Ok(1)),
    ];
    for (rooms, place, down, answer) in rows {
        set_is(&rt, rooms, place, down, answer)?;
    }
    Ok(())
}

// Outside a trial keep and back are refused, back whatever the spaces are, and a set needs no journal; in a trial another try is refused.
#[test]
fn trials_that_are_refused(rt: HostRuntime) -> Result<(), Fail> {
    let mut list = [NO_STATION; 2];
    let mut nodes = [NO_RUNS; 3];
    let mut line = closed(Runs, &mut list, &mut nodes, &[JUDGED; 2])?;
    keeps(&rt, &mut line, Err(10));
    backs(&rt, &mut line, &mut [], &mut [], &[], Err(10));
    sets(
        &rt,
        &mut line,
        &mut list,
        &mut nodes,
        &mut [],
        1,
        DOWN,
        Ok(1),
    );
    tries(&rt, &mut line, Ok(0));
    tries(&rt, &mut line, Err(9));
    sets(
        &rt,
        &mut line,
        &mut list,
        &mut nodes,
        &mut [],
        1,
        DOWN,
        Err(11),
    );
    keeps(&rt, &mut line, Ok(0));
    keeps(&rt, &mut line, Err(10));
    Ok(())
}

// Refused with this journal, and with too few nodes for that first; nothing has changed, and the trial is open.
fn cannot_be_put_back(
    rt: &impl Abort,
    line: &mut Standing<Weights<Residues>>,
    spaces: &mut Spaces,
    journal: [Entry; 2],
) {
    let before = *spaces;
    let Spaces { list, nodes, .. } = spaces;
    backs(rt, line, list, nodes, &journal, Err(12));
    backs(rt, line, list, &mut nodes[..2], &journal, Err(2));
    assert!(rt; spaces.holds(&before));
    tries(rt, line, Err(9));
}

// An entry whose place the line of two does not have, or whose code the kind does not take, older or newer than a good one. The trial stays open, and can be taken
// back with the journal as it was.
#[test]
fn entries_that_cannot_be_put_back(rt: HostRuntime) -> Result<(), Fail> {
    let mut spaces = SPACES;
    let mut line = spaces.tried(by_seven()?, 1)?;
    let Spaces {
        list,
        nodes,
        journal,
    } = &mut spaces;
    line.set(list, nodes, journal, 2, judged(2))?;
    let [older, newer] = spaces.journal;
    for (place, down) in [(0, 1), (3, 1), (1, 7)] {
        let values = judged(down);
        let bad = Entry { place, values };
        cannot_be_put_back(&rt, &mut line, &mut spaces, [bad, newer]);
        cannot_be_put_back(&rt, &mut line, &mut spaces, [older, bad]);
    }
    let Spaces {
        list,
        nodes,
        journal,
    } = &mut spaces;
    asks(&rt, &line, list, nodes, journal, (1, 2), Ok((6, 6, 0)));
    backs(&rt, &mut line, list, nodes, journal, Ok(2));
    asks(&rt, &line, list, nodes, journal, (1, 2), Ok((1, 3, 0)));
    Ok(())
}

// The ring, and windows outside the line.
fn are_refused(
    rt: &impl Abort,
    line: &Standing<Weights<Counts>>,
    list: &[Station],
    nodes: &[Matrix],
    journal: &[Entry],
    by_ring: u8,
    by_window: u8,
) {
    rings(rt, line, list, nodes, journal, Err(by_ring));
    for (first, last) in [(0, 1), (2, 1), (1, 3)] {
        asks(
            rt,
            line,
            list,
            nodes,
            journal,
            (first, last),
            Err(by_window),
        );
    }
}

// With k = 3, in a trial with one entry.
#[test]
fn questions_that_are_refused(rt: HostRuntime) -> Result<(), Fail> {
    let mut spaces = SPACES;
    let line = spaces.tried(Weights::new(Counts, 3)?, 2)?;
    let Spaces {
        list,
        nodes,
        journal,
    } = &spaces;
    are_refused(&rt, &line, list, nodes, &journal[..1], 8, 6);
    are_refused(&rt, &line, &list[..1], nodes, journal, 2, 2);
    are_refused(&rt, &line, list, &nodes[..2], journal, 2, 2);
    are_refused(&rt, &line, list, nodes, &[], 2, 2);
    asks(&rt, &line, list, nodes, journal, (1, 2), Ok((0, 12, 0)));
    Ok(())
}
