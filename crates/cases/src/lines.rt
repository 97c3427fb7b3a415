// Calls on a line whose spaces hold garbage. What they answer is worked out by hand from what the nodes hold.
use crate::calls::{asks, backs, closed, rings, sets, tries};
use kind::runs::Runs;
use kind::summary::RunCell;
use line::values::{Entry, Values};
use matrix::grid::Matrix;
use station::record::{Station, Status};
use std::test::Fail;

// What the spaces hold before a line writes them: no label, no code that residues by 7 have, no summary, and no place.
pub(crate) const NO_STATION: Station = Station {
    label: [0xff; 24],
    status: Status::Bypass,
    up: 77,
    down: 77,
};

pub(crate) const NO_MATRIX: Matrix = Matrix { rows: [[77; 9]; 9] };

pub(crate) const NO_RUNS: RunCell = RunCell {
    all: true,
    first: 9,
    last: 8,
    longest: 7,
};

pub(crate) const NO_ENTRY: Entry = Entry {
    place: 77,
    values: JUDGED,
};

pub(crate) const JUDGED: Values = Values {
    status: Status::Judged,
    up: 9,
    down: 1,
};

pub(crate) const DOWN: Values = Values {
    status: Status::Down,
    up: 9,
    down: 1,
};

pub(crate) fn cell(all: bool, first: u32, last: u32, longest: u32) -> RunCell {
    RunCell {
        all,
        first,
        last,
        longest,
    }
}

// Whether nothing was written there, not even a label that counts the same.
pub(crate) fn untouched(list: &[Station]) -> bool {
    for station in list {
        if *station != NO_STATION || station.label != NO_STATION.label {
            return false;
        }
    }
    true
}

// Node 9 is place 2, node 5 places 3 and 4, node 12 place 5, and node 2 places 1 to 4. What no summary has counts as the empty one.
fn garbage() -> [RunCell; 15] {
    let mut nodes = [NO_RUNS; 15];
    nodes[1] = cell(false, 3, 4, 6);
    nodes[8] = cell(true, 7, 7, 7);
    nodes[11] = cell(false, 2, 1, 8);
    nodes
}

// The nodes are changed behind the line's back.
#[test]
fn garbage_in_the_nodes(rt: HostRuntime) -> Result<(), Fail> {
    let mut list = [NO_STATION; 5];
    let mut nodes = [NO_RUNS; 15];
    let mut line = closed(Runs, &mut list, &mut nodes, &[JUDGED; 5])?;
    nodes = garbage();
    asks(&rt, &line, &list, &nodes, &[], (2, 5), Ok((9, 9, 2)));
    rings(&rt, &line, &list, &nodes, &[], Ok((8, 4, 1)));
    sets(
        &rt,
        &mut line,
        &mut list,
        &mut nodes,
        &mut [],
        5,
        DOWN,
        Ok(3),
    );
    let mut written = garbage();
    written[11] = cell(true, 1, 1, 1);
    written[5] = cell(true, 1, 1, 1);
    written[2] = cell(true, 1, 1, 1);
    written[0] = cell(false, 3, 5, 6);
    assert!(rt; nodes == written);
    Ok(())
}

// A trial begins with no entry, whatever the journal holds, and a label stays, whatever it is.
#[test]
fn garbage_in_list_and_journal(rt: HostRuntime) -> Result<(), Fail> {
    let mut list = [NO_STATION; 1];
    let mut nodes = [NO_RUNS; 1];
    let mut journal = [NO_ENTRY; 1];
    let mut line = closed(Runs, &mut list, &mut nodes, &[JUDGED; 1])?;
    list = [NO_STATION; 1];
    tries(&rt, &mut line, Ok(0));
    backs(&rt, &mut line, &mut list, &mut nodes, &journal, Ok(0));
    tries(&rt, &mut line, Ok(0));
    sets(
        &rt,
        &mut line,
        &mut list,
        &mut nodes,
        &mut journal,
        1,
        DOWN,
        Ok(0),
    );
    rings(&rt, &line, &list, &nodes, &journal, Ok((1, 1, 0)));
    backs(&rt, &mut line, &mut list, &mut nodes, &journal, Ok(1));
    rings(&rt, &line, &list, &nodes, &journal, Ok((0, 0, 0)));
    assert!(rt; untouched(&list));
    Ok(())
}
