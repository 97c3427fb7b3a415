// Lines that are filled: adds and closes that are refused, with the first number in the order of the checks, and the longest line.
use crate::calls::{adds, answers, asks, close, rings, sets};
use crate::lines::{DOWN, JUDGED, NO_RUNS, NO_STATION, untouched};
use kind::runs::Runs;
use kind::weights::Weights;
use line::lines::Filling;
use line::values::Values;
use refusal::Refusal;
use semiring::residues::Residues;
use station::record::{Station, Status};
use std::process::Abort;
use std::test::Fail;

// A line of residues by 7, of which 7 is none, with so many stations.
fn by_seven(list: &mut [Station], stations: usize) -> Result<Filling<Weights<Residues>>, Refusal> {
    let mut line = Filling::new(Weights::new(Residues::try_from(7u64)?, 2)?);
    for _ in 0..stations {
        line.add(list, b"", judged(6))?;
    }
    Ok(line)
}

fn judged(down: u64) -> Values {
    Values {
        status: Status::Judged,
        up: 1,
        down,
    }
}

// 25 bytes.
const LONG: &[u8] = b"abcdefghijklmnopqrstuvwxy";

// On a line of two stations: the room in the list, the length of the label, a down code, and the new number or the panel's.
fn add_is(
    rt: &impl Abort,
    room: usize,
    length: usize,
    down: u64,
    answer: Result<usize, u8>,
) -> Result<(), Fail> {
    let mut list = [NO_STATION; 3];
    let mut line = by_seven(&mut list, 2)?;
    let label = LONG.get(..length).ok_or("no such label")?;
    assert!(rt; room <= 3);
    adds(
        rt,
        &mut line,
        &mut list[..room],
        label,
        judged(down),
        answer,
    );
    if answer.is_err() {
        assert!(rt; untouched(&list[2..]));
        adds(rt, &mut line, &mut list, b"C", judged(6), Ok(3));
    }
    Ok(())
}

// The last add is to a full line, whose list is full too.
#[test]
fn adds_that_are_refused(rt: HostRuntime) -> Result<(), Fail> {
    let rows = [
        (2, 24, 6, Err(2)),
        (2, 25, 7, Err(2)),
        (3, 25, 7, Err(4)),
        (3, 25, 6, Err(4)),
        (3, 24, 7, Err(5)),
        (3, 24, 6, Ok(3)),
    ];
    for (room, length, down, answer) in rows {
        add_is(&rt, room, length, down, answer)?;
    }
    let mut list = vec![in rt.alloc(); NO_STATION; 4096]?;
    let mut line = by_seven(&mut list, 4096)?;
    adds(&rt, &mut line, &mut list, LONG, judged(7), Err(3));
    Ok(())
}

// So many stations, records and nodes, and the joins or the panel's number. A line that is given back takes an add.
fn close_is(
    rt: &impl Abort,
    stations: usize,
    records: usize,
    cells: usize,
    answer: Result<usize, u8>,
) -> Result<(), Fail> {
    let mut list = [NO_STATION; 6];
    let mut nodes = [NO_RUNS; 15];
    let mut line = Filling::new(Runs);
    for _ in 0..stations {
        line.add(&mut list, b"", DOWN)?;
    }
    assert!(rt; stations < 6 && records <= 6 && cells <= 15);
    match line.close(&list[..records], &mut nodes[..cells]) {
        Ok((_, joins)) => answers(rt, Ok(joins), answer),
        Err((mut line, refusal)) => {
            answers(rt, Err(refusal), answer);
            assert!(rt; nodes == [NO_RUNS; 15]);
            adds(rt, &mut line, &mut list, b"", DOWN, Ok(stations + 1));
        }
    }
    Ok(())
}

#[test]
fn closes_that_are_refused(rt: HostRuntime) -> Result<(), Fail> {
    let rows = [
        (0, 0, 0, Err(7)),
        (0, 6, 15, Err(7)),
        (5, 5, 14, Err(2)),
        (5, 4, 15, Err(2)),
        (5, 5, 15, Ok(7)),
    ];
    for (stations, records, cells, answer) in rows {
        close_is(&rt, stations, records, cells, answer)?;
    }
    Ok(())
}

// All are down but the last of the first half.
fn longest(list: &mut [Station]) -> Result<Filling<Runs>, Refusal> {
    let mut line = Filling::new(Runs);
    for place in 1..=4096usize {
        let values = if place == 2048 { JUDGED } else { DOWN };
        line.add(list, b"", values)?;
    }
    Ok(line)
}

#[test]
fn the_longest_line(rt: HostRuntime) -> Result<(), Fail> {
    let mut list = vec![in rt.alloc(); NO_STATION; 4097]?;
    let mut nodes = vec![in rt.alloc(); NO_RUNS; 8191]?;
    let mut line = longest(&mut list)?;
    adds(&rt, &mut line, &mut list, b"", DOWN, Err(3));
    let behind = list.get(4096..).ok_or("no place behind the line")?;
    assert!(rt; untouched(behind));
    let (mut line, joins) = close(line, &list, &mut nodes)?;
    assert_eq!(rt; joins, 4095);
    asks(
        &rt,
        &line,
        &list,
        &nodes,
        &[],
        (2, 4095),
        Ok((2047, 2046, 21)),
    );
    rings(&rt, &line, &list, &nodes, &[], Ok((4095, 4095, 0)));
    sets(
        &rt,
        &mut line,
        &mut list,
        &mut nodes,
        &mut [],
        2048,
        DOWN,
        Ok(12),
    );
    asks(
        &rt,
        &line,
        &list,
        &nodes,
        &[],
        (2, 4095),
        Ok((4094, 4094, 21)),
    );
    rings(&rt, &line, &list, &nodes, &[], Ok((4096, 4096, 0)));
    Ok(())
}
