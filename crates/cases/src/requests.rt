// Requests played on a line: the rulebook's session, requests that the line, as it stands, does not take, and trials. What they answer is
// worked out by hand from the stations.
use crate::calls::closed;
use crate::lines::{DOWN, JUDGED, NO_ENTRY, NO_MATRIX, NO_RUNS, NO_STATION, cell, untouched};
use crate::refused::refused;
use history::shipped::{play_runs, play_weights};
use history::step::Line;
use kind::Kind;
use kind::figures::Figures;
use kind::runs::Runs;
use kind::weights::Weights;
use line::reply::{CellAnswer, Reply};
use line::request::Request;
use line::values::{Entry, Values};
use refusal::Refusal;
use semiring::counts::Counts;
use station::record::{Station, Status};
use std::process::Abort;
use std::test::Fail;

fn add(label: &[u8]) -> Request<'_> {
    Request::Add {
        label,
        values: JUDGED,
    }
}

fn set(place: usize, values: Values) -> Request<'static> {
    Request::Set { place, values }
}

fn ask(first: usize, last: usize) -> Request<'static> {
    Request::Ask { first, last }
}

fn told<C>(cell: C, first: u64, second: u64, joins: usize) -> Reply<C> {
    Reply::Told(CellAnswer {
        cell,
        figures: Figures { first, second },
        joins,
    })
}

// A reply without its cell, since matrices have no ==.
fn without_cell<C: Copy>(reply: &Reply<C>) -> Reply<()> {
    match *reply {
        Reply::Done(number) => Reply::Done(number),
        Reply::Told(CellAnswer { figures, joins, .. }) => told(
            (),
            figures.first,
            figures.second,
            joins,
        ),
        Reply::Refused(refusal) => Reply::Refused(refusal),
        Reply::OutOfTurn => Reply::OutOfTurn,
    }
}

// The replies are these, and no more.
fn are<C: Copy>(rt: &impl Abort, replies: &[Reply<C>], expected: &[Reply<()>]) {
    assert_eq!(rt; replies.len(), expected.len());
    for (reply, expected) in replies.iter().zip(expected) {
        assert_eq!(rt; without_cell(reply), *expected);
    }
}

// The same session with two requests out of turn, and a place more for replies.
#[test]
fn the_example_session_as_requests(rt: HostRuntime) -> Result<(), Fail> {
    let requests = [
        Request::Try,
        add(b"A"),
        add(b"B"),
        add(b"C"),
        Request::Close,
        add(b"D"),
        ask(1, 3),
        Request::Ring,
        Request::Try,
        set(2, DOWN),
        ask(1, 3),
        Request::Back,
        ask(1, 3),
        ask(3, 2),
    ];
    let expected = [
        Reply::OutOfTurn,
        Reply::Done(1),
        Reply::Done(2),
        Reply::Done(3),
        Reply::Done(3),
        Reply::OutOfTurn,
        told((), 19, 981, 1),
        told((), 28, 972, 1),
        Reply::Done(0),
        Reply::Done(2),
        told((), 19, 81, 1),
        Reply::Done(1),
        told((), 19, 981, 1),
        Reply::Refused(Refusal::OutsideLine),
        Reply::Done(77),
    ];
    let mut list = [NO_STATION; 4];
    let mut nodes = [NO_MATRIX; 7];
    let mut journal = [NO_ENTRY; 1];
    let mut replies = [Reply::Done(77); 15];
    let line = play_weights(
        Weights::new(Counts, 2)?,
        &mut list,
        &mut nodes,
        &mut journal,
        &requests,
        &mut replies,
    )?;
    assert!(rt; matches!(line, Line::Standing(_)));
    are(&rt, &replies, &expected);
    assert!(rt; untouched(&list[3..]));
    Ok(())
}

// Each request that a filling line does not take, and then each that a standing one does not.
const OUT_OF_TURN: [Request<'static>; 13] = [
    Request::Set {
        place: 1,
        values: DOWN,
    },
    Request::Try,
    Request::Keep,
    Request::Back,
    Request::Ask { first: 1, last: 1 },
    Request::Ring,
    Request::Close,
    Request::Add {
        label: b"A",
        values: JUDGED,
    },
    Request::Close,
    Request::Add {
        label: b"B",
        values: JUDGED,
    },
    Request::Close,
    Request::Keep,
    Request::Ring,
];

#[test]
fn requests_out_of_turn(rt: HostRuntime) -> Result<(), Fail> {
    let one = cell(false, 0, 0, 0);
    let mut replies = [Reply::Done(77); 13];
    let mut list = [NO_STATION; 2];
    let mut nodes = [NO_RUNS; 2];
    let _line = play_runs(&mut list, &mut nodes, &mut [], &OUT_OF_TURN, &mut replies)?;
    let expected = [
        Reply::OutOfTurn,
        Reply::OutOfTurn,
        Reply::OutOfTurn,
        Reply::OutOfTurn,
        Reply::OutOfTurn,
        Reply::OutOfTurn,
        Reply::Refused(Refusal::NoStation),
        Reply::Done(1),
        Reply::Done(0),
        Reply::OutOfTurn,
        Reply::OutOfTurn,
        Reply::Refused(Refusal::NoTrial),
        told(one, 0, 0, 0),
    ];
    assert!(rt; replies == expected);
    assert!(rt; nodes == [one, NO_RUNS]);
    Ok(())
}

#[test]
fn a_place_too_few_for_the_replies(rt: HostRuntime) {
    let mut list = [NO_STATION; 2];
    let mut nodes = [NO_RUNS; 2];
    let mut journal = [NO_ENTRY; 1];
    let mut replies = [Reply::Done(77); 12];
    let line = play_runs(
        &mut list,
        &mut nodes,
        &mut journal,
        &OUT_OF_TURN,
        &mut replies,
    );
    assert_eq!(rt; refused(line), Some(2));
    assert!(rt; untouched(&list));
    assert!(rt; nodes == [NO_RUNS; 2] && journal == [NO_ENTRY; 1]);
    assert!(rt; replies == [Reply::Done(77); 12]);
}

// Plays requests on from a line as it stands, each of which gets the reply beside it.
fn goes_on<K: Kind>(
    rt: &impl Abort,
    line: Line<K>,
    list: &mut [Station],
    nodes: &mut [K::Cell],
    journal: &mut [Entry],
    requests: &[(Request, Reply<()>)],
) -> Line<K> {
    let mut line = line;
    for (request, expected) in requests {
        let (next, reply) = line.step(list, nodes, journal, request);
        line = next;
        assert_eq!(rt; without_cell(&reply), *expected);
    }
    line
}

const JUDGED_LATER: Values = Values {
    status: Status::Judged,
    up: 4,
    down: 6,
};

// At the first five places stand these.
fn stand(rt: &impl Abort, list: &[Station], stations: [Values; 5]) {
    for (station, values) in list.iter().zip(stations) {
        assert_eq!(rt; Values::of(station), values);
    }
}

fn entry(place: usize, values: Values) -> Entry {
    Entry { place, values }
}

// One station set twice: back puts the first values there again, and keep leaves the last. The second trial begins with the entries of
// the first in the journal.
#[test]
fn a_trial_taken_back_and_one_kept(rt: HostRuntime) -> Result<(), Fail> {
    let stations = [DOWN, DOWN, JUDGED, DOWN, DOWN];
    let mut list = [NO_STATION; 6];
    let mut nodes = [NO_RUNS; 16];
    let mut journal = [NO_ENTRY; 4];
    let line = Line::Standing(closed(Runs, &mut list, &mut nodes, &stations)?);
    let before = nodes;
    let trial = [
        (ask(1, 5), told((), 2, 2, 1)),
        (Request::Try, Reply::Done(0)),
        (set(3, DOWN), Reply::Done(3)),
        (ask(1, 5), told((), 5, 5, 1)),
        (set(3, JUDGED_LATER), Reply::Done(3)),
        (set(1, JUDGED), Reply::Done(3)),
        (ask(1, 5), told((), 2, 0, 1)),
    ];
    let back = [(Request::Back, Reply::Done(3))];
    let keep = [
        (Request::Keep, Reply::Done(3)),
        (ask(1, 5), told((), 2, 0, 1)),
    ];
    let line = goes_on(&rt, line, &mut list, &mut nodes, &mut journal, &trial);
    assert!(rt; journal == [entry(3, JUDGED), entry(3, DOWN), entry(1, DOWN), NO_ENTRY]);
    let line = goes_on(&rt, line, &mut list, &mut nodes, &mut journal, &back);
    stand(&rt, &list, stations);
    assert!(rt; nodes == before);
    let line = goes_on(&rt, line, &mut list, &mut nodes, &mut journal, &trial);
    let _line = goes_on(&rt, line, &mut list, &mut nodes, &mut journal, &keep);
    stand(&rt, &list, [JUDGED, DOWN, JUDGED_LATER, DOWN, DOWN]);
    assert!(rt; untouched(&list[5..]) && nodes[15] == NO_RUNS);
    Ok(())
}
