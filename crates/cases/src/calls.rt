// The calls on a line that the tests make, and what they should answer. Each stands in a function without a contract, so that a test of
// ten calls is proved without ten contracts.
use kind::Kind;
use line::lines::{Filling, Standing};
use line::reply::Answer;
use line::values::{Entry, Values};
use refusal::Refusal;
use station::record::Station;
use std::process::Abort;

// Figures and joins, or the panel's number.
pub(crate) type Says = Result<(u64, u64, usize), u8>;

// The answer to a question says this.
fn says<E: Copy>(rt: &impl Abort, answer: Result<Answer<E>, Refusal>, expected: Says) {
    let said = match answer {
        Ok(Answer { figures, joins, .. }) => Ok((figures.first, figures.second, joins)),
        Err(refusal) => Err(u8::from(refusal)),
    };
    assert_eq!(rt; said, expected);
}

// Another call answers this number, or is refused with the panel's.
pub(crate) fn answers(
    rt: &impl Abort,
    answer: Result<usize, Refusal>,
    expected: Result<usize, u8>,
) {
    let said = match answer {
        Ok(number) => Ok(number),
        Err(refusal) => Err(u8::from(refusal)),
    };
    assert_eq!(rt; said, expected);
}

pub(crate) fn adds<K: Kind>(
    rt: &impl Abort,
    line: &mut Filling<K>,
    list: &mut [Station],
    label: &[u8],
    values: Values,
    expected: Result<usize, u8>,
) {
    answers(rt, line.add(list, label, values), expected);
}

// The line that a close answers, with its joins. A filling line that is given back is let go.
pub(crate) fn close<K: Kind>(
    line: Filling<K>,
    list: &[Station],
    nodes: &mut [K::Cell],
) -> Result<(Standing<K>, usize), Refusal> {
    match line.close(list, nodes) {
        Ok(closed) => Ok(closed),
        Err((_, refusal)) => Err(refusal),
    }
}

// A line closed over these stations.
pub(crate) fn closed<K: Kind>(
    kind: K,
    list: &mut [Station],
    nodes: &mut [K::Cell],
    stations: &[Values],
) -> Result<Standing<K>, Refusal> {
    let mut line = Filling::new(kind);
    for values in stations {
        line.add(list, b"", *values)?;
    }
    Ok(close(line, list, nodes)?.0)
}

pub(crate) fn sets<K: Kind>(
    rt: &impl Abort,
    line: &mut Standing<K>,
    list: &mut [Station],
    nodes: &mut [K::Cell],
    journal: &mut [Entry],
    place: usize,
    values: Values,
    expected: Result<usize, u8>,
) {
    answers(rt, line.set(list, nodes, journal, place, values), expected);
}

pub(crate) fn tries<K: Kind>(rt: &impl Abort, line: &mut Standing<K>, expected: Result<usize, u8>) {
    answers(rt, line.open_trial(), expected);
}

pub(crate) fn keeps<K: Kind>(rt: &impl Abort, line: &mut Standing<K>, expected: Result<usize, u8>) {
    answers(rt, line.keep(), expected);
}

pub(crate) fn backs<K: Kind>(
    rt: &impl Abort,
    line: &mut Standing<K>,
    list: &mut [Station],
    nodes: &mut [K::Cell],
    journal: &[Entry],
    expected: Result<usize, u8>,
) {
    answers(rt, line.back(list, nodes, journal), expected);
}

pub(crate) fn asks<K: Kind>(
    rt: &impl Abort,
    line: &Standing<K>,
    list: &[Station],
    nodes: &[K::Cell],
    journal: &[Entry],
    (first, last): (usize, usize),
    expected: Says,
) {
    says(rt, line.ask(list, nodes, journal, first, last), expected);
}

pub(crate) fn rings<K: Kind>(
    rt: &impl Abort,
    line: &Standing<K>,
    list: &[Station],
    nodes: &[K::Cell],
    journal: &[Entry],
    expected: Says,
) {
    says(rt, line.ring(list, nodes, journal), expected);
}
