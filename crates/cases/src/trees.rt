// Trees: what their nodes hold, what they answer in how many joins, what they refuse and what they leave alone. The nodes of small lines, from
// the stations under each, and the joins are those of tools/expected_figures.py --trees; what garbage gives is worked out by hand.
use crate::marked::{marked, station};
use crate::refused::refused;
use crate::stretches::window;
use examples::first_decides::FirstDecides;
use kind::Kind;
use kind::figures::Figures;
use kind::runs::Runs;
use kind::summary::{RunCell, RunSummary};
use kind::weights::Weights;
use refusal::Refusal;
use semiring::counts::Counts;
use station::record::Station;
use std::alloc::{AllocError, Global};
use std::process::Abort;
use std::test::Fail;
use tree::gathered::Gathered;
use tree::shape::Shape;
use tree::tree::Tree;

// What a node of runs holds: whether all are down, and the run at the front, at the end and the longest.
type Held = (bool, u32, u32, u32);

// No summary has it, and no tree writes it.
const GARBAGE: Held = (true, 9, 8, 7);

fn cell((all, first, last, longest): Held) -> RunCell {
    RunCell {
        all,
        first,
        last,
        longest,
    }
}

// A line, the joins of its filling, of each writing and of its whole, the figures of that, and what its nodes hold.
#[derive(Clone, Copy)]
struct Row<'a> {
    marks: &'a [u8],
    fill_joins: usize,
    write_joins: usize,
    whole_joins: usize,
    figures: (u64, u64),
    cells: &'a [Held],
}

const ROWS: [Row<'static>; 5] = [
    Row {
        marks: b"d",
        fill_joins: 0,
        write_joins: 0,
        whole_joins: 0,
        figures: (1, 1),
        cells: &[(true, 1, 1, 1)],
    },
    Row {
        marks: b"ud",
        fill_joins: 1,
        write_joins: 1,
        whole_joins: 0,
        figures: (1, 0),
        cells: &[(false, 0, 1, 1), (false, 0, 0, 0), (true, 1, 1, 1)],
    },
    Row {
        marks: b"dud",
        fill_joins: 3,
        write_joins: 2,
        whole_joins: 1,
        figures: (1, 1),
        cells: &[
            (false, 1, 1, 1),
            (false, 1, 0, 1),
            (true, 1, 1, 1),
            (true, 1, 1, 1),
            (false, 0, 0, 0),
            (true, 1, 1, 1),
            (true, 0, 0, 0),
        ],
    },
    Row {
        marks: b"ddud",
        fill_joins: 3,
        write_joins: 2,
        whole_joins: 0,
        figures: (2, 2),
        cells: &[
            (false, 2, 1, 2),
            (true, 2, 2, 2),
            (false, 0, 1, 1),
            (true, 1, 1, 1),
            (true, 1, 1, 1),
            (false, 0, 0, 0),
            (true, 1, 1, 1),
        ],
    },
    Row {
        marks: b"dddud",
        fill_joins: 7,
        write_joins: 3,
        whole_joins: 1,
        figures: (3, 3),
        cells: &[
            (false, 3, 1, 3),
            (false, 3, 0, 3),
            (true, 1, 1, 1),
            (true, 2, 2, 2),
            (false, 1, 0, 1),
            (true, 1, 1, 1),
            (true, 0, 0, 0),
            (true, 1, 1, 1),
            (true, 1, 1, 1),
            (true, 1, 1, 1),
            (false, 0, 0, 0),
            (true, 1, 1, 1),
            (true, 0, 0, 0),
            (true, 0, 0, 0),
            (true, 0, 0, 0),
        ],
    },
];

// The nodes from the first on hold these, and all behind them what they held.
fn hold(rt: &impl Abort, nodes: &[RunCell], cells: &[Held]) {
    for (node, expected) in nodes.iter().zip(cells) {
        assert_eq!(rt; *node, cell(*expected));
    }
    for node in nodes.iter().skip(cells.len()) {
        assert_eq!(rt; *node, cell(GARBAGE));
    }
}

// The calls on a tree that these tests make, each in a function without a contract, so that its contract is read once.
fn filled<K: Kind>(
    kind: K,
    list: &[Station],
    nodes: &mut [K::Cell],
) -> Result<(Tree<K>, usize), Refusal> {
    Tree::fill(kind, list, nodes)
}

fn written<K: Kind>(
    tree: &Tree<K>,
    nodes: &mut [K::Cell],
    place: usize,
    station: &Station,
) -> Result<usize, Refusal> {
    tree.write(nodes, place, station)
}

fn gathered<K: Kind>(
    tree: &Tree<K>,
    nodes: &[K::Cell],
    first: usize,
    last: usize,
) -> Result<Gathered<K::Element>, Refusal> {
    tree.gather(nodes, first, last)
}

fn gathered_all<K: Kind>(
    tree: &Tree<K>,
    nodes: &[K::Cell],
) -> Result<Gathered<K::Element>, Refusal> {
    tree.gather_all(nodes)
}

// The whole of the line, and each place by itself.
fn ask(rt: &impl Abort, tree: &Tree<Runs>, nodes: &[RunCell], row: Row) -> Result<(), Fail> {
    let Gathered { element, joins } = gathered_all(tree, nodes)?;
    let Figures { first, second } = Runs.window_figures(&element);
    assert_eq!(rt; (joins, (first, second)), (row.whole_joins, row.figures));
    for (place, mark) in (1usize..).zip(row.marks) {
        let Gathered { element, joins } = gathered(tree, nodes, place, place)?;
        let one = u32::from(*mark == b'd');
        assert_eq!(rt; joins, 0);
        assert_eq!(rt; Runs.to_cell(&element), cell((one == 1, one, one, one)));
    }
    Ok(())
}

// Filled at once.
fn fills(rt: &impl Abort, alloc: Global, row: Row) -> Result<(), Fail> {
    let list = marked(alloc, row.marks)?;
    let mut nodes = [cell(GARBAGE); 20];
    let (tree, joins) = filled(Runs, &list, &mut nodes)?;
    assert_eq!(rt; joins, row.fill_joins);
    hold(rt, &nodes, row.cells);
    ask(rt, &tree, &nodes, row)
}

// Written place by place, from a line that is up.
fn writes(rt: &impl Abort, alloc: Global, row: Row) -> Result<(), Fail> {
    let list = vec![in alloc; station(false); row.marks.len()]?;
    let mut nodes = [cell(GARBAGE); 20];
    let (tree, _) = filled(Runs, &list, &mut nodes)?;
    for (place, mark) in (1usize..).zip(row.marks) {
        let joins = written(&tree, &mut nodes, place, &station(*mark == b'd'))?;
        assert_eq!(rt; joins, row.write_joins);
    }
    hold(rt, &nodes, row.cells);
    Ok(())
}

#[test]
fn nodes_of_small_lines(rt: HostRuntime) -> Result<(), Fail> {
    for row in ROWS {
        fills(&rt, rt.alloc(), row)?;
        writes(&rt, rt.alloc(), row)?;
    }
    Ok(())
}

// A window of a line and its joins.
type Window = (usize, usize, usize);

const WINDOWS_OF_FIVE: [Window; 15] = [
    (1, 1, 0),
    (1, 2, 0),
    (1, 3, 1),
    (1, 4, 0),
    (1, 5, 1),
    (2, 2, 0),
    (2, 3, 1),
    (2, 4, 1),
    (2, 5, 2),
    (3, 3, 0),
    (3, 4, 0),
    (3, 5, 1),
    (4, 4, 0),
    (4, 5, 1),
    (5, 5, 0),
];

// The tree answers the figures of the stations joined left to right, and in so many joins.
fn answers<K: Kind>(
    rt: &impl Abort,
    tree: &Tree<K>,
    nodes: &[K::Cell],
    stations: &[Station],
    windows: &[Window],
) -> Result<(), Fail> {
    for (first, last, expected) in windows {
        let before = first.checked_sub(1).ok_or("no window")?;
        let stretch = stations.get(before..*last).ok_or("no window")?;
        let Gathered { element, joins } = gathered(tree, nodes, *first, *last)?;
        let figures = tree.kind.window_figures(&element);
        let expected = (window(&tree.kind, stretch)?, *expected);
        assert_eq!(rt; (figures, joins), expected, "places {first} to {last}");
    }
    Ok(())
}

fn windows_of_five<K: Kind>(rt: &impl Abort, alloc: Global, kind: K) -> Result<(), Fail> {
    let list = marked(alloc, b"uduud")?;
    let mut nodes = vec![in alloc; kind.to_cell(&kind.empty()); 15]?;
    let (tree, _) = filled(kind, &list, &mut nodes)?;
    answers(rt, &tree, &nodes, &list, &WINDOWS_OF_FIVE)?;
    let Gathered { element, joins } = gathered_all(&tree, &nodes)?;
    let figures = kind.window_figures(&element);
    assert_eq!(rt; (figures, joins), (window(&kind, &list)?, 1));
    Ok(())
}

// The last semiring's product has an order.
#[test]
fn windows_of_five_stations(rt: HostRuntime) -> Result<(), Fail> {
    windows_of_five(&rt, rt.alloc(), Runs)?;
    windows_of_five(&rt, rt.alloc(), Weights::new(Counts, 2)?)?;
    windows_of_five(&rt, rt.alloc(), Weights::new(FirstDecides, 2)?)
}

// 21 joins are the most that a window of a tree of height 12 takes.
const WINDOWS_OF_MOST: [Window; 9] = [
    (1, 1, 0),
    (4096, 4096, 0),
    (2048, 2049, 1),
    (1, 2048, 0),
    (1, 4095, 11),
    (2, 4096, 11),
    (1366, 2731, 11),
    (2, 4095, 21),
    (1, 4096, 0),
];

// Some are down, and a run of them across the middle where that is asked for.
fn long_line(alloc: Global, with_run: bool) -> Result<Vec<Station>, AllocError> {
    let mut stations = Vec::new(alloc);
    for place in 1..=4096u16 {
        let in_run = with_run && place >= 2044 && place <= 2059;
        stations.push(station(place / 7 % 3 == 0 || in_run))?;
    }
    Ok(stations)
}

#[test]
fn the_longest_line(rt: HostRuntime) -> Result<(), Fail> {
    let list = long_line(rt.alloc(), false)?;
    let mut nodes = vec![in rt.alloc(); cell(GARBAGE); 8191]?;
    let (tree, joins) = filled(Runs, &list, &mut nodes)?;
    assert_eq!(rt; joins, 4095);
    answers(&rt, &tree, &nodes, &list, &WINDOWS_OF_MOST)?;
    for place in 2044..=2059usize {
        let joins = written(&tree, &mut nodes, place, &station(true))?;
        assert_eq!(rt; joins, 12);
    }
    let list = long_line(rt.alloc(), true)?;
    answers(&rt, &tree, &nodes, &list, &WINDOWS_OF_MOST)
}

// So many stations, so many nodes, and the panel's number.
#[test]
fn lines_that_are_refused(rt: HostRuntime) -> Result<(), Fail> {
    let rows = [
        (0usize, 0usize, Some(7)),
        (0, 15, Some(7)),
        (5, 14, Some(2)),
        (5, 15, None),
        (4096, 8190, Some(2)),
        (4096, 8191, None),
        (4097, 0, Some(3)),
        (4097, 16383, Some(3)),
    ];
    for (stations, room, number) in rows {
        let list = vec![in rt.alloc(); station(true); stations]?;
        let mut nodes = vec![in rt.alloc(); cell(GARBAGE); room]?;
        assert_eq!(rt; refused(filled(Runs, &list, &mut nodes)), number);
        if number.is_some() {
            hold(&rt, &nodes, &[]);
        }
    }
    Ok(())
}

// A tree of five.
fn of_five() -> Result<Tree<Runs>, Refusal> {
    let shape = Shape::try_from(5usize)?;
    Ok(Tree { kind: Runs, shape })
}

fn gather_is(
    rt: &impl Abort,
    tree: &Tree<Runs>,
    nodes: &[RunCell],
    (first, last): (usize, usize),
    number: u8,
) {
    assert_eq!(rt; refused(gathered(tree, nodes, first, last)), Some(number));
}

fn write_is(rt: &impl Abort, tree: &Tree<Runs>, nodes: &mut [RunCell], place: usize, number: u8) {
    assert_eq!(rt;
        refused(written(tree, nodes, place, &station(true))),
        Some(number)
    );
}

// Windows and places that are not those of a tree of five, with 15 nodes; with 14, every call is refused for that first.
#[test]
fn places_that_are_refused(rt: HostRuntime) -> Result<(), Fail> {
    let tree = of_five()?;
    let mut nodes = [cell(GARBAGE); 15];
    for window in [(0usize, 1usize), (3, 2), (1, 6), (6, 6), (0, 0)] {
        gather_is(&rt, &tree, &nodes, window, 6);
        gather_is(&rt, &tree, &nodes[..14], window, 2);
    }
    gather_is(&rt, &tree, &nodes[..14], (1, 5), 2);
    assert_eq!(rt; refused(gathered_all(&tree, &nodes[..14])), Some(2));
    for place in [0usize, 6] {
        write_is(&rt, &tree, &mut nodes, place, 6);
        write_is(&rt, &tree, &mut nodes[..14], place, 2);
    }
    write_is(&rt, &tree, &mut nodes[..14], 5, 2);
    hold(&rt, &nodes, &[]);
    Ok(())
}

// An answer joins what the nodes of its blocks hold, and a writing what the children hold. Here node 9 is place 2, node 5 places 3 and 4,
// and node 12 place 5; what no summary has counts as the empty one.
#[test]
fn garbage_is_used_as_it_is(rt: HostRuntime) -> Result<(), Fail> {
    let tree = of_five()?;
    let mut nodes = [cell(GARBAGE); 20];
    nodes[8] = cell((true, 2, 2, 2));
    nodes[11] = cell((false, 1, 0, 5));
    let Gathered { element, joins } = gathered(&tree, &nodes, 2, 5)?;
    let Figures { first, second } = Runs.window_figures(&element);
    assert_eq!(rt; (first, second, joins), (5, 3, 2));
    assert_eq!(rt; written(&tree, &mut nodes, 1, &station(true))?, 3);
    let mut expected = [GARBAGE; 12];
    expected[0] = (true, 3, 3, 3);
    expected[1] = (true, 3, 3, 3);
    expected[3] = (true, 3, 3, 3);
    expected[7] = (true, 1, 1, 1);
    expected[8] = (true, 2, 2, 2);
    expected[11] = (false, 1, 0, 5);
    hold(&rt, &nodes, &expected);
    Ok(())
}
