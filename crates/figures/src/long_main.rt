// A long main of 300 stations, whose tree answers for stretches of it. What it answers is held against the stations joined left to right.
ghost use Rattle.std.specs.Prelude.{◌≡◌, OnOk};

use crate::asked;
use crate::trouble::Trouble;
use examples::row::Answer;
use kind::Kind;
use kind::figures::Figures;
use kind::runs::Runs;
use kind::stretch::{ring_of, window_of};
use kind::weights::Weights;
use refusal::Refusal;
use semiring::costs::Costs;
use semiring::residues::Residues;
use station::record::{Station, Status};
use std::alloc::{AllocError, Global};
use tree::shape::Shape;
use tree::tree::Tree;

const STATIONS: u16 = 300;

// Neighbours down in a row that cut the supply.
const IN_A_ROW: u64 = 4;

// One place, all but the ends, two stretches, and the block of places 129 to 256 with and without the place before it.
const WINDOWS: [(usize, usize); 6] = [
    (1, 1),
    (2, 299),
    (25, 122),
    (57, 203),
    (128, 256),
    (129, 256),
];

fn status(place: u16) -> Status {
    match (place / 3 % 8, place % 13, place % 17) {
        // three in a row, or the first two, so that few more break the main
        (0, _, _) => Status::Down,
        (_, 0, _) => Status::Up,
        (_, _, 0) => Status::Bypass,
        _ => Status::Judged,
    }
}

// The station at a place, by a rule that any program can repeat. The codes are what it takes to run it and to put it out.
fn station(place: u16) -> Station {
    let p = u64::from(place);
    Station {
        label: [0; 24],
        status: status(place),
        up: p % 5 + 1,
        down: p * 37 % 90 + 10,
    }
}

fn stations(alloc: Global) -> Result<Vec<Station>, AllocError> {
    let mut list = Vec::new(alloc);
    for place in 1..=STATIONS {
        list.push(station(place))?;
    }
    Ok(list)
}

// What stands at a place later, where that is another station. With the last two down, the ring is broken at the seam, and no stretch is.
fn changed(place: usize, before: Station) -> Option<Station> {
    match place {
        28 | 299 | 300 => Some(Station {
            status: Status::Down,
            ..before
        }),
        121 => Some(Station {
            status: Status::Up,
            ..before
        }),
        200 => Some(Station { down: 1, ..before }),
        _ => None,
    }
}

// The figures that the tree answers, beside those of the same stations joined left to right, which they must be.
fn compare(rt: &HostRuntime, tree: Answer, plain: Answer) -> Result<(), Trouble>
    ensures { OnOk result (tree.figures ≡ plain.figures) }
{
    let Figures { first, second } = tree.figures;
    let joins = tree.joins;
    rt.print(format_args!("tree: {first}, {second}, joins {joins}; "))?;
    let Figures { first, second } = plain.figures;
    let joins = plain.joins;
    println!(rt; "plain: {first}, {second}, joins {joins}")?;
    if tree.figures != plain.figures {
        return Err(Trouble::NotAsJoined);
    }
    Ok(())
}

// What stations joined left to right give, in a join for each: the first is joined to the empty element.
fn plain(figures: Figures, list: &[Station]) -> Answer {
    Answer {
        figures,
        joins: list.len(),
    }
}

// The stations of a window, where it is one of the list's.
fn window(list: &[Station], first: usize, last: usize) -> Option<&[Station]> {
    let before = first.checked_sub(1)?;
    list.get(before..last)
}

fn show_windows<K: Kind>(
    rt: &HostRuntime,
    tree: &Tree<K>,
    nodes: &[K::Cell],
    list: &[Station],
) -> Result<(), Trouble> {
    for (first, last) in WINDOWS {
        let stretch = window(list, first, last).ok_or(Refusal::OutsideLine)?;
        let answer = asked::window(tree, nodes, first, last)?;
        rt.print(format_args!("  places {first} to {last}: "))?;
        compare(rt, answer, plain(window_of(&tree.kind, stretch)?, stretch))?;
    }
    Ok(())
}

fn show_whole<K: Kind>(
    rt: &HostRuntime,
    tree: &Tree<K>,
    nodes: &[K::Cell],
    list: &[Station],
) -> Result<(), Trouble> {
    let answer = asked::whole(tree, nodes)?;
    rt.print("  all places: ")?;
    compare(rt, answer, plain(window_of(&tree.kind, list)?, list))?;
    let answer = asked::ring(tree, nodes)?;
    rt.print("  ring: ")?;
    compare(rt, answer, plain(ring_of(&tree.kind, list)?, list))
}

// Changes some stations, in the list and in the tree.
fn change<K: Kind>(
    rt: &HostRuntime,
    tree: &Tree<K>,
    nodes: &mut [K::Cell],
    list: &mut [Station],
) -> Result<(), Trouble> {
    for (place, station) in (1usize..).zip(list.iter_mut()) {
        if let Some(now) = changed(place, *station) {
            *station = now;
            let joins = tree.write(nodes, place, station)?;
            println!(rt; "  place {place} changed, joins {joins}")?;
        }
    }
    Ok(())
}

fn show_kind<K: Kind>(rt: &HostRuntime, kind: K, name: &str) -> Result<(), Trouble> {
    let mut list = stations(rt.alloc())?;
    let empty = kind.to_cell(&kind.empty());
    let room = Shape::try_from(list.len())?.nodes();
    let mut nodes = vec![in rt.alloc(); empty; room]?;
    let (tree, joins) = asked::filled(kind, &list, &mut nodes)?;
    println!(rt; "{name}: filled, joins {joins}")?;
    show_windows(rt, &tree, &nodes, &list)?;
    show_whole(rt, &tree, &nodes, &list)?;
    change(rt, &tree, &mut nodes, &mut list)?;
    show_windows(rt, &tree, &nodes, &list)?;
    show_whole(rt, &tree, &nodes, &list)
}

pub(crate) fn show(rt: &HostRuntime) -> Result<(), Trouble> {
    let k = IN_A_ROW;
    println!(rt; "Long main of {STATIONS} stations, broken by {k} neighbours down in a row")?;
    show_kind(rt, Weights::new(Costs, k)?, "costs")?;
    let residues = Residues::try_from(1_000_000_007u64)?;
    show_kind(rt, Weights::new(residues, k)?, "residues by 1000000007")?;
    show_kind(rt, Runs, "runs")
}
