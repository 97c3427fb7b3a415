// Figures of longer stretches, held against tables that tools/expected_figures.py --stretches made by going through every state.
use examples::first_decides::FirstDecides;
use kind::Kind;
use kind::figures::Figures;
use kind::runs::Runs;
use kind::stretch::{ring_of, window_of};
use kind::weights::Weights;
use refusal::Refusal;
use semiring::Semiring;
use semiring::costs::Costs;
use semiring::counts::Counts;
use semiring::residues::Residues;
use station::record::{Station, Status};
use std::process::Abort;
use std::test::Fail;

// Each status, small codes, and runs at both ends.
const MIXED: [(Status, u64, u64); 9] = [
    (Status::Down, 2, 1),
    (Status::Judged, 3, 5),
    (Status::Judged, 4, 2),
    (Status::Bypass, 6, 6),
    (Status::Judged, 1, 3),
    (Status::Up, 5, 4),
    (Status::Judged, 2, 6),
    (Status::Judged, 6, 1),
    (Status::Down, 3, 2),
];

fn mixed() -> Result<[Station; 9], Refusal> {
    let mut stations = [Station::new(b"", Status::Judged, 0, 0)?; 9];
    for (station, (status, up, down)) in stations.iter_mut().zip(MIXED) {
        *station = Station::new(b"", status, up, down)?;
    }
    Ok(stations)
}

// The calls that tests make of a stretch, each in a function without a contract, so that its contract is read once.
pub(crate) fn window<K: Kind>(kind: &K, stations: &[Station]) -> Result<Figures, Refusal> {
    window_of(kind, stations)
}

pub(crate) fn ring<K: Kind>(kind: &K, stations: &[Station]) -> Result<Figures, Refusal> {
    ring_of(kind, stations)
}

// The window's figures, and the ring's.
fn both<K: Kind>(
    rt: &impl Abort,
    kind: &K,
    stations: &[Station],
    of_window: (u64, u64),
    of_ring: (u64, u64),
) -> Result<(), Fail> {
    let Figures { first, second } = window(kind, stations)?;
    assert_eq!(rt; (first, second), of_window);
    let Figures { first, second } = ring(kind, stations)?;
    assert_eq!(rt; (first, second), of_ring);
    Ok(())
}

// A threshold, and the figures of the mixed stations as a window and as a ring.
type MixedRow = (u64, (u64, u64), (u64, u64));

fn of_mixed_stations<S: Semiring>(
    rt: &impl Abort,
    semiring: S,
    rows: [MixedRow; 4],
) -> Result<(), Fail> {
    for (k, window, ring) in rows {
        both(rt, &Weights::new(semiring, k)?, &mixed()?, window, ring)?;
    }
    Ok(())
}

#[test]
fn counts_of_mixed_stations(rt: HostRuntime) -> Result<(), Fail> {
    let rows = [
        (1, (107520, 0), (107520, 0)),
        (2, (72960, 34560), (107520, 0)),
        (3, (31520, 76000), (72960, 34560)),
        (4, (0, 107520), (33120, 74400)),
    ];
    of_mixed_stations(&rt, Counts, rows)
}

#[test]
fn residues_of_mixed_stations(rt: HostRuntime) -> Result<(), Fail> {
    let rows = [
        (1, (44, 0), (44, 0)),
        (2, (16, 28), (44, 0)),
        (3, (92, 49), (16, 28)),
        (4, (0, 44), (43, 1)),
    ];
    of_mixed_stations(&rt, Residues::try_from(97u64)?, rows)
}

#[test]
fn costs_of_mixed_stations(rt: HostRuntime) -> Result<(), Fail> {
    let rows = [
        (1, (17, 1000000000001), (17, 1000000000001)),
        (2, (17, 22), (17, 1000000000001)),
        (3, (19, 17), (17, 22)),
        (4, (1000000000001, 17), (19, 17)),
    ];
    of_mixed_stations(&rt, Costs, rows)
}

// A weight is a product in station order, and here the first factor decides.
#[test]
fn the_order_of_stations_counts(rt: HostRuntime) -> Result<(), Fail> {
    let weights = Weights::new(FirstDecides, 2)?;
    let sharp = Station::new(b"", Status::Judged, 2, 3)?;
    let mild = Station::new(b"", Status::Judged, 2, 1)?;
    both(&rt, &weights, &[sharp, mild], (3, 3), (3, 3))?;
    both(&rt, &weights, &[mild, sharp], (1, 3), (1, 3))
}

// Runs of statuses, d for down and u for up.
#[test]
fn runs_of_statuses(rt: HostRuntime) -> Result<(), Fail> {
    let rows: [(&[u8], (u64, u64), (u64, u64)); 11] = [
        (b"d", (1, 1), (1, 1)),
        (b"u", (0, 0), (0, 0)),
        (b"dd", (2, 2), (2, 2)),
        (b"ud", (1, 0), (1, 1)),
        (b"du", (1, 1), (1, 1)),
        (b"ddd", (3, 3), (3, 3)),
        (b"dud", (1, 1), (2, 2)),
        (b"uddud", (2, 0), (2, 1)),
        (b"dduddd", (3, 2), (5, 5)),
        (b"udddu", (3, 0), (3, 0)),
        (b"ddddd", (5, 5), (5, 5)),
    ];
    let up = Station::new(b"", Status::Up, 0, 0)?;
    let down = Station {
        status: Status::Down,
        ..up
    };
    for (marks, window, ring) in rows {
        let stations: Vec<Station> = marks
            .iter()
            .map(|&mark| if mark == b'd' { down } else { up })
            .collect(rt.alloc())?;
        both(&rt, &Runs, &stations, window, ring)?;
    }
    Ok(())
}
