// What kinds take and refuse, run cells that no summary has, and the order of a joining.
use crate::lines::cell;
use crate::refused::refused;
use crate::stretches::{ring, window};
use kind::Kind;
use kind::figures::Figures;
use kind::runs::Runs;
use kind::weights::Weights;
use semiring::counts::Counts;
use semiring::residues::Residues;
use station::record::{Station, Status};
use std::test::Fail;

fn figures(first: u64, second: u64) -> Figures {
    Figures { first, second }
}

// A code that is no member is not taken, whatever the status makes of it.
#[test]
fn a_code_equal_to_the_modulus(rt: HostRuntime) -> Result<(), Fail> {
    let weights = Weights::new(Residues::try_from(7u64)?, 2)?;
    for status in [Status::Judged, Status::Down, Status::Up, Status::Bypass] {
        let member = Station::new(b"", status, 0, 6)?;
        let other = Station::new(b"", status, 0, 7)?;
        assert!(rt; weights.takes(&member));
        assert!(rt; !weights.takes(&other));
        assert!(rt; Runs.takes(&other));
        assert_eq!(rt; refused(window(&weights, &[member, other])), Some(5));
        assert_eq!(rt; refused(ring(&weights, &[other])), Some(5));
    }
    Ok(())
}

#[test]
fn rings_that_are_too_short(rt: HostRuntime) -> Result<(), Fail> {
    let one = Station::new(b"", Status::Judged, 1, 1)?;
    let five = [one; 5];
    for (k, n) in [(1u64, 0usize), (2, 1), (3, 2), (4, 3)] {
        let weights = Weights::new(Counts, k)?;
        assert!(rt; n < 5);
        assert_eq!(rt; refused(ring(&weights, &five[0..n])), Some(8));
        assert_eq!(rt; refused(ring(&weights, &five[0..n + 1])), None);
    }
    assert_eq!(rt; refused(ring(&Runs, &five[0..0])), Some(8));
    assert_eq!(rt; refused(ring(&Runs, &five[0..1])), None);
    Ok(())
}

#[test]
fn thresholds_outside(rt: HostRuntime) {
    for (k, shortest) in [(0, Err(1)), (1, Ok(1)), (4, Ok(4)), (5, Err(1))] {
        let ring = match Weights::new(Counts, k) {
            Ok(weights) => Ok(weights.shortest_ring()),
            Err(refusal) => Err(u8::from(refusal)),
        };
        assert_eq!(rt; ring, shortest);
    }
}

#[test]
fn no_station(rt: HostRuntime) -> Result<(), Fail> {
    let weights = Weights::new(Counts, 2)?;
    assert_eq!(rt; window(&weights, &[])?, figures(0, 1));
    assert_eq!(rt; window(&Runs, &[])?, figures(0, 0));
    Ok(())
}

// A cell that breaks what every summary keeps stands for the empty one.
#[test]
fn run_cells(rt: HostRuntime) {
    let rows = [
        (cell(false, 1, 2, 3), figures(3, 1)),
        (cell(true, 3, 3, 3), figures(3, 3)),
        (cell(false, 3, 3, 3), figures(3, 3)),
        (cell(false, 4, 2, 3), figures(0, 0)),
        (cell(false, 1, 4, 3), figures(0, 0)),
        (cell(true, 2, 3, 3), figures(0, 0)),
        (cell(true, 3, 2, 3), figures(0, 0)),
    ];
    for (cell, expected) in rows {
        let summary = Runs.from_cell(&cell);
        assert_eq!(rt; Runs.window_figures(&summary), expected);
        let again = Runs.from_cell(&Runs.to_cell(&summary));
        assert_eq!(rt; Runs.window_figures(&again), expected);
    }
}

// Counts of runs stop at 4,294,967,295.
#[test]
fn runs_stop(rt: HostRuntime) {
    let stopped = figures(4_294_967_295, 4_294_967_295);
    let most = Runs.from_cell(&cell(true, 4_294_967_295, 4_294_967_295, 4_294_967_295));
    let joined = Runs.join(&most, &most);
    assert_eq!(rt; Runs.window_figures(&joined), stopped);
    let ends = Runs.from_cell(&cell(false, 4_000_000_000, 4_000_000_000, 4_000_000_000));
    assert_eq!(rt; Runs.ring_figures(&ends), stopped);
}

// The left stretch comes first.
#[test]
fn joining_has_an_order(rt: HostRuntime) -> Result<(), Fail> {
    let down = Runs.single(&Station::new(b"", Status::Down, 0, 0)?);
    let up = Runs.single(&Station::new(b"", Status::Up, 0, 0)?);
    for (left, right, second) in [(&down, &up, 1), (&up, &down, 0)] {
        let joined = Runs.join(left, right);
        assert_eq!(rt; Runs.window_figures(&joined), figures(1, second));
    }
    Ok(())
}
