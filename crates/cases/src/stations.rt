// Labels of every length, records that are the same, and the weights of each status.
use crate::refused::refused;
use refusal::Refusal;
use semiring::Semiring;
use semiring::costs::Costs;
use semiring::counts::Counts;
use station::record::{Station, Status};
use std::process::Abort;
use std::test::Fail;

fn made(label: &[u8]) -> Result<Station, Refusal> {
    Station::new(label, Status::Judged, 9, 1)
}

#[test]
fn labels_that_are_taken(rt: HostRuntime) -> Result<(), Fail> {
    let labels: [&[u8]; 5] = [
        b"",
        b"A",
        b" ~",
        b"Pump 7, \"north\"",
        b"abcdefghijklmnopqrstuvwx",
    ];
    for label in labels {
        let station = made(label)?;
        assert!(rt; station.label() == label);
        for byte in station.label.iter().skip(label.len()) {
            assert_eq!(rt; *byte, 0);
        }
    }
    Ok(())
}

#[test]
fn labels_that_are_refused(rt: HostRuntime) {
    let labels: [&[u8]; 5] = [
        b"abcdefghijklmnopqrstuvwxy",
        b"\x1f",
        b"a\x7f",
        b"\x80",
        b"line\n",
    ];
    for label in labels {
        assert_eq!(rt; refused(made(label)), Some(4));
    }
}

#[test]
fn what_stands_behind_a_label_is_no_part_of_it(rt: HostRuntime) -> Result<(), Fail> {
    let a = made(b"North")?;
    let mut b = a;
    b.label[7] = 65;
    assert!(rt; a == b);
    b.label[5] = 65;
    assert!(rt; a != b);
    let mut full = made(b"")?;
    full.label = [0x41; 24];
    assert!(rt; full.label().len() == 24);
    Ok(())
}

#[test]
fn records_differ_by_label_status_and_codes(rt: HostRuntime) -> Result<(), Fail> {
    let a = made(b"North")?;
    let rows: [(&[u8], Status, u64, u64, bool); 5] = [
        (b"North", Status::Judged, 9, 1, true),
        (b"Nort", Status::Judged, 9, 1, false),
        (b"North", Status::Up, 9, 1, false),
        (b"North", Status::Judged, 8, 1, false),
        (b"North", Status::Judged, 9, 2, false),
    ];
    for (label, status, up, down, is_same) in rows {
        let b = Station::new(label, status, up, down)?;
        assert_eq!(rt; a == b, is_same);
    }
    Ok(())
}

// The up weight and the down weight.
fn weighs<S: Semiring>(rt: &impl Abort, semiring: &S, station: &Station, weights: (u64, u64)) {
    let (up, down) = weights;
    assert_eq!(rt; station.up_weight(semiring), up);
    assert_eq!(rt; station.down_weight(semiring), down);
}

#[test]
fn weights_by_status(rt: HostRuntime) -> Result<(), Fail> {
    let none = 1_000_000_000_001;
    let rows = [
        (Status::Judged, (9, 4), (9, 4)),
        (Status::Down, (0, 4), (none, 4)),
        (Status::Up, (9, 0), (9, none)),
        (Status::Bypass, (1, 0), (0, none)),
    ];
    for (status, counts, costs) in rows {
        let station = Station::new(b"", status, 9, 4)?;
        weighs(&rt, &Counts, &station, counts);
        weighs(&rt, &Costs, &station, costs);
    }
    Ok(())
}

#[test]
fn words_of_statuses(rt: HostRuntime) {
    let words = [
        (Status::Judged, "judged"),
        (Status::Down, "down"),
        (Status::Up, "up"),
        (Status::Bypass, "bypass"),
    ];
    for (status, word) in words {
        assert!(rt; status.word() == word);
    }
}
