// Station lists and answers as text, in spaces of every length, and a list that is written and read back.
use refusal::Refusal;
use station::record::{Station, Status};
use std::test::Fail;
use text::answer::{Answer, Figures};
use text::fault::{RecordFault, TextFault};
use text::record::read_record;
use text::station_text::write_stations;

// Whether a space still has the sevens from the place on.
fn is_left_from(room: &[u8], place: usize) -> bool {
    for byte in room.iter().skip(place) {
        if *byte != 7 {
            return false;
        }
    }
    true
}

// Whether an answer tells the text's length, and leaves a space of sevens with the text where it fits and else as it was.
fn told(answer: &Answer, text: &[u8], room: &mut [u8]) -> bool {
    let fits = text.len() <= room.len();
    room.fill(7);
    let needed = answer.write(room);
    let written = if fits { text } else { &[] };
    needed == text.len() && room.starts_with(written) && is_left_from(room, written.len())
}

fn refused(fault: TextFault, record_number: usize, start: usize) -> Answer {
    Answer::No(fault.in_record(record_number, start))
}

#[test]
fn answers_as_text(rt: HostRuntime) {
    let figures = Figures {
        first: 19,
        second: 981,
        joins: 1,
    };
    let none = Figures {
        first: 1_000_000_000_001,
        second: 0,
        joins: 21,
    };
    let line = RecordFault::from(Refusal::OutsideLine);
    let kind = RecordFault::from(Refusal::OutOfRange);
    let rows: [(Answer, &[u8]); 10] = [
        (Answer::Done(0), b"ok,0\r\n"),
        (Answer::Done(u64::MAX), b"ok,18446744073709551615\r\n"),
        (Answer::Ask(figures), b"ask,19,981,1\r\n"),
        (Answer::Ring(none), b"ring,1000000000001,0,21\r\n"),
        (
            refused(TextFault::from(line), 13, 138),
            b"no,6,3,13,139\r\n",
        ),
        (refused(TextFault::from(kind), 1, 0), b"no,1,2,1,1\r\n"),
        (
            refused(TextFault::NotWellFormed(9), 2, 6),
            b"no,20,1,2,10\r\n",
        ),
        (
            refused(TextFault::Record(RecordFault::Unknown), 2, 6),
            b"no,21,2,2,7\r\n",
        ),
        (
            refused(TextFault::Record(RecordFault::NotANumber(19)), 2, 6),
            b"no,22,2,2,20\r\n",
        ),
        (
            refused(TextFault::Record(RecordFault::NotAWord(12)), 2, 6),
            b"no,23,2,2,13\r\n",
        ),
    ];
    for (answer, text) in &rows {
        assert!(rt; told(answer, *text, &mut [0; 40]));
    }
}

#[test]
fn an_answer_is_written_where_it_fits(rt: HostRuntime) {
    let done = Answer::Done(4096);
    assert!(rt; told(&done, b"ok,4096\r\n", &mut [0; 10]));
    assert!(rt; told(&done, b"ok,4096\r\n", &mut [0; 9]));
    assert!(rt; told(&done, b"ok,4096\r\n", &mut [0; 8]));
    assert!(rt; told(&done, b"ok,4096\r\n", &mut []));
}

// Three stations, with garbage behind the label of the first.
fn three() -> Result<[Station; 3], Refusal> {
    let mut first = Station::new(b"A", Status::Judged, 9, 1)?;
    first.label[5] = b'"';
    first.label[7] = 0x80;
    Ok([
        first,
        Station::new(b"Pump 7, \"north\"", Status::Down, 0, u64::MAX)?,
        Station::new(b"", Status::Bypass, 10, 0)?,
    ])
}

const THREE: &[u8] =
    b"add,A,judged,9,1\r\nadd,\"Pump 7, \"\"north\"\"\",down,0,18446744073709551615\r\nadd,,bypass,10,0\r\n";

#[test]
fn stations_as_text(rt: HostRuntime) -> Result<(), Fail> {
    let stations = three()?;
    let mut room = [7; 120];
    assert!(rt; write_stations(&stations, &mut room) == THREE.len());
    assert!(rt; room.starts_with(THREE) && room[THREE.len()] == 7);
    assert!(rt; write_stations(&[], &mut room) == 0);
    assert!(rt; room.starts_with(THREE));
    Ok(())
}

#[test]
fn stations_are_written_where_they_fit(rt: HostRuntime) -> Result<(), Fail> {
    let stations = three()?;
    let mut room = [7; 89];
    assert!(rt; THREE.len() == 89);
    assert!(rt; write_stations(&stations, &mut room[..88]) == 89);
    assert!(rt; room == [7; 89]);
    assert!(rt; write_stations(&stations, &mut room) == 89);
    assert!(rt; room.as_slice() == THREE);
    Ok(())
}

// The next station of a text, if the record at the place makes one.
fn station_at(text: &[u8], at: usize) -> Option<(Station, usize)> {
    let record = read_record(text, at)?.ok()?;
    let station = record.station(text).ok()?;
    Some((station, record.next))
}

#[test]
fn a_written_list_reads_back(rt: HostRuntime) -> Result<(), Fail> {
    let stations = three()?;
    let mut at = 0;
    for station in &stations {
        let found = station_at(THREE, at);
        assert!(rt; found.is_some());
        if let Some((read, next)) = found {
            assert!(rt; read == *station);
            at = next;
        }
    }
    assert!(rt; read_record(THREE, at).is_none());
    Ok(())
}
